//! What is wrong in a text, in words for people: those that the errors of the readers display.
ghost use Rattle.movaliren_c.specs.Words.{IsSaid};

use crate::answers::reason::answer_number;
use crate::answers::room::copy_text;
use crate::described::syntax::ParseError;
use crate::read::place::ReadError;
use arrayvec::ArrayString;
use std::fmt::{Display, Write};
use time_below::Weekday;
use time_describe::{BracketReason, InvalidDescription, StrftimeReason};
use time_read::{ComponentName, Expected, MailPart, Mismatch, NotRead, Profile};

/// The most bytes of the words.
const MOST: usize = 128;

/// Where a text could not be read, and what could have come there, in words.
#[unsafe(no_mangle)]
pub extern "C" fn movaliren_read_strerror_r(error: &ReadError, buffer: &mut [u8]) -> isize
    ensures { IsSaid result buffer.old buffer.new }
{
    let expected = match mismatch_of(error) {
        Some(mismatch) => Expected::Plan(mismatch),
        None => expected_of(error),
    };
    let fault = NotRead {
        at: error.at,
        expected,
        is_second_60: error.is_second_60 == 1,
    };
    say(&fault, buffer)
}

/// Why a text is no description, and at which byte, in words.
#[unsafe(no_mangle)]
pub extern "C" fn movaliren_parse_strerror_r(error: &ParseError, buffer: &mut [u8]) -> isize
    ensures { IsSaid result buffer.old buffer.new }
{
    let index = error.at;
    if let Some(reason) = bracket_reason(error.kind) {
        return say(&InvalidDescription::Invalid { reason, index }, buffer);
    }
    if let Some(reason) = strftime_reason(error) {
        return say(&InvalidDescription::Invalid { reason, index }, buffer);
    }
    let mut words = ArrayString::<MOST>::new();
    let _fits = match error.items {
        0 => write!(words, "the description has more than {index} bytes"),
        items => write!(words, "the description has {items} items"),
    };
    put(&words, buffer)
}

/// Writes what a fault displays.
fn say<D: Display>(fault: &D, buffer: &mut [u8]) -> isize
    ensures { IsSaid result buffer.old buffer.new }
{
    let mut words = ArrayString::<MOST>::new();
    let _fits = write!(words, "{fault}");
    put(&words, buffer)
}

/// Writes words.
fn put(words: &ArrayString<MOST>, buffer: &mut [u8]) -> isize
    ensures { IsSaid result buffer.old buffer.new }
{
    answer_number(copy_text(words.as_str().as_bytes(), buffer))
}

/// What does not fit a description in a text, unless a reader of another format says it.
fn mismatch_of(error: &ReadError) -> Option<Mismatch> {
    match error.expected {
        24 => Some(Mismatch::Component(component_numbered(error.first)?)),
        25 => Some(Mismatch::NoValue(component_numbered(error.first)?)),
        26 => Some(Mismatch::Otherwise),
        _ => None,
    }
}

/// The name of a component, by its number.
fn component_numbered(number: u8) -> Option<ComponentName> {
    match number {
        0 => Some(ComponentName::Day),
        1 => Some(ComponentName::MonthShort),
        2 => Some(ComponentName::MonthLong),
        3 => Some(ComponentName::MonthNumerical),
        4 => Some(ComponentName::Ordinal),
        5 => Some(ComponentName::WeekdayShort),
        6 => Some(ComponentName::WeekdayLong),
        7 => Some(ComponentName::WeekdaySunday),
        8 => Some(ComponentName::WeekdayMonday),
        9 => Some(ComponentName::WeekNumberIso),
        10 => Some(ComponentName::WeekNumberSunday),
        11 => Some(ComponentName::WeekNumberMonday),
        12 => Some(ComponentName::CalendarYearFull),
        13 => Some(ComponentName::CalendarYearCentury),
        14 => Some(ComponentName::CalendarYearLastTwo),
        15 => Some(ComponentName::IsoYearFull),
        16 => Some(ComponentName::IsoYearCentury),
        17 => Some(ComponentName::IsoYearLastTwo),
        18 => Some(ComponentName::Hour12),
        19 => Some(ComponentName::Hour24),
        20 => Some(ComponentName::Minute),
        21 => Some(ComponentName::Period),
        22 => Some(ComponentName::Second),
        23 => Some(ComponentName::Subsecond),
        24 => Some(ComponentName::OffsetHour),
        25 => Some(ComponentName::OffsetMinute),
        26 => Some(ComponentName::OffsetSecond),
        27 => Some(ComponentName::UnixTimestampSecond),
        28 => Some(ComponentName::UnixTimestampMillisecond),
        29 => Some(ComponentName::End),
        30 => Some(ComponentName::Ignore),
        _ => None,
    }
}

/// What could have come in a text, by its numbers.
fn expected_of(error: &ReadError) -> Expected {
    let profile = match error.is_lenient {
        0 => Profile::Strict,
        _ => Profile::Lenient,
    };
    match error.expected {
        1 => Expected::Digit(error.first, error.last),
        2 => Expected::Byte(error.first),
        3 => Expected::Letter(error.first, profile),
        4 => Expected::Offset(profile),
        5 => Expected::PointOrOffset(profile),
        6 => Expected::DigitOrOffset(profile),
        8 => Expected::Sign,
        12 => Expected::Mail(MailPart::Weekday(Weekday::Sunday.nth_next(error.first))),
        number => match part_numbered(number) {
            Some(part) => Expected::Mail(part),
            None => Expected::End,
        },
    }
}

/// A part of a text of mail that could have come, by its number.
fn part_numbered(number: u8) -> Option<MailPart> {
    match number {
        13 => Some(MailPart::WeekdayOrDay),
        14 => Some(MailPart::Day),
        15 => Some(MailPart::Month),
        16 => Some(MailPart::Year),
        17 => Some(MailPart::DayOfMonth),
        18 => Some(MailPart::Hour),
        19 => Some(MailPart::Minute),
        20 => Some(MailPart::Second),
        21 => Some(MailPart::Zone),
        22 => Some(MailPart::Space),
        23 => Some(MailPart::CommentEnd),
        _ => None,
    }
}

/// A reason of brackets, by its number.
fn bracket_reason(kind: u8) -> Option<BracketReason> {
    match kind {
        1 => Some(BracketReason::UnclosedBracket),
        2 => Some(BracketReason::InvalidEscape),
        3 => Some(BracketReason::MissingName),
        4 => Some(BracketReason::UnknownName),
        5 => Some(BracketReason::UnknownModifier),
        6 => Some(BracketReason::InvalidValue),
        7 => Some(BracketReason::MissingModifier),
        8 => Some(BracketReason::MissingItems),
        9 => Some(BracketReason::UnexpectedByte),
        10 => Some(BracketReason::TooDeep),
        11 => Some(BracketReason::TooManyItems),
        _ => None,
    }
}

/// A reason of the syntax of strftime, by its number and the byte that it names.
fn strftime_reason(error: &ParseError) -> Option<StrftimeReason> {
    let byte = error.byte;
    match error.kind {
        12 => Some(StrftimeReason::Unfinished),
        13 => Some(StrftimeReason::UnknownConversion(byte)),
        14 => Some(StrftimeReason::ZoneName),
        15 => Some(StrftimeReason::LocaleModifier(byte)),
        16 => Some(StrftimeReason::FieldWidth(byte)),
        17 => Some(StrftimeReason::CaseFlag(byte)),
        18 => Some(StrftimeReason::PlusFlag),
        19 => Some(StrftimeReason::SecondFlag(byte)),
        20 => Some(StrftimeReason::FlagWithoutNumber(byte)),
        _ => None,
    }
}
