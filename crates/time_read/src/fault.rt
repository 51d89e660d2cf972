//! What is refused, and where.
ghost use Rattle.std.specs.Prelude.{◌≤◌, length};

use crate::component_name::ComponentName;
use std::fmt;
use thiserror::Error;
use time_below::Weekday;

/// Which texts are read.
#[derive(Debug, Clone, Copy, PartialEq, Eq)]
pub enum Profile {
    /// The texts of the grammar alone.
    Strict,
    /// These, and the texts of other writers that mean one of them.
    Lenient,
}

/// A part of a text of mail or of a feed.
#[derive(Debug, Clone, Copy, PartialEq, Eq)]
pub enum MailPart {
    /// The name of a weekday, or a day.
    WeekdayOrDay,
    /// A day from 1 to 31, of one digit or two.
    Day,
    /// The name of a month.
    Month,
    /// A year from 1900 on, of two to four digits.
    Year,
    /// A day that this month has.
    DayOfMonth,
    /// An hour from 00 to 23.
    Hour,
    /// A minute from 00 to 59.
    Minute,
    /// A second from 00 to 60.
    Second,
    /// A zone that has a meaning: a sign with four digits, a name of RFC 5322, section 4.3, or a
    /// letter.
    Zone,
    /// White space or a comment.
    Space,
    /// The end of a comment.
    CommentEnd,
    /// The name of this weekday, which is that of the date. The name of another one stands there.
    Weekday(Weekday),
}

/// What is wrong where a text is none of a plan.
#[derive(Debug, Clone, Copy, PartialEq, Eq)]
pub enum Mismatch {
    /// The text of this component should begin here.
    Component(ComponentName),
    /// The number of this component, which begins here, is that of no value, as in February 31.
    NoValue(ComponentName),
    /// The value of these numbers is written otherwise from here on, as by another weekday. By a
    /// plan whose texts may have more than 64 bytes, the component begins here that is written
    /// otherwise.
    Otherwise,
}

/// What could have come next in a text.
#[derive(Debug, Clone, Copy, PartialEq, Eq)]
pub enum Expected {
    /// A digit from the first to the last, by their numbers 0 to 9.
    Digit(u8, u8),
    /// This byte.
    Byte(u8),
    /// This capital letter, or its small form where the profile is lenient.
    Letter(u8, Profile),
    /// What begins an offset: `+`, `-` or the letter `Z`, or its small form where the profile is
    /// lenient.
    Offset(Profile),
    /// A point, or what begins an offset.
    PointOrOffset(Profile),
    /// A digit, or what begins an offset.
    DigitOrOffset(Profile),
    /// Nothing: the text is complete.
    End,
    /// `+` or `-`.
    Sign,
    /// A part of a text of mail or of a feed.
    Mail(MailPart),
    /// The text that a plan writes of a value.
    Plan(Mismatch),
}

/// A text is not one of its format: the position at which it is invalid, which is the first one of
/// a text of RFC 3339.
#[derive(Debug, Clone, Copy, PartialEq, Eq, Error)]
#[error("byte {at}: expected {expected}{}", if *.is_second_60 {", since second 60 has no value"} else {""})]
pub struct NotRead {
    /// How many bytes are right, or stand before the part that is wrong.
    pub at: usize,
    /// What could have come there.
    pub expected: Expected,
    /// Whether second 60 stands there, which a leap second has and no value here.
    pub is_second_60: bool,
}

// The position by the bytes that are left from there on. They stand last, over the pointer of the
// rest that a reader returns where there is no fault: RFC 3339 takes a third more in the other order.
#[derive(Clone, Copy)]
pub(crate) struct Unexpected {
    pub(crate) expected: Expected,
    pub(crate) left: usize,
}

// The fault of a text by the bytes that are left.
#[cold]
pub(crate) fn not_read(text: &[u8], fault: Unexpected) -> NotRead
    ensures { result.at ≤ length text.now }
{
    NotRead {
        at: text.len().saturating_sub(fault.left),
        expected: fault.expected,
        is_second_60: false,
    }
}

/// Why no text is read as a value of a type.
#[derive(Clone, Copy, Debug, PartialEq, Eq, Error)]
pub enum NoReader {
    /// The texts do not determine a value, as `%I:%M` does not tell the half of the day.
    #[error("the texts do not determine a value of the type")]
    Undetermined,
    /// The texts show what no value of the type has, by the index of the step. Of a configuration
    /// of ISO 8601 the date, the time of day and the offset are steps 0, 1 and 2.
    #[error("step {0}: no value of the type has what is shown")]
    Unsupplied(usize),
    /// A number whose digits depend on the value stands before digits whose number depends on it
    /// too, by the index of the step, as the first one of `%-d%-m`.
    #[error("step {0}: a number of no certain width before other digits")]
    Ambiguous(usize),
}

// What could have come next, in words, where it has no number and no byte of its own.
fn in_words(expected: Expected) -> &'static str {
    match expected {
        Expected::Letter(b'T', Profile::Strict) => "`T`",
        Expected::Letter(b'T', Profile::Lenient) => "`T` or `t`",
        Expected::Letter(_, Profile::Strict) => "`Z`",
        Expected::Letter(_, Profile::Lenient) => "`Z`, `z`",
        Expected::Offset(Profile::Strict) => "`Z`, `+` or `-`",
        Expected::Offset(Profile::Lenient) => "`Z`, `z`, `+` or `-`",
        Expected::PointOrOffset(Profile::Strict) => "`.`, `Z`, `+` or `-`",
        Expected::PointOrOffset(Profile::Lenient) => "`.`, `Z`, `z`, `+` or `-`",
        Expected::DigitOrOffset(Profile::Strict) => "a digit, `Z`, `+` or `-`",
        Expected::DigitOrOffset(Profile::Lenient) => "a digit, `Z`, `z`, `+` or `-`",
        Expected::Sign => "`+` or `-`",
        Expected::Plan(_) => "what is written of its value from here on",
        _ => "the end",
    }
}

// A part of a text of mail, in words.
fn part_in_words(part: MailPart) -> &'static str {
    match part {
        MailPart::WeekdayOrDay => "the name of a weekday, or a day",
        MailPart::Day => "a day from 1 to 31",
        MailPart::Month => "the name of a month",
        MailPart::Year => "a year from 1900 on",
        MailPart::DayOfMonth => "a day that this month has",
        MailPart::Hour => "an hour from 00 to 23",
        MailPart::Minute => "a minute from 00 to 59",
        MailPart::Second => "a second from 00 to 60",
        MailPart::Zone => "a zone that has a meaning",
        MailPart::Space => "white space or a comment",
        MailPart::CommentEnd => "the end of a comment",
        MailPart::Weekday(Weekday::Monday) => "`Mon`, the weekday of this date",
        MailPart::Weekday(Weekday::Tuesday) => "`Tue`, the weekday of this date",
        MailPart::Weekday(Weekday::Wednesday) => "`Wed`, the weekday of this date",
        MailPart::Weekday(Weekday::Thursday) => "`Thu`, the weekday of this date",
        MailPart::Weekday(Weekday::Friday) => "`Fri`, the weekday of this date",
        MailPart::Weekday(Weekday::Saturday) => "`Sat`, the weekday of this date",
        MailPart::Weekday(Weekday::Sunday) => "`Sun`, the weekday of this date",
    }
}

impl fmt::Display for Expected {
    fn fmt<W: fmt::Write>(&self, f: &mut fmt::Formatter<W>) -> fmt::Result {
        match *self {
            Expected::Digit(first, last) if first == last => write!(f, "the digit {first}"),
            Expected::Digit(first, last) => write!(f, "a digit from {first} to {last}"),
            Expected::Byte(byte) => write!(f, "`{}`", char::from(byte)),
            Expected::Mail(part) => f.write_str(part_in_words(part)),
            Expected::Plan(Mismatch::Component(name)) => f.write_str(name.in_brackets()),
            Expected::Plan(Mismatch::NoValue(name)) => {
                write!(
                    f,
                    "another {}, since no value has this one",
                    name.in_brackets()
                )
            }
            other => f.write_str(in_words(other)),
        }
    }
}
