//! Where a text is none of its format, as C sees it.
ghost use Rattle.std.specs.Prelude.{◌≡◌};
ghost use Rattle.movaliren_c.specs.Place.{lenient_flag, number_of_component, numbers_of};
ghost use Rattle.movaliren_c.specs.Place.{numbers_of_mail, place_of};

use time_read::{ComponentName, Expected, MailPart, Mismatch, NotRead, Profile};

/// Where a text is none of its format, and what could have come there.
#[repr(C)]
#[derive(Clone, Copy)]
pub struct ReadError {
    /// How many bytes are right.
    pub at: usize,
    /// What could have come after them.
    pub expected: u8,
    /// The first digit that could have come, or the byte, or another number of what could have
    /// come.
    pub first: u8,
    /// The last digit that could have come, or the byte, or another number of what could have come.
    pub last: u8,
    /// 1 where small letters could have come too.
    pub is_lenient: u8,
    /// 1 where second 60 stands there.
    pub is_second_60: u8,
}

/// What could have come, by its numbers.
#[derive(Clone, Copy)]
pub struct Coming {
    pub expected: u8,
    pub first: u8,
    pub last: u8,
    pub is_lenient: u8,
}

/// The place of an error, as C sees it.
pub(super) fn place_of(error: NotRead) -> ReadError
    ensures { result ≡ place_of error }
{
    let coming = numbers_of(error.expected);
    ReadError {
        at: error.at,
        expected: coming.expected,
        first: coming.first,
        last: coming.last,
        is_lenient: coming.is_lenient,
        is_second_60: u8::from(error.is_second_60),
    }
}

/// Whether a profile takes small letters too.
fn lenient_flag(profile: Profile) -> u8
    ensures { result ≡ lenient_flag profile }
{
    match profile {
        Profile::Strict => 0,
        Profile::Lenient => 1,
    }
}

/// The number of a component's name.
fn number_of_component(name: ComponentName) -> u8
    ensures { result ≡ number_of_component name }
{
    name as u8
}

fn numbers_of(expected: Expected) -> Coming
    ensures { result ≡ numbers_of expected }
{
    let (expected, first, last, is_lenient) = match expected {
        Expected::Digit(first, last) => (1, first, last, 0),
        Expected::Byte(byte) => (2, byte, byte, 0),
        Expected::Letter(letter, profile) => (3, letter, letter, lenient_flag(profile)),
        Expected::Offset(profile) => (4, 0, 0, lenient_flag(profile)),
        Expected::PointOrOffset(profile) => (5, 0, 0, lenient_flag(profile)),
        Expected::DigitOrOffset(profile) => (6, 0, 0, lenient_flag(profile)),
        Expected::End => (7, 0, 0, 0),
        Expected::Sign => (8, 0, 0, 0),
        Expected::Plan(Mismatch::Component(name)) => (24, number_of_component(name), 0, 0),
        Expected::Plan(Mismatch::NoValue(name)) => (25, number_of_component(name), 0, 0),
        Expected::Plan(Mismatch::Otherwise) => (26, 0, 0, 0),
        Expected::Mail(part) => return numbers_of_mail(part),
    };
    Coming {
        expected,
        first,
        last,
        is_lenient,
    }
}

fn numbers_of_mail(part: MailPart) -> Coming
    ensures { result ≡ numbers_of_mail part }
{
    let (expected, first, last, is_lenient) = match part {
        MailPart::Weekday(weekday) => (12, weekday.number_from_monday(), 0, 0),
        MailPart::WeekdayOrDay => (13, 0, 0, 1),
        MailPart::Day => (14, 0, 0, 0),
        MailPart::Month => (15, 0, 0, 1),
        MailPart::Year => (16, 0, 0, 0),
        MailPart::DayOfMonth => (17, 0, 0, 0),
        MailPart::Hour => (18, 0, 0, 0),
        MailPart::Minute => (19, 0, 0, 0),
        MailPart::Second => (20, 0, 0, 0),
        MailPart::Zone => (21, 0, 0, 1),
        MailPart::Space => (22, 0, 0, 0),
        MailPart::CommentEnd => (23, 0, 0, 0),
    };
    Coming {
        expected,
        first,
        last,
        is_lenient,
    }
}
