//! Descriptions that are known at compile time, by their parts in order.
//!
//! A description that is in the program's text needs no list of items: `text!` makes one of its
//! parts, with the outcome of the list of the same items. One import has all that it takes:
//!
//! ```text
//! use time_fmt::parts::*;
//!
//! text!(YEAR, b"-", MONTH, b"-", DAY).format_into(line, date, &mut DateState::default())
//! ```
//!
//! The constants are components by the choices that `time` takes where none are named: zeros before
//! a number, a sign only where it is needed, letters as they are. Each line has the text of
//! 1997-11-12 9:55:06.123456789 -06:30 as its example. Other choices are written out, as
//! `Day { padding: Padding::None }` of `time_below::format_description::modifier`.

pub use crate::formattable::{Formattable, Literal};
pub use crate::text;
use time_below::format_description::modifier;
use time_below::format_description::modifier::{Padding, SubsecondDigits};
pub use time_provide::DateState;

/// Makes a description of its parts in order.
///
/// A text in bytes, such as `b"-"`, is a [`Literal`]. Any other part is a description: the choices
/// of a component, a well-known format, a tree, or another `text!`. The parts are put together in
/// pairs, four by four, so that pairs are few deep: at a call of a method there may be 32 parts.
/// (With more, the search for the impl ends: write a longer text by two calls.)
///
/// # Examples
///
/// ```text
/// moment.format_into(&mut line, &text!(YEAR, b"-", MONTH, b"-", DAY))?;
/// ```
#[macro_export]
macro_rules! text {
    (@[] [$a:expr]) => { $a };
    (@[] [$a:expr, $b:expr]) => { ($a, $b) };
    (@[] [$a:expr, $b:expr, $c:expr]) => { (($a, $b), $c) };
    (@[] [$a:expr, $b:expr, $c:expr, $d:expr]) => { (($a, $b), ($c, $d)) };
    (@[$($group:expr),+] [$($part:expr),+]) => {
        $crate::text!(@[] [] $($group,)+ $crate::text!(@[] [$($part),+]))
    };
    (@[$($group:expr),*] [$a:expr, $b:expr, $c:expr, $d:expr] $($rest:tt)+) => {
        $crate::text!(@[$($group,)* (($a, $b), ($c, $d))] [] $($rest)+)
    };
    (@[$($group:expr),*] [$($part:expr),*] $text:literal $(, $($rest:tt)*)?) => {
        $crate::text!(@[$($group),*] [$($part,)* $crate::Literal(*$text)] $($($rest)*)?)
    };
    (@[$($group:expr),*] [$($part:expr),*] $next:expr $(, $($rest:tt)*)?) => {
        $crate::text!(@[$($group),*] [$($part,)* $next] $($($rest)*)?)
    };
    ($($parts:tt)+) => { $crate::text!(@[] [] $($parts)+) };
}

// Choices of these names, as they are where none are named.
macro_rules! usual {
    (padding) => { Padding::Zero };
    (sign_is_mandatory) => { false };
    (case_sensitive) => { true };
    (is_uppercase) => { true };
    ($name:ident: $($choice:ident),+) => { modifier::$name { $($choice: usual!($choice)),+ } };
}

/// The calendar year, -999,999 to 999,999, as `1997`, or a sign and all its digits from 10,000
/// on.
pub const YEAR: modifier::CalendarYearFullExtendedRange =
    usual!(CalendarYearFullExtendedRange: padding, sign_is_mandatory);

/// The calendar year, -9,999 to 9,999, as `1997`. Every other year is refused.
pub const YEAR_STANDARD: modifier::CalendarYearFullStandardRange =
    usual!(CalendarYearFullStandardRange: padding, sign_is_mandatory);

/// The calendar year without its last two digits, as `19`.
pub const YEAR_CENTURY: modifier::CalendarYearCenturyExtendedRange =
    usual!(CalendarYearCenturyExtendedRange: padding, sign_is_mandatory);

/// The calendar year without its last two digits, -99 to 99, as `19`. Every other century is
/// refused.
pub const YEAR_CENTURY_STANDARD: modifier::CalendarYearCenturyStandardRange =
    usual!(CalendarYearCenturyStandardRange: padding, sign_is_mandatory);

/// The last two digits of the calendar year, as `97`.
pub const YEAR_LAST_TWO: modifier::CalendarYearLastTwo = usual!(CalendarYearLastTwo: padding);

/// The month by its number, as `11`.
pub const MONTH: modifier::MonthNumerical = usual!(MonthNumerical: padding);

/// The month's English name, as `November`.
pub const MONTH_LONG: modifier::MonthLong = usual!(MonthLong: case_sensitive);

/// The first three letters of the month's English name, as `Nov`.
pub const MONTH_SHORT: modifier::MonthShort = usual!(MonthShort: case_sensitive);

/// The day of the month, as `12`.
pub const DAY: modifier::Day = usual!(Day: padding);

/// The day of the year (ISO 8601-1:2019, ordinal date), as `316`.
pub const ORDINAL: modifier::Ordinal = usual!(Ordinal: padding);

/// The weekday's English name, as `Wednesday`.
pub const WEEKDAY: modifier::WeekdayLong = usual!(WeekdayLong: case_sensitive);

/// The first three letters of the weekday's English name, as `Wed`.
pub const WEEKDAY_SHORT: modifier::WeekdayShort = usual!(WeekdayShort: case_sensitive);

/// The weekday by a digit, where Sunday is 1, as `4`.
pub const WEEKDAY_SUNDAY: modifier::WeekdaySunday = modifier::WeekdaySunday { one_indexed: true };

/// The weekday by a digit, where Monday is 1, as `3`.
pub const WEEKDAY_MONDAY: modifier::WeekdayMonday = modifier::WeekdayMonday { one_indexed: true };

/// The week of the week calendar (ISO 8601-1:2019, week date), as `46`.
pub const WEEK_NUMBER: modifier::WeekNumberIso = usual!(WeekNumberIso: padding);

/// The week of the year, where week 1 begins on the first Sunday, as `45`.
pub const WEEK_NUMBER_SUNDAY: modifier::WeekNumberSunday = usual!(WeekNumberSunday: padding);

/// The week of the year, where week 1 begins on the first Monday, as `45`.
pub const WEEK_NUMBER_MONDAY: modifier::WeekNumberMonday = usual!(WeekNumberMonday: padding);

/// The year of the week calendar (ISO 8601-1:2019, week date), as `1997`.
pub const ISO_YEAR: modifier::IsoYearFullExtendedRange =
    usual!(IsoYearFullExtendedRange: padding, sign_is_mandatory);

/// The year of the week calendar, -9,999 to 9,999, as `1997`. Every other year is refused.
pub const ISO_YEAR_STANDARD: modifier::IsoYearFullStandardRange =
    usual!(IsoYearFullStandardRange: padding, sign_is_mandatory);

/// The year of the week calendar without its last two digits, as `19`.
pub const ISO_YEAR_CENTURY: modifier::IsoYearCenturyExtendedRange =
    usual!(IsoYearCenturyExtendedRange: padding, sign_is_mandatory);

/// The year of the week calendar without its last two digits, -99 to 99, as `19`. Every other
/// century is refused.
pub const ISO_YEAR_CENTURY_STANDARD: modifier::IsoYearCenturyStandardRange =
    usual!(IsoYearCenturyStandardRange: padding, sign_is_mandatory);

/// The last two digits of the year of the week calendar, as `97`.
pub const ISO_YEAR_LAST_TWO: modifier::IsoYearLastTwo = usual!(IsoYearLastTwo: padding);

/// The hour, 0 to 23, as `09`.
pub const HOUR: modifier::Hour24 = usual!(Hour24: padding);

/// The hour of the 12-hour clock, 1 to 12, as `09`.
pub const HOUR_12: modifier::Hour12 = usual!(Hour12: padding);

/// AM or PM, as `AM`.
pub const PERIOD: modifier::Period = usual!(Period: is_uppercase, case_sensitive);

/// The minute, as `55`.
pub const MINUTE: modifier::Minute = usual!(Minute: padding);

/// The second, as `06`.
pub const SECOND: modifier::Second = usual!(Second: padding);

/// The decimals of the second, as many as are needed, at least one, as `123456789`.
pub const SUBSECOND: modifier::Subsecond = modifier::Subsecond {
    digits: SubsecondDigits::OneOrMore,
};

/// The first three decimals of the second, not rounded, as `123`.
pub const THREE_DECIMALS: modifier::Subsecond = modifier::Subsecond {
    digits: SubsecondDigits::Three,
};

/// The first six decimals of the second, not rounded, as `123456`.
pub const SIX_DECIMALS: modifier::Subsecond = modifier::Subsecond {
    digits: SubsecondDigits::Six,
};

/// The nine decimals of the second, as `123456789`.
pub const NINE_DECIMALS: modifier::Subsecond = modifier::Subsecond {
    digits: SubsecondDigits::Nine,
};

/// The hour of the offset from UTC, with a minus where the offset is negative, as `-06`, or `02`.
pub const OFFSET_HOUR: modifier::OffsetHour = usual!(OffsetHour: padding, sign_is_mandatory);

/// The hour of the offset from UTC after its sign, as `-06`, or `+02`.
pub const SIGNED_OFFSET_HOUR: modifier::OffsetHour = modifier::OffsetHour {
    padding: Padding::Zero,
    sign_is_mandatory: true,
};

/// The minute of the offset from UTC, without a sign, as `30`.
pub const OFFSET_MINUTE: modifier::OffsetMinute = usual!(OffsetMinute: padding);

/// The second of the offset from UTC, without a sign, as `00`.
pub const OFFSET_SECOND: modifier::OffsetSecond = usual!(OffsetSecond: padding);

/// The seconds since 1970-01-01T00:00:00 UTC, rounded down, as `879351906`.
pub const UNIX_TIMESTAMP: modifier::UnixTimestampSecond =
    usual!(UnixTimestampSecond: sign_is_mandatory);

/// The milliseconds since 1970-01-01T00:00:00 UTC, rounded toward zero, as `879351906123`.
pub const UNIX_TIMESTAMP_MILLISECOND: modifier::UnixTimestampMillisecond =
    usual!(UnixTimestampMillisecond: sign_is_mandatory);
