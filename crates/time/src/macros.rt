//! Values in the text of a program, which are proved to be values where they stand.
//!
//! A date that the calendar does not have, as `date!(2026-02-29)`, or a time out of range is
//! refused when the program is proved.

pub use crate::{date, datetime, offset, time, utc_datetime};

/// A date: `date!(2026-11-22)`, or `date!(2026-326)` by the day of the year.
///
/// The month and the day may have no zero before them, and the year may have a sign.
#[macro_export]
macro_rules! date {
    (+ $($date:tt)+) => { $crate::date!($($date)+) };
    ($year:literal - $month:literal - $day:literal) => {
        $crate::literals::date_of_numbers($year, $month, $day)
    };
    ($year:literal - $ordinal:literal) => {
        $crate::literals::date_of_ordinal($year, $ordinal)
    };
}

/// A time of day: `time!(9:55)`, `time!(9:55:06)` or `time!(9:55:06.12)`, with at most nine
/// decimals.
#[macro_export]
macro_rules! time {
    ($hour:literal : $minute:literal) => {
        $crate::literals::time_of_literal($hour, $minute, "0")
    };
    ($hour:literal : $minute:literal : $second:literal) => {
        $crate::literals::time_of_literal($hour, $minute, stringify!($second))
    };
}

/// An offset from UTC: `offset!(UTC)`, `offset!(-6)`, `offset!(+5:30)` or `offset!(-00:00:01)`.
#[macro_export]
macro_rules! offset {
    (UTC) => { $crate::UtcOffset::from_valid_hms(0, 0, 0) };
    (+ $hour:literal $(: $minute:literal $(: $second:literal)?)?) => {
        $crate::UtcOffset::from_valid_hms($hour, 0 $(+ $minute)?, 0 $($(+ $second)?)?)
    };
    (- $hour:literal $(: $minute:literal $(: $second:literal)?)?) => {
        $crate::UtcOffset::from_valid_hms(-$hour, 0 $(- $minute)?, 0 $($(- $second)?)?)
    };
}

/// A date with a time of day, and perhaps an offset from UTC: `datetime!(2026-11-22 9:55:06)` is a
/// `PlainDateTime`, and `datetime!(2026-11-22 9:55:06.12 -6)` an `OffsetDateTime`.
#[macro_export]
macro_rules! datetime {
    (@[$date:expr] [$time:expr]) => { $crate::PlainDateTime::new($date, $time) };
    (@[$date:expr] [$time:expr] $($offset:tt)+) => {
        $crate::OffsetDateTime::new_in_offset($date, $time, $crate::offset!($($offset)+))
    };
    (@[$date:expr] $hour:literal : $minute:literal : $second:literal $($offset:tt)*) => {
        $crate::datetime!(@[$date] [$crate::time!($hour:$minute:$second)] $($offset)*)
    };
    (@[$date:expr] $hour:literal : $minute:literal $($offset:tt)*) => {
        $crate::datetime!(@[$date] [$crate::time!($hour:$minute)] $($offset)*)
    };
    (+ $($moment:tt)+) => { $crate::datetime!($($moment)+) };
    ($year:literal - $month:literal - $day:literal $($time:tt)+) => {
        $crate::datetime!(@[$crate::date!($year-$month-$day)] $($time)+)
    };
    ($year:literal - $ordinal:literal $($time:tt)+) => {
        $crate::datetime!(@[$crate::date!($year-$ordinal)] $($time)+)
    };
}

/// A date with a time of day in UTC: `utc_datetime!(2026-11-22 9:55:06)`.
#[macro_export]
macro_rules! utc_datetime {
    (@[$date:expr] $($time:tt)+) => { $crate::UtcDateTime::new($date, $crate::time!($($time)+)) };
    (+ $($moment:tt)+) => { $crate::utc_datetime!($($moment)+) };
    ($year:literal - $month:literal - $day:literal $($time:tt)+) => {
        $crate::utc_datetime!(@[$crate::date!($year-$month-$day)] $($time)+)
    };
    ($year:literal - $ordinal:literal $($time:tt)+) => {
        $crate::utc_datetime!(@[$crate::date!($year-$ordinal)] $($time)+)
    };
}
