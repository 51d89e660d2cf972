//! Values by their numbers.
use std::convert::TryFrom;
use std::process::Abort;
use time_below::{Date, Month, OffsetDateTime, Time, Timestamp, UtcOffset};

pub(crate) fn date(rt: &impl Abort, (year, month, day): (i32, u8, u8)) -> Date {
    let Ok(month) = Month::try_from(month) else {
        panic!(rt; "no month {month}");
    };
    match Date::from_calendar_date(year, month, day) {
        Ok(date) => date,
        Err(_) => panic!(rt; "no day {day} in {year}"),
    }
}

pub(crate) fn time(rt: &impl Abort, (hour, minute, second, nanosecond): (u8, u8, u8, u32)) -> Time {
    match Time::from_hms_nano(hour, minute, second, nanosecond) {
        Ok(time) => time,
        Err(_) => panic!(rt; "no time {hour}:{minute}:{second}"),
    }
}

pub(crate) fn offset(rt: &impl Abort, (hours, minutes, seconds): (i8, i8, i8)) -> UtcOffset {
    match UtcOffset::from_hms(hours, minutes, seconds) {
        Ok(offset) => offset,
        Err(_) => panic!(rt; "no offset {hours}:{minutes}:{seconds}"),
    }
}

pub(crate) fn timestamp(rt: &impl Abort, seconds: i64, nanosecond: u32) -> Timestamp {
    match Timestamp::new(seconds, nanosecond) {
        Ok(timestamp) => timestamp,
        Err(_) => panic!(rt; "no moment {seconds}"),
    }
}

/// A local date and time, and its offset.
pub(crate) fn moment(
    rt: &impl Abort,
    day: (i32, u8, u8),
    clock: (u8, u8, u8, u32),
    ahead: (i8, i8, i8),
) -> OffsetDateTime {
    OffsetDateTime::new_in_offset(date(rt, day), time(rt, clock), offset(rt, ahead))
}

/// 1997-11-12 9:55:06 -6:00, a Wednesday.
pub(crate) fn wednesday(rt: &impl Abort) -> OffsetDateTime {
    moment(rt, (1997, 11, 12), (9, 55, 6, 0), (-6, 0, 0))
}
