//! Values by their texts, such as `1997-11-12`, `09:55:06.12`, and `-06:00` or `-06:00:00`.
use std::convert::TryFrom;
use std::str::FromStr;
use time::{Date, Month, Time, Timestamp, UtcOffset};

/// The number that a field is, if it is there.
fn number<N: FromStr<Err: Drop>>(field: Option<&str>) -> Option<N> {
    match field?.parse::<N>() {
        Ok(number) => Some(number),
        Err(_) => None,
    }
}

pub fn date(text: &str) -> Option<Date> {
    let mut fields = text.rsplitn(3, '-');
    let day = number(fields.next())?;
    let Ok(month) = Month::try_from(number::<u8>(fields.next())?) else {
        return None;
    };
    match Date::from_calendar_date(number(fields.next())?, month, day) {
        Ok(date) => Some(date),
        Err(_) => None,
    }
}

pub fn time(text: &str) -> Option<Time> {
    let (clock, decimals) = text.split_once('.').unwrap_or((text, "0"));
    let mut nanosecond: u32 = number(Some(decimals))?;
    for _ in decimals.len()..9 {
        nanosecond = nanosecond.checked_mul(10)?;
    }
    let mut fields = clock.splitn(3, ':');
    let (hour, minute) = (number(fields.next())?, number(fields.next())?);
    let second = number(fields.next()).unwrap_or(0);
    match Time::from_hms_nano(hour, minute, second, nanosecond) {
        Ok(time) => Some(time),
        Err(_) => None,
    }
}

/// What stands before a sign, and the offset behind it, all of whose parts have that sign.
pub fn split_offset(text: &str) -> Option<(&str, UtcOffset)> {
    let (before, parts) = text.split_once('+').or(text.split_once('-'))?;
    let sign = if text.contains('+') { 1i8 } else { -1 };
    let mut fields = parts.splitn(3, ':');
    let hours = number::<i8>(fields.next())?.checked_mul(sign)?;
    let minutes = number::<i8>(fields.next())?.checked_mul(sign)?;
    let seconds = number::<i8>(fields.next()).unwrap_or(0).checked_mul(sign)?;
    match UtcOffset::from_hms(hours, minutes, seconds) {
        Ok(offset) => Some((before, offset)),
        Err(_) => None,
    }
}

/// The moment of seconds since 1970, and of what stands behind their unit, such as `+5ns`.
pub fn timestamp(seconds: &str, others: &str) -> Option<Timestamp> {
    let nanosecond = number(others.strip_suffix("ns")).unwrap_or(0);
    match Timestamp::new(number(Some(seconds))?, nanosecond) {
        Ok(moment) => Some(moment),
        Err(_) => None,
    }
}
