//! Moments in the interface, and the values that they give.
ghost use Rattle.std.specs.Prelude.{◌≡◌, ◌≤◌, IsTrue, unsigned_abs};
ghost use Rattle.std.specs.Int.{IsInRange};
ghost use Rattle.movaliren_c.specs.State.{IsDateState};
ghost use Rattle.movaliren_c.specs.Utc.{utc_value};
ghost use Rattle.movaliren_c.specs.Value.{date_value, is_alike, is_offset_part, moment_value};
ghost use Rattle.movaliren_c.specs.Value.{offset_of_parts, offset_value, time_of_parts, time_value};
ghost use Rattle.movaliren_c.specs.Value.{timestamp_value};
ghost use Rattle.time_below.specs.Calendar.{OrdinalDate, day_of, month_of};
ghost use Rattle.time_below.specs.Facts.{date_facts};
ghost use Rattle.time_below.specs.Moment.{utc_date_and_time};
ghost use Rattle.time_below.specs.Offset.{HasNoOtherSign, IsOffset};
ghost use Rattle.time_provide.specs.Agreement.{Agrees};

use crate::answers::reason::Reason;
use time_below::{Date, Month, OffsetDateTime, Time, Timestamp, UtcDateTime, UtcOffset};
use time_provide::DateState;
use time_provide::ranges::Day;

/// A local date and time, and its offset from UTC.
#[repr(C)]
#[derive(Clone, Copy)]
pub struct Moment {
    pub year: i32,
    pub month: u8,
    pub day: u8,
    pub hour: u8,
    pub minute: u8,
    pub second: u8,
    pub nanosecond: u32,
    pub offset_hours: i8,
    pub offset_minutes: i8,
    pub offset_seconds: i8,
}

/// The seconds since 1970-01-01T00:00:00 UTC, and the nanosecond counted forward from there.
#[repr(C)]
#[derive(Clone, Copy)]
pub struct UtcMoment {
    pub seconds: i64,
    pub nanosecond: u32,
}

/// The parts of a value, with this month and this day.
pub fn parts_of(value: OffsetDateTime, month: u8, day: u8) -> Moment
    ensures year { result.year ≡ value.date.year }
    ensures month { result.month ≡ month }
    ensures day { result.day ≡ day }
    ensures time { time_of_parts result ≡ value.time }
    ensures offset { offset_of_parts result ≡ value.offset }
{
    let (hour, minute, second, nanosecond) = value.time().as_hms_nano();
    let (offset_hours, offset_minutes, offset_seconds) = value.offset().as_hms();
    Moment {
        year: value.date().year(),
        nanosecond,
        month,
        day,
        hour,
        minute,
        second,
        offset_hours,
        offset_minutes,
        offset_seconds,
    }
}

/// The date of a year, a month and a day, or the first of them that is outside its range.
#[tactic(auto, unfolding(crate::specs::Value::date_value))]
pub fn date_value(year: i32, month: u8, day: u8) -> Result<Date, Reason>
    ensures { result ≡ date_value year month day }
{
    if year < -999_999 || year > 999_999 {
        return Err(Reason::Year);
    }
    if month == 0 || month > 12 {
        return Err(Reason::Month);
    }
    let month = Month::from_number(month);
    // Each month has 28 days.
    if day == 0 || (day > 28 && day > month.length(year)) {
        return Err(Reason::Day);
    }
    Ok(Date::from_valid_calendar_date(year, month, day))
}

/// What is known of a date by its month and its day of the month.
pub fn date_state(month: u8, day: u8) -> DateState
    requires month { IsInRange 1 12 month }
    requires day { IsInRange 1 31 day }
    ensures known { IsDateState month day result }
    ensures agrees { (date : OrdinalDate) → month_of date ≡ month → day_of date ≡ day
        → Agrees result (date_facts date) }
{
    DateState::from_month_and_day(Month::from_number(month), Day::within(day))
}

fn time_value(moment: &Moment) -> Result<Time, Reason>
    ensures { result ≡ time_value moment.now }
{
    if moment.hour > 23 {
        return Err(Reason::Hour);
    }
    if moment.minute > 59 {
        return Err(Reason::Minute);
    }
    if moment.second > 59 {
        return Err(Reason::Second);
    }
    if moment.nanosecond > 999_999_999 {
        return Err(Reason::Nanosecond);
    }
    Ok(Time::from_valid_hms_nano(moment.hour, moment.minute, moment.second, moment.nanosecond))
}

/// The offset of the parts, or the first of them that is outside its range or has the opposite sign
/// of one before it.
fn offset_value(moment: &Moment) -> Result<UtcOffset, Reason>
    ensures { result ≡ offset_value moment.now }
{
    let hours = moment.offset_hours;
    let minutes = moment.offset_minutes;
    let seconds = moment.offset_seconds;
    if are_offset_parts(hours, minutes, seconds) {
        return Ok(UtcOffset::from_valid_hms(hours, minutes, seconds));
    }
    tested_offset(moment)
}

/// Whether three parts are in their ranges and have one sign at most. Two tests for all three cost
/// less than one for each two, and one where all are zero, as in UTC.
fn are_offset_parts(hours: i8, minutes: i8, seconds: i8) -> bool
    ensures { IsTrue result
        → IsOffset (record { hours = hours; minutes = minutes; seconds = seconds }) }
{
    let is_zero = (hours == 0) & (minutes == 0) & (seconds == 0);
    if is_zero {
        return true;
    }
    let is_negative = (hours < 0) | (minutes < 0) | (seconds < 0);
    let is_positive = (hours > 0) | (minutes > 0) | (seconds > 0);
    if is_negative && is_positive {
        return false;
    }
    hours.unsigned_abs() <= 25 && minutes.unsigned_abs() <= 59 && seconds.unsigned_abs() <= 59
}

/// The same, where each part is tested after the other.
#[cold]
fn tested_offset(moment: &Moment) -> Result<UtcOffset, Reason>
    ensures { result ≡ offset_value moment.now }
{
    let hours = moment.offset_hours;
    if !is_offset_part(25, 0, 0, hours) {
        return Err(Reason::OffsetHours);
    }
    let minutes = moment.offset_minutes;
    if !is_offset_part(59, hours, 0, minutes) {
        return Err(Reason::OffsetMinutes);
    }
    let seconds = moment.offset_seconds;
    if !is_offset_part(59, hours, minutes, seconds) {
        return Err(Reason::OffsetSeconds);
    }
    Ok(UtcOffset::from_valid_hms(hours, minutes, seconds))
}

/// Whether a part is at most so far from zero, and has not the opposite sign of one of two parts
/// before it.
fn is_offset_part(greatest: u8, first: i8, second: i8, part: i8) -> bool
    ensures value { result ≡ is_offset_part greatest first second part }
    ensures range { IsTrue result → unsigned_abs part ≤ greatest }
    ensures first { IsTrue result → HasNoOtherSign first part }
    ensures second { IsTrue result → HasNoOtherSign second part }
{
    part.unsigned_abs() <= greatest && is_alike(first, part) && is_alike(second, part)
}

/// Whether neither of two parts is above zero where the other one is below.
fn is_alike(first: i8, second: i8) -> bool
    ensures value { result ≡ is_alike first second }
    ensures sign { IsTrue result → HasNoOtherSign first second }
{
    second == 0 || first == 0 || (first < 0) == (second < 0)
}

/// The value of the parts, or the first part that is outside its range, in the order date, time,
/// offset.
#[inline(always)]
#[tactic(auto, unfolding(crate::specs::Value::moment_value))]
pub fn moment_value(moment: &Moment) -> Result<OffsetDateTime, Reason>
    ensures { result ≡ moment_value moment.now }
{
    let date = date_value(moment.year, moment.month, moment.day)?;
    let time = time_value(moment)?;
    let offset = offset_value(moment)?;
    Ok(OffsetDateTime::new_in_offset(date, time, offset))
}

/// The moment of this many seconds since 1970-01-01T00:00:00 UTC, and a nanosecond.
#[tactic(auto, unfolding(crate::specs::Value::timestamp_value))]
pub fn timestamp_value(seconds: i64, nanosecond: u32) -> Result<Timestamp, Reason>
    ensures { result ≡ timestamp_value seconds nanosecond }
{
    match Timestamp::new(seconds, nanosecond) {
        Ok(moment) => Ok(moment),
        Err(_) => {
            if Timestamp::new(seconds, 0).is_ok() {
                Err(Reason::Nanosecond)
            } else {
                Err(Reason::MomentSeconds)
            }
        }
    }
}

/// The date and time in UTC of a moment. Without this step a text in UTC costs 41 to 81
/// instructions more.
pub fn in_utc(moment: Timestamp) -> UtcDateTime
    ensures { result ≡ utc_date_and_time moment }
{
    UtcDateTime::new(moment.date(), moment.time())
}

/// The date and time in UTC this long after 1970.
#[tactic(auto, unfolding(crate::specs::Utc::utc_value))]
pub fn value_in_utc(seconds: i64, nanosecond: u32) -> Result<OffsetDateTime, Reason>
    ensures { result ≡ utc_value seconds nanosecond }
{
    let value = in_utc(timestamp_value(seconds, nanosecond)?);
    let offset = UtcOffset::from_valid_hms(0, 0, 0);
    Ok(OffsetDateTime::new_in_offset(value.date(), value.time(), offset))
}
