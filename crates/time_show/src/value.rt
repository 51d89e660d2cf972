//! The values that the numbers of a line give.
ghost use Rattle.std.specs.Prelude.{◌≡◌, ◌≤◌, ◌<◌, IfOk, unsigned_abs};
ghost use Rattle.time_show.specs.Fields.{numbers_of};
ghost use Rattle.time_show.specs.Value.{part_name, natural_part, signed_part, date_of_numbers};
ghost use Rattle.time_show.specs.Value.{time_of_numbers, offset_of_numbers, time_value};
ghost use Rattle.time_show.specs.Value.{date_time_value, utc_date_time_value};

use crate::fields::LineFields;
use time_below::{Date, Month, OffsetDateTime, Time, UtcDateTime, UtcOffset};

/// A part of a value that a line gives by a number.
#[derive(Clone, Copy)]
pub enum ValuePart {
    /// The year, -999,999 to 999,999.
    Year,
    /// The month of the year, 1 to 12.
    Month,
    /// The day of the month, from 1.
    Day,
    /// The hour, 0 to 23.
    Hour,
    /// The minute, 0 to 59.
    Minute,
    /// The second, 0 to 59.
    Second,
    /// The nanosecond, 0 to 999,999,999.
    Nanosecond,
    /// The hours of the offset, -25 to 25.
    Hours,
    /// The minutes of the offset, -59 to 59.
    Minutes,
    /// The seconds of the offset, -59 to 59.
    Seconds,
}

impl ValuePart {
    /// The name of the part in its refusal.
    pub fn name(self) -> &'static str
        ensures { result.now ≡ part_name self }
    {
        match self {
            ValuePart::Year => "year",
            ValuePart::Month => "month",
            ValuePart::Day => "day",
            ValuePart::Hour => "hour",
            ValuePart::Minute => "minute",
            ValuePart::Second => "second",
            ValuePart::Nanosecond => "nanosecond",
            ValuePart::Hours => "hours",
            ValuePart::Minutes => "minutes",
            ValuePart::Seconds => "seconds",
        }
    }
}

/// Why fields give no value.
#[derive(Clone, Copy)]
pub enum NoValue {
    /// They are not the numbers of one.
    BadLine,
    /// The number of this part is out of its range, and no earlier one is.
    OutOfRange(ValuePart),
}

/// The number, if it is one of `least` to `greatest`.
fn natural_part(part: ValuePart, least: u32, greatest: u32, number: i32) -> Result<u32, NoValue>
    ensures value { result ≡ natural_part part least greatest number }
    ensures least { IfOk result (λ n. least ≤ n) }
    ensures greatest { IfOk result (λ n. n ≤ greatest) }
{
    match u32::try_from(number) {
        Ok(number) if least <= number && number <= greatest => Ok(number),
        _ => Err(NoValue::OutOfRange(part)),
    }
}

/// The number, if it is at most so far from zero.
fn signed_part(part: ValuePart, greatest: u32, number: i32) -> Result<i32, NoValue>
    ensures value { result ≡ signed_part part greatest number }
    ensures range { IfOk result (λ n. unsigned_abs n ≤ greatest) }
{
    if number.unsigned_abs() > greatest {
        return Err(NoValue::OutOfRange(part));
    }
    Ok(number)
}

/// The number, if it is at most so far from zero, as a part of an offset.
fn offset_part(part: ValuePart, greatest: u32, number: i32) -> Result<i8, NoValue>
    requires { greatest < 128 }
    ensures value { result ≡ signed_part part greatest number }
    ensures range { IfOk result (λ n. unsigned_abs n ≤ greatest) }
{
    Ok(signed_part(part, greatest, number)? as i8)
}

/// The date of these numbers.
fn date_of(year: i32, month: i32, day: i32) -> Result<Date, NoValue>
    ensures { result ≡ date_of_numbers year month day }
{
    let year = signed_part(ValuePart::Year, 999_999, year)?;
    let month = Month::from_number(natural_part(ValuePart::Month, 1, 12, month)? as u8);
    let day = natural_part(ValuePart::Day, 1, month.length(year) as u32, day)?;
    Ok(Date::from_valid_calendar_date(year, month, day as u8))
}

/// The time of day of these numbers.
fn time_of(hour: i32, minute: i32, second: i32, nanosecond: i32) -> Result<Time, NoValue>
    ensures { result ≡ time_of_numbers hour minute second nanosecond }
{
    let hour = natural_part(ValuePart::Hour, 0, 23, hour)?;
    let minute = natural_part(ValuePart::Minute, 0, 59, minute)?;
    let second = natural_part(ValuePart::Second, 0, 59, second)?;
    let nanosecond = natural_part(ValuePart::Nanosecond, 0, 999_999_999, nanosecond)?;
    Ok(Time::from_valid_hms_nano(hour as u8, minute as u8, second as u8, nanosecond))
}

/// The offset of these numbers. Where their signs differ, the largest that is not zero decides.
fn offset_of(hours: i32, minutes: i32, seconds: i32) -> Result<UtcOffset, NoValue>
    ensures { result ≡ offset_of_numbers hours minutes seconds }
{
    let hours = offset_part(ValuePart::Hours, 25, hours)?;
    let minutes = offset_part(ValuePart::Minutes, 59, minutes)?;
    let seconds = offset_part(ValuePart::Seconds, 59, seconds)?;
    Ok(UtcOffset::from_ranged_hms(hours, minutes, seconds))
}

/// The time of day of the fields `h m s n`.
#[tactic(auto, using(crate::proofs::ValueLemmas::no_time))]
pub fn time_value(fields: LineFields<'_>) -> Result<Time, NoValue>
    ensures { result ≡ time_value (numbers_of fields.entry) }
{
    let [h, m, s, n] = fields.numbers::<4>().ok_or(NoValue::BadLine)?;
    time_of(h, m, s, n)
}

/// The local date and time of the fields `Y Mo D h m s n oh om os`, with its offset.
#[tactic(auto, using(crate::proofs::ValueLemmas::no_date_time))]
pub fn date_time_value(fields: LineFields<'_>) -> Result<OffsetDateTime, NoValue>
    ensures { result ≡ date_time_value (numbers_of fields.entry) }
{
    let [y, mo, d, h, m, s, n, oh, om, os] = fields.numbers::<10>().ok_or(NoValue::BadLine)?;
    let date = date_of(y, mo, d)?;
    let time = time_of(h, m, s, n)?;
    let offset = offset_of(oh, om, os)?;
    Ok(OffsetDateTime::new_in_offset(date, time, offset))
}

/// The date and time in UTC of the fields `Y Mo D h m s n`.
#[tactic(auto, using(crate::proofs::ValueLemmas::no_utc_date_time))]
pub fn utc_date_time_value(fields: LineFields<'_>) -> Result<UtcDateTime, NoValue>
    ensures { result ≡ utc_date_time_value (numbers_of fields.entry) }
{
    let [y, mo, d, h, m, s, n] = fields.numbers::<7>().ok_or(NoValue::BadLine)?;
    let date = date_of(y, mo, d)?;
    let time = time_of(h, m, s, n)?;
    Ok(UtcDateTime::new(date, time))
}
