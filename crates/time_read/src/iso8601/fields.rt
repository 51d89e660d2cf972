//! The fields of a text by a configuration, one after the other (ISO 8601-1:2019, sections 5.2 to
//! 5.4).
ghost use Rattle.std.specs.Prelude.{◌<◌, ◌≤◌, IfOk};

use crate::decimals::nanosecond;
use crate::digits::{after, byte, digit, four_digits, pair};
use crate::fault::{Expected, Profile, Unexpected};
use crate::iso8601::decimals::{HOUR, MINUTE, decimals, fewest_nanoseconds};
use crate::offset::sign;
use crate::values::kinds::Kinds;
use crate::values::text_fields::TextFields;
use time_below::util::weeks_in_year;
use time_below::{Month, is_leap_year};
use time_known::iso8601::{Config, DateKind, OffsetPrecision, TimePrecision};

/// What texts of a configuration show.
pub(super) fn kinds_of(config: &Config) -> Kinds {
    let date = match config.date_kind() {
        DateKind::Calendar => Kinds::YEAR.and(Kinds::MONTH).and(Kinds::DAY),
        DateKind::Week => Kinds::ISO_YEAR.and(Kinds::ISO_WEEK).and(Kinds::WEEKDAY),
        DateKind::Ordinal => Kinds::YEAR.and(Kinds::ORDINAL),
    };
    let time = Kinds::HOUR24.and(Kinds::MINUTE).and(Kinds::SECOND);
    date.and(time).with_offset()
}

/// Reads a whole text into the fields, and returns what follows it.
pub(super) fn read_fields<'a>(
    config: &Config,
    text: &'a [u8],
    fields: &mut TextFields,
) -> Result<&'a [u8], Unexpected> {
    let mut rest = text;
    if config.has_date() {
        rest = ok!(read_date(config, rest, fields));
    }
    if config.has_time() {
        rest = ok!(read_time(config, rest, fields));
    }
    if config.has_offset() {
        rest = ok!(read_offset(config, rest, fields));
    }
    Ok(rest)
}

/// What follows a separator, where the configuration has them.
fn separator<'a>(config: &Config, text: &'a [u8], wanted: u8) -> Result<&'a [u8], Unexpected> {
    if config.use_separators() {
        byte(text, wanted)
    } else {
        Ok(text)
    }
}

/// Reads two digits of a number from the least to the greatest behind a separator, where the
/// configuration has them.
fn pair_behind<'a>(
    config: &Config,
    text: &'a [u8],
    wanted: u8,
    least: u8,
    greatest: u8,
) -> Result<(u8, &'a [u8]), Unexpected>
    requires order { least ≤ greatest }
    requires pairs { greatest < 100 }
    ensures least { IfOk result (λ read. least ≤ read.0) }
    ensures greatest { IfOk result (λ read. read.0 ≤ greatest) }
{
    let rest = ok!(separator(config, text, wanted));
    pair(rest, least, greatest)
}

/// Reads a year of four digits, or of a sign and six.
fn read_year<'a>(config: &Config, text: &'a [u8]) -> Result<(i32, &'a [u8]), Unexpected> {
    if !config.year_is_six_digits() {
        let (year, rest) = ok!(four_digits(text));
        return Ok((year as i32, rest));
    }
    let (is_negative, rest) = ok!(sign(text));
    let (high, rest) = ok!(pair(rest, 0, 99));
    let (low, rest) = ok!(four_digits(rest));
    let number = (10_000 * high as u32 + low as u32) as i32;
    Ok((if is_negative { -number } else { number }, rest))
}

/// Reads a date.
fn read_date<'a>(
    config: &Config,
    text: &'a [u8],
    fields: &mut TextFields,
) -> Result<&'a [u8], Unexpected> {
    let (year, rest) = ok!(read_year(config, text));
    match config.date_kind() {
        DateKind::Calendar => {
            let (month, rest) = ok!(pair_behind(config, rest, b'-', 1, 12));
            let most = Month::from_number(month).length(year);
            let (day, rest) = ok!(pair_behind(config, rest, b'-', 1, most));
            (fields.year, fields.month, fields.day) = (year, month, day);
            Ok(rest)
        }
        DateKind::Week => {
            let rest = ok!(separator(config, rest, b'-'));
            let rest = ok!(byte(rest, b'W'));
            let (week, rest) = ok!(pair(rest, 1, weeks_in_year(year)));
            let rest = ok!(separator(config, rest, b'-'));
            let (weekday, rest) = ok!(digit(rest, 1, 7));
            (fields.iso_year, fields.iso_week, fields.weekday) = (year, week, weekday - 1);
            Ok(rest)
        }
        DateKind::Ordinal => {
            let rest = ok!(separator(config, rest, b'-'));
            let (day, rest) = ok!(day_of_year(rest, year));
            (fields.year, fields.ordinal) = (year, day);
            Ok(rest)
        }
    }
}

/// Reads the three digits of a day of this year.
fn day_of_year(text: &[u8], year: i32) -> Result<(u16, &[u8]), Unexpected> {
    let (hundreds, rest) = ok!(digit(text, 0, 3));
    let (least, greatest) = match hundreds {
        0 => (1, 99),
        3 if is_leap_year(year) => (0, 66),
        3 => (0, 65),
        _ => (0, 99),
    };
    let (below, rest) = ok!(pair(rest, least, greatest));
    Ok((100 * hundreds as u16 + below as u16, rest))
}

/// Reads a time of day, behind its letter where the configuration has it.
fn read_time<'a>(
    config: &Config,
    text: &'a [u8],
    fields: &mut TextFields,
) -> Result<&'a [u8], Unexpected> {
    let from_hour = if config.has_date() || !config.use_separators() {
        ok!(byte(text, b'T'))
    } else {
        text
    };
    let (hour, rest) = ok!(pair(from_hour, 0, 23));
    fields.hour_24 = hour;
    match config.time_precision() {
        TimePrecision::Hour { decimal_digits } => {
            let (digits, rest) = ok!(decimals(config, rest, decimal_digits));
            let behind = fewest_nanoseconds(digits, HOUR);
            fields.minute = (behind / MINUTE % 60) as u8;
            set_second(fields, behind);
            Ok(rest)
        }
        TimePrecision::Minute { decimal_digits } => {
            let (minute, rest) = ok!(pair_behind(config, rest, b':', 0, 59));
            let (digits, rest) = ok!(decimals(config, rest, decimal_digits));
            fields.minute = minute;
            set_second(fields, fewest_nanoseconds(digits, MINUTE));
            Ok(rest)
        }
        TimePrecision::Second { decimal_digits } => {
            let (minute, rest) = ok!(pair_behind(config, rest, b':', 0, 59));
            let (second, rest) = ok!(pair_behind(config, rest, b':', 0, 59));
            let (digits, rest) = ok!(decimals(config, rest, decimal_digits));
            (fields.minute, fields.second) = (minute, second);
            fields.nanosecond = nanosecond(digits).0;
            Ok(rest)
        }
    }
}

/// Sets the second and the nanosecond that are so many nanoseconds behind a minute, but for whole
/// minutes of them.
fn set_second(fields: &mut TextFields, nanoseconds: u64) {
    fields.second = (nanoseconds / 1_000_000_000 % 60) as u8;
    fields.nanosecond = (nanoseconds % 1_000_000_000) as u32;
}

/// Reads an offset: `Z` where there is a time of day, or a sign, hours, and minutes where the
/// configuration has them.
fn read_offset<'a>(
    config: &Config,
    text: &'a [u8],
    fields: &mut TextFields,
) -> Result<&'a [u8], Unexpected> {
    if config.has_time() {
        if let Some(rest) = after(text, b'Z') {
            return Ok(rest);
        }
    }
    let Ok((is_negative, rest)) = sign(text) else {
        return Err(no_offset(config, text));
    };
    let (hour, rest) = ok!(pair(rest, 0, 25));
    (fields.offset_is_negative, fields.offset_hour) = (is_negative, hour);
    match config.offset_precision() {
        OffsetPrecision::Hour => Ok(rest),
        OffsetPrecision::Minute => {
            let (minute, rest) = ok!(pair_behind(config, rest, b':', 0, 59));
            fields.offset_minute = minute;
            Ok(rest)
        }
    }
}

/// The fault of a text that does not begin with an offset.
#[cold]
fn no_offset(config: &Config, text: &[u8]) -> Unexpected {
    let expected = if config.has_time() {
        Expected::Offset(Profile::Strict)
    } else {
        Expected::Sign
    };
    let left = text.len();
    Unexpected { left, expected }
}
