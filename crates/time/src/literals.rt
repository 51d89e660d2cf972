//! Values that stand in the text of a program. The macros of [`macros`](crate::macros) call these
//! functions.
ghost use Rattle.std.specs.Prelude.{◌≡◌, ◌≤◌, IsTrue, length};
ghost use Rattle.std.specs.Int.{IsInRange};
ghost use Rattle.std.specs.Str.{all_ascii_digits};
ghost use Rattle.std.specs.Str.Parse.{digits_value};
ghost use Rattle.time_below.specs.Calendar.{IsYear, IsDate, IsDayOfMonth, date_of};
ghost use Rattle.time_below.specs.TimeOfDay.{IsTimeOfDay};
ghost use Rattle.time.specs.Literals.{digits_of, is_second, second_of, nanosecond_of};

use time_below::{Date, Month, Time};

/// Returns the date of a year, a month by its number and a day, which the calendar has.
pub fn date_of_numbers(year: i32, month: u8, day: u8) -> Date
    requires year { IsYear year }
    requires month { IsInRange 1 12 month }
    requires day { IsDayOfMonth year month day }
    ensures { result ≡ date_of year month day }
{
    Date::from_valid_calendar_date(year, Month::from_number(month), day)
}

/// Returns the date of a year and a day of the year, which the calendar has.
pub fn date_of_ordinal(year: i32, ordinal: u16) -> Date
    requires { IsDate (record { year = year; ordinal = ordinal }) }
    ensures { result ≡ record { year = year; ordinal = ordinal } }
{
    match Date::from_ordinal_date(year, ordinal) {
        Ok(date) => date,
        Err(_) => unreachable!(),
    }
}

// The powers of ten.
const POWERS: [u32; 10] = [
    1,
    10,
    100,
    1_000,
    10_000,
    100_000,
    1_000_000,
    10_000_000,
    100_000_000,
    1_000_000_000,
];

// The number of some digits, and how many they are.
fn number_of(literal: &[u8]) -> (u32, usize)
    requires few { length (digits_of literal.now) ≤ 9 }
    requires digits { IsTrue (all_ascii_digits (digits_of literal.now)) }
    ensures value { result.0 ≡ digits_value 10 (digits_of literal.now) }
    ensures count { result.1 ≡ length (digits_of literal.now) }
{
    let mut number: u32 = 0;
    let mut count = 0;
    for byte in literal {
        if *byte != b'_' {
            number = 10 * number + (*byte as u32 - 48);
            count += 1;
        }
    }
    (number, count)
}

/// Returns the time of an hour, a minute and the literal of a second, such as `06` or `06.12`, with
/// at most nine decimals.
pub fn time_of_literal(hour: u8, minute: u8, second: &str) -> Time
    requires literal { IsTrue (is_second second.now) }
    requires time { IsTimeOfDay (record {
      hour = hour;
      minute = minute;
      second = second_of second.now;
      nanosecond = nanosecond_of second.now;
    }) }
    ensures { result ≡ record {
      hour = hour;
      minute = minute;
      second = second_of second.now;
      nanosecond = nanosecond_of second.now;
    } }
{
    let (whole, decimals) = match second.split_once('.') {
        Some((whole, decimals)) => (whole, decimals),
        None => (second, ""),
    };
    let (whole, _) = number_of(whole.as_bytes());
    let (decimals, count) = number_of(decimals.as_bytes());
    Time::from_valid_hms_nano(hour, minute, whole as u8, decimals * POWERS[9 - count])
}
