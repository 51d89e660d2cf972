//! The English names of months and weekdays.
ghost use Rattle.std.specs.Prelude.{◌≡◌, length, take};
ghost use Rattle.std.specs.Str.{IsCharBoundary};
ghost use Rattle.time_below.specs.Month.{month_number};
ghost use Rattle.time_below.specs.Names.{month_name, weekday_name};
ghost use Rattle.time_below.specs.Weekday.{days_from_monday};

use crate::month::Month;
use crate::weekday::Weekday;

/// Returns the English name of a month with spaces behind it, in nine bytes, and the length of the
/// name.
pub fn padded_month_name(month: Month) -> (&'static str, usize)
    ensures name { take result.1 result.0.now ≡ month_name (month_number month) }
    ensures short { take 3 result.0.now ≡ take 3 (month_name (month_number month)) }
    ensures length { result.1 ≡ length (month_name (month_number month)) }
    ensures padded { length result.0.now ≡ 9 }
    ensures end { IsCharBoundary result.0.now result.1 }
{
    match month {
        Month::January => ("January  ", 7),
        Month::February => ("February ", 8),
        Month::March => ("March    ", 5),
        Month::April => ("April    ", 5),
        Month::May => ("May      ", 3),
        Month::June => ("June     ", 4),
        Month::July => ("July     ", 4),
        Month::August => ("August   ", 6),
        Month::September => ("September", 9),
        Month::October => ("October  ", 7),
        Month::November => ("November ", 8),
        Month::December => ("December ", 8),
    }
}

/// Returns the English name of a weekday with spaces behind it, in nine bytes, and the length of
/// the name.
pub fn padded_weekday_name(weekday: Weekday) -> (&'static str, usize)
    ensures name { take result.1 result.0.now ≡ weekday_name (days_from_monday weekday) }
    ensures short { take 3 result.0.now ≡ take 3 (weekday_name (days_from_monday weekday)) }
    ensures length { result.1 ≡ length (weekday_name (days_from_monday weekday)) }
    ensures padded { length result.0.now ≡ 9 }
    ensures end { IsCharBoundary result.0.now result.1 }
{
    match weekday {
        Weekday::Monday => ("Monday   ", 6),
        Weekday::Tuesday => ("Tuesday  ", 7),
        Weekday::Wednesday => ("Wednesday", 9),
        Weekday::Thursday => ("Thursday ", 8),
        Weekday::Friday => ("Friday   ", 6),
        Weekday::Saturday => ("Saturday ", 8),
        Weekday::Sunday => ("Sunday   ", 6),
    }
}
