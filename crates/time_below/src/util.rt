//! The lengths of years and months, and the weeks of a year.
ghost use Rattle.std.specs.Prelude.{◌≡◌, ◌+◌, ◌%◌, pos, unsigned_abs};
ghost use Rattle.std.specs.Int.{IsInRange, int_rem_euclid};
ghost use Rattle.time_below.specs.Calendar.{is_leap_year, days_in_month};
ghost use Rattle.time_below.specs.Month.{month_number};
ghost use Rattle.time_below.specs.WeekDate.{weeks_in_year};

pub use crate::calendar::{days_in_year, is_leap_year};
use crate::month::Month;

/// Returns the number of days of the month in this year, 28 to 31.
pub fn days_in_month(month: Month, year: i32) -> u8
    ensures value { result ≡ days_in_month (is_leap_year year) (month_number month) }
    ensures range { IsInRange 28 31 result }
{
    month.length(year)
}

// How many years a year is after the last one that begins 400 years.
fn years_past(year: i32) -> u32
    ensures { result ≡ (unsigned_abs (int_rem_euclid year (pos 400)) + 399) % 400 }
{
    (year.rem_euclid(400) as u32 + 399) % 400
}

/// Returns the number of weeks of a year of the week calendar, 52 or 53 (ISO 8601-1:2019, 5.2.4).
#[tactic(auto, using(crate::proofs::WeekDateLemmas::weeks_of_years))]
pub fn weeks_in_year(year: i32) -> u8
    ensures value { result ≡ weeks_in_year year }
    ensures range { IsInRange 52 53 result }
{
    let past = years_past(year);
    let first_day = (past + past / 4 - past / 100) % 7;
    if first_day == 3 {
        return 53;
    }
    if first_day != 2 {
        return 52;
    }
    if is_leap_year(year) { 53 } else { 52 }
}
