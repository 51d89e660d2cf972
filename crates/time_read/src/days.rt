//! Days by their numbers.
//!
//! The attributes are of the path of RFC 3339, whose texts cost twice as much without those of this
//! crate.
ghost use Rattle.std.specs.Prelude.{◌≡◌, ◌<◌, ◌≤◌};
ghost use Rattle.std.specs.Int.{IsInRange};
ghost use Rattle.time_read.specs.Shapes.{IsDay, date_of_day, month_days};

use time_below::{Date, Month};

// A day by its year, its month and its day of the month.
#[derive(Clone, Copy)]
pub(crate) struct Day {
    pub(crate) year: u16,
    pub(crate) month: u8,
    pub(crate) day: u8,
}

// How many days a month has.
pub(crate) fn days_of_month(year: u16, month: u8) -> u8
    requires { IsInRange 1 12 month }
    ensures days { result ≡ month_days year month }
    ensures some { 1 ≤ result }
    ensures most { result < 100 }
{
    Month::from_number(month).length(year as i32)
}

// The date of a day.
#[inline(always)]
pub(crate) fn date_of(day: Day) -> Date
    requires { IsDay day }
    ensures { result ≡ date_of_day day }
{
    Date::from_valid_calendar_date(day.year as i32, Month::from_number(day.month), day.day)
}
