//! The costly components of a date, cached between calls.
ghost use Rattle.std.specs.Prelude.{◌≡◌, ◌≤◌, unsigned_abs};
ghost use Rattle.std.specs.Int.{IsInRange};
ghost use Rattle.time_below.specs.Calendar.{month_of, day_of, iso_year_of, iso_week_of};
ghost use Rattle.time_below.specs.Facts.{DateFacts, date_facts};
ghost use Rattle.time_below.specs.Month.{month_number};

use crate::ranges::{Day, IsoWeekNumber, Year};
use std::default::Default;
use time_below::{Date, Month};
use time_digits::{ri32, ru8};

/// A cache of the costly components of one date. Each method returns the component, from the cache
/// where it holds that component, and may add components of the date to the cache.
pub trait DateCache: Default {
    /// The cache holds nothing but components of the date.
    ghost agrees: { Self → DateFacts → Type 0 };

    /// The second cache is the first one, to which nothing but components of the date was added.
    ghost grows: { Self → Self → DateFacts → Type 0 };

    /// The day of the month, 1 to 31.
    fn day(&mut self, date: Date) -> Day
        requires { agrees self.old (date_facts date) }
        ensures value { result ≡ day_of date }
        ensures range { IsInRange 1 31 result }
        ensures grows { grows self.old self.new (date_facts date) };

    /// The month.
    fn month(&mut self, date: Date) -> Month
        requires { agrees self.old (date_facts date) }
        ensures value { month_number result ≡ month_of date }
        ensures grows { grows self.old self.new (date_facts date) };

    /// The week of the week calendar, 1 to 53.
    fn iso_week(&mut self, date: Date) -> IsoWeekNumber
        requires { agrees self.old (date_facts date) }
        ensures value { result ≡ iso_week_of date }
        ensures range { IsInRange 1 53 result }
        ensures grows { grows self.old self.new (date_facts date) };

    /// The year of the week calendar, -999,999 to 999,999.
    fn iso_year(&mut self, date: Date) -> Year
        requires { agrees self.old (date_facts date) }
        ensures value { result ≡ iso_year_of date }
        ensures range { unsigned_abs result ≤ 999_999 }
        ensures grows { grows self.old self.new (date_facts date) };
}

/// A cache that stays empty.
impl DateCache for () {
    ghost agrees = { λ _ _. Unit {0} };

    ghost grows = { λ _ _ _. Unit {0} };

    fn day(&mut self, date: Date) -> Day {
        ru8::within(date.to_calendar_date().2)
    }

    fn month(&mut self, date: Date) -> Month {
        date.month()
    }

    fn iso_week(&mut self, date: Date) -> IsoWeekNumber {
        ru8::within(date.iso_year_week().1)
    }

    fn iso_year(&mut self, date: Date) -> Year {
        ri32::within(date.iso_year_week().0)
    }
}
