//! The cache of a date.
ghost use Rattle.std.specs.Prelude.{◌≡◌, ◌≤◌, unsigned_abs};
ghost use Rattle.std.specs.Int.{IsInRange};
ghost use Rattle.time_below.specs.Calendar.{OrdinalDate, month_of, day_of, iso_year_of};
ghost use Rattle.time_below.specs.Calendar.{iso_week_of};
ghost use Rattle.time_below.specs.Facts.{date_facts};
ghost use Rattle.time_below.specs.Month.{month_number};
ghost use Rattle.time_provide.specs.Agreement.{Agrees, of_month_and_day};

use crate::date_cache::DateCache;
use crate::ranges::{Day, IsoWeekNumber, Year};
use time_below::{Date, Month};
use time_digits::{ri32, ru8};

/// The components of a date that are costly to compute, each perhaps absent.
#[derive(Debug, Default, PartialEq, Eq, Drop)]
pub struct DateState {
    pub(crate) day: Option<Day>,
    pub(crate) month: Option<Month>,
    pub(crate) iso_week: Option<IsoWeekNumber>,
    pub(crate) iso_year: Option<Year>,
}

impl DateCache for DateState {
    ghost agrees = { Agrees };

    ghost grows = { λ _ new date. Agrees new date };

    // The day of the month. Where it is absent, it is cached with the month.
    fn day(&mut self, date: Date) -> Day
        requires { Agrees self.old (date_facts date) }
        ensures value { result ≡ day_of date }
        ensures held { self.new ≡ record self.old { day = Some result; month = self.new.month } }
        ensures range { IsInRange 1 31 result }
        ensures agrees { Agrees self.new (date_facts date) }
    {
        if let Some(day) = self.day {
            let _in_range = day.get();
            return day;
        }
        let (_, month, day) = date.to_calendar_date();
        let day = ru8::within(day);
        self.month = Some(month);
        self.day = Some(day);
        day
    }

    // The month, which is cached.
    fn month(&mut self, date: Date) -> Month
        requires { Agrees self.old (date_facts date) }
        ensures value { month_number result ≡ month_of date }
        ensures held { self.new ≡ record self.old { month = Some result } }
        ensures agrees { Agrees self.new (date_facts date) }
    {
        if let Some(month) = self.month {
            return month;
        }
        let month = date.month();
        self.month = Some(month);
        month
    }

    // The week of the week calendar. Where it is absent, it is cached with its year.
    fn iso_week(&mut self, date: Date) -> IsoWeekNumber
        requires { Agrees self.old (date_facts date) }
        ensures value { result ≡ iso_week_of date }
        ensures held { self.new
            ≡ record self.old { iso_week = Some result; iso_year = self.new.iso_year } }
        ensures range { IsInRange 1 53 result }
        ensures agrees { Agrees self.new (date_facts date) }
    {
        if let Some(week) = self.iso_week {
            let _in_range = week.get();
            return week;
        }
        self.fill_week(date).1
    }

    // The year of the week calendar. Where it is absent, it is cached with the week.
    fn iso_year(&mut self, date: Date) -> Year
        requires { Agrees self.old (date_facts date) }
        ensures value { result ≡ iso_year_of date }
        ensures held { self.new
            ≡ record self.old { iso_week = self.new.iso_week; iso_year = Some result } }
        ensures range { unsigned_abs result ≤ 999_999 }
        ensures agrees { Agrees self.new (date_facts date) }
    {
        if let Some(year) = self.iso_year {
            let _in_range = year.get();
            return year;
        }
        self.fill_week(date).0
    }
}

impl DateState {
    /// Returns the state of a date whose month and day of the month are known.
    pub fn from_month_and_day(month: Month, day: Day) -> DateState
        ensures held { result ≡ of_month_and_day month day }
        ensures agrees { (date : OrdinalDate) → month_of date ≡ month_number month
            → day_of date ≡ day → Agrees result (date_facts date) }
    {
        DateState {
            day: Some(day),
            month: Some(month),
            iso_week: None,
            iso_year: None,
        }
    }

    // Caches the year of the week calendar and the week.
    fn fill_week(&mut self, date: Date) -> (Year, IsoWeekNumber)
        requires { Agrees self.old (date_facts date) }
        ensures year { result.0 ≡ iso_year_of date }
        ensures week { result.1 ≡ iso_week_of date }
        ensures held { self.new
            ≡ record self.old { iso_week = Some result.1; iso_year = Some result.0 } }
        ensures year_range { unsigned_abs result.0 ≤ 999_999 }
        ensures week_range { IsInRange 1 53 result.1 }
        ensures agrees { Agrees self.new (date_facts date) }
    {
        let (year, week) = date.iso_year_week();
        let year = ri32::within(year);
        let week = ru8::within(week);
        self.iso_year = Some(year);
        self.iso_week = Some(week);
        (year, week)
    }
}
