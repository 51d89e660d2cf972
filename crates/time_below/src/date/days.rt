//! Days by their number, and days near a date.
ghost use Rattle.std.specs.Prelude.{◌≡◌, ◌↔◌, ◌+◌, ◌-◌, ◌*◌, ◌^◌, ◌<◌, IsNone, IsOk, IfOk, IfErr};
ghost use Rattle.std.specs.Prelude.{IfSome, codes, pos, ◌+ℤ◌, ◌-ℤ◌, unsigned_abs, ◌≤◌};
ghost use Rattle.time_below.specs.Calendar.{IsDayNumber, first_date, last_date, next_day};
ghost use Rattle.time_below.specs.Calendar.{day_number, date_at, julian_day_of, days_to_next};
ghost use Rattle.time_below.specs.Calendar.{days_from_last};
ghost use Rattle.time_below.specs.ComponentRange.{range_refusal, unconditional_range};
ghost use Rattle.time_below.specs.Weekday.{days_from_monday};

use super::{ALL_DAYS, Date, GREATEST_YEAR};
use crate::calendar;
use crate::component_range::ComponentRange;
use crate::weekday::Weekday;

// The Julian day number of -999999-01-01.
const FIRST_JULIAN_DAY: i32 = -363_521_074;

impl Date {
    /// Returns the date of a Julian day number, -363,521,074 to 366,963,559: that of the Julian day
    /// which begins at noon of the date.
    ///
    /// # Errors
    ///
    /// Any other number is refused as `julian_day`.
    pub fn from_julian_day(julian_day: i32) -> Result<Date, ComponentRange>
        ensures accepted { IsOk result ↔ IsDayNumber (julian_day -ℤ pos 1_721_426) }
        ensures value { IfOk result (λ d. julian_day_of d ≡ julian_day) }
        ensures refusal { IfErr result (λ e. range_refusal e
            ≡ unconditional_range (codes "julian_day")) }
    {
        if julian_day < FIRST_JULIAN_DAY {
            return Err(ComponentRange::unconditional("julian_day"));
        }
        let days = julian_day as i64 - FIRST_JULIAN_DAY as i64;
        if days >= ALL_DAYS as i64 {
            return Err(ComponentRange::unconditional("julian_day"));
        }
        Ok(Date::from_days(days as u32))
    }

    /// Returns the Julian day number, which is 2,451,545 on 2000-01-01: that of the Julian day
    /// which begins at noon of the date.
    pub fn to_julian_day(self) -> i32
        ensures value { result ≡ julian_day_of self }
        ensures range { unsigned_abs result < 2 ^ 29 }
    {
        self.days_from_start() as i32 + FIRST_JULIAN_DAY
    }

    /// Returns the day after, or `None` after 999999-12-31.
    pub fn next_day(self) -> Option<Date>
        ensures last { IsNone result ↔ (self ≡ last_date) }
        ensures value { IfSome result (λ d. d ≡ next_day self) }
    {
        if self.ordinal < calendar::days_in_year(self.year) {
            return Some(Date {
                ordinal: self.ordinal + 1,
                ..self
            });
        }
        if self.year == GREATEST_YEAR {
            return None;
        }
        Some(Date {
            year: self.year + 1,
            ordinal: 1,
        })
    }

    /// Returns the day before, or `None` before -999999-01-01.
    pub fn previous_day(self) -> Option<Date>
        ensures first { IsNone result ↔ (self ≡ first_date) }
        ensures value { IfSome result (λ d. next_day d ≡ self) }
    {
        if self.ordinal > 1 {
            return Some(Date {
                ordinal: self.ordinal - 1,
                ..self
            });
        }
        if self.year == -GREATEST_YEAR {
            return None;
        }
        let year = self.year - 1;
        Some(Date {
            year,
            ordinal: calendar::days_in_year(year),
        })
    }

    // The days to the next such weekday, 1 to 7.
    fn days_to_next(self, weekday: Weekday) -> u32
        ensures value { result ≡ days_to_next self (days_from_monday weekday) }
        ensures range { result ≤ 7 }
    {
        let here = self.weekday().number_days_from_monday() as u32;
        (weekday.number_days_from_monday() as u32 + 6 - here) % 7 + 1
    }

    // The days from the last such weekday, 1 to 7.
    fn days_from_last(self, weekday: Weekday) -> u32
        ensures value { result ≡ days_from_last self (days_from_monday weekday) }
        ensures range { result ≤ 7 }
    {
        let here = self.weekday().number_days_from_monday() as u32;
        (here + 6 - weekday.number_days_from_monday() as u32) % 7 + 1
    }

    // The date this many days after.
    fn after(self, days: u32) -> Date
        requires { IsDayNumber (day_number self +ℤ pos days) }
        ensures { result ≡ date_at (day_number self +ℤ pos days) }
    {
        Date::from_days(self.days_from_start() + days)
    }

    // The date this many days before.
    fn before(self, days: u32) -> Date
        requires { IsDayNumber (day_number self -ℤ pos days) }
        ensures { result ≡ date_at (day_number self -ℤ pos days) }
    {
        Date::from_days(self.days_from_start() - days)
    }

    /// Returns the first date after this one that has the weekday.
    ///
    /// The caller knows that there is one until 999999-12-31.
    pub fn next_occurrence(self, weekday: Weekday) -> Date
        requires { IsDayNumber (
            day_number self +ℤ pos (days_to_next self (days_from_monday weekday))) }
        ensures { result
            ≡ date_at (day_number self +ℤ pos (days_to_next self (days_from_monday weekday))) }
    {
        self.after(self.days_to_next(weekday))
    }

    /// Returns the last date before this one that has the weekday.
    ///
    /// The caller knows that there is one from -999999-01-01 on.
    pub fn prev_occurrence(self, weekday: Weekday) -> Date
        requires { IsDayNumber (
            day_number self -ℤ pos (days_from_last self (days_from_monday weekday))) }
        ensures { result
            ≡ date_at (day_number self -ℤ pos (days_from_last self (days_from_monday weekday))) }
    {
        self.before(self.days_from_last(weekday))
    }

    /// Returns the nth date after this one that has the weekday, where the first has the number 1.
    ///
    /// The caller knows that there are as many until 999999-12-31.
    pub fn nth_next_occurrence(self, weekday: Weekday, n: u8) -> Date
        requires counted { 0 < n }
        requires range { IsDayNumber (day_number self
            +ℤ pos (days_to_next self (days_from_monday weekday) + 7 * (n - 1))) }
        ensures { result ≡ date_at (day_number self
            +ℤ pos (days_to_next self (days_from_monday weekday) + 7 * (n - 1))) }
    {
        self.after(self.days_to_next(weekday) + 7 * (n as u32 - 1))
    }

    /// Returns the nth date before this one that has the weekday, where the last has the number 1.
    ///
    /// The caller knows that there are as many from -999999-01-01 on.
    pub fn nth_prev_occurrence(self, weekday: Weekday, n: u8) -> Date
        requires counted { 0 < n }
        requires range { IsDayNumber (day_number self
            -ℤ pos (days_from_last self (days_from_monday weekday) + 7 * (n - 1))) }
        ensures { result ≡ date_at (day_number self
            -ℤ pos (days_from_last self (days_from_monday weekday) + 7 * (n - 1))) }
    {
        self.before(self.days_from_last(weekday) + 7 * (n as u32 - 1))
    }
}
