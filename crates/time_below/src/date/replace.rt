//! Dates with another year, month or day.
ghost use Rattle.std.specs.Prelude.{◌≡◌, ◌↔◌, nat_le, IsOk, IfOk, IfErr, codes, if◌then◌else◌};
ghost use Rattle.std.specs.Prelude.{unsigned_abs};
ghost use Rattle.time_below.specs.Calendar.{greatest_year, IsYear, IsDate, IsDayOfMonth, month_of};
ghost use Rattle.time_below.specs.Calendar.{day_of, date_of};
ghost use Rattle.time_below.specs.ComponentRange.{range_refusal, conditional_range};
ghost use Rattle.time_below.specs.ComponentRange.{unconditional_range};
ghost use Rattle.time_below.specs.Month.{month_number};

use super::Date;
use crate::component_range::ComponentRange;
use crate::month::Month;

impl Date {
    /// Returns the date with the year replaced by another, -999,999 to 999,999.
    ///
    /// # Errors
    ///
    /// Another number is refused as `year`, and 29 February in a common year as `day`.
    pub fn replace_year(self, year: i32) -> Result<Date, ComponentRange>
        ensures accepted { IsOk result
            ↔ (IsYear year × IsDayOfMonth year (month_of self) (day_of self)) }
        ensures value { IfOk result (λ d. d ≡ date_of year (month_of self) (day_of self)) }
        ensures refusal { IfErr result (λ e. range_refusal e
            ≡ (if nat_le (unsigned_abs year) greatest_year then conditional_range (codes "day")
            else unconditional_range (codes "year"))) }
    {
        let (_, month, day) = self.to_calendar_date();
        Date::from_calendar_date(year, month, day)
    }

    /// Returns the date with the month replaced.
    ///
    /// # Errors
    ///
    /// A day that the month lacks is refused as `day`.
    pub fn replace_month(self, month: Month) -> Result<Date, ComponentRange>
        ensures accepted { IsOk result
            ↔ IsDayOfMonth self.year (month_number month) (day_of self) }
        ensures value { IfOk result (λ d. d
            ≡ date_of self.year (month_number month) (day_of self)) }
        ensures refusal { IfErr result (λ e. range_refusal e ≡ conditional_range (codes "day")) }
    {
        let (year, _, day) = self.to_calendar_date();
        Date::from_calendar_date(year, month, day)
    }

    /// Returns the date with the day of the month replaced.
    ///
    /// # Errors
    ///
    /// A day that the month lacks is refused as `day`.
    pub fn replace_day(self, day: u8) -> Result<Date, ComponentRange>
        ensures accepted { IsOk result ↔ IsDayOfMonth self.year (month_of self) day }
        ensures value { IfOk result (λ d. d ≡ date_of self.year (month_of self) day) }
        ensures refusal { IfErr result (λ e. range_refusal e ≡ conditional_range (codes "day")) }
    {
        let (year, month, _) = self.to_calendar_date();
        Date::from_calendar_date(year, month, day)
    }

    /// Returns the date with the day of the year replaced: 1 to 365, or 366 in a leap year.
    ///
    /// # Errors
    ///
    /// Any other number is refused as `ordinal`.
    pub fn replace_ordinal(self, ordinal: u16) -> Result<Date, ComponentRange>
        ensures accepted { IsOk result ↔ IsDate (record { year = self.year; ordinal = ordinal }) }
        ensures value { IfOk result (λ d. d ≡ record { year = self.year; ordinal = ordinal }) }
        ensures refusal { IfErr result (λ e. range_refusal e
            ≡ conditional_range (codes "ordinal")) }
    {
        Date::from_ordinal_date(self.year, ordinal)
    }
}
