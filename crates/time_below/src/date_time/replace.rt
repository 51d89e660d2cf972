//! Dates and times with another part. An offset stays, and so the moment changes.
ghost use Rattle.std.specs.Prelude.{◌≡◌, ◌↔◌, ◌*◌, ◌<◌, nat_le, IsOk, IfOk, IfErr, codes};
ghost use Rattle.std.specs.Prelude.{if◌then◌else◌, unsigned_abs};
ghost use Rattle.time_below.specs.Calendar.{greatest_year, IsYear, IsDate, IsDayOfMonth, month_of};
ghost use Rattle.time_below.specs.Calendar.{day_of, date_of};
ghost use Rattle.time_below.specs.ComponentRange.{range_refusal, conditional_range};
ghost use Rattle.time_below.specs.ComponentRange.{unconditional_range};
ghost use Rattle.time_below.specs.Month.{month_number};

use super::DateTime;
use crate::component_range::ComponentRange;
use crate::date::Date;
use crate::month::Month;
use crate::time::Time;

impl<Z: Copy> DateTime<Z> {
    /// Returns this time of day on another date, at this offset if there is one.
    pub fn replace_date(self, date: Date) -> DateTime<Z>
        ensures { result ≡ record self { date = date } }
    {
        DateTime { date, ..self }
    }

    /// Returns this date at another time of day, at this offset if there is one.
    pub fn replace_time(self, time: Time) -> DateTime<Z>
        ensures { result ≡ record self { time = time } }
    {
        DateTime { time, ..self }
    }

    /// Returns the value with the year replaced by another, -999,999 to 999,999.
    ///
    /// # Errors
    ///
    /// Another number is refused as `year`, and 29 February in a common year as `day`.
    pub fn replace_year(self, year: i32) -> Result<DateTime<Z>, ComponentRange>
        ensures accepted { IsOk result
            ↔ (IsYear year × IsDayOfMonth year (month_of self.date) (day_of self.date)) }
        ensures value { IfOk result
            (λ t. t ≡ record self { date = date_of year (month_of self.date) (day_of self.date) }) }
        ensures refusal { IfErr result
            (λ e. range_refusal e ≡ (if nat_le (unsigned_abs year) greatest_year
            then conditional_range (codes "day") else unconditional_range (codes "year"))) }
    {
        match self.date.replace_year(year) {
            Ok(date) => Ok(DateTime { date, ..self }),
            Err(refusal) => Err(refusal),
        }
    }

    /// Returns the value with the month replaced.
    ///
    /// # Errors
    ///
    /// A day that the month lacks is refused as `day`.
    pub fn replace_month(self, month: Month) -> Result<DateTime<Z>, ComponentRange>
        ensures accepted { IsOk result
            ↔ IsDayOfMonth self.date.year (month_number month) (day_of self.date) }
        ensures value { IfOk result (λ t. t ≡ record self {
          date = date_of self.date.year
              (month_number month) (day_of self.date);
        }) }
        ensures refusal { IfErr result (λ e. range_refusal e ≡ conditional_range (codes "day")) }
    {
        match self.date.replace_month(month) {
            Ok(date) => Ok(DateTime { date, ..self }),
            Err(refusal) => Err(refusal),
        }
    }

    /// Returns the value with the day of the month replaced.
    ///
    /// # Errors
    ///
    /// A day that the month lacks is refused as `day`.
    pub fn replace_day(self, day: u8) -> Result<DateTime<Z>, ComponentRange>
        ensures accepted { IsOk result ↔ IsDayOfMonth self.date.year (month_of self.date) day }
        ensures value { IfOk result
            (λ t. t ≡ record self { date = date_of self.date.year (month_of self.date) day }) }
        ensures refusal { IfErr result (λ e. range_refusal e ≡ conditional_range (codes "day")) }
    {
        match self.date.replace_day(day) {
            Ok(date) => Ok(DateTime { date, ..self }),
            Err(refusal) => Err(refusal),
        }
    }

    /// Returns the value with the day of the year replaced by another, 1 to 365, or 366 in a leap
    /// year.
    ///
    /// # Errors
    ///
    /// Any other number is refused as `ordinal`.
    pub fn replace_ordinal(self, ordinal: u16) -> Result<DateTime<Z>, ComponentRange>
        ensures accepted { IsOk result
            ↔ IsDate (record { year = self.date.year; ordinal = ordinal }) }
        ensures value { IfOk result
            (λ t. t ≡ record self { date = record { year = self.date.year; ordinal = ordinal } }) }
        ensures refusal { IfErr result
            (λ e. range_refusal e ≡ conditional_range (codes "ordinal")) }
    {
        match self.date.replace_ordinal(ordinal) {
            Ok(date) => Ok(DateTime { date, ..self }),
            Err(refusal) => Err(refusal),
        }
    }

    /// Returns the value with the hour replaced by another, 0 to 23.
    ///
    /// # Errors
    ///
    /// Any other number is refused as `hour`.
    pub fn replace_hour(self, hour: u8) -> Result<DateTime<Z>, ComponentRange>
        ensures accepted { IsOk result ↔ (hour < 24) }
        ensures value { IfOk result
            (λ t. t ≡ record self { time = record self.time { hour = hour } }) }
        ensures refusal { IfErr result (λ e. range_refusal e ≡ unconditional_range (codes "hour")) }
    {
        match self.time.replace_hour(hour) {
            Ok(time) => Ok(DateTime { time, ..self }),
            Err(refusal) => Err(refusal),
        }
    }

    /// Returns the value with the minute replaced by another, 0 to 59.
    ///
    /// # Errors
    ///
    /// Any other number is refused as `minute`.
    pub fn replace_minute(self, minute: u8) -> Result<DateTime<Z>, ComponentRange>
        ensures accepted { IsOk result ↔ (minute < 60) }
        ensures value { IfOk result
            (λ t. t ≡ record self { time = record self.time { minute = minute } }) }
        ensures refusal { IfErr result
            (λ e. range_refusal e ≡ unconditional_range (codes "minute")) }
    {
        match self.time.replace_minute(minute) {
            Ok(time) => Ok(DateTime { time, ..self }),
            Err(refusal) => Err(refusal),
        }
    }

    /// Returns the value with the second replaced by another, 0 to 59.
    ///
    /// # Errors
    ///
    /// Any other number is refused as `second`.
    pub fn replace_second(self, second: u8) -> Result<DateTime<Z>, ComponentRange>
        ensures accepted { IsOk result ↔ (second < 60) }
        ensures value { IfOk result
            (λ t. t ≡ record self { time = record self.time { second = second } }) }
        ensures refusal { IfErr result
            (λ e. range_refusal e ≡ unconditional_range (codes "second")) }
    {
        match self.time.replace_second(second) {
            Ok(time) => Ok(DateTime { time, ..self }),
            Err(refusal) => Err(refusal),
        }
    }

    /// Returns the value with the nanosecond replaced by that of a millisecond, 0 to 999.
    ///
    /// # Errors
    ///
    /// Any other number is refused as `millisecond`.
    pub fn replace_millisecond(self, millisecond: u16) -> Result<DateTime<Z>, ComponentRange>
        ensures accepted { IsOk result ↔ (millisecond < 1_000) }
        ensures value { IfOk result (λ t. t
            ≡ record self { time = record self.time { nanosecond = millisecond * 1_000_000 } }) }
        ensures refusal { IfErr result
            (λ e. range_refusal e ≡ unconditional_range (codes "millisecond")) }
    {
        match self.time.replace_millisecond(millisecond) {
            Ok(time) => Ok(DateTime { time, ..self }),
            Err(refusal) => Err(refusal),
        }
    }

    /// Returns the value with the nanosecond replaced by that of a microsecond, 0 to 999,999.
    ///
    /// # Errors
    ///
    /// Any other number is refused as `microsecond`.
    pub fn replace_microsecond(self, microsecond: u32) -> Result<DateTime<Z>, ComponentRange>
        ensures accepted { IsOk result ↔ (microsecond < 1_000_000) }
        ensures value { IfOk result (λ t. t
            ≡ record self { time = record self.time { nanosecond = microsecond * 1_000 } }) }
        ensures refusal { IfErr result
            (λ e. range_refusal e ≡ unconditional_range (codes "microsecond")) }
    {
        match self.time.replace_microsecond(microsecond) {
            Ok(time) => Ok(DateTime { time, ..self }),
            Err(refusal) => Err(refusal),
        }
    }

    /// Returns the value with the nanosecond replaced by another, 0 to 999,999,999.
    ///
    /// # Errors
    ///
    /// Any other number is refused as `nanosecond`.
    pub fn replace_nanosecond(self, nanosecond: u32) -> Result<DateTime<Z>, ComponentRange>
        ensures accepted { IsOk result ↔ (nanosecond < 1_000_000_000) }
        ensures value { IfOk result
            (λ t. t ≡ record self { time = record self.time { nanosecond = nanosecond } }) }
        ensures refusal { IfErr result
            (λ e. range_refusal e ≡ unconditional_range (codes "nanosecond")) }
    {
        match self.time.replace_nanosecond(nanosecond) {
            Ok(time) => Ok(DateTime { time, ..self }),
            Err(refusal) => Err(refusal),
        }
    }
}
