//! Dates at a time of day.
ghost use Rattle.std.specs.Prelude.{◌≡◌, ◌↔◌, ◌*◌, IsOk, IfOk, IfErr, codes};
ghost use Rattle.time_below.specs.ComponentRange.{range_refusal, unconditional_range};
ghost use Rattle.time_below.specs.TimeOfDay.{IsTimeOfDay, first_outside, time_of};

use super::Date;
use crate::component_range::ComponentRange;
use crate::plain_date_time::PlainDateTime;
use crate::time::Time;

impl Date {
    /// Returns the date at 0:00.
    pub fn midnight(self) -> PlainDateTime
        ensures { result ≡ record { date = self; time = time_of 0 0 0 0; offset = tt } }
    {
        self.with_time(Time::MIDNIGHT)
    }

    /// Returns the date at this time of day.
    pub fn with_time(self, time: Time) -> PlainDateTime
        ensures { result ≡ record { date = self; time = time; offset = tt } }
    {
        PlainDateTime::new(self, time)
    }

    /// Returns the date at an hour, a minute and a second.
    ///
    /// # Errors
    ///
    /// The errors are those of [`Time::from_hms`].
    pub fn with_hms(self, hour: u8, minute: u8, second: u8) -> Result<PlainDateTime, ComponentRange>
        ensures accepted { IsOk result ↔ IsTimeOfDay (time_of hour minute second 0) }
        ensures value { IfOk result (λ t. t
            ≡ record { date = self; time = time_of hour minute second 0; offset = tt }) }
        ensures refusal { IfErr result (λ e. range_refusal e
            ≡ unconditional_range (first_outside hour minute second (codes "second"))) }
    {
        match Time::from_hms(hour, minute, second) {
            Ok(time) => Ok(self.with_time(time)),
            Err(refusal) => Err(refusal),
        }
    }

    /// Returns the date at an hour, a minute, a second and a millisecond.
    ///
    /// # Errors
    ///
    /// The errors are those of [`Time::from_hms_milli`].
    pub fn with_hms_milli(
        self,
        hour: u8,
        minute: u8,
        second: u8,
        millisecond: u16,
    ) -> Result<PlainDateTime, ComponentRange>
        ensures accepted { IsOk result
            ↔ IsTimeOfDay (time_of hour minute second (millisecond * 1_000_000)) }
        ensures value { IfOk result (λ t. t
            ≡ record { date = self; time = time_of hour minute second (millisecond * 1_000_000); offset = tt }) }
        ensures refusal { IfErr result (λ e. range_refusal e
            ≡ unconditional_range (first_outside hour minute second (codes "millisecond"))) }
    {
        match Time::from_hms_milli(hour, minute, second, millisecond) {
            Ok(time) => Ok(self.with_time(time)),
            Err(refusal) => Err(refusal),
        }
    }

    /// Returns the date at an hour, a minute, a second and a microsecond.
    ///
    /// # Errors
    ///
    /// The errors are those of [`Time::from_hms_micro`].
    pub fn with_hms_micro(
        self,
        hour: u8,
        minute: u8,
        second: u8,
        microsecond: u32,
    ) -> Result<PlainDateTime, ComponentRange>
        ensures accepted { IsOk result
            ↔ IsTimeOfDay (time_of hour minute second (microsecond * 1_000)) }
        ensures value { IfOk result (λ t. t
            ≡ record { date = self; time = time_of hour minute second (microsecond * 1_000); offset = tt }) }
        ensures refusal { IfErr result (λ e. range_refusal e
            ≡ unconditional_range (first_outside hour minute second (codes "microsecond"))) }
    {
        match Time::from_hms_micro(hour, minute, second, microsecond) {
            Ok(time) => Ok(self.with_time(time)),
            Err(refusal) => Err(refusal),
        }
    }

    /// Returns the date at an hour, a minute, a second and a nanosecond.
    ///
    /// # Errors
    ///
    /// The errors are those of [`Time::from_hms_nano`].
    pub fn with_hms_nano(
        self,
        hour: u8,
        minute: u8,
        second: u8,
        nanosecond: u32,
    ) -> Result<PlainDateTime, ComponentRange>
        ensures accepted { IsOk result ↔ IsTimeOfDay (time_of hour minute second nanosecond) }
        ensures value { IfOk result (λ t. t
            ≡ record { date = self; time = time_of hour minute second nanosecond; offset = tt }) }
        ensures refusal { IfErr result (λ e. range_refusal e
            ≡ unconditional_range (first_outside hour minute second (codes "nanosecond"))) }
    {
        match Time::from_hms_nano(hour, minute, second, nanosecond) {
            Ok(time) => Ok(self.with_time(time)),
            Err(refusal) => Err(refusal),
        }
    }
}
