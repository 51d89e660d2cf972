//! The time of day.
ghost use Rattle.std.specs.Prelude.{◌≡◌, ◌↔◌, ◌*◌, ◌/◌, ◌<◌, IsOk, IfOk, IfErr, codes};
ghost use Rattle.time_below.specs.TimeOfDay.{TimeOfDay, IsTimeOfDay, first_outside, time_of};
ghost use Rattle.time_below.specs.TimeOfDay.{time_at, seconds_from_midnight};
ghost use Rattle.time_below.specs.ComponentRange.{range_refusal, unconditional_range};

mod replace;
mod text;
mod truncate;

use crate::component_range::ComponentRange;
use std::marker::Model;

// The seconds of a day.
pub(crate) const DAY_SECONDS: u32 = 86_400;

/// A time of day to the nanosecond, without leap seconds.
#[derive(Clone, Copy, PartialEq, Eq, PartialOrd, Ord, Hash)]
pub struct Time {
    hour: u8,
    minute: u8,
    second: u8,
    nanosecond: u32,
}

impl Model for Time {
    ghost use Rattle.time_below.specs.TimeOfDay.{TimeOfDay, IsTimeOfDay};

    ghost Value = { TimeOfDay };

    ghost view = { λ t.
        record { hour = t.hour; minute = t.minute; second = t.second; nanosecond = t.nanosecond } };

    ghost invariant = { λ t. IsTimeOfDay (
        record {
          hour = t.hour;
          minute = t.minute;
          second = t.second;
          nanosecond = t.nanosecond;
        }) };

    ghost inverse = { λ t.
        record { hour = t.hour; minute = t.minute; second = t.second; nanosecond = t.nanosecond } };
}

impl Time {
    /// The first nanosecond of a day, 0:00:00.
    pub const MIDNIGHT: Time = Time {
        hour: 0,
        minute: 0,
        second: 0,
        nanosecond: 0,
    };

    /// The last nanosecond of a day, 23:59:59.999999999.
    pub const MAX: Time = Time {
        hour: 23,
        minute: 59,
        second: 59,
        nanosecond: 999_999_999,
    };

    /// Returns the time of an hour, 0 to 23, a minute and a second, 0 to 59, with nanosecond 0.
    ///
    /// # Errors
    ///
    /// The first part out of its range is refused by its name, in this order.
    ///
    /// # Examples
    ///
    /// ```text
    /// let Ok(time) = Time::from_hms(9, 55, 6) else { .. };
    /// ```
    pub fn from_hms(hour: u8, minute: u8, second: u8) -> Result<Time, ComponentRange>
        ensures accepted { IsOk result ↔ IsTimeOfDay (time_of hour minute second 0) }
        ensures value { IfOk result (λ t. t ≡ time_of hour minute second 0) }
        ensures refusal { IfErr result (λ e. range_refusal e
            ≡ unconditional_range (first_outside hour minute second (codes "second"))) }
    {
        Time::from_hms_nano(hour, minute, second, 0)
    }

    /// Returns the time of an hour, 0 to 23, a minute and a second, 0 to 59, and a millisecond, 0
    /// to 999.
    ///
    /// # Errors
    ///
    /// The first part out of its range is refused by its name, in this order.
    pub fn from_hms_milli(
        hour: u8,
        minute: u8,
        second: u8,
        millisecond: u16,
    ) -> Result<Time, ComponentRange>
        ensures accepted { IsOk result
            ↔ IsTimeOfDay (time_of hour minute second (millisecond * 1_000_000)) }
        ensures value { IfOk result (λ t. t
            ≡ time_of hour minute second (millisecond * 1_000_000)) }
        ensures refusal { IfErr result (λ e. range_refusal e
            ≡ unconditional_range (first_outside hour minute second (codes "millisecond"))) }
    {
        match Time::from_hms(hour, minute, second) {
            Ok(time) => time.replace_millisecond(millisecond),
            Err(refusal) => Err(refusal),
        }
    }

    /// Returns the time of an hour, 0 to 23, a minute and a second, 0 to 59, and a microsecond, 0
    /// to 999,999.
    ///
    /// # Errors
    ///
    /// The first part out of its range is refused by its name, in this order.
    pub fn from_hms_micro(
        hour: u8,
        minute: u8,
        second: u8,
        microsecond: u32,
    ) -> Result<Time, ComponentRange>
        ensures accepted { IsOk result
            ↔ IsTimeOfDay (time_of hour minute second (microsecond * 1_000)) }
        ensures value { IfOk result (λ t. t ≡ time_of hour minute second (microsecond * 1_000)) }
        ensures refusal { IfErr result (λ e. range_refusal e
            ≡ unconditional_range (first_outside hour minute second (codes "microsecond"))) }
    {
        match Time::from_hms(hour, minute, second) {
            Ok(time) => time.replace_microsecond(microsecond),
            Err(refusal) => Err(refusal),
        }
    }

    /// Returns the time of an hour, 0 to 23, a minute and a second, 0 to 59, and a nanosecond, 0 to
    /// 999,999,999.
    ///
    /// # Errors
    ///
    /// The first part out of its range is refused by its name, in this order.
    pub fn from_hms_nano(
        hour: u8,
        minute: u8,
        second: u8,
        nanosecond: u32,
    ) -> Result<Time, ComponentRange>
        ensures accepted { IsOk result
            ↔ IsTimeOfDay (time_of hour minute second nanosecond) }
        ensures value { IfOk result (λ t. t ≡ time_of hour minute second nanosecond) }
        ensures refusal { IfErr result (λ e. range_refusal e
            ≡ unconditional_range (first_outside hour minute second (codes "nanosecond"))) }
    {
        if hour > 23 {
            return Err(ComponentRange::unconditional("hour"));
        }
        if minute > 59 {
            return Err(ComponentRange::unconditional("minute"));
        }
        if second > 59 {
            return Err(ComponentRange::unconditional("second"));
        }
        if nanosecond > 999_999_999 {
            return Err(ComponentRange::unconditional("nanosecond"));
        }
        Ok(Time::from_valid_hms_nano(hour, minute, second, nanosecond))
    }

    /// Returns the time of parts that are in their ranges, as the caller knows.
    ///
    /// [`from_hms_nano`](Time::from_hms_nano) tests them.
    pub fn from_valid_hms_nano(hour: u8, minute: u8, second: u8, nanosecond: u32) -> Time
        requires { IsTimeOfDay (time_of hour minute second nanosecond) }
        ensures { result ≡ time_of hour minute second nanosecond }
    {
        Time {
            hour,
            minute,
            second,
            nanosecond,
        }
    }

    /// Returns the hour, 0 to 23.
    pub fn hour(self) -> u8
        ensures value { result ≡ self.hour }
        ensures range { result < 24 }
    {
        self.hour
    }

    /// Returns the minute, 0 to 59.
    pub fn minute(self) -> u8
        ensures value { result ≡ self.minute }
        ensures range { result < 60 }
    {
        self.minute
    }

    /// Returns the second, 0 to 59.
    pub fn second(self) -> u8
        ensures value { result ≡ self.second }
        ensures range { result < 60 }
    {
        self.second
    }

    /// Returns the whole milliseconds of the second, 0 to 999.
    pub fn millisecond(self) -> u16
        ensures value { result ≡ self.nanosecond / 1_000_000 }
        ensures range { result < 1_000 }
    {
        (self.nanosecond / 1_000_000) as u16
    }

    /// Returns the whole microseconds of the second, 0 to 999,999.
    pub fn microsecond(self) -> u32
        ensures value { result ≡ self.nanosecond / 1_000 }
        ensures range { result < 1_000_000 }
    {
        self.nanosecond / 1_000
    }

    /// Returns the nanosecond, 0 to 999,999,999.
    pub fn nanosecond(self) -> u32
        ensures value { result ≡ self.nanosecond }
        ensures range { result < 1_000_000_000 }
    {
        self.nanosecond
    }

    /// Returns the hour, the minute and the second.
    pub fn as_hms(self) -> (u8, u8, u8)
        ensures hour { result.0 ≡ self.hour }
        ensures minute { result.1 ≡ self.minute }
        ensures second { result.2 ≡ self.second }
        ensures range { IsTimeOfDay (time_of result.0 result.1 result.2 0) }
    {
        (self.hour, self.minute, self.second)
    }

    /// Returns the hour, the minute, the second and the whole milliseconds of the second.
    pub fn as_hms_milli(self) -> (u8, u8, u8, u16)
        ensures hour { result.0 ≡ self.hour }
        ensures minute { result.1 ≡ self.minute }
        ensures second { result.2 ≡ self.second }
        ensures millisecond { result.3 ≡ self.nanosecond / 1_000_000 }
        ensures range { IsTimeOfDay (time_of result.0 result.1 result.2 (result.3 * 1_000_000)) }
    {
        (self.hour, self.minute, self.second, self.millisecond())
    }

    /// Returns the hour, the minute, the second and the whole microseconds of the second.
    pub fn as_hms_micro(self) -> (u8, u8, u8, u32)
        ensures hour { result.0 ≡ self.hour }
        ensures minute { result.1 ≡ self.minute }
        ensures second { result.2 ≡ self.second }
        ensures microsecond { result.3 ≡ self.nanosecond / 1_000 }
        ensures range { IsTimeOfDay (time_of result.0 result.1 result.2 (result.3 * 1_000)) }
    {
        (self.hour, self.minute, self.second, self.microsecond())
    }

    /// Returns the hour, the minute, the second and the nanosecond.
    pub fn as_hms_nano(self) -> (u8, u8, u8, u32)
        ensures hour { result.0 ≡ self.hour }
        ensures minute { result.1 ≡ self.minute }
        ensures second { result.2 ≡ self.second }
        ensures nanosecond { result.3 ≡ self.nanosecond }
        ensures range { IsTimeOfDay self }
    {
        (self.hour, self.minute, self.second, self.nanosecond)
    }

    // The time this many seconds after midnight.
    pub(crate) fn from_seconds(passed: u32, nanosecond: u32) -> Time
        requires day { passed < DAY_SECONDS }
        requires second { nanosecond < 1_000_000_000 }
        ensures { result ≡ time_at passed nanosecond }
    {
        Time {
            hour: (passed / 3600) as u8,
            minute: (passed % 3600 / 60) as u8,
            second: (passed % 60) as u8,
            nanosecond,
        }
    }

    // The whole seconds from midnight to the time.
    pub(crate) fn seconds_from_midnight(self) -> u32
        ensures value { result ≡ seconds_from_midnight self }
        ensures range { result < DAY_SECONDS }
    {
        self.hour as u32 * 3600 + self.minute as u32 * 60 + self.second as u32
    }
}
