//! A time without its smaller parts.
ghost use Rattle.std.specs.Prelude.{◌≡◌, ◌*◌, ◌/◌};
ghost use Rattle.time_below.specs.TimeOfDay.{time_of};

use crate::time::Time;

impl Time {
    /// Returns the first nanosecond of the hour: the minute and all below it become zero.
    pub fn truncate_to_hour(self) -> Time
        ensures { result ≡ time_of self.hour 0 0 0 }
    {
        Time {
            minute: 0,
            second: 0,
            nanosecond: 0,
            ..self
        }
    }

    /// Returns the first nanosecond of the minute: the second and its decimals become zero.
    pub fn truncate_to_minute(self) -> Time
        ensures { result ≡ time_of self.hour self.minute 0 0 }
    {
        Time {
            second: 0,
            nanosecond: 0,
            ..self
        }
    }

    /// Returns the first nanosecond of the second: the decimals become zero.
    pub fn truncate_to_second(self) -> Time
        ensures { result ≡ record self { nanosecond = 0 } }
    {
        Time {
            nanosecond: 0,
            ..self
        }
    }

    /// Returns the first nanosecond of the millisecond: three decimals of the second stay.
    pub fn truncate_to_millisecond(self) -> Time
        ensures { result ≡ record self { nanosecond = self.nanosecond / 1_000_000 * 1_000_000 } }
    {
        Time {
            nanosecond: self.nanosecond - self.nanosecond % 1_000_000,
            ..self
        }
    }

    /// Returns the first nanosecond of the microsecond: six decimals of the second stay.
    pub fn truncate_to_microsecond(self) -> Time
        ensures { result ≡ record self { nanosecond = self.nanosecond / 1_000 * 1_000 } }
    {
        Time {
            nanosecond: self.nanosecond - self.nanosecond % 1_000,
            ..self
        }
    }
}
