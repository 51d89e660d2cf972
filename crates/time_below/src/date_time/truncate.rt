//! A date and time without its smaller parts.
ghost use Rattle.std.specs.Prelude.{◌≡◌, ◌*◌, ◌/◌};
ghost use Rattle.time_below.specs.TimeOfDay.{time_of};

use super::DateTime;
use crate::time::Time;

impl<Z: Copy> DateTime<Z> {
    /// Returns the first nanosecond of the date.
    pub fn truncate_to_day(self) -> DateTime<Z>
        ensures { result ≡ record self { time = time_of 0 0 0 0 } }
    {
        self.replace_time(Time::MIDNIGHT)
    }

    /// Returns the first nanosecond of the hour: the minute and all below it become zero.
    pub fn truncate_to_hour(self) -> DateTime<Z>
        ensures { result ≡ record self { time = time_of self.time.hour 0 0 0 } }
    {
        self.replace_time(self.time.truncate_to_hour())
    }

    /// Returns the first nanosecond of the minute: the second and its decimals become zero.
    pub fn truncate_to_minute(self) -> DateTime<Z>
        ensures { result ≡ record self { time = time_of self.time.hour self.time.minute 0 0 } }
    {
        self.replace_time(self.time.truncate_to_minute())
    }

    /// Returns the first nanosecond of the second: the decimals become zero.
    pub fn truncate_to_second(self) -> DateTime<Z>
        ensures { result ≡ record self { time = record self.time { nanosecond = 0 } } }
    {
        self.replace_time(self.time.truncate_to_second())
    }

    /// Returns the first nanosecond of the millisecond: three decimals of the second stay.
    pub fn truncate_to_millisecond(self) -> DateTime<Z>
        ensures { result ≡ record self {
          time = record self.time {
            nanosecond = self.time.nanosecond / 1_000_000 * 1_000_000;
          };
        } }
    {
        self.replace_time(self.time.truncate_to_millisecond())
    }

    /// Returns the first nanosecond of the microsecond: six decimals of the second stay.
    pub fn truncate_to_microsecond(self) -> DateTime<Z>
        ensures { result ≡ record self {
          time = record self.time {
            nanosecond = self.time.nanosecond / 1_000 * 1_000;
          };
        } }
    {
        self.replace_time(self.time.truncate_to_microsecond())
    }
}
