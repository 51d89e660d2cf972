//! Dates with a time of day.
ghost use Rattle.std.specs.Prelude.{◌≡◌};
ghost use Rattle.time_below.specs.Moment.{in_utc};

mod text;

use crate::date::Date;
use crate::date_time::{DateTime, NoOffset};
use crate::offset_date_time::OffsetDateTime;
use crate::time::Time;
use crate::utc_date_time::UtcDateTime;
use crate::utc_offset::UtcOffset;

/// A date and a time of day, of no place in particular.
pub type PlainDateTime = DateTime<NoOffset>;

impl PlainDateTime {
    /// -999999-01-01 0:00:00.
    pub const MIN: PlainDateTime = DateTime {
        date: Date::MIN,
        time: Time::MIDNIGHT,
        offset: NoOffset,
    };

    /// 999999-12-31 23:59:59.999999999.
    pub const MAX: PlainDateTime = DateTime {
        date: Date::MAX,
        time: Time::MAX,
        offset: NoOffset,
    };

    /// Returns the value of a date and a time of day.
    pub fn new(date: Date, time: Time) -> PlainDateTime
        ensures { result ≡ record { date = date; time = time; offset = tt } }
    {
        DateTime {
            date,
            time,
            offset: NoOffset,
        }
    }

    /// Returns this date and time of day at an offset.
    pub fn assume_offset(self, offset: UtcOffset) -> OffsetDateTime
        ensures { result ≡ record { date = self.date; time = self.time; offset = offset } }
    {
        OffsetDateTime::new_in_offset(self.date, self.time, offset)
    }

    /// Returns this date and time of day at the offset of UTC.
    pub fn assume_utc(self) -> OffsetDateTime
        ensures { result ≡ in_utc self }
    {
        OffsetDateTime::new_utc(self.date, self.time)
    }

    /// Returns this date and time of day as one in UTC.
    pub fn as_utc(self) -> UtcDateTime
        ensures { result ≡ record { date = self.date; time = self.time; offset = tt } }
    {
        UtcDateTime::new(self.date, self.time)
    }
}
