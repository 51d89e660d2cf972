//! Local dates and times with their offset from UTC.
ghost use Rattle.std.specs.Prelude.{◌≡◌};
ghost use Rattle.time_below.specs.Moment.{in_utc, local_unix_seconds, IsNearTimestampSecond};

mod moment;
mod order;
mod text;

use crate::date::Date;
use crate::date_time::DateTime;
use crate::plain_date_time::PlainDateTime;
use crate::time::Time;
use crate::utc_date_time::UtcDateTime;
use crate::utc_offset::UtcOffset;

/// A local date and time of day, and the offset of the place from UTC.
pub type OffsetDateTime = DateTime<UtcOffset>;

impl OffsetDateTime {
    /// 1970-01-01 0:00:00 in UTC.
    pub const UNIX_EPOCH: OffsetDateTime = DateTime {
        date: Date::UNIX_EPOCH,
        time: Time::MIDNIGHT,
        offset: UtcOffset::UTC,
    };

    /// Returns the date and time of day of a place, with the offset of its clocks from UTC.
    pub fn new_in_offset(date: Date, time: Time, offset: UtcOffset) -> OffsetDateTime
        ensures { result ≡ record { date = date; time = time; offset = offset } }
    {
        DateTime { date, time, offset }
    }

    /// Returns the date and time of day in UTC.
    pub fn new_utc(date: Date, time: Time) -> OffsetDateTime
        ensures { result ≡ in_utc (record { date = date; time = time; offset = tt }) }
    {
        DateTime {
            date,
            time,
            offset: UtcOffset::UTC,
        }
    }

    /// Returns another date and time of day at this offset.
    pub fn replace_date_time(self, shown: PlainDateTime) -> OffsetDateTime
        ensures { result ≡ record { date = shown.date; time = shown.time; offset = self.offset } }
    {
        OffsetDateTime::new_in_offset(shown.date(), shown.time(), self.offset)
    }

    /// Returns this date and time of day at another offset, which is another moment.
    ///
    /// [`to_offset`](OffsetDateTime::to_offset) keeps the moment.
    pub fn replace_offset(self, offset: UtcOffset) -> OffsetDateTime
        ensures { result ≡ record self { offset = offset } }
    {
        DateTime { offset, ..self }
    }

    /// Returns the whole seconds since 1970-01-01T00:00:00 UTC, rounded down, less than 26 hours
    /// outside the range of `Timestamp`.
    pub fn unix_timestamp(self) -> i64
        ensures value { result ≡ local_unix_seconds self }
        ensures range { IsNearTimestampSecond result }
    {
        let as_if_in_utc = UtcDateTime::new(self.date, self.time);
        as_if_in_utc.unix_timestamp() - self.offset.whole_seconds() as i64
    }
}
