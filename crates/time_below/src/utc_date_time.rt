//! Dates with a time of day in UTC.
ghost use Rattle.std.specs.Prelude.{◌≡◌, ◌↔◌, ◌<◌, ◌^◌, ◌+ℤ◌, IsSome, IfSome, IsOk, IfOk, IfErr};
ghost use Rattle.std.specs.Prelude.{codes, unsigned_abs};
ghost use Rattle.time_below.specs.ComponentRange.{range_refusal, unconditional_range};
ghost use Rattle.time_below.specs.Moment.{IsTimestampSecond, IsTimestampNanosecond, at_second};
ghost use Rattle.time_below.specs.Moment.{local_at, local_moment, moment_of, nanoseconds};
ghost use Rattle.time_below.specs.Moment.{unix_seconds, utc_date_and_time};
ghost use Rattle.time_below.specs.Offset.{offset_seconds};

mod text;

use crate::component_range::ComponentRange;
use crate::date::Date;
use crate::date_time::{DateTime, Utc};
use crate::moment;
use crate::offset_date_time::OffsetDateTime;
use crate::plain_date_time::PlainDateTime;
use crate::time::Time;
use crate::timestamp::Timestamp;
use crate::utc_offset::UtcOffset;

/// A date and a time of day in UTC.
pub type UtcDateTime = DateTime<Utc>;

impl UtcDateTime {
    /// -999999-01-01 0:00:00.
    pub const MIN: UtcDateTime = DateTime {
        date: Date::MIN,
        time: Time::MIDNIGHT,
        offset: Utc,
    };

    /// 999999-12-31 23:59:59.999999999.
    pub const MAX: UtcDateTime = DateTime {
        date: Date::MAX,
        time: Time::MAX,
        offset: Utc,
    };

    /// 1970-01-01 0:00:00.
    pub const UNIX_EPOCH: UtcDateTime = DateTime {
        date: Date::UNIX_EPOCH,
        time: Time::MIDNIGHT,
        offset: Utc,
    };

    /// Returns the value of a date and a time of day in UTC.
    pub fn new(date: Date, time: Time) -> UtcDateTime
        ensures { result ≡ record { date = date; time = time; offset = tt } }
    {
        DateTime {
            date,
            time,
            offset: Utc,
        }
    }

    /// Returns the whole seconds since 1970-01-01T00:00:00 UTC, rounded down, in the range of
    /// `Timestamp`.
    pub fn unix_timestamp(self) -> i64
        ensures value { result ≡ unix_seconds self }
        ensures range { IsTimestampSecond result }
    {
        self.date.unix_midnight() + self.time.seconds_from_midnight() as i64
    }
    /// Returns the nanoseconds since 1970-01-01T00:00:00 UTC, at most 23 digits.
    pub fn unix_timestamp_nanos(self) -> i128
        ensures value { result ≡ nanoseconds (moment_of self) }
        ensures range { unsigned_abs result < 10 ^ 23 }
    {
        moment::nanoseconds(self.unix_timestamp(), self.time.nanosecond())
    }

    /// Returns the date and time in UTC at which a second since 1970-01-01T00:00:00 UTC begins.
    ///
    /// # Errors
    ///
    /// A second outside the range of `Timestamp` is refused as `timestamp`.
    pub fn from_unix_timestamp(timestamp: i64) -> Result<UtcDateTime, ComponentRange>
        ensures accepted { IsOk result ↔ IsTimestampSecond timestamp }
        ensures value { IfOk result (λ t. t ≡ utc_date_and_time (at_second timestamp)) }
        ensures refusal { IfErr result (λ e. range_refusal e
            ≡ unconditional_range (codes "timestamp")) }
    {
        match Timestamp::new(timestamp, 0) {
            Ok(moment) => Ok(UtcDateTime::from(moment)),
            Err(_) => Err(ComponentRange::unconditional("timestamp")),
        }
    }

    /// Returns the date and time in UTC of this many nanoseconds since 1970-01-01T00:00:00 UTC.
    ///
    /// # Errors
    ///
    /// A number outside the range of `Timestamp` is refused as `timestamp`.
    pub fn from_unix_timestamp_nanos(timestamp: i128) -> Result<UtcDateTime, ComponentRange>
        ensures accepted { IsOk result ↔ IsTimestampNanosecond timestamp }
        ensures value { IfOk result (λ t. nanoseconds (moment_of t) ≡ timestamp) }
        ensures refusal { IfErr result (λ e. range_refusal e
            ≡ unconditional_range (codes "timestamp")) }
    {
        match Timestamp::from_nanoseconds(timestamp) {
            Ok(moment) => Ok(UtcDateTime::from(moment)),
            Err(_) => Err(ComponentRange::unconditional("timestamp")),
        }
    }

    /// Returns this date and time of day as one in UTC.
    pub fn from_primitive(shown: PlainDateTime) -> UtcDateTime
        ensures { result ≡ record { date = shown.date; time = shown.time; offset = tt } }
    {
        UtcDateTime::new(shown.date(), shown.time())
    }

    /// Returns the date and the time of day without UTC.
    pub fn as_primitive(self) -> PlainDateTime
        ensures { result ≡ record { date = self.date; time = self.time; offset = tt } }
    {
        PlainDateTime::new(self.date, self.time)
    }

    /// Returns the same moment by clocks at this offset.
    ///
    /// The caller knows that their year is in range:
    /// [`checked_to_offset`](UtcDateTime::checked_to_offset) tests it.
    pub fn to_offset(self, offset: UtcOffset) -> OffsetDateTime
        requires { IsTimestampSecond (unix_seconds self +ℤ offset_seconds offset) }
        ensures value { result ≡ local_at (moment_of self) offset }
        ensures moment { local_moment result ≡ moment_of self }
    {
        match self.checked_to_offset(offset) {
            Some(shown) => shown,
            None => unreachable!(),
        }
    }

    /// Returns the same moment by clocks at this offset, or `None` where their year is outside
    /// -999,999 to 999,999.
    pub fn checked_to_offset(self, offset: UtcOffset) -> Option<OffsetDateTime>
        ensures accepted { IsSome result
            ↔ IsTimestampSecond (unix_seconds self +ℤ offset_seconds offset) }
        ensures value { IfSome result (λ t. t ≡ local_at (moment_of self) offset) }
        ensures moment { IfSome result (λ t. local_moment t ≡ moment_of self) }
    {
        moment::checked_at_offset(self.unix_timestamp(), self.time.nanosecond(), offset)
    }
}
