//! The moments of local dates and times: from Unix timestamps, to UTC and to another offset.
ghost use Rattle.std.specs.Prelude.{◌≡◌, ◌↔◌, ◌<◌, ◌^◌, ◌+ℤ◌, IsSome, IfSome, IsOk, IfOk, IfErr};
ghost use Rattle.std.specs.Prelude.{codes, unsigned_abs};
ghost use Rattle.time_below.specs.ComponentRange.{range_refusal, unconditional_range};
ghost use Rattle.time_below.specs.Moment.{IsTimestampSecond, IsTimestampNanosecond, at_second};
ghost use Rattle.time_below.specs.Moment.{in_utc, local_at, local_moment, local_unix_seconds};
ghost use Rattle.time_below.specs.Moment.{nanoseconds, utc_date_and_time};
ghost use Rattle.time_below.specs.Offset.{offset_seconds, utc};

use super::OffsetDateTime;
use crate::component_range::ComponentRange;
use crate::moment;
use crate::timestamp::Timestamp;
use crate::utc_date_time::UtcDateTime;
use crate::utc_offset::UtcOffset;

impl OffsetDateTime {
    /// Returns the moment at which a second since 1970-01-01T00:00:00 UTC begins, in UTC.
    ///
    /// # Errors
    ///
    /// A second outside the range of [`Timestamp`] is refused as `timestamp`.
    pub fn from_unix_timestamp(timestamp: i64) -> Result<OffsetDateTime, ComponentRange>
        ensures accepted { IsOk result ↔ IsTimestampSecond timestamp }
        ensures value { IfOk result (λ t. t ≡ in_utc (utc_date_and_time (at_second timestamp))) }
        ensures refusal { IfErr result (λ e. range_refusal e
            ≡ unconditional_range (codes "timestamp")) }
    {
        match UtcDateTime::from_unix_timestamp(timestamp) {
            Ok(shown) => Ok(OffsetDateTime::from(shown)),
            Err(refusal) => Err(refusal),
        }
    }

    /// Returns the moment of this many nanoseconds since 1970-01-01T00:00:00 UTC, in UTC.
    ///
    /// # Errors
    ///
    /// A number outside the range of [`Timestamp`] is refused as `timestamp`.
    pub fn from_unix_timestamp_nanos(timestamp: i128) -> Result<OffsetDateTime, ComponentRange>
        ensures accepted { IsOk result ↔ IsTimestampNanosecond timestamp }
        ensures value { IfOk result (λ t. nanoseconds (local_moment t) ≡ timestamp) }
        ensures offset { IfOk result (λ t. t.offset ≡ utc) }
        ensures refusal { IfErr result (λ e. range_refusal e
            ≡ unconditional_range (codes "timestamp")) }
    {
        match UtcDateTime::from_unix_timestamp_nanos(timestamp) {
            Ok(shown) => Ok(OffsetDateTime::from(shown)),
            Err(refusal) => Err(refusal),
        }
    }

    /// Returns the nanoseconds since 1970-01-01T00:00:00 UTC, at most 23 digits, less than 26 hours
    /// outside the range of `Timestamp`.
    pub fn unix_timestamp_nanos(self) -> i128
        ensures value { result ≡ nanoseconds (local_moment self) }
        ensures range { unsigned_abs result < 10 ^ 23 }
    {
        moment::nanoseconds(self.unix_timestamp(), self.time.nanosecond())
    }

    /// Returns the same moment by clocks at this offset.
    ///
    /// The caller knows that their year is in range:
    /// [`checked_to_offset`](OffsetDateTime::checked_to_offset) tests it.
    pub fn to_offset(self, offset: UtcOffset) -> OffsetDateTime
        requires { IsTimestampSecond (local_unix_seconds self +ℤ offset_seconds offset) }
        ensures value { result ≡ local_at (local_moment self) offset }
        ensures moment { local_moment result ≡ local_moment self }
    {
        match self.checked_to_offset(offset) {
            Some(shown) => shown,
            None => unreachable!(),
        }
    }

    /// Returns the same moment by clocks at this offset, or `None` where their year is outside
    /// -999,999 to 999,999.
    pub fn checked_to_offset(self, offset: UtcOffset) -> Option<OffsetDateTime>
        ensures accepted { IsSome result
            ↔ IsTimestampSecond (local_unix_seconds self +ℤ offset_seconds offset) }
        ensures value { IfSome result (λ t. t ≡ local_at (local_moment self) offset) }
        ensures moment { IfSome result (λ t. local_moment t ≡ local_moment self) }
    {
        moment::checked_at_offset(self.unix_timestamp(), self.time.nanosecond(), offset)
    }

    /// Returns the date and time in UTC.
    ///
    /// The caller knows that their year is in range:
    /// [`checked_to_utc`](OffsetDateTime::checked_to_utc) tests it.
    pub fn to_utc(self) -> UtcDateTime
        requires { IsTimestampSecond (local_unix_seconds self) }
        ensures { result ≡ utc_date_and_time (local_moment self) }
    {
        let nanosecond = self.time.nanosecond();
        UtcDateTime::from(Timestamp::from_valid_parts(self.unix_timestamp(), nanosecond))
    }

    /// Returns the date and time in UTC, or `None` where their year is outside -999,999 to 999,999.
    pub fn checked_to_utc(self) -> Option<UtcDateTime>
        ensures accepted { IsSome result ↔ IsTimestampSecond (local_unix_seconds self) }
        ensures value { IfSome result (λ t. t ≡ utc_date_and_time (local_moment self)) }
    {
        match Timestamp::try_from(self) {
            Ok(moment) => Some(UtcDateTime::from(moment)),
            Err(_) => None,
        }
    }
}
