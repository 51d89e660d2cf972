//! Conversions between moments, dates and times in UTC, and local ones.
ghost use Rattle.std.specs.Prelude.{◌≡◌};
ghost use Rattle.time_below.specs.InUtc.{IsInUtcOf, IsMomentOf};
ghost use Rattle.time_below.specs.Moment.{IsMoment, in_utc, local_moment, moment_of};
ghost use Rattle.time_below.specs.Moment.{utc_date_and_time};

use crate::component_range::ComponentRange;
use crate::offset_date_time::OffsetDateTime;
use crate::timestamp::Timestamp;
use crate::utc_date_time::UtcDateTime;
use std::convert::TryFrom;

impl From<UtcDateTime> for Timestamp {
    ghost from_gives = { λ shown moment. moment ≡ moment_of shown };

    /// The moment.
    fn from(shown: UtcDateTime) -> Timestamp
        ensures value { result ≡ moment_of shown }
        ensures range { IsMoment result }
    {
        Timestamp::from_valid_parts(shown.unix_timestamp(), shown.time().nanosecond())
    }
}

impl From<Timestamp> for UtcDateTime {
    ghost from_gives = { λ moment shown. shown ≡ utc_date_and_time moment };

    /// The date and time in UTC.
    fn from(moment: Timestamp) -> UtcDateTime
        ensures value { result ≡ utc_date_and_time moment }
        ensures moment { moment_of result ≡ moment }
    {
        UtcDateTime::new(moment.date(), moment.time())
    }
}

impl From<UtcDateTime> for OffsetDateTime {
    ghost from_gives = { λ shown local. local ≡ in_utc shown };

    /// The date and time in UTC, with the offset of UTC.
    fn from(shown: UtcDateTime) -> OffsetDateTime
        ensures value { result ≡ in_utc shown }
        ensures moment { local_moment result ≡ moment_of shown }
    {
        OffsetDateTime::new_utc(shown.date(), shown.time())
    }
}

impl From<Timestamp> for OffsetDateTime {
    ghost from_gives = { λ moment local. local ≡ in_utc (utc_date_and_time moment) };

    /// The date and time in UTC, with the offset of UTC.
    fn from(moment: Timestamp) -> OffsetDateTime
        ensures value { result ≡ in_utc (utc_date_and_time moment) }
        ensures moment { local_moment result ≡ moment }
    {
        OffsetDateTime::from(UtcDateTime::from(moment))
    }
}

/// The moment. A local date and time whose year in UTC is outside -999,999 to 999,999 is refused as
/// the component `year`.
impl TryFrom<OffsetDateTime> for Timestamp {
    type Error = ComponentRange;

    ghost try_from_gives = { IsMomentOf };

    fn try_from(local: OffsetDateTime) -> Result<Timestamp, ComponentRange> {
        match Timestamp::new(local.unix_timestamp(), local.time().nanosecond()) {
            Ok(moment) => Ok(moment),
            Err(_) => Err(ComponentRange::unconditional("year")),
        }
    }
}

/// The date and time in UTC. A local date and time whose year in UTC is outside -999,999 to 999,999
/// is refused as the component `year`.
impl TryFrom<OffsetDateTime> for UtcDateTime {
    type Error = ComponentRange;

    ghost try_from_gives = { IsInUtcOf };

    fn try_from(local: OffsetDateTime) -> Result<UtcDateTime, ComponentRange> {
        match Timestamp::try_from(local) {
            Ok(moment) => Ok(UtcDateTime::from(moment)),
            Err(refusal) => Err(refusal),
        }
    }
}
