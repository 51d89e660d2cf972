//! The moment that a clock shows, and the offset of a zone at a moment.
ghost use Rattle.std.specs.Prelude.{◌≡◌, ◌↔◌, pos, ◌≤ℤ◌, IfErr, IfOk, IsOk};
ghost use Rattle.jiff.specs.ZoneView.{plain_zone};
ghost use Rattle.jiff_core.specs.Timestamp.{IsTimestampNanos};
ghost use Rattle.time_jiff.specs.Local.{HasOffsetAt, HasOffsetSince1970, IsShownIn};
ghost use Rattle.time_jiff.specs.Same.{local_nanoseconds};

use crate::{jiff_instant, nanoseconds_at, offset, timestamp};
use jiff::tz::TimeZone;
use jiff_core::Error;
use jiff_core::error::Bound;
use std::time::Clock;
use time_below::{OffsetDateTime, UtcOffset};

/// The date and time of an instant by the clock of the zone, with its offset.
fn shown_in(instant: jiff::Timestamp, zone: &TimeZone<'_>) -> OffsetDateTime
    ensures moment { local_nanoseconds result ≡ instant.nanosecond }
    ensures offset { IsShownIn (plain_zone zone.now) result }
{
    match timestamp(instant).checked_to_offset(offset(zone.to_offset(instant))) {
        Some(shown) => shown,
        None => unreachable!(),
    }
}

/// A date and time that a clock shows in a zone.
pub trait NowLocal: Sized {
    /// The date and time that the clock shows now in the zone.
    fn now_local<C: Clock>(clock: &C, zone: &TimeZone<'_>) -> Result<Self, Error>;
}

impl NowLocal for OffsetDateTime {
    /// The date and time that the clock shows now in the zone, with the offset of the zone at that
    /// moment.
    ///
    /// A clock that cannot be read is an error of its kind. One that shows a moment outside the
    /// range of `jiff`, which ends at 9999-12-30T22:00:00.999999999Z, is refused by a range of
    /// `jiff`.
    fn now_local<C: Clock>(clock: &C, zone: &TimeZone<'_>) -> Result<OffsetDateTime, Error>
        ensures since_1970 { IfOk result (λ t. pos 0 ≤ℤ local_nanoseconds t) }
        ensures offset { IfOk result (IsShownIn (plain_zone zone.now)) }
    {
        match jiff::Timestamp::now(clock) {
            Ok(instant) => Ok(shown_in(instant, zone)),
            Err(error) => Err(error),
        }
    }
}

/// An offset that a zone has.
pub trait LocalOffset: Sized {
    /// The offset that the zone has at the moment that the clock shows now.
    fn current_local_offset<C: Clock>(clock: &C, zone: &TimeZone<'_>) -> Result<Self, Error>;

    /// The offset that the zone has at the moment.
    fn local_offset_at(moment: OffsetDateTime, zone: &TimeZone<'_>) -> Result<Self, Error>;
}

impl LocalOffset for UtcOffset {
    /// The offset that the zone has at the moment that the clock shows now. The errors are those of
    /// [`now_local`](NowLocal::now_local).
    fn current_local_offset<C: Clock>(clock: &C, zone: &TimeZone<'_>) -> Result<UtcOffset, Error>
        ensures { IfOk result (HasOffsetSince1970 (plain_zone zone.now)) }
    {
        match OffsetDateTime::now_local(clock, zone) {
            Ok(shown) => Ok(shown.offset()),
            Err(error) => Err(error),
        }
    }

    /// The offset that the zone has at the moment, if `jiff` has the moment: from
    /// -9999-01-02T01:59:59Z to 9999-12-30T22:00:00.999999999Z. Any other is refused by its Unix
    /// seconds.
    fn local_offset_at(moment: OffsetDateTime, zone: &TimeZone<'_>) -> Result<UtcOffset, Error>
        ensures succeeds { IsOk result ↔ IsTimestampNanos (local_nanoseconds moment) }
        ensures offset { IfOk result
            (HasOffsetAt (plain_zone zone.now) (local_nanoseconds moment)) }
        ensures error { IfErr result (λ e. e ≡ Error.Range Bound.UnixEpochSeconds) }
    {
        match jiff_instant(nanoseconds_at(moment)) {
            Ok(instant) => Ok(offset(zone.to_offset(instant))),
            Err(error) => Err(error),
        }
    }
}
