//! Moments by their seconds since 1970 and a nanosecond, for each type that holds them.
ghost use Rattle.std.specs.Prelude.{◌≡◌, ◌↔◌, ◌<◌, ◌^◌, ◌+ℤ◌, IsSome, IfSome, unsigned_abs};
ghost use Rattle.time_below.specs.Moment.{IsMoment, IsNearMoment, IsNearTimestampSecond};
ghost use Rattle.time_below.specs.Moment.{IsTimestampSecond, IsTimestampNanosecond, local_at};
ghost use Rattle.time_below.specs.Moment.{local_moment, milliseconds};
ghost use Rattle.time_below.specs.Moment.{nanoseconds as nanoseconds_of};
ghost use Rattle.time_below.specs.Offset.{offset_seconds};

use crate::offset_date_time::OffsetDateTime;
use crate::timestamp::{SECONDS_BEFORE, Timestamp};
use crate::utc_offset::UtcOffset;

// The nanoseconds of a second.
const SECOND: i128 = 1_000_000_000;

/// Returns the milliseconds since 1970-01-01T00:00:00 UTC, rounded toward zero, at most 17 digits.
///
/// The moment is given by its whole seconds rounded down, less than 26 hours outside the range of
/// `Timestamp`, and the nanosecond 0 to 999,999,999 counted forward from there.
pub fn milliseconds(seconds: i64, nanosecond: u32) -> i64
    requires { IsNearMoment (record { seconds = seconds; nanosecond = nanosecond }) }
    ensures value { result
        ≡ milliseconds (record { seconds = seconds; nanosecond = nanosecond }) }
    ensures range { unsigned_abs result < 100_000_000_000_000_000 }
{
    if seconds >= 0 {
        seconds * 1000 + (nanosecond / 1_000_000) as i64
    } else {
        seconds * 1000 + ((nanosecond + 999_999) / 1_000_000) as i64
    }
}

/// Returns the nanoseconds since 1970-01-01T00:00:00 UTC, at most 23 digits, of a moment given as
/// for [`milliseconds`].
pub fn nanoseconds(seconds: i64, nanosecond: u32) -> i128
    requires { IsNearMoment (record { seconds = seconds; nanosecond = nanosecond }) }
    ensures value { result
        ≡ nanoseconds_of (record { seconds = seconds; nanosecond = nanosecond }) }
    ensures range { unsigned_abs result < 10 ^ 23 }
{
    SECOND * seconds as i128 + nanosecond as i128
}

// The whole seconds rounded down, and the nanosecond counted forward from there, of the nanoseconds
// since 1970 that a `Timestamp` may have.
#[tactic(auto, using(crate::proofs::MomentLemmas::nanoseconds_split))]
pub(crate) fn split(nanoseconds: i128) -> (i64, u32)
    requires { IsTimestampNanosecond nanoseconds }
    ensures range { IsMoment (record { seconds = result.0; nanosecond = result.1 }) }
    ensures value { nanoseconds_of (record { seconds = result.0; nanosecond = result.1 })
        ≡ nanoseconds }
{
    let from_start = (nanoseconds + SECOND * SECONDS_BEFORE as i128) as u128;
    let seconds = (from_start / SECOND as u128) as i64;
    (
        seconds - SECONDS_BEFORE,
        (from_start % SECOND as u128) as u32,
    )
}

// The seconds since 1970 at which a clock of UTC shows what clocks at this offset show.
fn clock_seconds(seconds: i64, offset: UtcOffset) -> i64
    requires { IsNearTimestampSecond seconds }
    ensures value { result ≡ seconds +ℤ offset_seconds offset }
    ensures range { unsigned_abs result < 2 ^ 62 }
{
    seconds + offset.whole_seconds() as i64
}

// The date and time of a moment by clocks at this offset, and the offset, where their year is in
// range. The moment is given as for `milliseconds`.
pub(crate) fn checked_at_offset(
    seconds: i64,
    nanosecond: u32,
    offset: UtcOffset,
) -> Option<OffsetDateTime>
    requires { IsNearMoment (record { seconds = seconds; nanosecond = nanosecond }) }
    ensures accepted { IsSome result ↔ IsTimestampSecond (seconds +ℤ offset_seconds offset) }
    ensures value { IfSome result (λ t. t
        ≡ local_at (record { seconds = seconds; nanosecond = nanosecond }) offset) }
    ensures moment { IfSome result (λ t. local_moment t
        ≡ record { seconds = seconds; nanosecond = nanosecond }) }
{
    match Timestamp::new(clock_seconds(seconds, offset), nanosecond) {
        Ok(shown) => Some(OffsetDateTime::new_in_offset(shown.date(), shown.time(), offset)),
        Err(_) => None,
    }
}
