//! Moments as Unix time, in whole seconds.
ghost use Rattle.std.specs.Prelude.{◌≡◌, ◌↔◌, ℤ, IfOk, IfSome, IsSome, OnOk};
ghost use Rattle.serde.specs.Event.{Logs, signed};
ghost use Rattle.serde.specs.Steps.{Gives};
ghost use Rattle.time_below.specs.Moment.{IsTimestampSecond, local_unix_seconds};
ghost use Rattle.time_serde.specs.Moments.{IsAtSecond, second_in_utc};

use crate::moments::Moment;
use crate::words::out_of_range;
use serde::{Deserialize, Deserializer, Format, Serializer};
use std::alloc::Global;
use time_below::{OffsetDateTime, Timestamp};

pub mod option;

/// The date and time in UTC of this second since 1970, if its year is from -999,999 to 999,999.
fn second_in_utc(second: i64) -> Option<OffsetDateTime>
    ensures succeeds { IsSome result ↔ IsTimestampSecond second }
    ensures value { IfSome result (λ t. t ≡ second_in_utc second) }
{
    match Timestamp::new(second, 0) {
        Ok(moment) => Some(moment.to_local()),
        Err(_) => None,
    }
}

/// Writes the whole seconds since 1970-01-01T00:00:00 UTC, rounded down.
pub fn serialize<T: Moment, S: Serializer>(moment: &T, out: &mut S) -> Result<(), S::Error>
    ensures { OnOk result (Logs (S.written out.old) (S.written out.new)
        (signed (local_unix_seconds (T.local moment.now)))) }
{
    out.i64(moment.to_local().unix_timestamp())
}

/// Reads the moment, in UTC, from its whole seconds since 1970-01-01T00:00:00 UTC.
///
/// A number outside -31,619,087,596,800 to 31,494,784,780,799, whose year is outside -999,999 to
/// 999,999, is an error of the format, whose message names the seconds.
pub fn deserialize<'de, T: Moment, F: Format>(
    alloc: Global,
    from: &mut Deserializer<'de, '_, F>,
) -> Result<T, F::Error>
    ensures { IfOk result (λ moment. (second : ℤ) × Gives F.gives from.old (signed second) from.new
        × IsAtSecond T.has_moment T.of_local second moment) }
{
    let second = i64::deserialize(alloc, from)?;
    let Some(local) = second_in_utc(second) else {
        return Err(from.custom(out_of_range().as_str()));
    };
    match T::from_local(local) {
        Some(moment) => Ok(moment),
        None => Err(from.custom(out_of_range().as_str())),
    }
}
