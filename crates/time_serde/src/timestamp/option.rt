//! Moments that may be absent.
ghost use Rattle.std.specs.Prelude.{ℤ, IfOk, MatchOption, OnOk};
ghost use Rattle.serde.specs.Event.{Sends, WritesOption, nothing, signed};
ghost use Rattle.serde.specs.Steps.{Begins, Gives};
ghost use Rattle.time_below.specs.Moment.{local_unix_seconds};
ghost use Rattle.time_serde.specs.Moments.{IsAtSecond};

use crate::moments::Moment;
use serde::{Deserializer, Format, Serializer};
use std::alloc::Global;

/// Writes the moment, if there is one, as [`serialize`](super::serialize) does, and else a unit, as
/// `null` in JSON.
pub fn serialize<T: Moment, S: Serializer>(moment: &Option<T>, out: &mut S) -> Result<(), S::Error>
    ensures { OnOk result (WritesOption (λ m. Sends (signed (local_unix_seconds (T.local m))))
        moment.now (S.written out.old) (S.written out.new)) }
{
    match moment {
        Some(moment) => super::serialize(moment, out),
        None => out.unit(),
    }
}

/// Reads the moment, if there is one, as [`deserialize`](super::deserialize) does.
pub fn deserialize<'de, T: Moment, F: Format>(
    alloc: Global,
    from: &mut Deserializer<'de, '_, F>,
) -> Result<Option<T>, F::Error>
    ensures { IfOk result (λ read. MatchOption read (Gives F.gives from.old nothing from.new)
        (λ moment. (second : ℤ) × Begins F.gives F.stays from.old (signed second) from.new
        × IsAtSecond T.has_moment T.of_local second moment)) }
{
    if from.take_none()? {
        return Ok(None);
    }
    let moment = super::deserialize(alloc, from)?;
    Ok(Some(moment))
}
