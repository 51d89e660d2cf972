//! Moments that may be absent.
ghost use Rattle.std.specs.Prelude.{IfOk, MatchOption, OnOk};
ghost use Rattle.serde.specs.Event.{WritesOption, nothing};
ghost use Rattle.serde.specs.Steps.{Gives};
ghost use Rattle.time_known.specs.Rfc3339.{rfc3339_of};
ghost use Rattle.time_known.specs.Rfc3339Grammar.{Rfc3339Spells};
ghost use Rattle.time_serde.specs.Events.{IsReadFrom, WritesText};
ghost use Rattle.time_serde.specs.Moments.{IsValueAt};

use crate::moments::Moment;
use serde::{Deserializer, Format, Serializer};
use std::alloc::Global;

/// Writes the moment, if there is one, as [`serialize`](super::serialize) does, and else a unit, as
/// `null` in JSON.
pub fn serialize<T: Moment, S: Serializer>(moment: &Option<T>, out: &mut S) -> Result<(), S::Error>
    ensures { OnOk result (WritesOption (λ m. WritesText (rfc3339_of (T.local m)))
        moment.now (S.written out.old) (S.written out.new)) }
{
    match moment {
        Some(moment) => super::serialize(moment, out),
        None => out.unit(),
    }
}

/// Reads the moment, if there is one, as [`deserialize`](super::deserialize) does.
pub fn deserialize<'de, T: Moment, F: Format>(
    alloc: Global,
    from: &mut Deserializer<'de, '_, F>,
) -> Result<Option<T>, F::Error>
    ensures { IfOk result (λ read. MatchOption read (Gives F.gives from.old nothing from.new)
        (λ moment. IsReadFrom F.gives (λ v text. Rfc3339Spells v text
        × IsValueAt T.has_moment T.of_local v moment))) }
{
    if from.take_none()? {
        return Ok(None);
    }
    let moment = super::deserialize(alloc, from)?;
    Ok(Some(moment))
}
