//! The text that a configuration writes of a value, compared with another one.
ghost use Rattle.std.specs.Prelude.{◌≡◌, ◌≤◌, ◌↔◌, IfNone, IfSome, IsNone, IsTrue, length, take};
ghost use Rattle.time_fmt.specs.Outcome.{done};
ghost use Rattle.time_known.specs.Iso8601.{iso8601_outcome};
ghost use Rattle.time_known.specs.Iso8601Parts.{SuppliesParts};
ghost use Rattle.time_known.specs.Iso8601Width.{iso8601_width};

use crate::fault::Unexpected;
use crate::written::{first_difference, no_value};
use std::default::Default;
use std::marker::Brand;
use time_fmt::{ComponentProvider, OldBytes, SliceSink};
use time_known::iso8601::{Config, put_parts};

/// The most bytes of a text by any configuration.
const ROOM: usize = 284;

/// The first of the date, the time of day and the offset, from 0, that texts of a configuration show
/// and no value of a type has.
pub(super) fn unsupplied<V: ComponentProvider>(config: &Config) -> Option<usize>
    ensures none { IsNone result
        ↔ SuppliesParts config.now V.SUPPLIES_DATE V.SUPPLIES_TIME V.SUPPLIES_OFFSET }
{
    if supplies::<V>(config) {
        None
    } else if config.has_date() && !V::SUPPLIES_DATE {
        Some(0)
    } else if config.has_time() && !V::SUPPLIES_TIME {
        Some(1)
    } else {
        Some(2)
    }
}

/// Whether values of a type have what texts of a configuration show.
fn supplies<V: ComponentProvider>(config: &Config) -> bool
    ensures { IsTrue result
        ↔ SuppliesParts config.now V.SUPPLIES_DATE V.SUPPLIES_TIME V.SUPPLIES_OFFSET }
{
    (V::SUPPLIES_DATE || !config.has_date())
        && (V::SUPPLIES_TIME || !config.has_time())
        && (V::SUPPLIES_OFFSET || !config.has_offset())
}

/// The first byte at which a text is not that of the value by the configuration, if there is one.
pub(super) fn difference<V: ComponentProvider>(
    config: &Config,
    text: &[u8],
    value: &V,
) -> Option<Unexpected>
where
    V::State: Drop,
    ensures same { IfNone result (iso8601_outcome config.now (V.facts value.now) ≡ done text.now) }
{
    let mut room = [0u8; ROOM];
    if ROOM < config.width() {
        return Some(no_value(text));
    }
    let Some(count) = written::<Brand, V>(config, &mut room, value) else {
        return Some(no_value(text));
    };
    first_difference(&room[..count], text)
}

/// Writes the text of a value to the start of a buffer, and returns the number of its bytes, or
/// nothing if the value is refused.
fn written<B: OldBytes, V: ComponentProvider>(
    config: &Config,
    room: &mut [u8],
    value: &V,
) -> Option<usize>
where
    V::State: Drop,
    requires before { room.old ≡ B.before }
    requires room { iso8601_width config.now ≤ length room.old }
    ensures text { IfSome result (λ count. iso8601_outcome config.now (V.facts value.now)
        ≡ done (take count room.new)) }
    ensures within { IfSome result (λ count. count ≤ length room.new) }
{
    if config.formats_nothing() || !supplies::<V>(config) {
        return None;
    }
    let mut state = V::State::default();
    let mut sink = SliceSink::<B>::new(room);
    match put_parts(&mut sink, config, value, &mut state) {
        Ok(()) => Some(sink.len()),
        Err(_) => None,
    }
}
