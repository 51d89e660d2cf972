//! The parts of a value that a text is made of, one after another.
ghost use Rattle.std.specs.Prelude.{◌≡◌, ◌≢◌, IfSome, OnOk};
ghost use Rattle.time_fmt.specs.Ends.{Ends};
ghost use Rattle.time_fmt.specs.Outcome.{AppendsUpTo};
ghost use Rattle.time_fmt.specs.Room.{HasRoom};
ghost use Rattle.time_fmt.specs.Sink.{Fits};
ghost use Rattle.time_known.specs.Iso8601.{iso8601_outcome};
ghost use Rattle.time_known.specs.Iso8601Parts.{IsRealWhole, SuppliesParts};
ghost use Rattle.time_known.specs.Iso8601Width.{iso8601_width};
ghost use Rattle.time_known.specs.UsualText.{choices_of};

use crate::fields::{offset_of, time_of};
use crate::iso8601::config::{Config, FormattedComponents, Usual};
use crate::iso8601::date::put_date;
use crate::iso8601::offset::put_offset;
use crate::iso8601::time::put_time;
use crate::iso8601::usual_text::append_usual;
use time_fmt::writers::{put_back, take_out};
use time_fmt::{Format, Refused, Sink};
use time_provide::ComponentProvider;

/// Puts the parts of the value that the configuration formats, one after another, up to what has no
/// place.
pub fn put_parts<S: Sink, V: ComponentProvider>(
    output: &mut S,
    config: &Config,
    value: &V,
    state: &mut V::State,
) -> Result<(), Refused>
    requires some { config.now.formatted_components ≢ FormattedComponents.None }
    requires supplied { SuppliesParts config.now V.SUPPLIES_DATE V.SUPPLIES_TIME V.SUPPLIES_OFFSET }
    requires room { Fits (S.buffer output.old) (iso8601_width config.now) }
    requires agrees { V.agrees state.old value.now }
    ensures ends { Ends (iso8601_width config.now) (S.buffer output.old)
        (S.buffer output.new) result
        (iso8601_outcome config.now (V.facts value.now)) }
    ensures real { OnOk result (IsRealWhole config.now (V.facts value.now)) }
    ensures agrees { V.agrees state.new value.now }
{
    if config.has_date() {
        put_date(output, config, value, state)?;
    }
    if config.has_time() {
        put_time(output, config, time_of(value, state));
    }
    if config.has_offset() {
        put_offset(output, config, offset_of(value))?;
    }
    Ok(())
}

/// Appends the text of a value that supplies the groups of the configuration, and returns the number
/// of bytes appended.
pub(super) fn append_text<V: ComponentProvider>(
    output: &mut Vec<u8>,
    config: &Config,
    usual: Option<Usual>,
    value: &V,
    state: &mut V::State,
) -> Result<usize, Format>
    requires some { config.now.formatted_components ≢ FormattedComponents.None }
    requires usual { IfSome usual (λ u. config.now ≡ choices_of u) }
    requires supplied { SuppliesParts config.now V.SUPPLIES_DATE V.SUPPLIES_TIME V.SUPPLIES_OFFSET }
    requires room { HasRoom output.old (iso8601_width config.now) }
    requires agrees { V.agrees state.old value.now }
    ensures appends { AppendsUpTo (iso8601_width config.now) output.old output.new result
        (iso8601_outcome config.now (V.facts value.now)) }
    ensures real { OnOk result (IsRealWhole config.now (V.facts value.now)) }
    ensures agrees { V.agrees state.new value.now }
{
    if let Some(usual) = usual {
        if let Some(count) = append_usual(output, usual, value, state) {
            return Ok(count);
        }
    }
    append_parts(output, config, value, state)
}

// Appends the parts of the value that the configuration formats, one after another.
fn append_parts<V: ComponentProvider>(
    output: &mut Vec<u8>,
    config: &Config,
    value: &V,
    state: &mut V::State,
) -> Result<usize, Format>
    requires some { config.now.formatted_components ≢ FormattedComponents.None }
    requires supplied { SuppliesParts config.now V.SUPPLIES_DATE V.SUPPLIES_TIME V.SUPPLIES_OFFSET }
    requires room { HasRoom output.old (iso8601_width config.now) }
    requires agrees { V.agrees state.old value.now }
    ensures appends { AppendsUpTo (iso8601_width config.now) output.old output.new result
        (iso8601_outcome config.now (V.facts value.now)) }
    ensures real { OnOk result (IsRealWhole config.now (V.facts value.now)) }
    ensures agrees { V.agrees state.new value.now }
{
    let mut taken = take_out(output);
    let begin = taken.len();
    let answer = put_parts(&mut taken, config, value, state);
    let count = taken.len() - begin;
    put_back(output, taken);
    answer?;
    Ok(count)
}
