//! The offset from UTC of a text of ISO 8601-1:2019, sections 5.3.3 and 5.3.4.
ghost use Rattle.std.specs.Prelude.{IsTrue};
ghost use Rattle.time_below.specs.Facts.{the_offset};
ghost use Rattle.time_fmt.specs.Ends.{Ends};
ghost use Rattle.time_fmt.specs.Outcome.{AppendsUpTo};
ghost use Rattle.time_fmt.specs.Room.{HasRoom};
ghost use Rattle.time_fmt.specs.Sink.{Fits};
ghost use Rattle.time_provide.specs.Real.{AgreesOnOffset};
ghost use Rattle.time_known.specs.Iso8601.{iso_offset};
ghost use Rattle.time_known.specs.Iso8601Width.{iso_offset_width};

use crate::fields::offset_of;
use crate::iso8601::config::{Config, OffsetPrecision};
use crate::put::{offset_minutes, put_offset_hours};
use time_below::UtcOffset;
use time_fmt::writers::{put_back, take_out, write, write_if};
use time_fmt::{Format, Refused, Sink};
use time_provide::ComponentProvider;

/// Appends the offset, whether or not the configuration formats offsets, and allocates nothing.
///
/// The offset is `Z` for UTC if the configuration formats a time, else the difference from UTC. The
/// output needs spare capacity for [`offset_width`](Config::offset_width). Returns the number of
/// bytes appended.
///
/// # Errors
///
/// A second is refused before any byte, and a minute that the precision leaves out after the hour.
pub fn format_offset<V: ComponentProvider>(
    config: &Config,
    output: &mut Vec<u8>,
    value: &V,
    state: &mut V::State,
) -> Result<usize, Format>
    requires supplied { IsTrue V.SUPPLIES_OFFSET }
    requires room { HasRoom output.old (iso_offset_width config.now) }
    requires agrees { V.agrees state.old value.now }
    ensures appends { AppendsUpTo (iso_offset_width config.now) output.old output.new result
        (iso_offset config.now (the_offset (V.facts value.now))) }
    ensures agrees { AgreesOnOffset (V.agrees state.new value.now) (V.facts value.now) }
{
    let offset = offset_of(value);
    let mut taken = take_out(output);
    let begin = taken.len();
    let answer = put_offset(&mut taken, config, offset);
    let count = taken.len() - begin;
    put_back(output, taken);
    answer?;
    Ok(count)
}

/// Puts `Z` for UTC where there is a time, else the sign, the hours and the minutes. Where the
/// configuration has no minutes, they are refused unless zero.
#[tactic(auto, using(crate::proofs::LengthLemmas::joined_lengths))]
pub(super) fn put_offset<S: Sink>(
    output: &mut S,
    config: &Config,
    offset: UtcOffset,
) -> Result<(), Refused>
    requires room { Fits (S.buffer output.old) (iso_offset_width config.now) }
    ensures ends { Ends (iso_offset_width config.now) (S.buffer output.old)
        (S.buffer output.new) result (iso_offset config.now offset) }
{
    if config.has_time() && offset.is_utc() {
        write(output, "Z");
        return Ok(());
    }
    let (_, minutes, seconds) = offset.as_hms();
    if seconds != 0 {
        return Err(Refused::InvalidOffsetSecond);
    }
    put_offset_hours(output, offset);
    match config.offset_precision() {
        OffsetPrecision::Minute => {
            write_if(output, config.use_separators(), ":");
            write(output, offset_minutes(offset));
            Ok(())
        }
        OffsetPrecision::Hour => {
            if minutes != 0 {
                return Err(Refused::InvalidOffsetMinute);
            }
            Ok(())
        }
    }
}
