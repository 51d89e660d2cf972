//! The components of an offset from UTC.
#![tactic(auto, using(crate::proofs::TextLemmas::text_lengths))]

ghost use Rattle.std.specs.Prelude.{length, unsigned_abs};
ghost use Rattle.time_below.specs.declared.format_description.component.Component.TheVariants as component;
ghost use Rattle.time_fmt.specs.Kind.{kind_text, offset_hour};
ghost use Rattle.time_fmt.specs.Sink.{Fits, Puts};
ghost use Rattle.time_fmt.specs.Text.{padded_text};

use crate::modifier::Modifier;
use crate::refused::Refused;
use crate::sink::Sink;
use crate::writers::digits::{fmt_sign, write_two_rarely};
use crate::writers::plain::write_pair;
use time_below::format_description::modifier::Padding;
use time_below::format_description::{Component, modifier};
use time_digits::num_fmt::magnitude_zero_padded;
use time_digits::ri8;
use time_provide::ComponentProvider;
use time_provide::ranges::{OffsetHours, OffsetMinutes, OffsetSeconds};

/// Appends the hour of the offset, 0 to 25, padded to two places as `modifier` says, after a sign
/// if the whole offset is negative or `modifier` wants one.
#[tactic(auto, using(crate::proofs::TextLemmas::signed_lengths))]
#[inline(always)]
pub fn fmt_offset_hour<S: Sink>(
    output: &mut S,
    is_negative: bool,
    hour: OffsetHours,
    modifier: modifier::OffsetHour,
) -> usize
    requires room { Fits (S.buffer output.old)
        (length (kind_text
        (offset_hour modifier.padding modifier.sign_is_mandatory is_negative hour))) }
    ensures writes { Puts (S.buffer output.old) (S.buffer output.new) result
        (kind_text (offset_hour modifier.padding modifier.sign_is_mandatory is_negative hour)) }
{
    let _room = output.room();
    let sign = fmt_sign(output, is_negative, modifier.sign_is_mandatory);
    sign + write_magnitude(output, hour.expand(), modifier.padding)
}

impl Modifier for modifier::OffsetHour {
    ghost component_of = { component.OffsetHour };

    fn component(self) -> Component {
        Component::OffsetHour(self)
    }

    #[tactic(auto, using(crate::proofs::TextLemmas::signed_lengths))]
    #[inline(always)]
    fn write<S: Sink, V: ComponentProvider>(
        self,
        output: &mut S,
        value: &V,
        state: &mut V::State,
    ) -> Result<(), Refused> {
        let is_negative = value.offset_is_negative(state);
        fmt_offset_hour(output, is_negative, value.offset_hour(state), self);
        Ok(())
    }
}

/// Appends the minute of the offset, 0 to 59, without a sign, padded to two places as `modifier`
/// says.
#[inline(always)]
pub fn fmt_offset_minute<S: Sink>(
    output: &mut S,
    minute: OffsetMinutes,
    modifier: modifier::OffsetMinute,
) -> usize
    requires room { Fits (S.buffer output.old)
        (length (padded_text modifier.padding 2 (unsigned_abs minute))) }
    ensures writes { Puts (S.buffer output.old) (S.buffer output.new) result
        (padded_text modifier.padding 2 (unsigned_abs minute)) }
{
    write_magnitude(output, minute, modifier.padding)
}

impl Modifier for modifier::OffsetMinute {
    ghost component_of = { component.OffsetMinute };

    fn component(self) -> Component {
        Component::OffsetMinute(self)
    }

    #[inline(always)]
    fn write<S: Sink, V: ComponentProvider>(
        self,
        output: &mut S,
        value: &V,
        state: &mut V::State,
    ) -> Result<(), Refused> {
        fmt_offset_minute(output, value.offset_minute(state), self);
        Ok(())
    }
}

/// Appends the second of the offset, 0 to 59, without a sign, padded to two places as `modifier`
/// says.
pub fn fmt_offset_second<S: Sink>(
    output: &mut S,
    second: OffsetSeconds,
    modifier: modifier::OffsetSecond,
) -> usize
    requires room { Fits (S.buffer output.old)
        (length (padded_text modifier.padding 2 (unsigned_abs second))) }
    ensures writes { Puts (S.buffer output.old) (S.buffer output.new) result
        (padded_text modifier.padding 2 (unsigned_abs second)) }
{
    write_magnitude(output, second, modifier.padding)
}

impl Modifier for modifier::OffsetSecond {
    ghost component_of = { component.OffsetSecond };

    fn component(self) -> Component {
        Component::OffsetSecond(self)
    }

    fn write<S: Sink, V: ComponentProvider>(
        self,
        output: &mut S,
        value: &V,
        state: &mut V::State,
    ) -> Result<(), Refused> {
        fmt_offset_second(output, value.offset_second(state), self);
        Ok(())
    }
}

// Appends a part of an offset without its sign, in two places. Mostly it has zeros in front, and
// then no sign is taken away.
#[inline(always)]
fn write_magnitude<S: Sink>(output: &mut S, part: ri8<59>, padding: Padding) -> usize
    requires room { Fits (S.buffer output.old) (length (padded_text padding 2 (unsigned_abs part))) }
    ensures writes { Puts (S.buffer output.old) (S.buffer output.new) result
        (padded_text padding 2 (unsigned_abs part)) }
{
    match padding {
        Padding::Zero => write_pair(output, magnitude_zero_padded(part)),
        rare => write_two_rarely(output, part.abs().expand(), rare),
    }
}
