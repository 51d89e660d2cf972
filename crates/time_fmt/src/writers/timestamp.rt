//! The seconds and milliseconds since 1970-01-01T00:00:00 UTC.
#![tactic(auto, using(crate::proofs::TextLemmas::signed_lengths))]

ghost use Rattle.std.specs.Prelude.{length};
ghost use Rattle.time_below.specs.declared.format_description.component.Component.TheVariants as component;
ghost use Rattle.time_fmt.specs.Kind.{kind_text, timestamp};
ghost use Rattle.time_fmt.specs.Sink.{Fits, Puts};

use crate::modifier::Modifier;
use crate::refused::Refused;
use crate::sink::Sink;
use crate::writers::digits::{fmt_sign, format_u64_pad_none};
use time_below::format_description::{Component, modifier};
use time_provide::ComponentProvider;

/// Appends all digits of the seconds since 1970-01-01T00:00:00 UTC, after a sign if they are
/// negative or `modifier` wants one.
pub fn fmt_unix_timestamp_second<S: Sink>(
    output: &mut S,
    seconds: i64,
    modifier: modifier::UnixTimestampSecond,
) -> usize
    requires room { Fits (S.buffer output.old)
        (length (kind_text (timestamp modifier.sign_is_mandatory seconds))) }
    ensures writes { Puts (S.buffer output.old) (S.buffer output.new) result
        (kind_text (timestamp modifier.sign_is_mandatory seconds)) }
{
    write_signed(output, seconds, modifier.sign_is_mandatory)
}

impl Modifier for modifier::UnixTimestampSecond {
    ghost component_of = { component.UnixTimestampSecond };

    fn component(self) -> Component {
        Component::UnixTimestampSecond(self)
    }

    fn write<S: Sink, V: ComponentProvider>(
        self,
        output: &mut S,
        value: &V,
        state: &mut V::State,
    ) -> Result<(), Refused> {
        fmt_unix_timestamp_second(output, value.unix_timestamp_seconds(state), self);
        Ok(())
    }
}

/// Appends all digits of the milliseconds since 1970-01-01T00:00:00 UTC, after a sign if they are
/// negative or `modifier` wants one.
pub fn fmt_unix_timestamp_millisecond<S: Sink>(
    output: &mut S,
    milliseconds: i64,
    modifier: modifier::UnixTimestampMillisecond,
) -> usize
    requires room { Fits (S.buffer output.old)
        (length (kind_text (timestamp modifier.sign_is_mandatory milliseconds))) }
    ensures writes { Puts (S.buffer output.old) (S.buffer output.new) result
        (kind_text (timestamp modifier.sign_is_mandatory milliseconds)) }
{
    write_signed(output, milliseconds, modifier.sign_is_mandatory)
}

impl Modifier for modifier::UnixTimestampMillisecond {
    ghost component_of = { component.UnixTimestampMillisecond };

    fn component(self) -> Component {
        Component::UnixTimestampMillisecond(self)
    }

    fn write<S: Sink, V: ComponentProvider>(
        self,
        output: &mut S,
        value: &V,
        state: &mut V::State,
    ) -> Result<(), Refused> {
        fmt_unix_timestamp_millisecond(output, value.unix_timestamp_milliseconds(state), self);
        Ok(())
    }
}

// Appends all digits of a number, after its sign.
#[tactic(auto, using(crate::proofs::TextLemmas::signed_parts))]
fn write_signed<S: Sink>(output: &mut S, number: i64, sign_is_mandatory: bool) -> usize
    requires room { Fits (S.buffer output.old)
        (length (kind_text (timestamp sign_is_mandatory number))) }
    ensures writes { Puts (S.buffer output.old) (S.buffer output.new) result
        (kind_text (timestamp sign_is_mandatory number)) }
{
    let _room = output.room();
    let sign = fmt_sign(output, number < 0, sign_is_mandatory);
    sign + format_u64_pad_none(output, number.unsigned_abs())
}
