//! The hour, the minute, the second and its decimals, and AM or PM.
#![tactic(auto, using(crate::proofs::TextLemmas::text_lengths))]

ghost use Rattle.std.specs.Prelude.{◌≡◌, length};
ghost use Rattle.time_below.specs.declared.format_description.component.Component.TheVariants as component;
ghost use Rattle.time_fmt.specs.Sink.{Fits, Puts};
ghost use Rattle.time_fmt.specs.Text.{padded_text, hour_12, period_text, subsecond_text};

use crate::modifier::Modifier;
use crate::refused::Refused;
use crate::sink::Sink;
use crate::writers::digits::format_two_digits;
use crate::writers::plain::write;
use crate::writers::subsecond::{write_nine_digits, write_rare_decimals, write_three_decimals};
use time_below::Period;
use time_below::format_description::modifier::SubsecondDigits;
use time_below::format_description::{Component, modifier};
use time_digits::ru8;
use time_provide::ComponentProvider;
use time_provide::ranges::{Hours, Minutes, Nanoseconds, Seconds};

/// Appends the hour of the 12-hour clock, 1 to 12, padded to two places as `modifier` says.
#[inline(always)]
pub fn fmt_hour_12<S: Sink>(output: &mut S, hour: Hours, modifier: modifier::Hour12) -> usize
    requires room { Fits (S.buffer output.old)
        (length (padded_text modifier.padding 2 (hour_12 hour))) }
    ensures writes { Puts (S.buffer output.old) (S.buffer output.new) result
        (padded_text modifier.padding 2 (hour_12 hour)) }
{
    format_two_digits(output, on_the_dial(hour), modifier.padding)
}

impl Modifier for modifier::Hour12 {
    ghost component_of = { component.Hour12 };

    fn component(self) -> Component {
        Component::Hour12(self)
    }

    #[inline(always)]
    fn write<S: Sink, V: ComponentProvider>(
        self,
        output: &mut S,
        value: &V,
        state: &mut V::State,
    ) -> Result<(), Refused> {
        fmt_hour_12(output, value.hour(state), self);
        Ok(())
    }
}

/// Appends the hour, 0 to 23, padded to two places as `modifier` says.
#[inline(always)]
pub fn fmt_hour_24<S: Sink>(output: &mut S, hour: Hours, modifier: modifier::Hour24) -> usize
    requires room { Fits (S.buffer output.old) (length (padded_text modifier.padding 2 hour)) }
    ensures writes { Puts (S.buffer output.old) (S.buffer output.new) result
        (padded_text modifier.padding 2 hour) }
{
    format_two_digits(output, hour.expand(), modifier.padding)
}

impl Modifier for modifier::Hour24 {
    ghost component_of = { component.Hour24 };

    fn component(self) -> Component {
        Component::Hour24(self)
    }

    #[inline(always)]
    fn write<S: Sink, V: ComponentProvider>(
        self,
        output: &mut S,
        value: &V,
        state: &mut V::State,
    ) -> Result<(), Refused> {
        fmt_hour_24(output, value.hour(state), self);
        Ok(())
    }
}

/// Appends the minute, 0 to 59, padded to two places as `modifier` says.
#[inline(always)]
pub fn fmt_minute<S: Sink>(output: &mut S, minute: Minutes, modifier: modifier::Minute) -> usize
    requires room { Fits (S.buffer output.old) (length (padded_text modifier.padding 2 minute)) }
    ensures writes { Puts (S.buffer output.old) (S.buffer output.new) result
        (padded_text modifier.padding 2 minute) }
{
    format_two_digits(output, minute.expand(), modifier.padding)
}

impl Modifier for modifier::Minute {
    ghost component_of = { component.Minute };

    fn component(self) -> Component {
        Component::Minute(self)
    }

    #[inline(always)]
    fn write<S: Sink, V: ComponentProvider>(
        self,
        output: &mut S,
        value: &V,
        state: &mut V::State,
    ) -> Result<(), Refused> {
        fmt_minute(output, value.minute(state), self);
        Ok(())
    }
}

/// Appends `am` or `pm`, in capitals if they are wanted.
#[inline(always)]
pub fn fmt_period<S: Sink>(output: &mut S, period: Period, modifier: modifier::Period) -> usize
    requires room { Fits (S.buffer output.old) (length (period_text period modifier.is_uppercase)) }
    ensures writes { Puts (S.buffer output.old) (S.buffer output.new) result
        (period_text period modifier.is_uppercase) }
{
    let text = match (period, modifier.is_uppercase) {
        (Period::Am, true) => "AM",
        (Period::Am, false) => "am",
        (Period::Pm, true) => "PM",
        (Period::Pm, false) => "pm",
    };
    write(output, text)
}

impl Modifier for modifier::Period {
    ghost component_of = { component.Period };

    fn component(self) -> Component {
        Component::Period(self)
    }

    #[inline(always)]
    fn write<S: Sink, V: ComponentProvider>(
        self,
        output: &mut S,
        value: &V,
        state: &mut V::State,
    ) -> Result<(), Refused> {
        fmt_period(output, value.period(state), self);
        Ok(())
    }
}

/// Appends the second, 0 to 59, padded to two places as `modifier` says.
#[inline(always)]
pub fn fmt_second<S: Sink>(output: &mut S, second: Seconds, modifier: modifier::Second) -> usize
    requires room { Fits (S.buffer output.old) (length (padded_text modifier.padding 2 second)) }
    ensures writes { Puts (S.buffer output.old) (S.buffer output.new) result
        (padded_text modifier.padding 2 second) }
{
    format_two_digits(output, second.expand(), modifier.padding)
}

impl Modifier for modifier::Second {
    ghost component_of = { component.Second };

    fn component(self) -> Component {
        Component::Second(self)
    }

    #[inline(always)]
    fn write<S: Sink, V: ComponentProvider>(
        self,
        output: &mut S,
        value: &V,
        state: &mut V::State,
    ) -> Result<(), Refused> {
        fmt_second(output, value.second(state), self);
        Ok(())
    }
}

/// Appends the first decimals of the second, one to nine, or as many as are needed, at least one.
#[inline(always)]
pub fn fmt_subsecond<S: Sink>(
    output: &mut S,
    nanosecond: Nanoseconds,
    modifier: modifier::Subsecond,
) -> usize
    requires room { Fits (S.buffer output.old)
        (length (subsecond_text modifier.digits nanosecond)) }
    ensures writes { Puts (S.buffer output.old) (S.buffer output.new) result
        (subsecond_text modifier.digits nanosecond) }
{
    match modifier.digits {
        SubsecondDigits::Three => write_three_decimals(output, nanosecond),
        // Mostly the last of the nine is not zero.
        SubsecondDigits::Nine | SubsecondDigits::OneOrMore if nanosecond.get() % 10 != 0 => {
            write_nine_digits(output, nanosecond)
        }
        rare => write_rare_decimals(output, nanosecond, rare),
    }
}

impl Modifier for modifier::Subsecond {
    ghost component_of = { component.Subsecond };

    fn component(self) -> Component {
        Component::Subsecond(self)
    }

    #[tactic(auto, using(crate::proofs::TrimLemmas::subsecond_lengths))]
    #[inline(always)]
    fn write<S: Sink, V: ComponentProvider>(
        self,
        output: &mut S,
        value: &V,
        state: &mut V::State,
    ) -> Result<(), Refused> {
        fmt_subsecond(output, value.nanosecond(state), self);
        Ok(())
    }
}

// The hour on the dial of a clock, 1 to 12.
fn on_the_dial(hour: Hours) -> ru8<0, 99>
    ensures { result ≡ hour_12 hour }
{
    ru8::within((hour.get() + 11) % 12 + 1)
}
