//! The day, the month and the day of the year.
#![tactic(auto, using(crate::proofs::TextLemmas::text_lengths))]

ghost use Rattle.std.specs.Prelude.{length};
ghost use Rattle.time_below.specs.declared.format_description.component.Component.TheVariants as component;
ghost use Rattle.time_below.specs.Month.{month_number};
ghost use Rattle.time_fmt.specs.DateText.{month_name, short_name};
ghost use Rattle.time_fmt.specs.Sink.{Fits, Puts};
ghost use Rattle.time_fmt.specs.Text.{padded_text};

use crate::modifier::Modifier;
use crate::refused::Refused;
use crate::sink::Sink;
use crate::writers::digits::{format_three_digits, format_two_digits};
use crate::writers::plain::{write_literal, write_three};
use time_below::Month;
use time_below::format_description::{Component, modifier};
use time_below::names::padded_month_name;
use time_digits::ru8;
use time_provide::ComponentProvider;
use time_provide::ranges::{Day, Ordinal};

/// Appends the day of the month, 1 to 31, padded to two places as `modifier` says.
#[inline(always)]
pub fn fmt_day<S: Sink>(output: &mut S, day: Day, modifier: modifier::Day) -> usize
    requires room { Fits (S.buffer output.old) (length (padded_text modifier.padding 2 day)) }
    ensures writes { Puts (S.buffer output.old) (S.buffer output.new) result
        (padded_text modifier.padding 2 day) }
{
    format_two_digits(output, day.expand(), modifier.padding)
}

impl Modifier for modifier::Day {
    ghost component_of = { component.Day };

    fn component(self) -> Component {
        Component::Day(self)
    }

    #[inline(always)]
    fn write<S: Sink, V: ComponentProvider>(
        self,
        output: &mut S,
        value: &V,
        state: &mut V::State,
    ) -> Result<(), Refused> {
        fmt_day(output, value.day(state), self);
        Ok(())
    }
}

/// Appends the first three letters of the month's English name.
#[inline(always)]
pub fn fmt_month_short<S: Sink>(
    output: &mut S,
    month: Month,
    modifier: modifier::MonthShort,
) -> usize
    requires room { Fits (S.buffer output.old)
        (length (short_name (month_name (month_number month)))) }
    ensures writes { Puts (S.buffer output.old) (S.buffer output.new) result
        (short_name (month_name (month_number month))) }
{
    let _ = modifier;
    let (name, _) = padded_month_name(month);
    write_three(output, &name.as_bytes()[..3])
}

impl Modifier for modifier::MonthShort {
    ghost component_of = { component.MonthShort };

    fn component(self) -> Component {
        Component::MonthShort(self)
    }

    #[inline(always)]
    fn write<S: Sink, V: ComponentProvider>(
        self,
        output: &mut S,
        value: &V,
        state: &mut V::State,
    ) -> Result<(), Refused> {
        fmt_month_short(output, value.month(state), self);
        Ok(())
    }
}

/// Appends the month's English name.
#[inline(always)]
pub fn fmt_month_long<S: Sink>(output: &mut S, month: Month, modifier: modifier::MonthLong) -> usize
    requires room { Fits (S.buffer output.old) (length (month_name (month_number month))) }
    ensures writes { Puts (S.buffer output.old) (S.buffer output.new) result
        (month_name (month_number month)) }
{
    let _ = modifier;
    let (name, len) = padded_month_name(month);
    write_literal(output, &name.as_bytes()[..len])
}

impl Modifier for modifier::MonthLong {
    ghost component_of = { component.MonthLong };

    fn component(self) -> Component {
        Component::MonthLong(self)
    }

    #[inline(always)]
    fn write<S: Sink, V: ComponentProvider>(
        self,
        output: &mut S,
        value: &V,
        state: &mut V::State,
    ) -> Result<(), Refused> {
        fmt_month_long(output, value.month(state), self);
        Ok(())
    }
}

/// Appends the month, 1 to 12, padded to two places as `modifier` says.
#[inline(always)]
pub fn fmt_month_numerical<S: Sink>(
    output: &mut S,
    month: Month,
    modifier: modifier::MonthNumerical,
) -> usize
    requires room { Fits (S.buffer output.old)
        (length (padded_text modifier.padding 2 (month_number month))) }
    ensures writes { Puts (S.buffer output.old) (S.buffer output.new) result
        (padded_text modifier.padding 2 (month_number month)) }
{
    format_two_digits(output, ru8::within(u8::from(month)), modifier.padding)
}

impl Modifier for modifier::MonthNumerical {
    ghost component_of = { component.MonthNumerical };

    fn component(self) -> Component {
        Component::MonthNumerical(self)
    }

    #[inline(always)]
    fn write<S: Sink, V: ComponentProvider>(
        self,
        output: &mut S,
        value: &V,
        state: &mut V::State,
    ) -> Result<(), Refused> {
        // A day is mostly beside it, and the computation of the day gives the month too.
        let _day = value.day(state);
        fmt_month_numerical(output, value.month(state), self);
        Ok(())
    }
}

/// Appends the day of the year, 1 to 366, padded to three places as `modifier` says.
pub fn fmt_ordinal<S: Sink>(output: &mut S, ordinal: Ordinal, modifier: modifier::Ordinal) -> usize
    requires room { Fits (S.buffer output.old) (length (padded_text modifier.padding 3 ordinal)) }
    ensures writes { Puts (S.buffer output.old) (S.buffer output.new) result
        (padded_text modifier.padding 3 ordinal) }
{
    format_three_digits(output, ordinal.expand(), modifier.padding)
}

impl Modifier for modifier::Ordinal {
    ghost component_of = { component.Ordinal };

    fn component(self) -> Component {
        Component::Ordinal(self)
    }

    fn write<S: Sink, V: ComponentProvider>(
        self,
        output: &mut S,
        value: &V,
        state: &mut V::State,
    ) -> Result<(), Refused> {
        fmt_ordinal(output, value.ordinal(state), self);
        Ok(())
    }
}
