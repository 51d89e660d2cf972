//! The weekday and the weeks of the year.
#![tactic(auto, using(crate::proofs::TextLemmas::text_lengths))]

ghost use Rattle.std.specs.Prelude.{◌≡◌, length, decimal};
ghost use Rattle.time_below.specs.Calendar.{from_sunday};
ghost use Rattle.time_below.specs.declared.format_description.component.Component.TheVariants as component;
ghost use Rattle.time_below.specs.Weekday.{days_from_monday};
ghost use Rattle.time_fmt.specs.DateText.{weekday_name, short_name, indexed};
ghost use Rattle.time_fmt.specs.Sink.{Fits, Puts};
ghost use Rattle.time_fmt.specs.Text.{padded_text};

use crate::modifier::Modifier;
use crate::refused::Refused;
use crate::sink::Sink;
use crate::writers::digits::{format_single_digit, format_two_digits};
use crate::writers::plain::{write_literal, write_three};
use time_below::Weekday;
use time_below::format_description::{Component, modifier};
use time_below::names::padded_weekday_name;
use time_digits::ru8;
use time_provide::ComponentProvider;
use time_provide::ranges::{IsoWeekNumber, MondayBasedWeek, SundayBasedWeek};

/// Appends the first three letters of the weekday's English name.
#[inline(always)]
pub fn fmt_weekday_short<S: Sink>(
    output: &mut S,
    weekday: Weekday,
    modifier: modifier::WeekdayShort,
) -> usize
    requires room { Fits (S.buffer output.old) 3 }
    ensures writes { Puts (S.buffer output.old) (S.buffer output.new) 3
        (short_name (weekday_name (days_from_monday weekday))) }
    ensures count { result ≡ 3 }
{
    let _ = modifier;
    let (name, _) = padded_weekday_name(weekday);
    write_three(output, &name.as_bytes()[..3])
}

impl Modifier for modifier::WeekdayShort {
    ghost component_of = { component.WeekdayShort };

    fn component(self) -> Component {
        Component::WeekdayShort(self)
    }

    #[inline(always)]
    fn write<S: Sink, V: ComponentProvider>(
        self,
        output: &mut S,
        value: &V,
        state: &mut V::State,
    ) -> Result<(), Refused> {
        fmt_weekday_short(output, value.weekday(state), self);
        Ok(())
    }
}

/// Appends the weekday's English name.
pub fn fmt_weekday_long<S: Sink>(
    output: &mut S,
    weekday: Weekday,
    modifier: modifier::WeekdayLong,
) -> usize
    requires room { Fits (S.buffer output.old) (length (weekday_name (days_from_monday weekday))) }
    ensures writes { Puts (S.buffer output.old) (S.buffer output.new) result
        (weekday_name (days_from_monday weekday)) }
{
    let _ = modifier;
    let (name, len) = padded_weekday_name(weekday);
    write_literal(output, &name.as_bytes()[..len])
}

impl Modifier for modifier::WeekdayLong {
    ghost component_of = { component.WeekdayLong };

    fn component(self) -> Component {
        Component::WeekdayLong(self)
    }

    fn write<S: Sink, V: ComponentProvider>(
        self,
        output: &mut S,
        value: &V,
        state: &mut V::State,
    ) -> Result<(), Refused> {
        fmt_weekday_long(output, value.weekday(state), self);
        Ok(())
    }
}

/// Appends the days from Sunday, 0 to 6, or 1 to 7 where Sunday is 1.
pub fn fmt_weekday_sunday<S: Sink>(
    output: &mut S,
    weekday: Weekday,
    modifier: modifier::WeekdaySunday,
) -> usize
    requires room { Fits (S.buffer output.old)
        (length (decimal (indexed modifier.one_indexed (from_sunday (days_from_monday weekday))))) }
    ensures writes { Puts (S.buffer output.old) (S.buffer output.new) result
        (decimal (indexed modifier.one_indexed (from_sunday (days_from_monday weekday)))) }
{
    let number = weekday.number_days_from_sunday() + u8::from(modifier.one_indexed);
    format_single_digit(output, ru8::within(number))
}

impl Modifier for modifier::WeekdaySunday {
    ghost component_of = { component.WeekdaySunday };

    fn component(self) -> Component {
        Component::WeekdaySunday(self)
    }

    fn write<S: Sink, V: ComponentProvider>(
        self,
        output: &mut S,
        value: &V,
        state: &mut V::State,
    ) -> Result<(), Refused> {
        fmt_weekday_sunday(output, value.weekday(state), self);
        Ok(())
    }
}

/// Appends the days from Monday, 0 to 6, or 1 to 7 where Monday is 1.
#[inline(always)]
pub fn fmt_weekday_monday<S: Sink>(
    output: &mut S,
    weekday: Weekday,
    modifier: modifier::WeekdayMonday,
) -> usize
    requires room { Fits (S.buffer output.old)
        (length (decimal (indexed modifier.one_indexed (days_from_monday weekday)))) }
    ensures writes { Puts (S.buffer output.old) (S.buffer output.new) result
        (decimal (indexed modifier.one_indexed (days_from_monday weekday))) }
{
    let number = weekday.number_days_from_monday() + u8::from(modifier.one_indexed);
    format_single_digit(output, ru8::within(number))
}

impl Modifier for modifier::WeekdayMonday {
    ghost component_of = { component.WeekdayMonday };

    fn component(self) -> Component {
        Component::WeekdayMonday(self)
    }

    #[inline(always)]
    fn write<S: Sink, V: ComponentProvider>(
        self,
        output: &mut S,
        value: &V,
        state: &mut V::State,
    ) -> Result<(), Refused> {
        fmt_weekday_monday(output, value.weekday(state), self);
        Ok(())
    }
}

/// Appends the week of the week calendar, 1 to 53 (ISO 8601-1:2019), padded to two places as
/// `modifier` says.
pub fn fmt_week_number_iso<S: Sink>(
    output: &mut S,
    week: IsoWeekNumber,
    modifier: modifier::WeekNumberIso,
) -> usize
    requires room { Fits (S.buffer output.old) (length (padded_text modifier.padding 2 week)) }
    ensures writes { Puts (S.buffer output.old) (S.buffer output.new) result
        (padded_text modifier.padding 2 week) }
{
    format_two_digits(output, week.expand(), modifier.padding)
}

impl Modifier for modifier::WeekNumberIso {
    ghost component_of = { component.WeekNumberIso };

    fn component(self) -> Component {
        Component::WeekNumberIso(self)
    }

    fn write<S: Sink, V: ComponentProvider>(
        self,
        output: &mut S,
        value: &V,
        state: &mut V::State,
    ) -> Result<(), Refused> {
        fmt_week_number_iso(output, value.iso_week_number(state), self);
        Ok(())
    }
}

/// Appends the week of the year, 0 to 53, where week 1 begins on the first Sunday, padded to two
/// places as `modifier` says.
pub fn fmt_week_number_sunday<S: Sink>(
    output: &mut S,
    week: SundayBasedWeek,
    modifier: modifier::WeekNumberSunday,
) -> usize
    requires room { Fits (S.buffer output.old) (length (padded_text modifier.padding 2 week)) }
    ensures writes { Puts (S.buffer output.old) (S.buffer output.new) result
        (padded_text modifier.padding 2 week) }
{
    format_two_digits(output, week.expand(), modifier.padding)
}

impl Modifier for modifier::WeekNumberSunday {
    ghost component_of = { component.WeekNumberSunday };

    fn component(self) -> Component {
        Component::WeekNumberSunday(self)
    }

    fn write<S: Sink, V: ComponentProvider>(
        self,
        output: &mut S,
        value: &V,
        state: &mut V::State,
    ) -> Result<(), Refused> {
        fmt_week_number_sunday(output, value.sunday_based_week(state), self);
        Ok(())
    }
}

/// Appends the week of the year, 0 to 53, where week 1 begins on the first Monday, padded to two
/// places as `modifier` says.
pub fn fmt_week_number_monday<S: Sink>(
    output: &mut S,
    week: MondayBasedWeek,
    modifier: modifier::WeekNumberMonday,
) -> usize
    requires room { Fits (S.buffer output.old) (length (padded_text modifier.padding 2 week)) }
    ensures writes { Puts (S.buffer output.old) (S.buffer output.new) result
        (padded_text modifier.padding 2 week) }
{
    format_two_digits(output, week.expand(), modifier.padding)
}

impl Modifier for modifier::WeekNumberMonday {
    ghost component_of = { component.WeekNumberMonday };

    fn component(self) -> Component {
        Component::WeekNumberMonday(self)
    }

    fn write<S: Sink, V: ComponentProvider>(
        self,
        output: &mut S,
        value: &V,
        state: &mut V::State,
    ) -> Result<(), Refused> {
        fmt_week_number_monday(output, value.monday_based_week(state), self);
        Ok(())
    }
}
