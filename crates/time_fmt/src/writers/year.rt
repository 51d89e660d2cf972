//! Whole years, of the calendar and of the week calendar.
#![tactic(auto, using(crate::proofs::TextLemmas::signed_lengths))]

ghost use Rattle.std.specs.Prelude.{◌≡◌, ◌<◌, ◌≤◌, MatchOption, length, unsigned_abs};
ghost use Rattle.time_below.specs.declared.format_description.component.Component.TheVariants as component;
ghost use Rattle.time_fmt.specs.Kind.{kind_text, extended_year, standard_year};
ghost use Rattle.time_fmt.specs.Sink.{Fits, Puts};
ghost use Rattle.time_fmt.specs.Text.{padded_text};

use crate::modifier::Modifier;
use crate::refused::Refused;
use crate::sink::Sink;
use crate::writers::digits::{fmt_sign, format_four_digits};
use crate::writers::plain::write_many;
use time_below::format_description::modifier::Padding;
use time_below::format_description::{Component, modifier};
use time_digits::num_fmt::four_to_six_digits;
use time_digits::{ri16, ri32, ru16, ru32};
use time_provide::ComponentProvider;
use time_provide::ranges::{StandardYear, Year};

/// Appends the year, -999,999 to 999,999, padded to four places as `modifier` says, after a sign if
/// it is negative, above 9,999, or `modifier` wants one.
#[inline(always)]
pub fn fmt_calendar_year_full_extended_range<S: Sink>(
    output: &mut S,
    year: Year,
    modifier: modifier::CalendarYearFullExtendedRange,
) -> usize
    requires room { Fits (S.buffer output.old)
        (length (kind_text (extended_year modifier.padding modifier.sign_is_mandatory year))) }
    ensures writes { Puts (S.buffer output.old) (S.buffer output.new) result
        (kind_text (extended_year modifier.padding modifier.sign_is_mandatory year)) }
{
    write_year(output, year, modifier.padding, modifier.sign_is_mandatory)
}

impl Modifier for modifier::CalendarYearFullExtendedRange {
    ghost component_of = { component.CalendarYearFullExtendedRange };

    fn component(self) -> Component {
        Component::CalendarYearFullExtendedRange(self)
    }

    #[inline(always)]
    fn write<S: Sink, V: ComponentProvider>(
        self,
        output: &mut S,
        value: &V,
        state: &mut V::State,
    ) -> Result<(), Refused> {
        fmt_calendar_year_full_extended_range(output, value.calendar_year(state), self);
        Ok(())
    }
}

/// Appends the year, -9,999 to 9,999, padded to four places as `modifier` says, after a sign if it
/// is negative or `modifier` wants one.
pub fn fmt_calendar_year_full_standard_range<S: Sink>(
    output: &mut S,
    year: StandardYear,
    modifier: modifier::CalendarYearFullStandardRange,
) -> usize
    requires room { Fits (S.buffer output.old)
        (length (kind_text (standard_year modifier.padding modifier.sign_is_mandatory year))) }
    ensures writes { Puts (S.buffer output.old) (S.buffer output.new) result
        (kind_text (standard_year modifier.padding modifier.sign_is_mandatory year)) }
{
    write_standard_year(output, year, modifier.padding, modifier.sign_is_mandatory)
}

impl Modifier for modifier::CalendarYearFullStandardRange {
    ghost component_of = { component.CalendarYearFullStandardRange };

    fn component(self) -> Component {
        Component::CalendarYearFullStandardRange(self)
    }

    fn write<S: Sink, V: ComponentProvider>(
        self,
        output: &mut S,
        value: &V,
        state: &mut V::State,
    ) -> Result<(), Refused> {
        let Some(year) = in_standard_range(value.calendar_year(state)) else {
            return Err(Refused::YearOutOfRange);
        };
        fmt_calendar_year_full_standard_range(output, year, self);
        Ok(())
    }
}

/// Appends the week calendar's year, -999,999 to 999,999 (ISO 8601-1:2019), padded to four places
/// as `modifier` says, after a sign if it is negative, above 9,999, or `modifier` wants one.
pub fn fmt_iso_year_full_extended_range<S: Sink>(
    output: &mut S,
    year: Year,
    modifier: modifier::IsoYearFullExtendedRange,
) -> usize
    requires room { Fits (S.buffer output.old)
        (length (kind_text (extended_year modifier.padding modifier.sign_is_mandatory year))) }
    ensures writes { Puts (S.buffer output.old) (S.buffer output.new) result
        (kind_text (extended_year modifier.padding modifier.sign_is_mandatory year)) }
{
    write_year(output, year, modifier.padding, modifier.sign_is_mandatory)
}

impl Modifier for modifier::IsoYearFullExtendedRange {
    ghost component_of = { component.IsoYearFullExtendedRange };

    fn component(self) -> Component {
        Component::IsoYearFullExtendedRange(self)
    }

    fn write<S: Sink, V: ComponentProvider>(
        self,
        output: &mut S,
        value: &V,
        state: &mut V::State,
    ) -> Result<(), Refused> {
        fmt_iso_year_full_extended_range(output, value.iso_year(state), self);
        Ok(())
    }
}

/// Appends the week calendar's year, -9,999 to 9,999 (ISO 8601-1:2019), padded to four places as
/// `modifier` says, after a sign if it is negative or `modifier` wants one.
pub fn fmt_iso_year_full_standard_range<S: Sink>(
    output: &mut S,
    year: StandardYear,
    modifier: modifier::IsoYearFullStandardRange,
) -> usize
    requires room { Fits (S.buffer output.old)
        (length (kind_text (standard_year modifier.padding modifier.sign_is_mandatory year))) }
    ensures writes { Puts (S.buffer output.old) (S.buffer output.new) result
        (kind_text (standard_year modifier.padding modifier.sign_is_mandatory year)) }
{
    write_standard_year(output, year, modifier.padding, modifier.sign_is_mandatory)
}

impl Modifier for modifier::IsoYearFullStandardRange {
    ghost component_of = { component.IsoYearFullStandardRange };

    fn component(self) -> Component {
        Component::IsoYearFullStandardRange(self)
    }

    fn write<S: Sink, V: ComponentProvider>(
        self,
        output: &mut S,
        value: &V,
        state: &mut V::State,
    ) -> Result<(), Refused> {
        let Some(year) = in_standard_range(value.iso_year(state)) else {
            return Err(Refused::YearOutOfRange);
        };
        fmt_iso_year_full_standard_range(output, year, self);
        Ok(())
    }
}

// The year, if it has at most four digits.
fn in_standard_range(year: Year) -> Option<StandardYear>
    ensures { MatchOption result (9_999 < unsigned_abs year)
        (λ standard. (standard ≡ year) × (unsigned_abs year ≤ 9_999)) }
{
    let number = year.get();
    if number < -9_999 || number > 9_999 {
        return None;
    }
    Some(ri16::within(number as i16))
}

// Appends a year in four places, or all its digits, after a sign if it needs one.
#[inline(always)]
fn write_year<S: Sink>(
    output: &mut S,
    year: Year,
    padding: Padding,
    sign_is_mandatory: bool,
) -> usize
    requires room { Fits (S.buffer output.old)
        (length (kind_text (extended_year padding sign_is_mandatory year))) }
    ensures writes { Puts (S.buffer output.old) (S.buffer output.new) result
        (kind_text (extended_year padding sign_is_mandatory year)) }
{
    let number = year.get();
    if !sign_is_mandatory && 0 <= number && number <= 9_999 {
        return format_four_digits(output, ru16::within(number as u16), padding);
    }
    write_rare_year(output, year, padding, sign_is_mandatory)
}

// As any year: without a sign it is written with no test for one.
#[inline(always)]
#[tactic(auto, using(crate::proofs::TextLemmas::small_year, crate::proofs::TextLemmas::signed_lengths))]
fn write_standard_year<S: Sink>(
    output: &mut S,
    year: StandardYear,
    padding: Padding,
    sign_is_mandatory: bool,
) -> usize
    requires room { Fits (S.buffer output.old)
        (length (kind_text (standard_year padding sign_is_mandatory year))) }
    ensures writes { Puts (S.buffer output.old) (S.buffer output.new) result
        (kind_text (standard_year padding sign_is_mandatory year)) }
{
    let year = ri32::within(i32::from(year.get()));
    write_year(output, year, padding, sign_is_mandatory)
}

// Appends a year with a sign, other padding or more than four digits.
fn write_rare_year<S: Sink>(
    output: &mut S,
    year: Year,
    padding: Padding,
    sign_is_mandatory: bool,
) -> usize
    requires room { Fits (S.buffer output.old)
        (length (kind_text (extended_year padding sign_is_mandatory year))) }
    ensures writes { Puts (S.buffer output.old) (S.buffer output.new) result
        (kind_text (extended_year padding sign_is_mandatory year)) }
{
    let mut taken = output.take_out();
    let count = write_signed_year(&mut taken, year, padding, sign_is_mandatory);
    output.put_back(taken);
    count
}

// Appends any year, to a sink that was taken out.
#[cold]
fn write_signed_year<S: Sink>(
    output: &mut S,
    year: Year,
    padding: Padding,
    sign_is_mandatory: bool,
) -> usize
    requires room { Fits (S.buffer output.old)
        (length (kind_text (extended_year padding sign_is_mandatory year))) }
    ensures writes { Puts (S.buffer output.old) (S.buffer output.new) result
        (kind_text (extended_year padding sign_is_mandatory year)) }
{
    let number = year.get();
    let sign = fmt_sign(output, number < 0, sign_is_mandatory || number > 9_999);
    sign + write_year_digits(output, year.abs(), padding)
}

// Appends a year in four places, or all its digits.
#[tactic(auto, using(crate::proofs::TextLemmas::whole_year))]
fn write_year_digits<S: Sink>(output: &mut S, year: ru32<0, 999_999>, padding: Padding) -> usize
    requires room { Fits (S.buffer output.old) (length (padded_text padding 4 year)) }
    ensures writes { Puts (S.buffer output.old) (S.buffer output.new) result
        (padded_text padding 4 year) }
{
    let number = year.get();
    if number < 10_000 {
        format_four_digits(output, ru16::within(number as u16), padding)
    } else {
        write_many(output, &four_to_six_digits(year))
    }
}
