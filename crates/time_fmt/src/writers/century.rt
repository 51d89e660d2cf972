//! Centuries and the last two digits of a year, of the calendar and of the week calendar.
#![tactic(auto, using(crate::proofs::TextLemmas::signed_lengths))]

ghost use Rattle.std.specs.Prelude.{◌≡◌, ◌<◌, ◌≤◌, ◌%◌, ◌++◌, MatchOption, decimal, length, true};
ghost use Rattle.std.specs.Prelude.{unsigned_abs};
ghost use Rattle.time_below.specs.declared.format_description.component.Component.TheVariants as component;
ghost use Rattle.time_fmt.specs.Kind.{kind_text, extended_century, standard_century, century_of};
ghost use Rattle.time_fmt.specs.Sink.{Fits, Puts};
ghost use Rattle.time_fmt.specs.Text.{padded_text, sign_text};

use crate::modifier::Modifier;
use crate::refused::Refused;
use crate::sink::Sink;
use crate::writers::digits::{fmt_sign, format_two_digits};
use crate::writers::plain::write_many;
use time_below::format_description::modifier::Padding;
use time_below::format_description::{Component, modifier};
use time_digits::num_fmt::one_to_four_digits_no_padding;
use time_digits::{ri8, ri16, ru8, ru16};
use time_provide::ComponentProvider;
use time_provide::ranges::{ExtendedCentury, LastTwo, StandardCentury, Year};

/// Appends the century of a year, padded to two places as `modifier` says, after a sign if the year
/// is negative, the century is above 99, or `modifier` wants one.
pub fn fmt_calendar_year_century_extended_range<S: Sink>(
    output: &mut S,
    century: ExtendedCentury,
    is_negative: bool,
    modifier: modifier::CalendarYearCenturyExtendedRange,
) -> usize
    requires room { Fits (S.buffer output.old)
        (length (kind_text (extended_century modifier.padding modifier.sign_is_mandatory
        is_negative (unsigned_abs century)))) }
    ensures writes { Puts (S.buffer output.old) (S.buffer output.new) result
        (kind_text (extended_century modifier.padding modifier.sign_is_mandatory
        is_negative (unsigned_abs century))) }
{
    write_century(
        output,
        century.abs(),
        is_negative,
        modifier.padding,
        modifier.sign_is_mandatory,
    )
}

impl Modifier for modifier::CalendarYearCenturyExtendedRange {
    ghost component_of = { component.CalendarYearCenturyExtendedRange };

    fn component(self) -> Component {
        Component::CalendarYearCenturyExtendedRange(self)
    }

    fn write<S: Sink, V: ComponentProvider>(
        self,
        output: &mut S,
        value: &V,
        state: &mut V::State,
    ) -> Result<(), Refused> {
        let year = value.calendar_year(state);
        fmt_calendar_year_century_extended_range(output, century_of(year), year.get() < 0, self);
        Ok(())
    }
}

/// Appends the century of a year, padded to two places as `modifier` says, after a sign if the year
/// is negative or `modifier` wants one.
pub fn fmt_calendar_year_century_standard_range<S: Sink>(
    output: &mut S,
    century: StandardCentury,
    is_negative: bool,
    modifier: modifier::CalendarYearCenturyStandardRange,
) -> usize
    requires room { Fits (S.buffer output.old)
        (length (kind_text (standard_century modifier.padding modifier.sign_is_mandatory
        is_negative (unsigned_abs century)))) }
    ensures writes { Puts (S.buffer output.old) (S.buffer output.new) result
        (kind_text (standard_century modifier.padding modifier.sign_is_mandatory
        is_negative (unsigned_abs century))) }
{
    write_two_digit_century(
        output,
        century.abs(),
        is_negative,
        modifier.padding,
        modifier.sign_is_mandatory,
    )
}

impl Modifier for modifier::CalendarYearCenturyStandardRange {
    ghost component_of = { component.CalendarYearCenturyStandardRange };

    fn component(self) -> Component {
        Component::CalendarYearCenturyStandardRange(self)
    }

    fn write<S: Sink, V: ComponentProvider>(
        self,
        output: &mut S,
        value: &V,
        state: &mut V::State,
    ) -> Result<(), Refused> {
        let year = value.calendar_year(state);
        let Some(century) = standard_century_of(year) else {
            return Err(Refused::YearOutOfRange);
        };
        fmt_calendar_year_century_standard_range(output, century, year.get() < 0, self);
        Ok(())
    }
}

/// Appends the century of a year of the week calendar, padded to two places as `modifier` says,
/// after a sign if the year is negative, the century is above 99, or `modifier` wants one.
pub fn fmt_iso_year_century_extended_range<S: Sink>(
    output: &mut S,
    century: ExtendedCentury,
    is_negative: bool,
    modifier: modifier::IsoYearCenturyExtendedRange,
) -> usize
    requires room { Fits (S.buffer output.old)
        (length (kind_text (extended_century modifier.padding modifier.sign_is_mandatory
        is_negative (unsigned_abs century)))) }
    ensures writes { Puts (S.buffer output.old) (S.buffer output.new) result
        (kind_text (extended_century modifier.padding modifier.sign_is_mandatory
        is_negative (unsigned_abs century))) }
{
    write_century(
        output,
        century.abs(),
        is_negative,
        modifier.padding,
        modifier.sign_is_mandatory,
    )
}

impl Modifier for modifier::IsoYearCenturyExtendedRange {
    ghost component_of = { component.IsoYearCenturyExtendedRange };

    fn component(self) -> Component {
        Component::IsoYearCenturyExtendedRange(self)
    }

    fn write<S: Sink, V: ComponentProvider>(
        self,
        output: &mut S,
        value: &V,
        state: &mut V::State,
    ) -> Result<(), Refused> {
        let year = value.iso_year(state);
        fmt_iso_year_century_extended_range(output, century_of(year), year.get() < 0, self);
        Ok(())
    }
}

/// Appends the century of a year of the week calendar, padded to two places as `modifier` says,
/// after a sign if the year is negative or `modifier` wants one.
pub fn fmt_iso_year_century_standard_range<S: Sink>(
    output: &mut S,
    century: StandardCentury,
    is_negative: bool,
    modifier: modifier::IsoYearCenturyStandardRange,
) -> usize
    requires room { Fits (S.buffer output.old)
        (length (kind_text (standard_century modifier.padding modifier.sign_is_mandatory
        is_negative (unsigned_abs century)))) }
    ensures writes { Puts (S.buffer output.old) (S.buffer output.new) result
        (kind_text (standard_century modifier.padding modifier.sign_is_mandatory
        is_negative (unsigned_abs century))) }
{
    write_two_digit_century(
        output,
        century.abs(),
        is_negative,
        modifier.padding,
        modifier.sign_is_mandatory,
    )
}

impl Modifier for modifier::IsoYearCenturyStandardRange {
    ghost component_of = { component.IsoYearCenturyStandardRange };

    fn component(self) -> Component {
        Component::IsoYearCenturyStandardRange(self)
    }

    fn write<S: Sink, V: ComponentProvider>(
        self,
        output: &mut S,
        value: &V,
        state: &mut V::State,
    ) -> Result<(), Refused> {
        let year = value.iso_year(state);
        let Some(century) = standard_century_of(year) else {
            return Err(Refused::YearOutOfRange);
        };
        fmt_iso_year_century_standard_range(output, century, year.get() < 0, self);
        Ok(())
    }
}

/// Appends the last two digits of the year, 0 to 99, padded to two places as `modifier` says.
#[tactic(auto, using(crate::proofs::TextLemmas::text_lengths))]
pub fn fmt_calendar_year_last_two<S: Sink>(
    output: &mut S,
    last_two: LastTwo,
    modifier: modifier::CalendarYearLastTwo,
) -> usize
    requires room { Fits (S.buffer output.old) (length (padded_text modifier.padding 2 last_two)) }
    ensures writes { Puts (S.buffer output.old) (S.buffer output.new) result
        (padded_text modifier.padding 2 last_two) }
{
    format_two_digits(output, last_two, modifier.padding)
}

impl Modifier for modifier::CalendarYearLastTwo {
    ghost component_of = { component.CalendarYearLastTwo };

    fn component(self) -> Component {
        Component::CalendarYearLastTwo(self)
    }

    #[tactic(auto, using(crate::proofs::TextLemmas::text_lengths))]
    fn write<S: Sink, V: ComponentProvider>(
        self,
        output: &mut S,
        value: &V,
        state: &mut V::State,
    ) -> Result<(), Refused> {
        fmt_calendar_year_last_two(output, last_two(value.calendar_year(state)), self);
        Ok(())
    }
}

/// Appends the last two digits of the week calendar's year, 0 to 99, padded to two places as
/// `modifier` says.
#[tactic(auto, using(crate::proofs::TextLemmas::text_lengths))]
pub fn fmt_iso_year_last_two<S: Sink>(
    output: &mut S,
    last_two: LastTwo,
    modifier: modifier::IsoYearLastTwo,
) -> usize
    requires room { Fits (S.buffer output.old) (length (padded_text modifier.padding 2 last_two)) }
    ensures writes { Puts (S.buffer output.old) (S.buffer output.new) result
        (padded_text modifier.padding 2 last_two) }
{
    format_two_digits(output, last_two, modifier.padding)
}

impl Modifier for modifier::IsoYearLastTwo {
    ghost component_of = { component.IsoYearLastTwo };

    fn component(self) -> Component {
        Component::IsoYearLastTwo(self)
    }

    #[tactic(auto, using(crate::proofs::TextLemmas::text_lengths))]
    fn write<S: Sink, V: ComponentProvider>(
        self,
        output: &mut S,
        value: &V,
        state: &mut V::State,
    ) -> Result<(), Refused> {
        fmt_iso_year_last_two(output, last_two(value.iso_year(state)), self);
        Ok(())
    }
}

// The year without its last two digits, toward zero.
fn century_of(year: Year) -> ExtendedCentury
    ensures value { unsigned_abs result ≡ century_of year }
    ensures range { unsigned_abs result ≤ 9_999 }
{
    ri16::within((year.get() / 100) as i16)
}

// The same of a year of at most four digits.
fn standard_century_of(year: Year) -> Option<StandardCentury>
    ensures { MatchOption result (99 < century_of year)
        (λ century. (unsigned_abs century ≡ century_of year) × (century_of year ≤ 99)) }
{
    let century = year.get() / 100;
    if century.unsigned_abs() > 99 {
        return None;
    }
    Some(ri8::within(century as i8))
}

// The last two digits of the year.
fn last_two(year: Year) -> LastTwo
    ensures { result ≡ unsigned_abs year % 100 }
{
    ru8::within((year.get().unsigned_abs() % 100) as u8)
}

// Appends a century in two places, or all its digits after a sign.
#[inline(always)]
#[tactic(auto, using(crate::proofs::TextLemmas::century_lengths))]
fn write_century<S: Sink>(
    output: &mut S,
    century: ru16<0, 9_999>,
    is_negative: bool,
    padding: Padding,
    sign_is_mandatory: bool,
) -> usize
    requires room { Fits (S.buffer output.old)
        (length (kind_text (extended_century padding sign_is_mandatory is_negative century))) }
    ensures writes { Puts (S.buffer output.old) (S.buffer output.new) result
        (kind_text (extended_century padding sign_is_mandatory is_negative century)) }
{
    let number = century.get();
    if number >= 100 {
        return write_long_century(output, century, is_negative);
    }
    let few = ru8::within(number as u8);
    write_two_digit_century(output, few, is_negative, padding, sign_is_mandatory)
}

// Appends a century in two places, after the sign of the year.
fn write_two_digit_century<S: Sink>(
    output: &mut S,
    century: ru8<0, 99>,
    is_negative: bool,
    padding: Padding,
    sign_is_mandatory: bool,
) -> usize
    requires room { Fits (S.buffer output.old)
        (length (kind_text (standard_century padding sign_is_mandatory is_negative century))) }
    ensures writes { Puts (S.buffer output.old) (S.buffer output.new) result
        (kind_text (standard_century padding sign_is_mandatory is_negative century)) }
{
    let sign = fmt_sign(output, is_negative, sign_is_mandatory);
    sign + format_two_digits(output, century, padding)
}

// Appends a sign and all digits of a century from 100 on.
fn write_long_century<S: Sink>(output: &mut S, century: ru16<0, 9_999>, is_negative: bool) -> usize
    requires long { 100 ≤ century }
    requires room { Fits (S.buffer output.old)
        (length (sign_text is_negative true ++ decimal century)) }
    ensures writes { Puts (S.buffer output.old) (S.buffer output.new) result
        (sign_text is_negative true ++ decimal century) }
{
    let sign = fmt_sign(output, is_negative, true);
    sign + write_many(output, &one_to_four_digits_no_padding(century))
}
