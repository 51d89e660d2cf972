//! A date and a time of day in one step, with a byte between each two parts.
ghost use Rattle.std.specs.Prelude.{◌≡◌, ◌+◌, ◌≤◌, ◌<◌, IfSome, IsTrue, length};
ghost use Rattle.time_below.specs.Facts.{the_date, the_time};
ghost use Rattle.time_below.specs.Month.{month_number};
ghost use Rattle.time_below.specs.Width.{tree_width};
ghost use Rattle.time_fmt.specs.Guarantee.{AppendsTree};
ghost use Rattle.time_fmt.specs.Runs.{date_run, run_tree, three_parts, time_run, two_after};
ghost use Rattle.time_fmt.specs.Runs.{year_text};
ghost use Rattle.time_fmt.specs.Sink.{Fits, Puts};

use crate::parts;
use crate::refused::Refused;
use crate::separators::Separators;
use crate::sink::Sink;
use crate::writers::{fmt_calendar_year_full_extended_range, format_two_digits_pad_zero};
use time_below::Month;
use time_below::format_description::Component;
use time_digits::ru8;
use time_provide::ComponentProvider;

/// A run of components, which are written in one step.
#[derive(Clone, Copy)]
pub enum Run {
    /// `[year]`, `[month]` and `[day]`.
    Date(Separators),
    /// `[hour]`, `[minute]` and `[second]`.
    Time(Separators),
}

impl Run {
    /// Returns the run of three components with these bytes between them, if they are one.
    pub fn of(
        first: Component,
        second: Component,
        third: Component,
        between: Separators,
    ) -> Option<Run>
        ensures { IfSome result (λ run. run_tree run
            ≡ three_parts first between.first second between.second third) }
    {
        match (first, second, third) {
            (
                Component::CalendarYearFullExtendedRange(year),
                Component::MonthNumerical(month),
                Component::Day(day),
            ) if year == parts::YEAR && month == parts::MONTH && day == parts::DAY => {
                Some(Run::Date(between))
            }
            (Component::Hour24(hour), Component::Minute(minute), Component::Second(second))
                if hour == parts::HOUR && minute == parts::MINUTE && second == parts::SECOND => {
                Some(Run::Time(between))
            }
            _ => None,
        }
    }

    /// Returns the three components of the run, and the bytes between them.
    pub fn components(self) -> (Component, Component, Component, Separators)
        ensures { run_tree self
            ≡ three_parts result.0 result.3.first result.1 result.3.second result.2 }
    {
        match self {
            Run::Date(between) => (
                Component::CalendarYearFullExtendedRange(parts::YEAR),
                Component::MonthNumerical(parts::MONTH),
                Component::Day(parts::DAY),
                between,
            ),
            Run::Time(between) => (
                Component::Hour24(parts::HOUR),
                Component::Minute(parts::MINUTE),
                Component::Second(parts::SECOND),
                between,
            ),
        }
    }

    /// Returns the most bytes of the text of the run.
    pub fn width(&self) -> usize
        ensures { result ≡ tree_width (run_tree self.now) }
    {
        match self {
            Run::Date(_) => 13,
            Run::Time(_) => 8,
        }
    }
}

/// Appends the text of a run, or returns the refusal of a value without its components.
#[inline(always)]
pub fn write_run<S: Sink, V: ComponentProvider>(
    run: &Run,
    output: &mut S,
    value: &V,
    state: &mut V::State,
) -> Result<(), Refused>
    requires room { Fits (S.buffer output.old) (tree_width (run_tree run.now)) }
    requires agrees { V.agrees state.old value.now }
    ensures appends { AppendsTree (run_tree run.now) (V.facts value.now)
        (S.buffer output.old) (S.buffer output.new) result }
    ensures agrees { V.agrees state.new value.now }
{
    match run {
        Run::Time(between) => {
            if !V::SUPPLIES_TIME {
                return Err(Refused::Unsupplied);
            }
            write_time((between.first, between.second), output, value, state);
            Ok(())
        }
        Run::Date(between) => {
            if !V::SUPPLIES_DATE {
                return Err(Refused::Unsupplied);
            }
            write_date((between.first, between.second), output, value, state);
            Ok(())
        }
    }
}

/// Appends the year of a value in at least four digits, after a sign if it is negative or above
/// 9,999, and the month and the day in two digits each, with a byte before each of these two.
///
/// Returns the number of bytes.
#[inline(always)]
pub fn write_date<S: Sink, V: ComponentProvider>(
    between: (u8, u8),
    output: &mut S,
    value: &V,
    state: &mut V::State,
) -> usize
    requires supplied { IsTrue V.SUPPLIES_DATE }
    requires room { Fits (S.buffer output.old) 13 }
    requires agrees { V.agrees state.old value.now }
    ensures writes { Puts (S.buffer output.old) (S.buffer output.new) result
        (date_run between.0 between.1 (the_date (V.facts value.now))) }
    ensures beside_year { result ≤ length (year_text (the_date (V.facts value.now))) + 6 }
    ensures most { result ≤ 13 }
    ensures agrees { V.agrees state.new value.now }
{
    let year = value.calendar_year(state);
    let day = value.day(state).expand();
    let month = number_of(value.month(state));
    let count = fmt_calendar_year_full_extended_range(output, year, parts::YEAR);
    count + write_two_after(output, between, month, day)
}

/// The number of a month, 1 to 12.
fn number_of(month: Month) -> ru8<0, 99>
    ensures number { result ≡ month_number month }
    ensures range { result < 100 }
{
    ru8::within(u8::from(month))
}

/// Appends the hour, the minute and the second of a value in two digits each, with a byte before
/// each of the last two.
///
/// Returns the number of bytes.
pub fn write_time<S: Sink, V: ComponentProvider>(
    between: (u8, u8),
    output: &mut S,
    value: &V,
    state: &mut V::State,
) -> usize
    requires supplied { IsTrue V.SUPPLIES_TIME }
    requires room { Fits (S.buffer output.old) 8 }
    requires agrees { V.agrees state.old value.now }
    ensures writes { Puts (S.buffer output.old) (S.buffer output.new) result
        (time_run between.0 between.1 (the_time (V.facts value.now))) }
    ensures most { result ≤ 8 }
    ensures agrees { V.agrees state.new value.now }
{
    let hour = value.hour(state).expand();
    let minute = value.minute(state).expand();
    let second = value.second(state).expand();
    let count = format_two_digits_pad_zero(output, hour);
    count + write_two_after(output, between, minute, second)
}

/// Appends two numbers in two places, each after its byte, and returns the number of bytes.
fn write_two_after<S: Sink>(
    output: &mut S,
    between: (u8, u8),
    first: ru8<0, 99>,
    second: ru8<0, 99>,
) -> usize
    requires room { Fits (S.buffer output.old) 6 }
    ensures writes { Puts (S.buffer output.old) (S.buffer output.new) 6
        (two_after between.0 first between.1 second) }
    ensures count { result ≡ 6 }
{
    output.put_byte(between.0);
    let count = format_two_digits_pad_zero(output, first);
    output.put_byte(between.1);
    2 + count + format_two_digits_pad_zero(output, second)
}
