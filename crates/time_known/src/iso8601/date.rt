//! The date of a text of ISO 8601-1:2019, section 5.2.
ghost use Rattle.std.specs.Prelude.{◌+◌, ◌*◌, ◌++◌, length, IsTrue, Ok};
ghost use Rattle.time_below.specs.Facts.{the_date};
ghost use Rattle.time_below.specs.Weekday.{days_from_monday};
ghost use Rattle.time_digits.specs.Digits.{zero_padded};
ghost use Rattle.time_fmt.specs.Ends.{Ends};
ghost use Rattle.time_fmt.specs.Outcome.{AppendsUpTo, done};
ghost use Rattle.time_fmt.specs.Room.{HasRoom};
ghost use Rattle.time_fmt.specs.Sink.{Fits};
ghost use Rattle.time_provide.specs.Real.{AgreesOnDate};
ghost use Rattle.time_known.specs.Config.{dash};
ghost use Rattle.time_known.specs.Iso8601.{iso_date, iso_year, week_text};
ghost use Rattle.time_known.specs.Iso8601Width.{iso_date_width, year_width};

use crate::days::CalendarDay;
use crate::iso8601::config::{Config, DateKind};
use crate::put::put_month_and_day;
use time_below::Weekday;
use time_below::format_description::modifier::Padding;
use time_digits::{ru8, ru16};
use time_fmt::writers::{
    fmt_sign, format_four_digits_pad_zero, format_single_digit, format_six_digits_pad_zero,
    format_three_digits, format_two_digits_pad_zero, put_back, take_out, write, write_if,
};
use time_fmt::{Format, Refused, Sink};
use time_provide::ComponentProvider;
use time_provide::ranges::{IsoWeekNumber, Ordinal, Year};

/// Appends the date, whether or not the configuration formats dates, and allocates nothing.
///
/// The output needs spare capacity for [`date_width`](Config::date_width). Returns the number of
/// bytes appended.
///
/// # Errors
///
/// A year that four digits do not hold is refused before any byte.
pub fn format_date<V: ComponentProvider>(
    config: &Config,
    output: &mut Vec<u8>,
    value: &V,
    state: &mut V::State,
) -> Result<usize, Format>
    requires supplied { IsTrue V.SUPPLIES_DATE }
    requires room { HasRoom output.old (iso_date_width config.now) }
    requires agrees { V.agrees state.old value.now }
    ensures appends { AppendsUpTo (iso_date_width config.now) output.old output.new result
        (iso_date config.now (the_date (V.facts value.now))) }
    ensures agrees { AgreesOnDate (V.agrees state.new value.now) (V.facts value.now) }
{
    let mut taken = take_out(output);
    let begin = taken.len();
    let answer = put_date(&mut taken, config, value, state);
    let count = taken.len() - begin;
    put_back(output, taken);
    answer?;
    Ok(count)
}

/// Puts the date by the configuration's kind, or refuses a year that four digits do not hold.
#[tactic(auto, using(crate::proofs::LengthLemmas::joined_lengths))]
pub(super) fn put_date<S: Sink, V: ComponentProvider>(
    output: &mut S,
    config: &Config,
    value: &V,
    state: &mut V::State,
) -> Result<(), Refused>
    requires supplied { IsTrue V.SUPPLIES_DATE }
    requires room { Fits (S.buffer output.old) (iso_date_width config.now) }
    requires agrees { V.agrees state.old value.now }
    ensures ends { Ends (iso_date_width config.now) (S.buffer output.old)
        (S.buffer output.new) result
        (iso_date config.now (the_date (V.facts value.now))) }
    ensures agrees { AgreesOnDate (V.agrees state.new value.now) (V.facts value.now) }
{
    let has_dash = config.use_separators();
    match config.date_kind() {
        DateKind::Calendar => {
            let year = value.calendar_year(state);
            put_year(output, year, config.year_is_six_digits())?;
            let date = CalendarDay::in_year(year, value.ordinal(state));
            put_month_and_day(output, date, config.separator("-"));
        }
        DateKind::Week => {
            put_year(output, value.iso_year(state), config.year_is_six_digits())?;
            put_week(
                output,
                value.iso_week_number(state),
                value.weekday(state),
                has_dash,
            );
        }
        DateKind::Ordinal => {
            put_year(
                output,
                value.calendar_year(state),
                config.year_is_six_digits(),
            )?;
            put_day_of_year(output, value.ordinal(state), has_dash);
        }
    }
    Ok(())
}

// Puts the sign and six digits of the year, or four digits of one that has no more.
#[tactic(auto, using(crate::proofs::LengthLemmas::sign_lengths))]
fn put_year<S: Sink>(output: &mut S, year: Year, is_six_digits: bool) -> Result<(), Refused>
    requires room { Fits (S.buffer output.old) (year_width is_six_digits) }
    ensures ends { Ends (year_width is_six_digits) (S.buffer output.old)
        (S.buffer output.new) result (iso_year is_six_digits year) }
{
    let number = year.get();
    if is_six_digits {
        fmt_sign(output, number < 0, true);
        format_six_digits_pad_zero(output, year.abs());
        return Ok(());
    }
    if number < 0 || number > 9_999 {
        return Err(Refused::InvalidYear);
    }
    format_four_digits_pad_zero(output, ru16::within(number.unsigned_abs() as u16));
    Ok(())
}

// Puts the letter `W` with two digits of the week, and the weekday from 1 for Monday, and a dash
// before each of them if it is wanted.
#[tactic(auto, using(crate::proofs::LengthLemmas::joined_lengths))]
fn put_week<S: Sink>(output: &mut S, week: IsoWeekNumber, weekday: Weekday, has_dash: bool)
    requires room { Fits (S.buffer output.old) (4 + 2 * length (dash has_dash)) }
    ensures puts { Ends (4 + 2 * length (dash has_dash))
        (S.buffer output.old) (S.buffer output.new)
        (Ok tt) (done (week_text (dash has_dash) week (days_from_monday weekday + 1))) }
{
    write_if(output, has_dash, "-");
    write(output, "W");
    format_two_digits_pad_zero(output, week.expand());
    write_if(output, has_dash, "-");
    format_single_digit(output, ru8::within(weekday.number_from_monday()));
}

// Puts three digits of the day of the year, after a dash if it is wanted.
#[tactic(auto, using(crate::proofs::LengthLemmas::joined_lengths))]
fn put_day_of_year<S: Sink>(output: &mut S, day: Ordinal, has_dash: bool)
    requires room { Fits (S.buffer output.old) (3 + length (dash has_dash)) }
    ensures puts { Ends (3 + length (dash has_dash))
        (S.buffer output.old) (S.buffer output.new)
        (Ok tt) (done (dash has_dash ++ zero_padded 3 day)) }
{
    write_if(output, has_dash, "-");
    format_three_digits(output, day.expand(), Padding::Zero);
}
