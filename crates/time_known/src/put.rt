//! The pieces of texts, put into a sink.
#![tactic(auto, using(crate::proofs::LengthLemmas::joined_lengths))]

ghost use Rattle.std.specs.Prelude.{◌≡◌, ◌+◌, ◌*◌, ◌++◌, codes, length, unsigned_abs, Ok};
ghost use Rattle.time_below.specs.Weekday.{days_from_monday};
ghost use Rattle.time_digits.specs.Digits.{zero_padded};
ghost use Rattle.time_fmt.specs.Ends.{Ends};
ghost use Rattle.time_fmt.specs.Outcome.{done};
ghost use Rattle.time_fmt.specs.DateText.{month_name, short_name};
ghost use Rattle.time_fmt.specs.Sink.{Fits, Puts};
ghost use Rattle.time_known.specs.Days.{month_and_day};
ghost use Rattle.time_known.specs.Fields.{on_weekday, shown};
ghost use Rattle.time_known.specs.Rfc2822.{named_date_text, named_date_width};
ghost use Rattle.time_known.specs.WellKnown.{clock_text, offset_hours_text, offset_text};
ghost use Rattle.time_known.specs.WellKnown.{signed_offset_text, date_text, month_and_day_text};

use crate::days::CalendarDay;
use crate::fields::Fields;
use time_below::{Time, UtcOffset, Weekday};
use time_digits::num_fmt::magnitude_zero_padded;
use time_digits::{ri8, ru8};
use time_fmt::Sink;
use time_fmt::parts::WEEKDAY_SHORT;
use time_fmt::writers::{
    fmt_weekday_short, format_four_digits_pad_zero, format_two_digits_pad_zero, write,
};

/// Puts the year, the month and the day, and the separator between them.
#[inline(always)]
pub(crate) fn put_date<S: Sink>(output: &mut S, fields: &Fields, separator: &str)
    requires room { Fits (S.buffer output.old) (8 + 2 * length separator.now) }
    ensures puts { Ends (8 + 2 * length separator.now)
        (S.buffer output.old) (S.buffer output.new)
        (Ok tt) (done (date_text separator.now (shown fields.now).date)) }
{
    format_four_digits_pad_zero(output, fields.year);
    put_month_and_day(output, fields.date, separator);
}

/// Puts the month and the day, and the separator before each of them.
#[inline(always)]
pub(crate) fn put_month_and_day<S: Sink>(output: &mut S, date: CalendarDay, separator: &str)
    requires room { Fits (S.buffer output.old) (4 + 2 * length separator.now) }
    ensures puts { Ends (4 + 2 * length separator.now)
        (S.buffer output.old) (S.buffer output.new) (Ok tt) (done (month_and_day_text
        separator.now (month_and_day date).month (month_and_day date).day)) }
{
    let (month, day) = date.digits();
    write(output, separator);
    write(output, month);
    write(output, separator);
    write(output, day);
}

/// Puts a space and the first three letters of the month's English name.
pub(crate) fn put_month_name<S: Sink>(output: &mut S, date: CalendarDay)
    requires room { Fits (S.buffer output.old) 4 }
    ensures puts { Puts (S.buffer output.old) (S.buffer output.new) 4
        (codes " " ++ short_name (month_name (month_and_day date).month)) }
{
    let (first, rest) = date.month_letters();
    write(output, first);
    write(output, rest);
}

/// Puts the hour, the minute and the second, and the separator between them.
#[inline(always)]
pub(crate) fn put_clock<S: Sink>(output: &mut S, time: Time, separator: &str)
    requires room { Fits (S.buffer output.old) (6 + 2 * length separator.now) }
    ensures puts { Ends (6 + 2 * length separator.now)
        (S.buffer output.old) (S.buffer output.new)
        (Ok tt) (done (clock_text separator.now time)) }
{
    let (hour, minute, second, _) = time.as_hms_nano();
    format_two_digits_pad_zero(output, ru8::within(hour));
    write(output, separator);
    format_two_digits_pad_zero(output, ru8::within(minute));
    write(output, separator);
    format_two_digits_pad_zero(output, ru8::within(second));
}

// The hours of an offset in two places.
fn offset_hours(offset: UtcOffset) -> &'static str
    ensures text { result.now ≡ zero_padded 2 (unsigned_abs offset.hours) }
    ensures length { length result.now ≡ 2 }
{
    magnitude_zero_padded(ri8::within(offset.as_hms().0))
}

// The minutes of an offset in two places.
pub(crate) fn offset_minutes(offset: UtcOffset) -> &'static str
    ensures text { result.now ≡ zero_padded 2 (unsigned_abs offset.minutes) }
    ensures length { length result.now ≡ 2 }
{
    magnitude_zero_padded(ri8::within(offset.as_hms().1))
}

/// Puts the sign of the whole offset, and its hours.
pub(crate) fn put_offset_hours<S: Sink>(output: &mut S, offset: UtcOffset)
    requires room { Fits (S.buffer output.old) 3 }
    ensures puts { Puts (S.buffer output.old) (S.buffer output.new) 3
        (offset_hours_text offset) }
{
    write(output, if offset.is_negative() { "-" } else { "+" });
    write(output, offset_hours(offset));
}

/// Puts the sign of the whole offset, and its hours and its minutes, and the separator between
/// them.
#[inline(always)]
pub(crate) fn put_signed_offset<S: Sink>(output: &mut S, offset: UtcOffset, separator: &str)
    requires room { Fits (S.buffer output.old) (5 + length separator.now) }
    ensures puts { Ends (5 + length separator.now)
        (S.buffer output.old) (S.buffer output.new)
        (Ok tt) (done (signed_offset_text separator.now offset)) }
{
    put_offset_hours(output, offset);
    write(output, separator);
    write(output, offset_minutes(offset));
}

/// Puts `Z` for UTC, else the sign of the whole offset, its hours and its minutes, and the
/// separator between them.
#[inline(always)]
pub fn put_offset<S: Sink>(output: &mut S, offset: UtcOffset, separator: &str)
    requires room { Fits (S.buffer output.old) (5 + length separator.now) }
    ensures puts { Ends (5 + length separator.now)
        (S.buffer output.old) (S.buffer output.new)
        (Ok tt) (done (offset_text separator.now offset)) }
{
    if offset.is_utc() {
        write(output, "Z");
    } else {
        put_signed_offset(output, offset, separator);
    }
}

/// Puts the weekday, the day, the month and the year, as mail has them.
#[inline(always)]
pub(crate) fn put_named_date<S: Sink>(output: &mut S, weekday: Weekday, fields: &Fields)
    requires room { Fits (S.buffer output.old) named_date_width }
    ensures puts { Ends named_date_width (S.buffer output.old) (S.buffer output.new)
        (Ok tt) (done (named_date_text (on_weekday (days_from_monday weekday) fields.now))) }
{
    fmt_weekday_short(output, weekday, WEEKDAY_SHORT);
    write(output, ", ");
    let (_, day) = fields.date.digits();
    write(output, day);
    put_month_name(output, fields.date);
    write(output, " ");
    format_four_digits_pad_zero(output, fields.year);
}
