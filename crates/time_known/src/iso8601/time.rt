//! The time of day of a text of ISO 8601-1:2019, section 5.3.
#![tactic(auto, using(crate::proofs::LengthLemmas::joined_lengths))]

ghost use Rattle.std.specs.Prelude.{◌≡◌, Ok, ◌+◌, ◌*◌, ◌<◌, ◌≤◌, ◌++◌, codes, IsTrue};
ghost use Rattle.time_below.specs.Facts.{the_time};
ghost use Rattle.time_fmt.specs.Ends.{Ends};
ghost use Rattle.time_fmt.specs.Decimals.{decimals};
ghost use Rattle.time_fmt.specs.Outcome.{AppendsUpTo, done};
ghost use Rattle.time_fmt.specs.Room.{HasRoom};
ghost use Rattle.time_fmt.specs.Sink.{Fits, Puts};
ghost use Rattle.time_provide.specs.Real.{AgreesOnTime};
ghost use Rattle.time_known.specs.Iso8601.{iso_time, iso_time_text, decimal_part, units_text};
ghost use Rattle.time_known.specs.Iso8601.{nanoseconds_of_hour, nanoseconds_of_minute};
ghost use Rattle.time_known.specs.Iso8601Width.{iso_time_width, decimal_part_width, units_width};
ghost use Rattle.time_known.specs.WellKnown.{clock_text};

use crate::fields::time_of;
use crate::iso8601::config::{Config, DecimalSign, TimePrecision};
use crate::put::put_clock;
use time_below::Time;
use time_digits::tables::piece_of;
use time_digits::{ru8, ru32};
use time_fmt::writers::{
    format_decimals, format_single_digit, format_two_digits_pad_zero, put_back, take_out, write,
    write_if, write_literal, write_nine_digits, write_six_decimals, write_three_decimals,
};
use time_fmt::{Format, Sink};
use time_provide::ComponentProvider;
use time_provide::ranges::Nanoseconds;

const NANOSECONDS_PER_SECOND: u64 = 1_000_000_000;

const NANOSECONDS_PER_MINUTE: u64 = 60_000_000_000;

const NANOSECONDS_PER_HOUR: u64 = 3_600_000_000_000;

/// Appends the time, whether or not the configuration formats times, and allocates nothing.
///
/// The output needs spare capacity for [`time_width`](Config::time_width). Returns the number of
/// bytes appended. No time is refused.
pub fn format_time<V: ComponentProvider>(
    config: &Config,
    output: &mut Vec<u8>,
    value: &V,
    state: &mut V::State,
) -> Result<usize, Format>
    requires supplied { IsTrue V.SUPPLIES_TIME }
    requires room { HasRoom output.old (iso_time_width config.now) }
    requires agrees { V.agrees state.old value.now }
    ensures appends { AppendsUpTo (iso_time_width config.now) output.old output.new result
        (iso_time config.now (the_time (V.facts value.now))) }
    ensures agrees { AgreesOnTime (V.agrees state.new value.now) (V.facts value.now) }
{
    let time = time_of(value, state);
    let mut taken = take_out(output);
    let begin = taken.len();
    put_time(&mut taken, config, time);
    let count = taken.len() - begin;
    put_back(output, taken);
    Ok(count)
}

/// Puts the letter, where there is one, the whole units down to the precision, and decimals of the
/// last one.
pub(super) fn put_time<S: Sink>(output: &mut S, config: &Config, time: Time)
    requires room { Fits (S.buffer output.old) (iso_time_width config.now) }
    ensures puts { Ends (iso_time_width config.now) (S.buffer output.old)
        (S.buffer output.new) (Ok tt) (done (iso_time_text config.now time)) }
{
    if config.has_time_letter() {
        write(output, "T");
    }
    put_units(output, config, time);
}

// Puts the whole units down to the precision, and decimals of the last one.
fn put_units<S: Sink>(output: &mut S, config: &Config, time: Time)
    requires room { Fits (S.buffer output.old)
        (units_width config.now.time_precision config.now) }
    ensures puts { Ends (units_width config.now.time_precision config.now)
        (S.buffer output.old) (S.buffer output.new)
        (Ok tt) (done (units_text config.now.time_precision config.now time)) }
{
    let (has_colon, sign) = (config.use_separators(), config.decimal_sign());
    match config.time_precision() {
        TimePrecision::Hour { decimal_digits } => {
            format_two_digits_pad_zero(output, ru8::within(time.hour()));
            let rest = nanoseconds_of_hour(time);
            put_decimals_of(output, rest, NANOSECONDS_PER_HOUR, sign, decimal_digits);
        }
        TimePrecision::Minute { decimal_digits } => {
            let (hour, minute, _, _) = time.as_hms_nano();
            format_two_digits_pad_zero(output, ru8::within(hour));
            write_if(output, has_colon, ":");
            format_two_digits_pad_zero(output, ru8::within(minute));
            let rest = nanoseconds_of_minute(time);
            put_decimals_of(output, rest, NANOSECONDS_PER_MINUTE, sign, decimal_digits);
        }
        TimePrecision::Second { decimal_digits } => {
            let (hour, minute, second, _) = time.as_hms_nano();
            format_two_digits_pad_zero(output, ru8::within(hour));
            write_if(output, has_colon, ":");
            format_two_digits_pad_zero(output, ru8::within(minute));
            write_if(output, has_colon, ":");
            format_two_digits_pad_zero(output, ru8::within(second));
            put_decimals_of_second(output, time, sign, decimal_digits);
        }
    }
}

// Puts the decimal sign and decimals of the second, if any are wanted.
#[inline(always)]
#[tactic(auto, using(crate::proofs::iso8601::LengthLemmas::decimal_lengths))]
fn put_decimals_of_second<S: Sink>(
    output: &mut S,
    time: Time,
    sign: DecimalSign,
    digits: Option<ru8<1, 255>>,
)
    requires room { Fits (S.buffer output.old) (decimal_part_width digits) }
    ensures puts { Ends (decimal_part_width digits) (S.buffer output.old)
        (S.buffer output.new)
        (Ok tt) (done (decimal_part sign digits time.nanosecond NANOSECONDS_PER_SECOND)) }
{
    if let Some(digits) = digits {
        write(output, sign.text());
        put_decimals(output, ru32::within(time.as_hms_nano().3), digits);
    }
}

/// Puts the hour, the minute and the second with colons between them, and decimals of the second.
#[tactic(auto, using(crate::proofs::iso8601::LengthLemmas::decimal_lengths))]
pub(super) fn put_to_second<S: Sink>(
    output: &mut S,
    time: Time,
    sign: DecimalSign,
    digits: Option<ru8<1, 255>>,
)
    requires room { Fits (S.buffer output.old) (8 + decimal_part_width digits) }
    ensures puts { Ends (8 + decimal_part_width digits)
        (S.buffer output.old) (S.buffer output.new)
        (Ok tt) (done (clock_text (codes ":") time
        ++ decimal_part sign digits time.nanosecond NANOSECONDS_PER_SECOND)) }
{
    put_clock(output, time, ":");
    put_decimals_of_second(output, time, sign, digits);
}

// What the whole hours leave out of the time.
fn nanoseconds_of_hour(time: Time) -> u64
    ensures value { result ≡ nanoseconds_of_hour time }
    ensures range { result < NANOSECONDS_PER_HOUR }
{
    let (_, minute, _, _) = time.as_hms_nano();
    NANOSECONDS_PER_MINUTE * u64::from(minute) + nanoseconds_of_minute(time)
}

// What the whole minutes leave out of the time.
fn nanoseconds_of_minute(time: Time) -> u64
    ensures value { result ≡ nanoseconds_of_minute time }
    ensures range { result < NANOSECONDS_PER_MINUTE }
{
    let (_, _, second, nanosecond) = time.as_hms_nano();
    NANOSECONDS_PER_SECOND * u64::from(second) + u64::from(nanosecond)
}

// Puts the decimal sign and the decimals of the rest over the unit, not rounded, if any are wanted.
#[tactic(auto, using(crate::proofs::iso8601::LengthLemmas::decimal_lengths))]
fn put_decimals_of<S: Sink>(
    output: &mut S,
    rest: u64,
    unit: u64,
    sign: DecimalSign,
    digits: Option<ru8<1, 255>>,
)
    requires part { rest < unit }
    requires unit { unit ≤ NANOSECONDS_PER_HOUR }
    requires room { Fits (S.buffer output.old) (decimal_part_width digits) }
    ensures puts { Ends (decimal_part_width digits)
        (S.buffer output.old) (S.buffer output.new)
        (Ok tt) (done (decimal_part sign digits rest unit)) }
{
    if let Some(digits) = digits {
        write(output, sign.text());
        put_long_division(output, rest, unit, digits);
    }
}

// The zeros after the ninth decimal.
const ZEROS: &str = "\
0000000000000000000000000000000000000000000000000000000000000000000000000000000000\
0000000000000000000000000000000000000000000000000000000000000000000000000000000000\
0000000000000000000000000000000000000000000000000000000000000000000000000000000000";

/// Puts this many decimals of the second.
#[inline(always)]
#[tactic(auto, using(crate::proofs::iso8601::LengthLemmas::decimals_of_second))]
pub fn put_decimals<S: Sink>(output: &mut S, nanosecond: Nanoseconds, digits: ru8<1, 255>)
    requires room { Fits (S.buffer output.old) digits }
    ensures puts { Puts (S.buffer output.old) (S.buffer output.new) digits
        (decimals nanosecond NANOSECONDS_PER_SECOND digits) }
{
    match digits.get() {
        9.. => put_nine_and_more(output, nanosecond, digits.get()),
        6 => {
            write_six_decimals(output, nanosecond);
        }
        3 => {
            write_three_decimals(output, nanosecond);
        }
        1 => {
            format_single_digit(output, ru8::within((nanosecond.get() / 100_000_000) as u8));
        }
        _ => {
            let rest = u64::from(nanosecond.get());
            put_long_division(output, rest, NANOSECONDS_PER_SECOND, digits);
        }
    }
}

// Puts the nine digits, and as many zeros as there are more decimals.
#[inline(always)]
#[tactic(auto, using(crate::proofs::iso8601::LengthLemmas::table_of_zeros))]
fn put_nine_and_more<S: Sink>(output: &mut S, nanosecond: Nanoseconds, digits: u8)
    requires many { 9 ≤ digits }
    requires room { Fits (S.buffer output.old) digits }
    ensures puts { Puts (S.buffer output.old) (S.buffer output.new) digits
        (decimals nanosecond NANOSECONDS_PER_SECOND digits) }
{
    write_nine_digits(output, nanosecond);
    if digits > 9 {
        write_literal(output, piece_of(ZEROS, 0, digits as usize - 9).as_bytes());
    }
}

// Puts the first `digits` decimals of `rest / unit`, not rounded.
fn put_long_division<S: Sink>(output: &mut S, rest: u64, unit: u64, digits: ru8<1, 255>)
    requires part { rest < unit }
    requires unit { unit ≤ NANOSECONDS_PER_HOUR }
    requires room { Fits (S.buffer output.old) digits }
    ensures puts { Puts (S.buffer output.old) (S.buffer output.new) digits
        (decimals rest unit digits) }
{
    let mut taken = output.take_out();
    format_decimals(&mut taken, rest, unit, digits);
    output.put_back(taken);
}
