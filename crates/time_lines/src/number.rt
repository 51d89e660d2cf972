//! The numbers of a line that are times, and the moments that they name.
ghost use Rattle.std.specs.Prelude.{ℕ, ◌≡◌, ◌≤◌, ◌<◌, ◌-◌, ◌*◌, ◌^◌, pos, true, false, Some, None};
ghost use Rattle.std.specs.Prelude.{length, drop, IfSome, IfNone, MatchOption};
ghost use Rattle.std.specs.Char.{is_ascii_digit};
ghost use Rattle.std.specs.List.{list_all};
ghost use Rattle.std.specs.Str.Parse.{digits_value};
ghost use Rattle.time_lines.specs.Number.{begins, decimals_length, decimals_of, decimals_value};
ghost use Rattle.time_lines.specs.Number.{digit_count, goes_on, has_minus};
ghost use Rattle.time_lines.specs.Number.{is_digit_at, is_time, moment_after, named_moment};
ghost use Rattle.time_lines.specs.Number.{decimals_shown, number_start, places_of};
ghost use Rattle.time_lines.specs.Window.{has_second, is_time_at, is_within};
ghost use Rattle.time_lines.specs.Number.{unit_by_digits, unit_for, unit_of, with_sign};
ghost use Rattle.time_below.specs.Moment.{IsMoment};

use crate::runs::{LANES, digit_count, others_in_lanes};
use std::convert::TryFrom;
use time_below::Timestamp;

/// The unit of a number of Unix time.
#[derive(Clone, Copy, Debug, PartialEq, Eq)]
pub enum Unit {
    Seconds,
    Milliseconds,
    Microseconds,
    Nanoseconds,
}

/// Seconds since 1970, from one to another.
#[derive(Clone, Copy)]
pub struct Window {
    pub first: i64,
    pub last: i64,
}

/// Which numbers of a line are times, and how they are replaced.
#[derive(Clone, Copy)]
pub struct Numbers {
    /// The unit of all numbers. Where none is given, each has the unit by its digits before the
    /// point: 9 or 10 are seconds, 12 or 13 milliseconds, 15 or 16 microseconds and 18 or 19
    /// nanoseconds, and a number of another length is no time.
    pub unit: Option<Unit>,
    /// How many digits a number has at least.
    pub least: usize,
    /// The seconds of which one is that of each number, if they are given.
    pub window: Option<Window>,
    /// Each number of a line is replaced, and not the first alone.
    pub is_all: bool,
    /// A text is put in quotes where its number stands as a value of JSON.
    pub is_json: bool,
}

/// The unit by the digits before the point, if there is one.
fn unit_by_digits(count: usize) -> Option<Unit>
    ensures { result ≡ unit_by_digits count }
{
    if count == 9 || count == 10 {
        Some(Unit::Seconds)
    } else if count == 12 || count == 13 {
        Some(Unit::Milliseconds)
    } else if count == 15 || count == 16 {
        Some(Unit::Microseconds)
    } else if count == 18 || count == 19 {
        Some(Unit::Nanoseconds)
    } else {
        None
    }
}

/// The unit of a number of so many digits: the one that is asked for, and else the one by its
/// digits.
pub(crate) fn unit_of(asked: Option<Unit>, count: usize) -> Option<Unit>
    ensures { result ≡ unit_of asked count }
{
    match asked {
        Some(unit) => Some(unit),
        None => unit_by_digits(count),
    }
}

/// The same, and seconds where it has none.
pub(crate) fn unit_for(asked: Option<Unit>, count: usize) -> Unit
    ensures { result ≡ unit_for asked count }
{
    match unit_of(asked, count) {
        Some(unit) => unit,
        None => Unit::Seconds,
    }
}

/// Whether a number of so many digits is a time. Most have ten, which is told first.
fn is_time(numbers: &Numbers, count: usize) -> bool
    ensures { result ≡ is_time numbers.now.unit numbers.now.least count }
{
    count >= numbers.least && (count == 10 || unit_of(numbers.unit, count).is_some())
}

/// How many of a unit a second has.
fn per_second(unit: Unit) -> u64
    ensures value { result ≡ 10 ^ places_of unit }
    ensures some { 1 ≤ result }
{
    match unit {
        Unit::Seconds => 1,
        Unit::Milliseconds => 1_000,
        Unit::Microseconds => 1_000_000,
        Unit::Nanoseconds => 1_000_000_000,
    }
}

/// How many decimals of a second a number has whose unit is this, with so many decimals: those
/// below a nanosecond are left out.
pub(crate) fn decimals_shown(unit: Unit, count: usize) -> usize
    ensures { result ≡ decimals_shown unit count }
{
    let places = match unit {
        Unit::Seconds => 0,
        Unit::Milliseconds => 3,
        Unit::Microseconds => 6,
        Unit::Nanoseconds => 9,
    };
    count.saturating_add(places).min(9)
}

/// Whether so many seconds before 1970 or after it are in the window.
fn has_second(window: Window, is_negative: bool, seconds: u64) -> bool
    ensures { result ≡ has_second window is_negative seconds }
{
    let Ok(seconds) = i64::try_from(seconds) else {
        return false;
    };
    let second = if is_negative { -seconds } else { seconds };
    window.first <= second && second <= window.last
}

/// Whether a number of these digits is in the window, if there is one.
#[inline(always)]
fn is_within(numbers: &Numbers, is_negative: bool, digits: &[u8]) -> bool
    requires digits { list_all is_ascii_digit digits.now ≡ true }
    ensures { result ≡ is_within numbers.now is_negative digits.now }
{
    let Some(window) = numbers.window else {
        return true;
    };
    if digits.len() > 19 {
        return false;
    }
    let unit = unit_for(numbers.unit, digits.len());
    has_second(window, is_negative, value_of(digits) / per_second(unit))
}

/// Whether a digit stands before this position, or a point after a digit.
fn goes_on(line: &[u8], at: usize) -> bool
    requires { at ≤ length line.now }
    ensures { result ≡ goes_on line.now at }
{
    at >= 1 && line[at - 1].is_ascii_digit()
        || at >= 2 && line[at - 1] == b'.' && line[at - 2].is_ascii_digit()
}

/// The first position from this one on where a digit stands, or where fewer than sixteen bytes are
/// left.
fn past_blocks(line: &[u8], from: usize) -> usize
    requires { from ≤ length line.now }
    ensures after { from ≤ result }
    ensures inside { result ≤ length line.now }
    ensures none { (k : ℕ) → from ≤ k → k < result → is_digit_at line.now k ≡ false }
{
    let mut at = from;
    while line.len() - at >= LANES {
        let run = others_in_lanes(line, at);
        if run < LANES {
            return at + run;
        }
        at += LANES;
    }
    at
}

/// The first position from this one on where a digit stands, or the end of the line.
fn next_digit(line: &[u8], from: usize) -> usize
    requires { from ≤ length line.now }
    ensures after { from ≤ result }
    ensures inside { result ≤ length line.now }
    ensures none { (k : ℕ) → from ≤ k → k < result → is_digit_at line.now k ≡ false }
    ensures digit { result < length line.now → is_digit_at line.now result ≡ true }
{
    let mut at = past_blocks(line, from);
    while at < line.len() && !line[at].is_ascii_digit() {
        at += 1;
    }
    at
}

/// Whether the number whose digits begin here, which are so many, is a time.
#[inline(always)]
fn is_time_here(line: &[u8], at: usize, count: usize, numbers: &Numbers) -> bool
    requires inside { at ≤ length line.now }
    requires digits { count ≤ length line.now - at }
    requires count { count ≡ digit_count (drop at line.now) }
    ensures { result ≡ is_time_at numbers.now line.now at }
{
    is_time(numbers, count) && is_within(numbers, has_minus(line, at), &line[at..at + count])
}

/// Whether a time begins here, where so many digits stand in a row.
fn is_number(line: &[u8], at: usize, count: usize, numbers: &Numbers) -> bool
    requires inside { at ≤ length line.now }
    requires digits { count ≤ length line.now - at }
    requires count { count ≡ digit_count (drop at line.now) }
    ensures { result ≡ begins (is_time_at numbers.now line.now) line.now at }
{
    count > 0 && !goes_on(line, at) && is_time_here(line, at, count, numbers)
}

/// Where the first time begins from this position on, and how many digits it has.
#[inline(always)]
fn number_from(line: &[u8], numbers: &Numbers, from: usize) -> Option<(usize, usize)>
    requires inside { from ≤ length line.now }
    ensures place { MatchOption result
        (number_start (is_time_at numbers.now line.now) line.now from ≡ None)
        (λ s. number_start (is_time_at numbers.now line.now) line.now from ≡ Some s.0) }
    ensures inside { IfSome result (λ s. s.0 ≤ length line.now) }
    ensures count { IfSome result (λ s. s.1 ≡ digit_count (drop s.0 line.now)) }
    ensures digits { IfSome result (λ s. s.1 ≤ length line.now - s.0) }
{
    let mut at = next_digit(line, from);
    while at < line.len() {
        let count = digit_count(&line[at..]);
        if is_number(line, at, count, numbers) {
            return Some((at, count));
        }
        at = next_digit(line, at + count);
    }
    None
}

/// How many digits the line begins with, which is soon told where it begins with another byte.
fn first_count(line: &[u8]) -> usize
    ensures count { result ≡ digit_count line.now }
    ensures inside { result ≤ length line.now }
{
    match line {
        [b'0'..=b'9', ..] => digit_count(line),
        _ => 0,
    }
}

/// The same from the start of the line. Most times begin their lines.
#[inline(always)]
fn first_number(line: &[u8], numbers: &Numbers) -> Option<(usize, usize)>
    ensures place { MatchOption result
        (number_start (is_time_at numbers.now line.now) line.now 0 ≡ None)
        (λ s. number_start (is_time_at numbers.now line.now) line.now 0 ≡ Some s.0) }
    ensures inside { IfSome result (λ s. s.0 ≤ length line.now) }
    ensures count { IfSome result (λ s. s.1 ≡ digit_count (drop s.0 line.now)) }
    ensures digits { IfSome result (λ s. s.1 ≤ length line.now - s.0) }
{
    let first = first_count(line);
    if is_number(line, 0, first, numbers) {
        return Some((0, first));
    }
    number_from(line, numbers, 0)
}

/// Where the first time begins from this position on, and how many digits it has.
#[inline(always)]
pub(crate) fn number_start(line: &[u8], numbers: &Numbers, from: usize) -> Option<(usize, usize)>
    requires from { from ≤ length line.now }
    ensures place { MatchOption result
        (number_start (is_time_at numbers.now line.now) line.now from ≡ None)
        (λ s. number_start (is_time_at numbers.now line.now) line.now from ≡ Some s.0) }
    ensures inside { IfSome result (λ s. s.0 ≤ length line.now) }
    ensures count { IfSome result (λ s. s.1 ≡ digit_count (drop s.0 line.now)) }
    ensures digits { IfSome result (λ s. s.1 ≤ length line.now - s.0) }
{
    if from == 0 {
        first_number(line, numbers)
    } else {
        number_from(line, numbers, from)
    }
}

/// Whether a minus sign of a number stands before this position.
pub(crate) fn has_minus(line: &[u8], at: usize) -> bool
    requires { at ≤ length line.now }
    ensures tells { result ≡ has_minus line.now at }
    ensures inside { result ≡ true → 1 ≤ at }
{
    at >= 1 && line[at - 1] == b'-' && (at == 1 || !line[at - 2].is_ascii_alphanumeric())
}

/// The decimals after a point with which the text begins, which may be none.
pub(crate) fn decimals_of(text: &[u8]) -> &[u8]
    ensures decimals { result.now ≡ decimals_of text.now }
    ensures digits { list_all is_ascii_digit result.now ≡ true }
    ensures inside { decimals_length result.now ≤ length text.now }
{
    match text {
        [b'.', rest @ ..] => &rest[..digit_count(rest)],
        _ => &[],
    }
}

/// How many bytes the decimals and their point have.
pub(crate) fn decimals_length(decimals: &[u8]) -> usize
    requires { length decimals.now < 0xffff_ffff_ffff_ffff }
    ensures { result ≡ decimals_length decimals.now }
{
    if decimals.is_empty() {
        0
    } else {
        decimals.len() + 1
    }
}

/// The number that at most 19 digits spell.
#[inline(always)]
fn sum_of(digits: &[u8]) -> u64
    requires count { length digits.now ≤ 19 }
    requires digits { list_all is_ascii_digit digits.now ≡ true }
    ensures { result ≡ digits_value 10 digits.now }
{
    let mut value = 0u64;
    for digit in digits {
        value = 10 * value + (u64::from(*digit) - 48);
    }
    value
}

/// The same. Numbers of ten digits, as the seconds from 2001 to 2286, and of three, as their
/// milliseconds, have loops of a known length for the row "a line of `movaliren unix`".
#[inline(always)]
fn value_of(digits: &[u8]) -> u64
    requires count { length digits.now ≤ 19 }
    requires digits { list_all is_ascii_digit digits.now ≡ true }
    ensures { result ≡ digits_value 10 digits.now }
{
    match digits.len() {
        10 => sum_of(&digits[..10]),
        3 => sum_of(&digits[..3]),
        _ => sum_of(digits),
    }
}

/// Ten to this power.
pub(crate) fn power_of_ten(exponent: usize) -> u64
    requires { exponent ≤ 9 }
    ensures { result ≡ 10 ^ exponent }
{
    match exponent {
        0 => 1,
        1 => 10,
        2 => 100,
        3 => 1_000,
        4 => 10_000,
        5 => 100_000,
        6 => 1_000_000,
        7 => 10_000_000,
        8 => 100_000_000,
        _ => 1_000_000_000,
    }
}

/// The value of the first of the decimals, as many as this.
fn decimals_value(count: usize, decimals: &[u8]) -> u64
    requires count { count ≤ 9 }
    requires digits { list_all is_ascii_digit decimals.now ≡ true }
    ensures value { result ≡ decimals_value count decimals.now }
    ensures small { result < 10 ^ count }
{
    if decimals.is_empty() {
        return 0;
    }
    let kept = &decimals[..count.min(decimals.len())];
    value_of(kept) * power_of_ten(count - kept.len())
}

/// The seconds and the nanoseconds of so many units and decimals.
#[inline(always)]
fn parts_after(unit: Unit, value: u64, decimals: &[u8]) -> (u64, u32)
    requires digits { list_all is_ascii_digit decimals.now ≡ true }
    ensures value { moment_after unit value decimals.now
        ≡ record { seconds = pos result.0; nanosecond = result.1 } }
    ensures small { result.1 < 1_000_000_000 }
{
    match unit {
        Unit::Seconds => (value, decimals_value(9, decimals) as u32),
        Unit::Milliseconds => {
            let below = value % 1_000 * 1_000_000 + decimals_value(6, decimals);
            (value / 1_000, below as u32)
        }
        Unit::Microseconds => {
            let below = value % 1_000_000 * 1_000 + decimals_value(3, decimals);
            (value / 1_000_000, below as u32)
        }
        Unit::Nanoseconds => {
            let below = value % 1_000_000_000 + decimals_value(0, decimals);
            (value / 1_000_000_000, below as u32)
        }
    }
}

/// The same by the unit that is asked for, or by the number of digits.
#[inline(always)]
fn parts_by(asked: Option<Unit>, count: usize, value: u64, decimals: &[u8]) -> (u64, u32)
    requires digits { list_all is_ascii_digit decimals.now ≡ true }
    ensures value { moment_after (unit_for asked count) value decimals.now
        ≡ record { seconds = pos result.0; nanosecond = result.1 } }
    ensures small { result.1 < 1_000_000_000 }
{
    match asked {
        Some(unit) => parts_after(unit, value, decimals),
        None => parts_after(unit_for(None, count), value, decimals),
    }
}

/// The moment of so many seconds and nanoseconds after 1970, or before it.
#[inline(always)]
fn signed_moment(is_negative: bool, seconds: u64, nanosecond: u32) -> Option<Timestamp>
    requires { nanosecond < 1_000_000_000 }
    ensures some { IfSome result (λ m. (m ≡ with_sign is_negative
        (record { seconds = pos seconds; nanosecond = nanosecond })) × IsMoment m) }
    ensures none { IfNone result (¬ IsMoment (with_sign is_negative
        (record { seconds = pos seconds; nanosecond = nanosecond }))) }
{
    let Ok(seconds) = i64::try_from(seconds) else {
        return None;
    };
    let made = if !is_negative {
        Timestamp::new(seconds, nanosecond)
    } else if nanosecond == 0 {
        Timestamp::new(-seconds, 0)
    } else {
        Timestamp::new(-seconds - 1, 1_000_000_000 - nanosecond)
    };
    match made {
        Ok(moment) => Some(moment),
        Err(_) => None,
    }
}

/// The moment that a number of these digits and decimals names, by the unit that is asked for or by
/// its digits.
#[inline(always)]
pub(crate) fn moment_of(
    asked: Option<Unit>,
    is_negative: bool,
    digits: &[u8],
    decimals: &[u8],
) -> Option<Timestamp>
    requires digits { list_all is_ascii_digit digits.now ≡ true }
    requires decimals { list_all is_ascii_digit decimals.now ≡ true }
    ensures some { IfSome result (λ m. (length digits.now ≤ 19) × IsMoment m
        × (m ≡ named_moment asked is_negative digits.now decimals.now)) }
    ensures none { IfNone result (length digits.now ≤ 19
        → ¬ IsMoment (named_moment asked is_negative digits.now decimals.now)) }
{
    if digits.len() > 19 {
        return None;
    }
    let (seconds, nanosecond) = parts_by(asked, digits.len(), value_of(digits), decimals);
    signed_moment(is_negative, seconds, nanosecond)
}
