//! The decimals of the second.
ghost use Rattle.std.specs.Prelude.{◌≡◌, ◌<◌, length, take};
ghost use Rattle.time_below.specs.declared.format_description.modifier.SubsecondDigits.TheVariants as SubsecondDigits;
ghost use Rattle.time_digits.specs.Digits.{fixed, zero_padded};
ghost use Rattle.time_digits.specs.Fraction.{trimmed_fraction};
ghost use Rattle.time_fmt.specs.Sink.{Fits, Puts};
ghost use Rattle.time_fmt.specs.Text.{subsecond_text};

use crate::sink::Sink;
use crate::writers::digits::{
    format_five_digits_pad_zero, format_four_digits_pad_zero, format_single_digit,
    format_six_digits_pad_zero, format_two_digits, format_two_digits_pad_zero, write_eight_digits,
};
use crate::writers::plain::{write_bytes, write_pair};
use time_below::format_description::modifier::{Padding, SubsecondDigits};
use time_digits::num_fmt::{nine_digits, three_digits_zero_padded, zeros_to_drop};
use time_digits::{ru8, ru16, ru32};
use time_provide::ranges::Nanoseconds;

// Appends any number of decimals.
pub(crate) fn write_rare_decimals<S: Sink>(
    output: &mut S,
    nanosecond: Nanoseconds,
    digits: SubsecondDigits,
) -> usize
    requires room { Fits (S.buffer output.old) (length (subsecond_text digits nanosecond)) }
    ensures writes { Puts (S.buffer output.old) (S.buffer output.new) result
        (subsecond_text digits nanosecond) }
{
    let mut taken = output.take_out();
    let count = write_first_decimals(&mut taken, nanosecond, digits);
    output.put_back(taken);
    count
}

// Appends any number of decimals, to a sink that was taken out.
#[cold]
fn write_first_decimals<S: Sink>(
    output: &mut S,
    nanosecond: Nanoseconds,
    digits: SubsecondDigits,
) -> usize
    requires room { Fits (S.buffer output.old) (length (subsecond_text digits nanosecond)) }
    ensures writes { Puts (S.buffer output.old) (S.buffer output.new) result
        (subsecond_text digits nanosecond) }
{
    let number = nanosecond.get();
    match digits {
        SubsecondDigits::One => {
            format_single_digit(output, ru8::within((number / 100_000_000) as u8))
        }
        SubsecondDigits::Two => {
            let first = ru8::within((number / 10_000_000) as u8);
            format_two_digits(output, first, Padding::Zero)
        }
        SubsecondDigits::Three => write_three_decimals(output, nanosecond),
        SubsecondDigits::Four => {
            format_four_digits_pad_zero(output, ru16::within((number / 100_000) as u16))
        }
        SubsecondDigits::Five => {
            format_five_digits_pad_zero(output, ru32::within(number / 10_000))
        }
        SubsecondDigits::Six => write_six_decimals(output, nanosecond),
        SubsecondDigits::Seven => format_seven_digits(output, number / 100),
        SubsecondDigits::Eight => write_eight_digits(output, number / 10),
        SubsecondDigits::Nine => write_nine_digits(output, nanosecond),
        SubsecondDigits::OneOrMore => write_fraction(output, nanosecond),
    }
}

/// Appends the first three of the nine digits. Allocates nothing and refuses nothing.
///
/// Returns the number of bytes appended.
#[inline(always)]
pub fn write_three_decimals<S: Sink>(output: &mut S, nanosecond: Nanoseconds) -> usize
    requires room { Fits (S.buffer output.old) 3 }
    ensures writes { Puts (S.buffer output.old) (S.buffer output.new) 3
        (take 3 (fixed 9 nanosecond)) }
    ensures count { result ≡ 3 }
{
    let number = nanosecond.get() / 1_000_000;
    write_three_digits(output, ru16::within(number as u16))
}

// Appends three digits.
fn write_three_digits<S: Sink>(output: &mut S, number: ru16<0, 999>) -> usize
    requires room { Fits (S.buffer output.old) 3 }
    ensures writes { Puts (S.buffer output.old) (S.buffer output.new) 3 (zero_padded 3 number) }
    ensures count { result ≡ 3 }
{
    let [first, pair] = three_digits_zero_padded(number);
    output.put_byte(first.as_bytes()[0]);
    1 + write_pair(output, pair)
}

/// Appends the nine digits without the zeros at their end, at least one digit. The output needs
/// spare capacity for these digits. Allocates nothing and refuses nothing.
///
/// Returns the number of bytes appended. Nine digits, milliseconds and microseconds are stored at
/// once: digits that are read back wait until they are all stored.
#[inline(always)]
pub fn write_fraction<S: Sink>(output: &mut S, nanosecond: Nanoseconds) -> usize
    requires room { Fits (S.buffer output.old) (length (trimmed_fraction nanosecond)) }
    ensures writes { Puts (S.buffer output.old) (S.buffer output.new) result
        (trimmed_fraction nanosecond) }
{
    let number = nanosecond.get();
    if number % 10 != 0 {
        return write_nine_digits(output, nanosecond);
    }
    if number % 1_000_000 == 0 && number / 1_000_000 % 10 != 0 {
        return write_three_decimals(output, nanosecond);
    }
    if number % 1_000 == 0 && number / 1_000 % 10 != 0 {
        return write_six_decimals(output, nanosecond);
    }
    write_rare_fraction(output, nanosecond)
}

// Appends any fraction to a sink that is taken out, since most fractions have nine, three or six
// digits.
fn write_rare_fraction<S: Sink>(output: &mut S, nanosecond: Nanoseconds) -> usize
    requires room { Fits (S.buffer output.old) (length (trimmed_fraction nanosecond)) }
    ensures writes { Puts (S.buffer output.old) (S.buffer output.new) result
        (trimmed_fraction nanosecond) }
{
    let mut taken = output.take_out();
    let count = write_trimmed_fraction(&mut taken, nanosecond);
    output.put_back(taken);
    count
}

/// Appends the first six of the nine digits. Allocates nothing and refuses nothing.
///
/// Returns the number of bytes appended.
#[inline(always)]
pub fn write_six_decimals<S: Sink>(output: &mut S, nanosecond: Nanoseconds) -> usize
    requires room { Fits (S.buffer output.old) 6 }
    ensures writes { Puts (S.buffer output.old) (S.buffer output.new) 6
        (take 6 (fixed 9 nanosecond)) }
    ensures count { result ≡ 6 }
{
    let number = nanosecond.get() / 1_000;
    let first = ru8::within((number / 10_000) as u8);
    let count = format_two_digits_pad_zero(output, first);
    let last = ru16::within((number % 10_000) as u16);
    count + format_four_digits_pad_zero(output, last)
}

/// Appends the nine digits. Allocates nothing and refuses nothing.
///
/// Returns the number of bytes appended.
#[inline(always)]
pub fn write_nine_digits<S: Sink>(output: &mut S, nanosecond: Nanoseconds) -> usize
    requires room { Fits (S.buffer output.old) 9 }
    ensures writes { Puts (S.buffer output.old) (S.buffer output.new) 9 (fixed 9 nanosecond) }
    ensures count { result ≡ 9 }
{
    let number = nanosecond.get();
    let first = format_single_digit(output, ru8::within((number / 100_000_000) as u8));
    let last_eight = number % 100_000_000;
    let next = ru16::within((last_eight / 10_000) as u16);
    let count = first + format_four_digits_pad_zero(output, next);
    let last = ru16::within((last_eight % 10_000) as u16);
    count + format_four_digits_pad_zero(output, last)
}

// Appends the nine digits without the zeros at their end, at least one digit.
#[cold]
fn write_trimmed_fraction<S: Sink>(output: &mut S, nanosecond: Nanoseconds) -> usize
    requires room { Fits (S.buffer output.old) (length (trimmed_fraction nanosecond)) }
    ensures writes { Puts (S.buffer output.old) (S.buffer output.new) result
        (trimmed_fraction nanosecond) }
{
    let digits = nine_digits(nanosecond);
    let last_eight = *digits.last_chunk::<8>().unwrap();
    let dropped = zeros_to_drop(u64::from_le_bytes(last_eight));
    write_bytes(output, &digits[..digits.len() - dropped as usize])
}

// Appends a number in seven places, with zeros in front.
fn format_seven_digits<S: Sink>(output: &mut S, number: u32) -> usize
    requires digits { number < 10_000_000 }
    requires room { Fits (S.buffer output.old) 7 }
    ensures writes { Puts (S.buffer output.old) (S.buffer output.new) result (fixed 7 number) }
{
    let first = format_single_digit(output, ru8::within((number / 1_000_000) as u8));
    first + format_six_digits_pad_zero(output, ru32::within(number % 1_000_000))
}
