//! Numbers, and the signs before them.
ghost use Rattle.std.specs.Prelude.{◌≡◌, ◌<◌, ◌≤◌, length, decimal, replicate};
ghost use Rattle.time_digits.specs.Digits.{fixed, zero_padded};
ghost use Rattle.time_fmt.specs.Sink.{Fits, Puts};
ghost use Rattle.time_fmt.specs.Text.{padded_text, sign_text};

use crate::sink::Sink;
use crate::writers::plain::{write, write_many, write_pair};
use time_below::format_description::modifier::Padding;
use time_digits::num_fmt::{
    five_digits_zero_padded, four_digits_space_padded, four_digits_zero_padded,
    one_to_four_digits_no_padding, one_to_three_digits_no_padding, one_to_two_digits_no_padding,
    six_digits_zero_padded, three_digits_space_padded, three_digits_zero_padded,
    two_digits_space_padded, two_digits_zero_padded, u64_pad_none,
};
use time_digits::{ru8, ru16, ru32};

/// Appends a minus if the number is negative, else a plus if a sign is mandatory, else nothing.
pub fn fmt_sign<S: Sink>(output: &mut S, is_negative: bool, sign_is_mandatory: bool) -> usize
    requires room { Fits (S.buffer output.old) (length (sign_text is_negative sign_is_mandatory)) }
    ensures writes { Puts (S.buffer output.old) (S.buffer output.new) result
        (sign_text is_negative sign_is_mandatory) }
{
    if is_negative {
        output.put_byte(b'-');
        1
    } else if sign_is_mandatory {
        output.put_byte(b'+');
        1
    } else {
        0
    }
}

/// Appends one digit.
pub fn format_single_digit<S: Sink>(output: &mut S, value: ru8<0, 9>) -> usize
    requires room { Fits (S.buffer output.old) (length (decimal value)) }
    ensures writes { Puts (S.buffer output.old) (S.buffer output.new) result (decimal value) }
{
    output.put_byte(b'0' + value.get());
    1
}

/// Appends a number in two places, with a zero in front where it is below 10.
pub fn format_two_digits_pad_zero<S: Sink>(output: &mut S, value: ru8<0, 99>) -> usize
    requires room { Fits (S.buffer output.old) 2 }
    ensures writes { Puts (S.buffer output.old) (S.buffer output.new) 2 (zero_padded 2 value) }
    ensures count { result ≡ 2 }
{
    write_pair(output, two_digits_zero_padded(value))
}

/// Appends a number of at most two digits, padded to two places as `padding` says.
#[inline(always)]
pub fn format_two_digits<S: Sink>(output: &mut S, value: ru8<0, 99>, padding: Padding) -> usize
    requires room { Fits (S.buffer output.old) (length (padded_text padding 2 value)) }
    ensures writes { Puts (S.buffer output.old) (S.buffer output.new) result
        (padded_text padding 2 value) }
{
    match padding {
        Padding::Zero => write_pair(output, two_digits_zero_padded(value)),
        rare => write_two_rarely(output, value, rare),
    }
}

/// Appends two places of rare padding to a sink that is taken out, since most numbers have zeros
/// in front.
pub(crate) fn write_two_rarely<S: Sink>(
    output: &mut S,
    value: ru8<0, 99>,
    padding: Padding,
) -> usize
    requires room { Fits (S.buffer output.old) (length (padded_text padding 2 value)) }
    ensures writes { Puts (S.buffer output.old) (S.buffer output.new) result
        (padded_text padding 2 value) }
{
    let mut taken = output.take_out();
    let count = write_two_places(&mut taken, value, padding);
    output.put_back(taken);
    count
}

// Appends two places to a sink that was taken out.
#[cold]
fn write_two_places<S: Sink>(output: &mut S, value: ru8<0, 99>, padding: Padding) -> usize
    requires room { Fits (S.buffer output.old) (length (padded_text padding 2 value)) }
    ensures writes { Puts (S.buffer output.old) (S.buffer output.new) result
        (padded_text padding 2 value) }
{
    match padding {
        Padding::Zero => write(output, two_digits_zero_padded(value)),
        Padding::Space => write(output, two_digits_space_padded(value)),
        Padding::None => write(output, one_to_two_digits_no_padding(value)),
    }
}

/// Appends a number of at most three digits, padded to three places as `padding` says.
#[tactic(auto, using(crate::proofs::TextLemmas::text_lengths))]
pub fn format_three_digits<S: Sink>(output: &mut S, value: ru16<0, 999>, padding: Padding) -> usize
    requires room { Fits (S.buffer output.old) (length (padded_text padding 3 value)) }
    ensures writes { Puts (S.buffer output.old) (S.buffer output.new) result
        (padded_text padding 3 value) }
{
    match padding {
        Padding::Zero => write_many(output, &three_digits_zero_padded(value)),
        Padding::Space => write_many(output, &three_digits_space_padded(value)),
        Padding::None => write_many(output, &one_to_three_digits_no_padding(value)),
    }
}

/// Appends a number of at most four digits, padded to four places as `padding` says.
#[inline(always)]
#[tactic(auto, using(crate::proofs::NumberLemmas::number_lengths))]
pub fn format_four_digits<S: Sink>(output: &mut S, value: ru16<0, 9_999>, padding: Padding) -> usize
    requires room { Fits (S.buffer output.old) (length (padded_text padding 4 value)) }
    ensures writes { Puts (S.buffer output.old) (S.buffer output.new) result
        (padded_text padding 4 value) }
{
    match padding {
        Padding::Zero => format_four_digits_pad_zero(output, value),
        rare => write_four_rarely(output, value, rare),
    }
}

// Appends four places of rare padding to a sink that is taken out, since most numbers have zeros
// in front.
fn write_four_rarely<S: Sink>(output: &mut S, value: ru16<0, 9_999>, padding: Padding) -> usize
    requires room { Fits (S.buffer output.old) (length (padded_text padding 4 value)) }
    ensures writes { Puts (S.buffer output.old) (S.buffer output.new) result
        (padded_text padding 4 value) }
{
    let mut taken = output.take_out();
    let count = write_four_places(&mut taken, value, padding);
    output.put_back(taken);
    count
}

// Appends four places to a sink that was taken out.
#[cold]
fn write_four_places<S: Sink>(output: &mut S, value: ru16<0, 9_999>, padding: Padding) -> usize
    requires room { Fits (S.buffer output.old) (length (padded_text padding 4 value)) }
    ensures writes { Puts (S.buffer output.old) (S.buffer output.new) result
        (padded_text padding 4 value) }
{
    match padding {
        Padding::Zero => format_four_digits_pad_zero(output, value),
        Padding::Space => write_many(output, &four_digits_space_padded(value)),
        Padding::None => write_many(output, &one_to_four_digits_no_padding(value)),
    }
}

/// Appends a number in four places, with zeros in front.
#[inline(always)]
pub fn format_four_digits_pad_zero<S: Sink>(output: &mut S, value: ru16<0, 9_999>) -> usize
    requires room { Fits (S.buffer output.old) 4 }
    ensures writes { Puts (S.buffer output.old) (S.buffer output.new) 4 (zero_padded 4 value) }
    ensures count { result ≡ 4 }
{
    let [high, low] = four_digits_zero_padded(value);
    let count = write_pair(output, high);
    count + write_pair(output, low)
}

/// Appends a number in five places, with zeros in front.
pub fn format_five_digits_pad_zero<S: Sink>(output: &mut S, value: ru32<0, 99_999>) -> usize
    requires room { Fits (S.buffer output.old) (length (zero_padded 5 value)) }
    ensures writes { Puts (S.buffer output.old) (S.buffer output.new) result (zero_padded 5 value) }
{
    write_many(output, &five_digits_zero_padded(value))
}

/// Appends a number in six places, with zeros in front.
pub fn format_six_digits_pad_zero<S: Sink>(output: &mut S, value: ru32<0, 999_999>) -> usize
    requires room { Fits (S.buffer output.old) (length (zero_padded 6 value)) }
    ensures writes { Puts (S.buffer output.old) (S.buffer output.new) result (zero_padded 6 value) }
{
    write_many(output, &six_digits_zero_padded(value))
}

/// Appends all digits of a number, and nothing before them.
pub fn format_u64_pad_none<S: Sink>(output: &mut S, value: u64) -> usize
    requires room { Fits (S.buffer output.old) (length (decimal value)) }
    ensures writes { Puts (S.buffer output.old) (S.buffer output.new) result (decimal value) }
{
    if value < 100_000_000 || value > 9_999_999_999_999_999 {
        return write(output, u64_pad_none(value).as_str());
    }
    let _room = output.room();
    let mut taken = output.take_out();
    let count = write_at_most_eight(&mut taken, (value / 100_000_000) as u32);
    let last = write_eight_digits(&mut taken, (value % 100_000_000) as u32);
    output.put_back(taken);
    count + last
}

// Appends all digits of a number that has at most eight. Of five to eight the last four have a
// length that is known.
fn write_at_most_eight<S: Sink>(output: &mut S, value: u32) -> usize
    requires most { value < 100_000_000 }
    requires room { Fits (S.buffer output.old) (length (decimal value)) }
    ensures writes { Puts (S.buffer output.old) (S.buffer output.new) result (decimal value) }
{
    if value < 10_000 {
        return write_many(
            output,
            &one_to_four_digits_no_padding(ru16::within(value as u16)),
        );
    }
    let first = ru16::within((value / 10_000) as u16);
    let count = write_many(output, &one_to_four_digits_no_padding(first));
    count + format_four_digits_pad_zero(output, ru16::within((value % 10_000) as u16))
}

/// Appends a number in eight places, with zeros in front.
pub(super) fn write_eight_digits<S: Sink>(output: &mut S, value: u32) -> usize
    requires digits { value < 100_000_000 }
    requires room { Fits (S.buffer output.old) 8 }
    ensures writes { Puts (S.buffer output.old) (S.buffer output.new) result (fixed 8 value) }
{
    let first = ru16::within((value / 10_000) as u16);
    let last = ru16::within((value % 10_000) as u16);
    let count = format_four_digits_pad_zero(output, first);
    count + format_four_digits_pad_zero(output, last)
}

/// Appends a number in `width` places, with zeros in front, where it has no more digits than that.
pub fn format_int_padded<S: Sink>(output: &mut S, value: u64, width: u8) -> usize
    requires digits { length (decimal value) ≤ width }
    requires room { Fits (S.buffer output.old) (length (zero_padded width value)) }
    ensures writes { Puts (S.buffer output.old) (S.buffer output.new) result
        (zero_padded width value) }
{
    let digits = u64_pad_none(value);
    let zeros = write_zeros(output, width as usize - digits.len());
    zeros + write(output, digits.as_str())
}

// Appends this many zeros.
fn write_zeros<S: Sink>(output: &mut S, count: usize) -> usize
    requires room { Fits (S.buffer output.old) count }
    ensures writes { Puts (S.buffer output.old) (S.buffer output.new) result (replicate count 48) }
{
    for _ in 0..count {
        write(output, "0");
    }
    count
}
