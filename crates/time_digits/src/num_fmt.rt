//! The texts of numbers, borrowed from constant tables or written into arrays.
//!
//! A text in several pieces is read by joining them, the first piece first. The bounds of a number
//! are in its type; no call here tests them again.
ghost use Rattle.std.specs.Prelude.{◌≡◌, ◌+◌, ◌-◌, ◌/◌, ◌%◌, ◌≤◌, [], ◌∷◌, ◌++◌, length, take};
ghost use Rattle.std.specs.Prelude.{drop, min, decimal, unsigned_abs};
ghost use Rattle.std.specs.Int.{w64, to_le_bytes};
ghost use Rattle.std.specs.Str.Parse.{AllDigits};
ghost use Rattle.time_digits.specs.Digits.{fixed, zero_padded, space_padded};
ghost use Rattle.time_digits.specs.Fraction.{trimmed_fraction, last_zeros};
ghost use Rattle.time_digits.specs.Pieces.{joined, piece_lengths};
ghost use Rattle.time_digits.specs.Shown.{shown, shown_end};

use crate::ranged::{ri8, ru8, ru16, ru32};
use crate::stack_str::{StackStr, StackTrailingStr};
use crate::tables::{
    MAGNITUDE_PAIRS, SINGLE_DIGITS, SPACE_PADDED_PAIRS, ZERO_PADDED_PAIRS, piece_of,
};

/// The factor by which `div_100` multiplies: the least whole number above 2 ^ 19 / 100.
pub const DIV_100_FACTOR: u32 = 5243;

/// The number of bits by which `div_100` then shifts the product right.
pub const DIV_100_SHIFT: u32 = 19;

// The word whose eight bytes are the digit 0.
const EIGHT_ZEROS: u64 = 0x3030_3030_3030_3030;

/// Writes `value` in two places, with a zero in front where it is below 10, to the bytes `offset`
/// and `offset + 1`.
#[tactic(auto, using(crate::proofs::WriteLemmas::digit_writes))]
pub fn write_two_digits(buf: &mut [u8], offset: usize, value: ru8<0, 99>)
    requires room { offset + 2 ≤ length buf.old }
    ensures { buf.new ≡ take offset buf.old ++ fixed 2 value ++ drop (offset + 2) buf.old }
{
    let digits = two_digits_zero_padded(value).as_bytes();
    buf[offset] = digits[0];
    buf[offset + 1] = digits[1];
}

/// Writes the digit `value` to the byte `offset`.
#[tactic(auto, using(crate::proofs::WriteLemmas::digit_writes))]
pub fn write_one_digit(buf: &mut [u8], offset: usize, value: ru8<0, 9>)
    requires room { offset + 1 ≤ length buf.old }
    ensures { buf.new ≡ take offset buf.old ++ fixed 1 value ++ drop (offset + 1) buf.old }
{
    buf[offset] = single_digit(value).as_bytes()[0];
}

/// Returns the quotient and the remainder of `n` by 100, in this order, by one multiplication and a
/// shift.
#[tactic(auto, using(crate::proofs::DivisionLemmas::quotient_by_5243))]
pub fn div_100(n: ru16<0, 9_999>) -> [ru8<0, 99>; 2]
    ensures { result ≡ n / 100 ∷ n % 100 ∷ [] }
{
    let number = u32::from(n.get());
    let high = (number * DIV_100_FACTOR) >> DIV_100_SHIFT;
    let low = number - 100 * high;
    [ru8::within(high as u8), ru8::within(low as u8)]
}

/// Returns the text of the digit `n`, one byte.
#[tactic(auto, using(crate::proofs::SingleDigitLemmas::digit_facts))]
pub fn single_digit(n: ru8<0, 9>) -> &'static str
    ensures text { result.now ≡ decimal n }
    ensures len { length result.now ≡ 1 }
{
    piece_of(SINGLE_DIGITS, n.get() as usize, 1)
}

/// Returns the one or two digits of `n`, with no padding.
#[tactic(auto, using(crate::proofs::ZeroPaddedLemmas::number_facts))]
pub fn one_to_two_digits_no_padding(n: ru8<0, 99>) -> &'static str
    ensures text { result.now ≡ decimal n }
    ensures some { 1 ≤ length result.now }
    ensures most { length result.now ≤ 2 }
{
    let number = n.get() as usize;
    if number < 10 {
        piece_of(ZERO_PADDED_PAIRS, 2 * number + 1, 1)
    } else {
        piece_of(ZERO_PADDED_PAIRS, 2 * number, 2)
    }
}

/// `n` in two places, with a zero in front where it is below 10.
#[tactic(auto, using(crate::proofs::ZeroPaddedLemmas::pair_facts))]
pub fn two_digits_zero_padded(n: ru8<0, 99>) -> &'static str
    ensures text { result.now ≡ zero_padded 2 n }
    ensures len { length result.now ≡ 2 }
{
    piece_of(ZERO_PADDED_PAIRS, 2 * n.get() as usize, 2)
}

/// Returns the magnitude of `n` in two places, with a zero in front where it is below 10. It is
/// read from a table by `n` itself, so that no sign is taken away first.
#[tactic(auto, using(crate::proofs::MagnitudeLemmas::magnitude_facts))]
pub fn magnitude_zero_padded(n: ri8<59>) -> &'static str
    ensures text { result.now ≡ zero_padded 2 (unsigned_abs n) }
    ensures len { length result.now ≡ 2 }
{
    piece_of(MAGNITUDE_PAIRS, 2 * (n.get() + 59) as usize, 2)
}

/// `n` in two places, with a space in front where it is below 10.
#[tactic(auto, using(crate::proofs::SpacePaddedLemmas::space_facts))]
pub fn two_digits_space_padded(n: ru8<0, 99>) -> &'static str
    ensures text { result.now ≡ space_padded 2 n }
    ensures len { length result.now ≡ 2 }
{
    piece_of(SPACE_PADDED_PAIRS, 2 * n.get() as usize, 2)
}

/// Returns the one to three digits of `n`, with no padding; the second piece holds the last two of
/// them, or the only one.
#[tactic(auto, using(crate::proofs::PieceLemmas::three_places))]
pub fn one_to_three_digits_no_padding(n: ru16<0, 999>) -> [&'static str; 2]
    ensures text { joined result ≡ decimal n }
    ensures pieces { let l = length (decimal n) in piece_lengths result ≡ (l - 2) ∷ min l 2 ∷ [] }
    ensures some { 1 ≤ length (joined result) }
    ensures most { length (joined result) ≤ 3 }
{
    match n.narrow::<0, 99>() {
        Some(small) => [
            "",
            one_to_two_digits_no_padding(ru8::within(small.get() as u8)),
        ],
        None => three_digits_zero_padded(n),
    }
}

/// `n` in three places, with zeros in front; pieces of one and two bytes.
#[tactic(auto, using(crate::proofs::PieceLemmas::three_places))]
pub fn three_digits_zero_padded(n: ru16<0, 999>) -> [&'static str; 2]
    ensures text { joined result ≡ zero_padded 3 n }
    ensures pieces { piece_lengths result ≡ 1 ∷ 2 ∷ [] }
    ensures len { length (joined result) ≡ 3 }
{
    let [high, low] = div_100(n.expand());
    [
        single_digit(ru8::within(high.get())),
        two_digits_zero_padded(low),
    ]
}

/// `n` in three places, with spaces in front; pieces of one and two bytes.
#[tactic(auto, using(crate::proofs::PieceLemmas::three_places))]
pub fn three_digits_space_padded(n: ru16<0, 999>) -> [&'static str; 2]
    ensures text { joined result ≡ space_padded 3 n }
    ensures pieces { piece_lengths result ≡ 1 ∷ 2 ∷ [] }
    ensures len { length (joined result) ≡ 3 }
{
    let [high, low] = div_100(n.expand());
    match high.narrow::<1, 9>() {
        Some(high) => [single_digit(high.expand()), two_digits_zero_padded(low)],
        None => [" ", two_digits_space_padded(low)],
    }
}

/// Returns the one to four digits of `n`, with no padding; the second piece holds the last two of
/// them, or the only one.
#[tactic(auto, using(crate::proofs::PieceLemmas::four_places))]
pub fn one_to_four_digits_no_padding(n: ru16<0, 9_999>) -> [&'static str; 2]
    ensures text { joined result ≡ decimal n }
    ensures pieces { let l = length (decimal n) in piece_lengths result ≡ (l - 2) ∷ min l 2 ∷ [] }
    ensures some { 1 ≤ length (joined result) }
    ensures most { length (joined result) ≤ 4 }
{
    match n.narrow::<0, 999>() {
        Some(small) => one_to_three_digits_no_padding(small),
        None => four_digits_zero_padded(n),
    }
}

/// `n` in four places, with zeros in front; two pieces of two bytes.
#[tactic(auto, using(crate::proofs::PieceLemmas::four_places))]
pub fn four_digits_zero_padded(n: ru16<0, 9_999>) -> [&'static str; 2]
    ensures text { joined result ≡ zero_padded 4 n }
    ensures pieces { piece_lengths result ≡ 2 ∷ 2 ∷ [] }
    ensures len { length (joined result) ≡ 4 }
{
    let [high, low] = div_100(n);
    [two_digits_zero_padded(high), two_digits_zero_padded(low)]
}

/// `n` in four places, with spaces in front; two pieces of two bytes.
#[tactic(auto, using(crate::proofs::PieceLemmas::four_places))]
pub fn four_digits_space_padded(n: ru16<0, 9_999>) -> [&'static str; 2]
    ensures text { joined result ≡ space_padded 4 n }
    ensures pieces { piece_lengths result ≡ 2 ∷ 2 ∷ [] }
    ensures len { length (joined result) ≡ 4 }
{
    let [high, low] = div_100(n);
    if high.get() == 0 {
        ["  ", two_digits_space_padded(low)]
    } else {
        [two_digits_space_padded(high), two_digits_zero_padded(low)]
    }
}

/// `n` in four places with zeros in front, or all its five or six digits; the first piece is what
/// precedes the last four digits, empty below 10,000.
#[tactic(auto, using(crate::proofs::PieceLemmas::six_places))]
pub fn four_to_six_digits(n: ru32<0, 999_999>) -> [&'static str; 3]
    ensures text { joined result ≡ zero_padded 4 n }
    ensures pieces { piece_lengths result ≡ (length (decimal n) - 4) ∷ 2 ∷ 2 ∷ [] }
    ensures least { 4 ≤ length (joined result) }
    ensures most { length (joined result) ≤ 6 }
{
    let number = n.get();
    let [second, third] = last_four_digits(number);
    if number < 10_000 {
        ["", second, third]
    } else {
        let first = ru8::within((number / 10_000) as u8);
        [one_to_two_digits_no_padding(first), second, third]
    }
}

/// `n` in five places, with zeros in front; pieces of one, two and two bytes.
#[tactic(auto, using(crate::proofs::PieceLemmas::six_places))]
pub fn five_digits_zero_padded(n: ru32<0, 99_999>) -> [&'static str; 3]
    ensures text { joined result ≡ zero_padded 5 n }
    ensures pieces { piece_lengths result ≡ 1 ∷ 2 ∷ 2 ∷ [] }
    ensures len { length (joined result) ≡ 5 }
{
    let number = n.get();
    let first = ru8::within((number / 10_000) as u8);
    let [second, third] = last_four_digits(number);
    [single_digit(first), second, third]
}

/// `n` in six places, with zeros in front; three pieces of two bytes.
#[tactic(auto, using(crate::proofs::PieceLemmas::six_places))]
pub fn six_digits_zero_padded(n: ru32<0, 999_999>) -> [&'static str; 3]
    ensures text { joined result ≡ zero_padded 6 n }
    ensures pieces { piece_lengths result ≡ 2 ∷ 2 ∷ 2 ∷ [] }
    ensures len { length (joined result) ≡ 6 }
{
    let number = n.get();
    let first = ru8::within((number / 10_000) as u8);
    let [second, third] = last_four_digits(number);
    [two_digits_zero_padded(first), second, third]
}

/// Returns the nine digits of `n` nanoseconds, as the decimals of a second; a piece of one byte and
/// four of two.
#[tactic(auto, using(crate::proofs::PieceLemmas::six_places))]
pub fn subsecond_from_nanos(n: ru32<0, 999_999_999>) -> [&'static str; 5]
    ensures text { joined result ≡ fixed 9 n }
    ensures pieces { piece_lengths result ≡ 1 ∷ 2 ∷ 2 ∷ 2 ∷ 2 ∷ [] }
    ensures len { length (joined result) ≡ 9 }
{
    let number = n.get();
    let [first, second, third] = five_digits_zero_padded(ru32::within(number / 10_000));
    let [fourth, fifth] = last_four_digits(number);
    [first, second, third, fourth, fifth]
}

// The last four digits of a number, in two pieces.
#[tactic(auto, using(crate::proofs::PieceLemmas::six_places))]
fn last_four_digits(number: u32) -> [&'static str; 2]
    ensures text { joined result ≡ fixed 4 number }
    ensures pieces { piece_lengths result ≡ 2 ∷ 2 ∷ [] }
{
    four_digits_zero_padded(ru16::within((number % 10_000) as u16))
}

/// Returns how many zeros end the eight digits that the bytes of `word` are in little-endian order,
/// from 0 to 8.
#[tactic(auto, using(crate::proofs::WordLemmas::word_facts))]
pub fn zeros_to_drop(word: u64) -> u32
    requires digits { AllDigits 10 (to_le_bytes w64 word) }
    ensures value { result ≡ last_zeros (to_le_bytes w64 word) }
    ensures most { result ≤ 8 }
{
    (word ^ EIGHT_ZEROS).leading_zeros() / u8::BITS
}

/// Returns the decimals of a second of `n` nanoseconds: its nine digits without the zeros at their
/// end, at least one digit.
pub fn truncated_subsecond_from_nanos(n: ru32<0, 999_999_999>) -> StackStr<9>
    ensures text { shown result ≡ trimmed_fraction n }
    ensures some { 1 ≤ length (shown result) }
    ensures most { length (shown result) ≤ 9 }
{
    let bytes = nine_digits(n);
    let last_eight = *bytes.last_chunk::<8>().unwrap();
    let dropped = zeros_to_drop(u64::from_le_bytes(last_eight));
    StackStr::new(bytes, bytes.len() - dropped as usize)
}

/// Returns the nine digits of `n` nanoseconds, as the decimals of a second.
pub fn nine_digits(n: ru32<0, 999_999_999>) -> [u8; 9]
    ensures { result ≡ fixed 9 n }
{
    let number = n.get();
    let first_five = number / 10_000;
    let mut bytes = [b'0'; 9];
    write_one_digit(&mut bytes, 0, ru8::within((first_five / 10_000) as u8));
    write_four_digits(&mut bytes, 1, ru16::within((first_five % 10_000) as u16));
    write_four_digits(&mut bytes, 5, ru16::within((number % 10_000) as u16));
    bytes
}

/// Returns the one to twenty digits of `value`, with no padding.
pub fn u64_pad_none(value: u64) -> StackTrailingStr<20>
    ensures text { shown_end result ≡ decimal value }
    ensures some { 1 ≤ length (shown_end result) }
    ensures most { length (shown_end result) ≤ 20 }
{
    let mut bytes = [b'0'; 20];
    let mut start = bytes.len();
    let mut rest = value;
    while rest > 999 {
        start -= 4;
        write_four_digits(&mut bytes, start, ru16::within((rest % 10_000) as u16));
        rest /= 10_000;
    }
    if rest > 9 {
        start -= 2;
        let [first, pair] = div_100(ru16::within(rest as u16));
        write_two_digits(&mut bytes, start, pair);
        rest = first.get() as u64;
    }
    if rest != 0 || value == 0 {
        start -= 1;
        write_one_digit(&mut bytes, start, ru8::within(rest as u8));
    }
    StackTrailingStr::new(bytes, start)
}

// Writes `value` in four places, with zeros in front, from the byte `offset` on.
#[tactic(auto, using(crate::proofs::WriteLemmas::four_written))]
fn write_four_digits(buf: &mut [u8], offset: usize, value: ru16<0, 9_999>)
    requires room { offset + 4 ≤ length buf.old }
    ensures { buf.new ≡ take offset buf.old ++ fixed 4 value ++ drop (offset + 4) buf.old }
{
    let [high, low] = div_100(value);
    write_two_digits(buf, offset, high);
    write_two_digits(buf, offset + 2, low);
}
