//! Digits after a point.
//!
//! The attributes are of the path of RFC 3339, whose texts cost twice as much without those of this
//! crate.
ghost use Rattle.std.specs.Prelude.{◌≡◌, ◌↔◌, ◌==◌, ◌<◌, ◌≤◌, ◌-◌, ◌*◌, ◌^◌, IsTrue, length, take};
ghost use Rattle.std.specs.Str.Parse.{AllDigits, digits_value};
ghost use Rattle.time_read.specs.Shapes.{FirstDigits, Skipped};
ghost use Rattle.time_read.specs.declared.fault.Profile.TheVariants as profile;

use std::simd::prelude::*;

// The powers of ten.
const POWERS: [u32; 10] = [
    1,
    10,
    100,
    1_000,
    10_000,
    100_000,
    1_000_000,
    10_000_000,
    100_000_000,
    1_000_000_000,
];

// The number of up to nine digits that begin a text, and how many they are.
fn digits(text: &[u8]) -> (u32, usize)
    ensures digits { FirstDigits text.now result.1 }
    ensures value { result.0 ≡ digits_value 10 (take result.1 text.now) }
{
    let mut number: u32 = 0;
    let mut count = 0;
    while count < 9 && count < text.len() {
        let byte = text[count];
        if byte < b'0' || b'9' < byte {
            return (number, count);
        }
        number = 10 * number + (byte as u32 - 48);
        count += 1;
    }
    (number, count)
}

// Whether no bit is set.
fn is_clear(mask: u64) -> bool
    ensures { result ≡ (mask == 0) }
{
    mask == 0
}

// Whether a text begins with eight digits, which are looked at together.
fn are_eight(text: &[u8]) -> bool
    requires { 8 ≤ length text.now }
    ensures { IsTrue result ↔ AllDigits 10 (take 8 text.now) }
{
    let values = u8x8::from_slice(text) - u8x8::splat(b'0');
    is_clear(values.simd_ge(u8x8::splat(10)).to_bitmask())
}

// Whether a text begins with nine digits.
fn are_nine(text: &[u8]) -> bool
    requires { 9 ≤ length text.now }
    ensures { IsTrue result ↔ AllDigits 10 (take 9 text.now) }
{
    are_eight(text) && text[8].is_ascii_digit()
}

// The number of some digits.
fn number_of(digits: &[u8]) -> u32
    requires few { length digits.now ≤ 9 }
    requires digits { AllDigits 10 digits.now }
    ensures { result ≡ digits_value 10 digits.now }
{
    let mut number: u32 = 0;
    for digit in digits {
        number = 10 * number + (*digit as u32 - 48);
    }
    number
}

// The same as of `digits`, which is soon told where there are nine.
pub(crate) fn first_digits(text: &[u8]) -> (u32, usize)
    ensures digits { FirstDigits text.now result.1 }
    ensures value { result.0 ≡ digits_value 10 (take result.1 text.now) }
{
    if text.len() < 9 {
        return digits(text);
    }
    if are_nine(text) {
        return (number_of(&text[..9]), 9);
    }
    digits(&text[..9])
}

// The nanosecond of the up to nine digits that begin a text, and how many they are.
#[inline(never)]
pub(crate) fn nanosecond(text: &[u8]) -> (u32, usize)
    ensures digits { FirstDigits text.now result.1 }
    ensures value { result.0 ≡ digits_value 10 (take result.1 text.now) * 10 ^ (9 - result.1) }
    ensures range { result.0 < 10 ^ 9 }
{
    let (number, count) = first_digits(text);
    (number * POWERS[9 - count], count)
}

// What follows the digits that begin a text.
#[tactic(auto, using(crate::proofs::Fractions::skipped))]
pub(crate) fn after_digits(text: &[u8]) -> &[u8]
    ensures { Skipped profile.Lenient text.now result.now }
{
    let mut count = 0;
    while count < text.len() {
        let byte = text[count];
        if byte < b'0' || b'9' < byte {
            return &text[count..];
        }
        count += 1;
    }
    &text[count..]
}
