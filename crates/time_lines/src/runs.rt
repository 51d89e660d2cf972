//! Runs of digits in a text, found by sixteen bytes at a time.
ghost use Rattle.std.specs.Prelude.{◌≡◌, ◌+◌, ◌≤◌, ◌==◌, not, length, take, drop, count_by};
ghost use Rattle.std.specs.Prelude.{if◌then◌else◌};
ghost use Rattle.std.specs.Char.{is_ascii_digit};
ghost use Rattle.std.specs.Int.{w64, trailing_zeros};
ghost use Rattle.std.specs.List.{prefix_len};
ghost use Rattle.time_lines.specs.Number.{digit_count};

use std::simd::prelude::*;

/// How many bytes are looked at together.
pub(crate) const LANES: usize = 16;

/// The position of the lowest bit that is set, and the number of bytes where none is.
fn first_set(mask: u64) -> usize
    ensures { result ≡ (if mask == 0 then 16 else trailing_zeros w64 mask) }
{
    if mask == 0 {
        LANES
    } else {
        mask.trailing_zeros() as usize
    }
}

/// How many of the sixteen bytes from here on come before the first digit.
pub(crate) fn others_in_lanes(text: &[u8], at: usize) -> usize
    requires { at + 16 ≤ length text.now }
    ensures { result ≡ prefix_len (λ b. not (is_ascii_digit b)) (take 16 (drop at text.now)) }
{
    let values = u8x16::from_slice(&text[at..]) - u8x16::splat(b'0');
    first_set(values.simd_lt(u8x16::splat(10)).to_bitmask())
}

/// How many of the first sixteen bytes are this one.
pub(crate) fn count_in_lanes(text: &[u8], byte: u8) -> u32
    requires { 16 ≤ length text.now }
    ensures { result ≡ count_by (λ b. b == byte) (take 16 text.now) }
{
    u8x16::from_slice(text)
        .simd_eq(u8x16::splat(byte))
        .to_bitmask()
        .count_ones()
}

/// How many of the first sixteen bytes are digits, before the first that is none.
fn digits_in_lanes(text: &[u8]) -> usize
    requires { 16 ≤ length text.now }
    ensures { result ≡ prefix_len is_ascii_digit (take 16 text.now) }
{
    let values = u8x16::from_slice(text) - u8x16::splat(b'0');
    first_set(values.simd_ge(u8x16::splat(10)).to_bitmask())
}

/// How many digits the text begins with, found byte by byte after the first ones, which are so
/// many.
fn digits_after(text: &[u8], first: usize) -> usize
    requires { first ≤ digit_count text.now }
    ensures count { result ≡ digit_count text.now }
    ensures inside { result ≤ length text.now }
{
    let mut count = first;
    while count < text.len() && text[count].is_ascii_digit() {
        count += 1;
    }
    count
}

/// How many digits the text begins with.
pub(crate) fn digit_count(text: &[u8]) -> usize
    ensures count { result ≡ digit_count text.now }
    ensures inside { result ≤ length text.now }
{
    if text.len() < LANES {
        return digits_after(text, 0);
    }
    let first = digits_in_lanes(text);
    if first < LANES {
        return first;
    }
    digits_after(text, first)
}
