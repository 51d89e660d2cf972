//! Fractions and offsets at the end of a text.
//!
//! The attributes are of the path of RFC 3339, whose texts cost twice as much without those of this
//! crate.
ghost use Rattle.std.specs.Prelude.{◌≡◌, ◌<◌, ◌∷◌, ◌^◌, IfOk, IfErr};
ghost use Rattle.time_read.specs.Fault.{SpellsSome};
ghost use Rattle.time_read.specs.Front.{TextFault};
ghost use Rattle.time_read.specs.Profiles.{Tail};
ghost use Rattle.time_read.specs.Shapes.{AtFraction, Skipped, after_fraction, next_after};

use crate::decimals::{after_digits, nanosecond};
use crate::digits::{after, after_letter};
use crate::fault::{Expected, Profile, Unexpected};
use crate::offset::{after_sign, rest_of_signed, rest_of_utc};
use time_below::UtcOffset;

// Reads a fraction, if there is one, and an offset, to the end of the text.
#[inline(always)]
pub(crate) fn fraction_and_offset(
    text: &[u8],
    profile: Profile,
) -> Result<(u32, UtcOffset), Unexpected>
    ensures read { IfOk result (λ r. Tail profile (r.0, r.1) text.now) }
    ensures range { IfOk result (λ r. r.0 < 10 ^ 9) }
    ensures fault { IfErr result (λ e. TextFault (SpellsSome (Tail profile)) text.now e) }
{
    let (nanosecond, rest, count) = ok!(fraction(text, profile));
    if let Some(rest) = after_letter(rest, b'Z', profile) {
        let offset = ok!(rest_of_utc(rest, profile));
        return Ok((nanosecond, offset));
    }
    let Some((is_negative, rest)) = after_sign(rest) else {
        return Err(Unexpected {
            expected: after_fraction(count, profile),
            left: rest.len(),
        });
    };
    let offset = ok!(rest_of_signed(rest, is_negative, profile));
    Ok((nanosecond, offset))
}

// Reads a fraction, if there is one: its nanosecond, what is left, and how many digits count.
#[inline(always)]
fn fraction(text: &[u8], profile: Profile) -> Result<(u32, &[u8], usize), Unexpected>
    ensures read { IfOk result (λ r. AtFraction profile text.now r.0 r.1.now
        (after_fraction profile r.2)) }
    ensures range { IfOk result (λ r. r.0 < 10 ^ 9) }
    ensures fault { IfErr result (λ e. TextFault (SpellsSome (Tail profile)) text.now e) }
{
    match after(text, b'.') {
        Some(rest) => decimals(rest, profile),
        None => Ok((0, text, 0)),
    }
}

// Reads the digits after a point: one to nine, or more where the profile is lenient.
#[inline(always)]
fn decimals(text: &[u8], profile: Profile) -> Result<(u32, &[u8], usize), Unexpected>
    ensures read { IfOk result (λ r. AtFraction profile (46 ∷ text.now) r.0 r.1.now
        (after_fraction profile r.2)) }
    ensures range { IfOk result (λ r. r.0 < 10 ^ 9) }
    ensures fault { IfErr result (λ e. TextFault (SpellsSome (Tail profile)) (46 ∷ text.now) e) }
{
    let (nanosecond, count) = nanosecond(text);
    if count == 0 {
        return Err(Unexpected {
            left: text.len(),
            expected: Expected::Digit(0, 9),
        });
    }
    Ok((nanosecond, skip(&text[count..], profile), count))
}

// What may follow this many digits of a fraction, or no fraction.
fn after_fraction(count: usize, profile: Profile) -> Expected
    ensures { result ≡ after_fraction profile count }
{
    if count == 0 {
        Expected::PointOrOffset(profile)
    } else {
        next_after(count, profile)
    }
}

// What may follow this many digits of a fraction.
#[inline(always)]
fn next_after(count: usize, profile: Profile) -> Expected
    ensures { result ≡ next_after profile count }
{
    match profile {
        Profile::Strict => {
            if count == 9 {
                Expected::Offset(Profile::Strict)
            } else {
                Expected::DigitOrOffset(Profile::Strict)
            }
        }
        Profile::Lenient => Expected::DigitOrOffset(Profile::Lenient),
    }
}

// What follows the decimals that are cut.
#[inline(always)]
fn skip(text: &[u8], profile: Profile) -> &[u8]
    ensures { Skipped profile text.now result.now }
{
    match profile {
        Profile::Strict => text,
        Profile::Lenient => after_digits(text),
    }
}
