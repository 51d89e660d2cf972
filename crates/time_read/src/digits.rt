//! Bytes and digits at the front of a text.
//!
//! The attributes make one function of the fields of RFC 3339, and keep out of it what makes a
//! fault. Without those of this crate such a text costs twice as much.
ghost use Rattle.std.specs.Prelude.{◌≡◌, ◌≢◌, ℕ, List, IfSome, IfNone, ◌+◌, ◌-◌, ◌*◌, ◌/◌, ◌<◌};
ghost use Rattle.std.specs.Prelude.{◌≤◌, ◌∷◌, ◌↔◌, IfOk, IfErr, IsTrue};
ghost use Rattle.time_known.specs.Rules.{Digits};
ghost use Rattle.time_read.specs.Fault.{IsLetter, SpellsSome};
ghost use Rattle.time_read.specs.Front.{Front, FieldFault, NoFront};
ghost use Rattle.time_read.specs.Profiles.{TheLetter};
ghost use Rattle.time_read.specs.Shapes.{TheByte, OneDigit, Two, TwoAfter, first_unit, last_unit};

use crate::fault::{Expected, Profile, Unexpected};

// What follows this byte, if a text begins with it.
#[inline(always)]
pub(crate) fn after(text: &[u8], wanted: u8) -> Option<&[u8]>
    ensures some { IfSome result (λ rest. text.now ≡ wanted ∷ rest.now) }
    ensures none { IfNone result ((rest : List ℕ) → text.now ≢ wanted ∷ rest) }
{
    if let [first, rest @ ..] = text {
        if *first == wanted {
            return Some(rest);
        }
    }
    None
}

// Whether a byte is this capital letter, or its small form where the profile is lenient.
#[inline(always)]
fn is_letter(byte: u8, letter: u8, profile: Profile) -> bool
    requires { letter ≤ 90 }
    ensures { IsTrue result ↔ IsLetter profile letter byte }
{
    match profile {
        Profile::Strict => byte == letter,
        Profile::Lenient => byte == letter || byte == letter + 32,
    }
}

// What follows this letter, if a text begins with it.
#[inline(always)]
#[tactic(auto, using(crate::proofs::Numbers::letter_at))]
pub(crate) fn after_letter(text: &[u8], letter: u8, profile: Profile) -> Option<&[u8]>
    requires { letter ≤ 90 }
    ensures some { IfSome result (λ rest. Front (TheLetter profile letter tt) text.now rest.now) }
    ensures none { IfNone result ((b : ℕ) (rest : List ℕ)
        → text.now ≡ b ∷ rest → ¬ IsLetter profile letter b) }
{
    if let [first, rest @ ..] = text {
        if is_letter(*first, letter, profile) {
            return Some(rest);
        }
    }
    None
}

// Reads this byte.
#[inline(always)]
pub(crate) fn byte(text: &[u8], wanted: u8) -> Result<&[u8], Unexpected>
    ensures read { IfOk result (λ rest. text.now ≡ wanted ∷ rest.now) }
    ensures fault { IfErr result (λ e. FieldFault 1 (SpellsSome (TheByte wanted)) text.now e) }
{
    if let [first, rest @ ..] = text {
        if *first == wanted {
            return Ok(rest);
        }
    }
    Err(Unexpected {
        left: text.len(),
        expected: Expected::Byte(wanted),
    })
}

// Reads a digit from the first to the last.
#[inline(always)]
pub(crate) fn digit(text: &[u8], first: u8, last: u8) -> Result<(u8, &[u8]), Unexpected>
    requires order { first ≤ last }
    requires digits { last < 10 }
    ensures read { IfOk result (λ r. Front (OneDigit first last r.0) text.now r.1.now) }
    ensures range { IfOk result (λ r. r.0 ≤ last) }
    ensures fault { IfErr result (λ e. FieldFault 1 (SpellsSome (OneDigit first last)) text.now e) }
{
    if let [byte, rest @ ..] = text {
        if 48 + first <= *byte && *byte <= 48 + last {
            return Ok((*byte - 48, rest));
        }
    }
    Err(Unexpected {
        left: text.len(),
        expected: Expected::Digit(first, last),
    })
}

// The first and the last digit that may follow the tens of a number from the least to the greatest.
#[inline(always)]
fn units(least: u8, greatest: u8, tens: u8) -> (u8, u8)
    requires tens { 10 * tens ≤ greatest }
    requires pairs { greatest < 100 }
    ensures first { result.0 ≡ first_unit least tens }
    ensures last { result.1 ≡ last_unit greatest tens }
{
    let first = if 10 * tens < least {
        least - 10 * tens
    } else {
        0
    };
    let last = if 10 * tens + 9 < greatest {
        9
    } else {
        greatest - 10 * tens
    };
    (first, last)
}

// Reads two digits.
#[inline(always)]
#[tactic(auto, using(crate::proofs::Numbers::two_at))]
fn two(text: &[u8]) -> Option<(u8, &[u8])>
    ensures read { IfSome result (λ r. Front (Two 0 99 r.0) text.now r.1.now) }
    ensures range { IfSome result (λ r. r.0 < 100) }
    ensures none { IfNone result (NoFront (Two 0 99) text.now) }
{
    if let [tens, units, rest @ ..] = text {
        if tens.is_ascii_digit() && units.is_ascii_digit() {
            return Some((10 * (*tens - b'0') + (*units - b'0'), rest));
        }
    }
    None
}

// Reads two digits of a number from the least to the greatest, or nothing.
#[inline(always)]
pub(crate) fn two_within(text: &[u8], least: u8, greatest: u8) -> Option<(u8, &[u8])>
    requires { greatest < 100 }
    ensures read { IfSome result (λ r. Front (Two least greatest r.0) text.now r.1.now) }
    ensures range { IfSome result (λ r. r.0 ≤ greatest) }
    ensures none { IfNone result (NoFront (Two least greatest) text.now) }
{
    let Some((number, rest)) = two(text) else {
        return None;
    };
    if number < least {
        return None;
    }
    if greatest < number {
        return None;
    }
    Some((number, rest))
}

// Reads two digits of a number from the least to the greatest, one after the other.
#[inline(always)]
fn digit_by_digit(text: &[u8], least: u8, greatest: u8) -> Result<(u8, &[u8]), Unexpected>
    requires order { least ≤ greatest }
    requires pairs { greatest < 100 }
    ensures read { IfOk result (λ r. Front (Two least greatest r.0) text.now r.1.now) }
    ensures fault { IfErr result (λ e. FieldFault 2 (SpellsSome (Two least greatest)) text.now e) }
{
    let (tens, rest) = ok!(digit(text, least / 10, greatest / 10));
    let (first, last) = units(least, greatest, tens);
    let (ones, rest) = ok!(digit(rest, first, last));
    Ok((10 * tens + ones, rest))
}

// The fault of a text that does not begin with two digits of such a number. It is a call, since the
// functions that read pairs would otherwise be too large to be inlined.
#[cold]
#[inline(never)]
fn pair_fault(text: &[u8], least: u8, greatest: u8) -> Unexpected
    requires order { least ≤ greatest }
    requires pairs { greatest < 100 }
    requires none { NoFront (Two least greatest) text.now }
    ensures { FieldFault 2 (SpellsSome (Two least greatest)) text.now result }
{
    digit_by_digit(text, least, greatest).unwrap_err()
}

// Reads two digits of a number from the least to the greatest.
#[inline(always)]
pub(crate) fn pair(text: &[u8], least: u8, greatest: u8) -> Result<(u8, &[u8]), Unexpected>
    requires order { least ≤ greatest }
    requires pairs { greatest < 100 }
    ensures read { IfOk result (λ r. Front (Two least greatest r.0) text.now r.1.now) }
    ensures range { IfOk result (λ r. r.0 ≤ greatest) }
    ensures fault { IfErr result (λ e. FieldFault 2 (SpellsSome (Two least greatest)) text.now e) }
{
    match two_within(text, least, greatest) {
        Some(read) => Ok(read),
        None => Err(pair_fault(text, least, greatest)),
    }
}

// Reads this byte, and then two digits of a number from the least to the greatest, or nothing. The
// length is tested once for the three.
#[inline(always)]
fn two_after(text: &[u8], before: u8, least: u8, greatest: u8) -> Option<(u8, &[u8])>
    requires { greatest < 100 }
    ensures read { IfSome result (λ r.
        Front (TwoAfter before least greatest r.0) text.now r.1.now) }
    ensures range { IfSome result (λ r. r.0 ≤ greatest) }
    ensures none { IfNone result (NoFront (TwoAfter before least greatest) text.now) }
{
    if text.len() < 3 {
        return None;
    }
    let Some(rest) = after(text, before) else {
        return None;
    };
    let Some((number, rest)) = two_within(rest, least, greatest) else {
        return None;
    };
    Some((number, rest))
}

// The fault of a text that does not begin with this byte and two digits of such a number, by a call
// as above.
#[cold]
#[inline(never)]
fn pair_after_fault(text: &[u8], before: u8, least: u8, greatest: u8) -> Unexpected
    requires order { least ≤ greatest }
    requires pairs { greatest < 100 }
    requires none { NoFront (TwoAfter before least greatest) text.now }
    ensures { FieldFault 3 (SpellsSome (TwoAfter before least greatest)) text.now result }
{
    match byte(text, before) {
        Ok(rest) => pair_fault(rest, least, greatest),
        Err(fault) => fault,
    }
}

// Reads this byte, and then two digits of a number from the least to the greatest.
#[inline(always)]
pub(crate) fn pair_after(
    text: &[u8],
    before: u8,
    least: u8,
    greatest: u8,
) -> Result<(u8, &[u8]), Unexpected>
    requires order { least ≤ greatest }
    requires pairs { greatest < 100 }
    ensures read { IfOk result (λ r. Front (TwoAfter before least greatest r.0) text.now r.1.now) }
    ensures range { IfOk result (λ r. r.0 ≤ greatest) }
    ensures fault { IfErr result (λ e.
        FieldFault 3 (SpellsSome (TwoAfter before least greatest)) text.now e) }
{
    match two_after(text, before, least, greatest) {
        Some(read) => Ok(read),
        None => Err(pair_after_fault(text, before, least, greatest)),
    }
}

// Reads four digits.
#[inline(always)]
pub(crate) fn four_digits(text: &[u8]) -> Result<(u16, &[u8]), Unexpected>
    ensures read { IfOk result (λ r. Front (Digits 4 r.0) text.now r.1.now) }
    ensures range { IfOk result (λ r. r.0 < 10_000) }
    ensures fault { IfErr result (λ e. FieldFault 4 (SpellsSome (Digits 4)) text.now e) }
{
    let (high, rest) = ok!(pair(text, 0, 99));
    let (low, rest) = ok!(pair(rest, 0, 99));
    Ok((100 * high as u16 + low as u16, rest))
}
