//! Offsets at the end of a text.
//!
//! The attributes are of the path of RFC 3339, whose texts cost twice as much without those of this
//! crate.
ghost use Rattle.std.specs.Prelude.{◌≡◌, ◌≢◌, ◌<◌, ◌≤◌, ◌∷◌, ℕ, Bool, List, [], IfOk, IfErr, IfSome};
ghost use Rattle.std.specs.Prelude.{IfNone, OnOk, length};
ghost use Rattle.time_below.specs.Offset.{signed_offset};
ghost use Rattle.time_known.specs.Rules.{Sign};
ghost use Rattle.time_read.specs.Fault.{IsLetter, SpellsSome};
ghost use Rattle.time_read.specs.Front.{Front, FieldFault, TextFault};
ghost use Rattle.time_read.specs.Profiles.{EndOffset, RestOfOffset};
ghost use Rattle.time_read.specs.Shapes.{HoursAndMinutes, IsTrailing, is_some, least_minute};
ghost use Rattle.time_read.specs.Shapes.{sign_byte};

use crate::digits::{pair, pair_after};
use crate::fault::{Expected, Profile, Unexpected};
use time_below::UtcOffset;

// Reads the end of a text.
#[inline(always)]
pub(crate) fn end(text: &[u8]) -> Result<(), Unexpected>
    ensures read { OnOk result (text.now ≡ []) }
    ensures fault { IfErr result (λ e. IsTrailing text.now e) }
{
    if text.is_empty() {
        Ok(())
    } else {
        Err(Unexpected {
            left: text.len(),
            expected: Expected::End,
        })
    }
}

// The offset of hours and minutes with one sign.
#[inline(always)]
pub(crate) fn signed_offset(is_negative: bool, hour: u8, minute: u8) -> UtcOffset
    requires hour { hour < 26 }
    requires minute { minute < 60 }
    ensures { result ≡ signed_offset is_negative hour minute }
{
    if is_negative {
        UtcOffset::from_valid_hms(-(hour as i8), -(minute as i8), 0)
    } else {
        UtcOffset::from_valid_hms(hour as i8, minute as i8, 0)
    }
}

// What follows a sign, if a text begins with one, and whether it is a minus.
pub(crate) fn after_sign(text: &[u8]) -> Option<(bool, &[u8])>
    ensures some { IfSome result (λ r. text.now ≡ sign_byte r.0 ∷ r.1.now) }
    ensures none { IfNone result ((is_negative : Bool) (rest : List ℕ)
        → text.now ≢ sign_byte is_negative ∷ rest) }
{
    match text {
        [b'+', rest @ ..] => Some((false, rest)),
        [b'-', rest @ ..] => Some((true, rest)),
        _ => None,
    }
}

// Reads a sign: whether it is a minus.
#[tactic(auto, using(crate::proofs::OffsetEnds::sign_front))]
pub(crate) fn sign(text: &[u8]) -> Result<(bool, &[u8]), Unexpected>
    ensures read { IfOk result (λ r. Front (Sign r.0) text.now r.1.now) }
    ensures left { IfErr result (λ e. e.left ≤ length text.now) }
{
    match after_sign(text) {
        Some(read) => Ok(read),
        None => Err(Unexpected {
            expected: Expected::Sign,
            left: text.len(),
        }),
    }
}

// Whether an offset with this sign may not be zero.
#[inline(always)]
fn is_some(profile: Profile, is_negative: bool) -> bool
    ensures { result ≡ is_some profile is_negative }
{
    match profile {
        Profile::Strict => is_negative,
        Profile::Lenient => false,
    }
}

// The least minute of an offset that may not be zero, or may.
#[inline(always)]
pub(crate) fn least_minute(some: bool, hour: u8) -> u8
    ensures least { result ≡ least_minute some hour }
    ensures small { result ≤ 1 }
{
    if some && hour == 0 { 1 } else { 0 }
}

// Reads the hours and the minutes of an offset after its sign, with a colon between them.
#[inline(always)]
fn hours_and_minutes(text: &[u8], some: bool) -> Result<(u8, u8, &[u8]), Unexpected>
    ensures read { IfOk result (λ r. Front (HoursAndMinutes some (r.0, r.1)) text.now r.2.now) }
    ensures hour { IfOk result (λ r. r.0 < 24) }
    ensures minute { IfOk result (λ r. r.1 < 60) }
    ensures fault { IfErr result (λ e.
        FieldFault 5 (SpellsSome (HoursAndMinutes some)) text.now e) }
{
    let (hour, rest) = ok!(pair(text, 0, 23));
    let (minute, rest) = ok!(pair_after(rest, b':', least_minute(some, hour), 59));
    Ok((hour, minute, rest))
}

// Reads what is left after the letter `Z`.
#[inline(always)]
pub(crate) fn rest_of_utc(text: &[u8], profile: Profile) -> Result<UtcOffset, Unexpected>
    ensures read { IfOk result (λ o.
        (b : ℕ) → IsLetter profile 90 b → EndOffset profile o (b ∷ text.now)) }
    ensures fault { IfErr result (λ e.
        (b : ℕ) → IsLetter profile 90 b → TextFault (RestOfOffset profile b) text.now e) }
{
    ok!(end(text));
    Ok(signed_offset(false, 0, 0))
}

// Reads what is left of an offset after its sign.
#[inline(always)]
pub(crate) fn rest_of_signed(
    text: &[u8],
    is_negative: bool,
    profile: Profile,
) -> Result<UtcOffset, Unexpected>
    ensures read { IfOk result (λ o. EndOffset profile o (sign_byte is_negative ∷ text.now)) }
    ensures fault { IfErr result (λ e.
        TextFault (RestOfOffset profile (sign_byte is_negative)) text.now e) }
{
    let (hour, minute, rest) = ok!(hours_and_minutes(text, is_some(profile, is_negative)));
    ok!(end(rest));
    Ok(signed_offset(is_negative, hour, minute))
}
