//! RFC 3339.
//!
//! The attributes are of the path of RFC 3339, whose texts cost twice as much without those of this
//! crate.
ghost use Rattle.std.specs.Prelude.{◌≤◌, ◌↔◌, IfOk, IfErr, IsTrue, drop, length, take};
ghost use Rattle.time_below.specs.Moment.{OffsetDateAndTime};
ghost use Rattle.time_known.specs.Rfc3339Grammar.{Rfc3339Spells};
ghost use Rattle.time_read.specs.Fault.{IsFirstFault, IsSecond60, SpellsSome};
ghost use Rattle.time_read.specs.Lenient.{Rfc3339Means};
ghost use Rattle.time_read.specs.Profiles.{ReadsAs};
ghost use Rattle.time_read.specs.Refused.{IsRefused};

use crate::digits::digit;
use crate::fault::{NotRead, Profile};
use crate::places::{SECONDS, place_of};
use crate::value::{Lenient, Reads, Strict, value_of};
use time_below::OffsetDateTime;

// The bytes of a text without decimals in UTC, `2026-11-22T09:55:06Z`. No text has fewer.
const LEAST: usize = 20;

// The value of a text, or the position at which it is refused.
#[inline(always)]
fn value_or_place<P: Reads>(text: &[u8]) -> Result<OffsetDateTime, NotRead>
    ensures read { IfOk result (λ v. ReadsAs P.PROFILE v text.now) }
    ensures place { IfErr result (λ e. IsRefused (ReadsAs P.PROFILE) SECONDS text.now e) }
{
    match value_of::<P>(text) {
        Ok(value) => Ok(value),
        Err(fault) => Err(place_of(text, fault, P::PROFILE)),
    }
}

// The same of a text that is too short to have a value.
#[inline(never)]
fn place_in_short<P: Reads>(text: &[u8]) -> Result<OffsetDateTime, NotRead>
    ensures read { IfOk result (λ v. ReadsAs P.PROFILE v text.now) }
    ensures place { IfErr result (λ e. IsRefused (ReadsAs P.PROFILE) SECONDS text.now e) }
{
    value_or_place::<P>(text)
}

// The same of any text. One that is long enough is read apart from a short one, so that no field up
// to the seconds tests the length, and the answer for a short one is taken apart: both are for the
// row "RFC 3339, read".
#[inline(never)]
fn read_as<P: Reads>(text: &[u8]) -> Result<OffsetDateTime, NotRead>
    ensures read { IfOk result (λ v. ReadsAs P.PROFILE v text.now) }
    ensures place { IfErr result (λ e. IsRefused (ReadsAs P.PROFILE) SECONDS text.now e) }
{
    if text.len() < LEAST {
        let value = ok!(place_in_short::<P>(text));
        return Ok(value);
    }
    value_or_place::<P>(text)
}

/// Returns the value that a text of RFC 3339, section 5.6, spells: capital letters, one to nine
/// decimals, if any, no second 60 and no offset `-00:00`. Any other text is refused at the first
/// position at which it is invalid.
#[inline(always)]
pub fn read(text: &[u8]) -> Result<OffsetDateTime, NotRead>
    ensures read { IfOk result (λ v. Rfc3339Spells v text.now) }
    ensures refused { IfErr result (λ _. (v : OffsetDateAndTime) → ¬ Rfc3339Spells v text.now) }
    ensures place { IfErr result (λ e. IsFirstFault (SpellsSome Rfc3339Spells)
        (take e.at text.now) (drop e.at text.now) e.expected) }
    ensures within { IfErr result (λ e. e.at ≤ length text.now) }
    ensures second_60 { IfErr result (λ e. IsTrue e.is_second_60 ↔ IsSecond60 17 e.at text.now) }
{
    match digit(text, 0, 9) {
        Ok(_) => read_as::<Strict>(text),
        Err(fault) => Err(place_of(text, fault, Profile::Strict)),
    }
}

/// Returns the value that a text of RFC 3339, section 5.6, means, also one with a small `t` or `z`,
/// with more than nine decimals, of which the first nine count, or with the unknown offset `-00:00`
/// (section 4.3), which is read as UTC. Any other text is refused at the first position at which it
/// is invalid.
#[inline(always)]
pub fn read_lenient(text: &[u8]) -> Result<OffsetDateTime, NotRead>
    ensures read { IfOk result (λ v. Rfc3339Means v text.now) }
    ensures refused { IfErr result (λ _. (v : OffsetDateAndTime) → ¬ Rfc3339Means v text.now) }
    ensures place { IfErr result (λ e. IsFirstFault (SpellsSome Rfc3339Means)
        (take e.at text.now) (drop e.at text.now) e.expected) }
    ensures within { IfErr result (λ e. e.at ≤ length text.now) }
    ensures second_60 { IfErr result (λ e. IsTrue e.is_second_60 ↔ IsSecond60 17 e.at text.now) }
{
    match digit(text, 0, 9) {
        Ok(_) => read_as::<Lenient>(text),
        Err(fault) => Err(place_of(text, fault, Profile::Lenient)),
    }
}
