//! Zones of mail: by their hours and minutes, by a name or by a letter.
ghost use Rattle.std.specs.Prelude.{◌≡◌, ◌<◌, ◌≤◌, IfOk, IfErr, IfSome, IsTrue, length, true};
ghost use Rattle.time_below.specs.Offset.{signed_offset, utc};
ghost use Rattle.time_known.specs.Parts.{SignedOffset};
ghost use Rattle.time_known.specs.Rules.{Digits};
ghost use Rattle.time_read.specs.Front.{Front};
ghost use Rattle.time_read.specs.MailLenient.{MeansZone, MilitaryZone, NamedZone, zone_at};

use crate::digits::two_within;
use crate::fault::{Expected, MailPart, Unexpected};
use crate::offset::sign;

// Reads a sign, two digits of hours up to 25 and two of minutes, or nothing.
fn signed_zone(text: &[u8]) -> Option<(bool, u8, u8, &[u8])>
    ensures read { IfSome result (λ r. Front
        (SignedOffset 25 (Digits 2) (signed_offset r.0 r.1 r.2)) text.now r.3.now) }
    ensures hour { IfSome result (λ r. r.1 ≤ 25) }
    ensures minute { IfSome result (λ r. r.2 < 60) }
    ensures shorter { IfSome result (λ r. length r.3.now ≤ length text.now) }
{
    let Ok((is_negative, rest)) = sign(text) else {
        return None;
    };
    let Some((hours, rest)) = two_within(rest, 0, 25) else {
        return None;
    };
    let Some((minutes, rest)) = two_within(rest, 0, 59) else {
        return None;
    };
    Some((is_negative, hours, minutes, rest))
}

// The name of a zone at a place, and how many hours it is behind UTC.
fn zone_at(place: u8) -> (&'static [u8], u8)
    requires { place < 10 }
    ensures name { result.0.now ≡ (zone_at place).0 }
    ensures hours { result.1 ≡ (zone_at place).1 }
    ensures few { result.1 < 9 }
{
    match place {
        0 => (b"UT", 0),
        1 => (b"GMT", 0),
        2 => (b"EDT", 4),
        3 => (b"EST", 5),
        4 => (b"CDT", 5),
        5 => (b"CST", 6),
        6 => (b"MDT", 6),
        7 => (b"MST", 7),
        8 => (b"PDT", 7),
        9 => (b"PST", 8),
        _ => unreachable!(),
    }
}

// How many hours a zone of this name, in either case, is behind UTC.
fn named(name: &[u8]) -> Option<u8>
    ensures read { IfSome result (λ hours. NamedZone (signed_offset true hours 0) name.now) }
    ensures range { IfSome result (λ hours. hours < 9) }
{
    let mut place = 0;
    while place < 10 {
        let (known, hours) = zone_at(place);
        if name.eq_ignore_ascii_case(known) {
            return Some(hours);
        }
        place += 1;
    }
    None
}

// Whether a name is the letter of a military zone. The letter `J` is none.
fn is_military(name: &[u8]) -> bool
    ensures { IsTrue result → MilitaryZone utc name.now }
{
    if let [letter] = name {
        let capital = letter.to_ascii_uppercase();
        if capital.is_ascii_uppercase() && capital != b'J' {
            return true;
        }
    }
    false
}

// How many letters begin a text.
fn letters(text: &[u8]) -> usize
    ensures { result ≤ length text.now }
{
    let mut count = 0;
    while count < text.len() && text[count].is_ascii_alphabetic() {
        count += 1;
    }
    count
}

// Reads the name or the letter of a zone, or nothing: how many hours it is behind UTC.
fn lettered_zone(text: &[u8]) -> Option<(u8, &[u8])>
    ensures read { IfSome result (λ r.
        Front (MeansZone (signed_offset true r.0 0)) text.now r.1.now) }
    ensures range { IfSome result (λ r. r.0 < 9) }
    ensures shorter { IfSome result (λ r. length r.1.now ≤ length text.now) }
{
    let (name, rest) = text.split_at(letters(text));
    if is_military(name) {
        return Some((0, rest));
    }
    match named(name) {
        Some(hours) => Some((hours, rest)),
        None => None,
    }
}

// Reads a zone that has a meaning: whether it is behind UTC, and how many hours and minutes.
pub(crate) fn zone(text: &[u8]) -> Result<(bool, u8, u8, &[u8]), Unexpected>
    ensures read { IfOk result (λ r.
        Front (MeansZone (signed_offset r.0 r.1 r.2)) text.now r.3.now) }
    ensures hour { IfOk result (λ r. r.1 ≤ 25) }
    ensures minute { IfOk result (λ r. r.2 < 60) }
    ensures shorter { IfOk result (λ r. length r.3.now ≤ length text.now) }
    ensures left { IfErr result (λ e. e.left ≤ length text.now) }
{
    if let Some(read) = signed_zone(text) {
        return Ok(read);
    }
    match lettered_zone(text) {
        Some((hours, rest)) => Ok((true, hours, 0, rest)),
        None => Err(Unexpected {
            left: text.len(),
            expected: Expected::Mail(MailPart::Zone),
        }),
    }
}
