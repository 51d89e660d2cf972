//! Names and literals at the front of a text.
ghost use Rattle.std.specs.Prelude.{◌≡◌, ◌++◌, IfOk, IfSome, IsTrue};
ghost use Rattle.time_read.specs.Parts.{ref_bytes};

use crate::digits::after;
use crate::fault::Unexpected;
use crate::plan::any_step::LiteralRef;
use crate::written::fault_between;

/// What follows these bytes.
pub(crate) fn after_all<'a>(text: &'a [u8], bytes: &[u8]) -> Option<&'a [u8]>
    ensures { IfSome result (λ rest. text.now ≡ bytes.now ++ rest.now) }
{
    if text.len() < bytes.len() {
        return None;
    }
    let (front, rest) = text.split_at(bytes.len());
    if are_same(front, bytes) {
        Some(rest)
    } else {
        None
    }
}

/// Whether bytes are the same. It is a call: of the few literals with more than a byte the steps
/// would else have one of their own.
#[inline(never)]
fn are_same(bytes: &[u8], others: &[u8]) -> bool
    ensures { IsTrue result → bytes.now ≡ others.now }
{
    bytes == others
}

/// What follows these bytes, or the first one at which the text is another one.
pub(crate) fn behind_bytes<'a>(text: &'a [u8], bytes: &[u8]) -> Result<&'a [u8], Unexpected>
    ensures { IfOk result (λ rest. text.now ≡ bytes.now ++ rest.now) }
{
    match after_all(text, bytes) {
        Some(rest) => Ok(rest),
        None => Err(fault_between(bytes, text)),
    }
}

/// What follows a literal.
#[inline(always)]
pub(crate) fn after_literal<'a>(text: &'a [u8], literal: LiteralRef<'_>) -> Option<&'a [u8]>
    ensures { IfSome result (λ rest. text.now ≡ ref_bytes literal.entry ++ rest.now) }
{
    match literal {
        LiteralRef::Byte(byte) => after(text, byte),
        LiteralRef::Bytes(bytes) => {
            if bytes.is_empty() {
                return Some(text);
            }
            after_all(text, bytes)
        }
    }
}

/// What follows a literal, or the first byte at which the text is another one.
#[inline(always)]
pub(crate) fn behind_literal<'a>(
    text: &'a [u8],
    literal: LiteralRef<'_>,
) -> Result<&'a [u8], Unexpected>
    ensures { IfOk result (λ rest. text.now ≡ ref_bytes literal.entry ++ rest.now) }
{
    match after_literal(text, literal) {
        Some(rest) => Ok(rest),
        None => Err(literal_fault(text, literal)),
    }
}

/// The fault of a text that does not go on by a literal.
#[cold]
#[inline(never)]
pub(crate) fn literal_fault(text: &[u8], literal: LiteralRef<'_>) -> Unexpected {
    match literal {
        LiteralRef::Byte(byte) => fault_between(&[byte], text),
        LiteralRef::Bytes(bytes) => fault_between(bytes, text),
    }
}

/// Reads the number of a month by the first three letters of its name, and returns what follows
/// them.
#[inline(always)]
pub(crate) fn month_short<'a>(text: &'a [u8], month: &mut u8) -> Option<&'a [u8]> {
    let [first, second, third, rest @ ..] = text else {
        return None;
    };
    *month = match (*first, *second, *third) {
        (b'J', b'a', b'n') => 1,
        (b'F', b'e', b'b') => 2,
        (b'M', b'a', b'r') => 3,
        (b'A', b'p', b'r') => 4,
        (b'M', b'a', b'y') => 5,
        (b'J', b'u', b'n') => 6,
        (b'J', b'u', b'l') => 7,
        (b'A', b'u', b'g') => 8,
        (b'S', b'e', b'p') => 9,
        (b'O', b'c', b't') => 10,
        (b'N', b'o', b'v') => 11,
        (b'D', b'e', b'c') => 12,
        _ => return None,
    };
    Some(rest)
}

/// Reads the number of a month by its name, and returns what follows it.
pub(crate) fn month_long<'a>(text: &'a [u8], month: &mut u8) -> Option<&'a [u8]> {
    let rest = month_short(text, month)?;
    let ending: &[u8] = match *month {
        1 => b"uary",
        2 => b"ruary",
        3 => b"ch",
        4 => b"il",
        6 => b"e",
        7 => b"y",
        8 => b"ust",
        9 => b"tember",
        10 => b"ober",
        11 | 12 => b"ember",
        _ => b"",
    };
    after_all(rest, ending)
}

/// Reads the days from Monday by the first three letters of a weekday's name, and returns what
/// follows them.
#[inline(always)]
pub(crate) fn weekday_short<'a>(text: &'a [u8], weekday: &mut u8) -> Option<&'a [u8]> {
    let [first, second, third, rest @ ..] = text else {
        return None;
    };
    *weekday = match (*first, *second, *third) {
        (b'M', b'o', b'n') => 0,
        (b'T', b'u', b'e') => 1,
        (b'W', b'e', b'd') => 2,
        (b'T', b'h', b'u') => 3,
        (b'F', b'r', b'i') => 4,
        (b'S', b'a', b't') => 5,
        (b'S', b'u', b'n') => 6,
        _ => return None,
    };
    Some(rest)
}

/// Reads the days from Monday by a weekday's name, and returns what follows it.
pub(crate) fn weekday_long<'a>(text: &'a [u8], weekday: &mut u8) -> Option<&'a [u8]> {
    let rest = weekday_short(text, weekday)?;
    let ending: &[u8] = match *weekday {
        1 => b"sday",
        2 => b"nesday",
        3 => b"rsday",
        5 => b"urday",
        _ => b"day",
    };
    after_all(rest, ending)
}

/// Reads whether a time is in the second half of the day, and returns what follows the letters that
/// tell it.
pub(crate) fn half_day<'a>(
    text: &'a [u8],
    is_uppercase: bool,
    is_pm: &mut bool,
) -> Option<&'a [u8]> {
    *is_pm = match (text, is_uppercase) {
        ([b'A', b'M', ..], true) | ([b'a', b'm', ..], false) => false,
        ([b'P', b'M', ..], true) | ([b'p', b'm', ..], false) => true,
        _ => return None,
    };
    text.get(2..)
}
