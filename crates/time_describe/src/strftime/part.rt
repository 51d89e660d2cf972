//! The parts of a text in the syntax of strftime, before anything is made of them.
ghost use Rattle.std.specs.Prelude.{◌≡◌, ◌≤◌, ◌<◌, ◌+◌, ℕ, List, length, IfOk, option_map};
ghost use Rattle.std.specs.Prelude.{position};
ghost use Rattle.std.specs.List.{position_or_len};
ghost use Rattle.time_describe.specs.Conversions.{component_of, is_offered, refusal_behind_flag};
ghost use Rattle.time_describe.specs.Conversions.{items_of};
ghost use Rattle.time_describe.specs.Strftime.{is_percent, flagged, with_colon, with_width};
ghost use Rattle.time_describe.specs.Strftime.{conversion, first_part};
ghost use Rattle.time_describe.specs.StrftimeOutcome.{items_of_part, front_of};

use super::conversions::{composition, flag_named, number, refusal, sign, width, word};
use super::reason::StrftimeReason;
use crate::fault::Fault;
use crate::text::first_and_rest;
use time_below::format_description::modifier::{Padding, SubsecondDigits};
use time_below::format_description::{Component, modifier};

/// A part of a text.
#[derive(Clone, Copy)]
pub enum StrftimePart<'a> {
    /// The bytes that belong to it, which stand for themselves.
    Literal,
    /// One byte.
    Byte(u8),
    /// One component.
    Component(Component),
    /// The offset from UTC, and whether a colon stands before its minutes.
    Offset(bool),
    /// Other conversions, in this text.
    Composition(&'a [u8]),
}

/// Returns the component that a letter stands for, where it stands for one alone.
pub fn component_of(letter: u8) -> Option<Component>
    ensures { result ≡ component_of letter }
{
    match number(letter, None) {
        Some(component) => Some(component),
        None => word(letter),
    }
}

/// Whether a letter stands for something that is no number.
fn is_offered(letter: u8) -> bool
    ensures { result ≡ is_offered letter }
{
    word(letter).is_some()
        || sign(letter).is_some()
        || letter == b'z'
        || composition(letter).is_some()
}

/// Why a letter is refused after a flag.
fn refusal_behind_flag(letter: u8) -> StrftimeReason
    ensures { result ≡ refusal_behind_flag letter }
{
    if is_offered(letter) {
        StrftimeReason::FlagWithoutNumber(letter)
    } else {
        refusal(letter)
    }
}

/// What a letter stands for that has no flag.
fn part_of(letter: u8) -> Option<StrftimePart<'static>>
    ensures { (own : List ℕ) → option_map (items_of_part own) result ≡ items_of letter }
{
    if let Some(component) = component_of(letter) {
        return Some(StrftimePart::Component(component));
    }
    if let Some(byte) = sign(letter) {
        return Some(StrftimePart::Byte(byte));
    }
    if letter == b'z' {
        return Some(StrftimePart::Offset(false));
    }
    composition(letter).map(StrftimePart::Composition)
}

/// What is after a flag, and that it takes two bytes after the `%`.
#[tactic(auto, unfolding(crate::specs::Strftime::flagged))]
fn flagged<'a>(
    flag: Padding,
    bytes: &'a [u8],
) -> Result<(StrftimePart<'a>, usize), Fault<StrftimeReason>>
    ensures part { (text : List ℕ) → front_of text result ≡ flagged (Some flag) bytes.now }
    ensures within { IfOk result (λ x. x.1 ≤ length bytes.now + 1) }
{
    let Some((letter, _)) = first_and_rest(bytes) else {
        return Err(Fault {
            reason: StrftimeReason::Unfinished,
            left: 2,
        });
    };
    match number(letter, Some(flag)) {
        Some(component) => Ok((StrftimePart::Component(component), 2)),
        None => {
            Err(Fault {
                reason: refusal_behind_flag(letter),
                left: bytes.len(),
            })
        }
    }
}

/// What is after a colon, which stands `left` bytes before the end.
#[tactic(auto, unfolding(crate::specs::Strftime::with_colon))]
fn with_colon<'a>(
    left: usize,
    bytes: &'a [u8],
) -> Result<(StrftimePart<'a>, usize), Fault<StrftimeReason>>
    requires { left ≡ length bytes.now + 1 }
    ensures part { (text : List ℕ) → front_of text result ≡ with_colon bytes.now }
    ensures within { IfOk result (λ x. x.1 ≤ length bytes.now + 1) }
{
    match first_and_rest(bytes) {
        Some((letter, _)) if letter == b'z' => Ok((StrftimePart::Offset(true), 2)),
        _ => {
            Err(Fault {
                reason: StrftimeReason::UnknownConversion(b':'),
                left,
            })
        }
    }
}

/// What is after a width, whose digit stands `left` bytes before the end.
#[tactic(auto, unfolding(crate::specs::Strftime::with_width))]
fn with_width<'a>(
    digit: u8,
    digits: SubsecondDigits,
    left: usize,
    bytes: &'a [u8],
) -> Result<(StrftimePart<'a>, usize), Fault<StrftimeReason>>
    requires { left ≡ length bytes.now + 1 }
    ensures part { (text : List ℕ)
        → front_of text result ≡ with_width digit (Some digits) bytes.now }
    ensures within { IfOk result (λ x. x.1 ≤ length bytes.now + 1) }
{
    match first_and_rest(bytes) {
        Some((letter, _)) if letter == b'N' => {
            Ok((
                StrftimePart::Component(Component::Subsecond(modifier::Subsecond { digits })),
                2,
            ))
        }
        _ => {
            Err(Fault {
                reason: StrftimeReason::FieldWidth(digit),
                left,
            })
        }
    }
}

/// What is after a `%`, and how many bytes belong to it.
#[tactic(auto, unfolding(crate::specs::Strftime::conversion))]
fn conversion<'a>(bytes: &'a [u8]) -> Result<(StrftimePart<'a>, usize), Fault<StrftimeReason>>
    ensures part { (text : List ℕ) → front_of text result ≡ conversion bytes.now }
    ensures within { IfOk result (λ x. x.1 ≤ length bytes.now) }
{
    let Some((first, rest)) = first_and_rest(bytes) else {
        return Err(Fault {
            reason: StrftimeReason::Unfinished,
            left: 1,
        });
    };
    if let Some(flag) = flag_named(first) {
        return flagged(flag, rest);
    }
    if first == b':' {
        return with_colon(bytes.len(), rest);
    }
    if let Some(digits) = width(first) {
        return with_width(first, digits, bytes.len(), rest);
    }
    match part_of(first) {
        Some(part) => Ok((part, 1)),
        None => {
            Err(Fault {
                reason: refusal(first),
                left: bytes.len(),
            })
        }
    }
}

/// The position of the first `%`.
fn place_of_percent(bytes: &[u8]) -> Option<usize>
    ensures { result ≡ position is_percent bytes.now }
{
    bytes.iter().position(|b| *b == b'%')
}

/// How many bytes come before the first `%`.
fn literal_len(bytes: &[u8]) -> usize
    ensures place { result ≡ position_or_len is_percent bytes.now }
    ensures inside { result ≤ length bytes.now }
{
    match place_of_percent(bytes) {
        Some(place) => place,
        None => bytes.len(),
    }
}

/// Returns the first part of a text, and how many bytes belong to it after the first one.
#[tactic(auto, unfolding(crate::specs::Strftime::first_part))]
pub fn first_part<'a>(text: &'a [u8]) -> Result<(StrftimePart<'a>, usize), Fault<StrftimeReason>>
    requires { 0 < length text.now }
    ensures part { front_of text.now result ≡ first_part text.now }
    ensures within { IfOk result (λ x. x.1 < length text.now) }
{
    let Some((first, rest)) = first_and_rest(text) else {
        unreachable!();
    };
    if first == b'%' {
        return conversion(rest);
    }
    let behind = literal_len(rest);
    Ok((StrftimePart::Literal, behind))
}
