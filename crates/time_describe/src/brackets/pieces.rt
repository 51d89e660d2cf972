//! What is at the front of a text: literals, and what brackets hold.
ghost use Rattle.std.specs.Prelude.{◌≡◌, ◌==◌, ◌≤◌, [], length, drop, not, IfOk};
ghost use Rattle.std.specs.Prelude.{position};
ghost use Rattle.std.specs.Char.{is_ascii_whitespace};
ghost use Rattle.std.specs.List.{position_or_len, prefix_len, before_first, after_first};
ghost use Rattle.time_describe.specs.Outcome.{IsEnd};
ghost use Rattle.time_describe.specs.Pieces.{InBrackets, ends_literal};
ghost use Rattle.time_describe.specs.Reading.{is_special, is_escapable, ends_word, at_fault};
ghost use Rattle.time_describe.specs.Reading.{with_word, is_whole, finished, list_kind_of};

use super::names::{modified, named};
use super::reason::BracketReason;
use crate::fault::Fault;
use crate::items::ListKind;
use crate::text::first_and_rest;
use time_below::format_description::Component;

/// What brackets hold: a component, or the word before lists of items.
#[derive(Clone, Copy)]
pub enum Bracketed {
    /// A component, up to the closing bracket.
    Component(Component),
    /// The word alone.
    Lists(ListKind),
}

/// Whether the byte ends a literal.
fn is_special(byte: u8) -> bool
    ensures { result ≡ is_special byte }
{
    byte == b'[' || byte == b'\\'
}

/// Returns whether the byte may follow a backslash.
pub fn is_escapable(byte: u8) -> bool
    ensures { result ≡ is_escapable byte }
{
    byte == b'[' || byte == b'\\' || byte == b']'
}

/// Whether the byte ends a word in brackets.
fn ends_word(byte: u8) -> bool
    ensures { result ≡ ends_word byte }
{
    is_special(byte) || byte == b']' || byte.is_ascii_whitespace()
}

/// Whether the byte ends a literal, in a list of items or not.
fn ends_literal(in_list: bool, byte: u8) -> bool
    ensures { result ≡ ends_literal in_list byte }
{
    is_special(byte) || (in_list && byte == b']')
}

/// The position of the first byte that ends a literal.
fn place_of_special(in_list: bool, bytes: &[u8]) -> Option<usize>
    ensures { result ≡ position (ends_literal in_list) bytes.now }
{
    bytes.iter().position(|b| ends_literal(in_list, *b))
}

/// The position of the first byte that ends a word.
fn place_of_end(bytes: &[u8]) -> Option<usize>
    ensures { result ≡ position ends_word bytes.now }
{
    bytes.iter().position(|b| ends_word(*b))
}

/// The position of the first colon.
fn place_of_colon(bytes: &[u8]) -> Option<usize>
    ensures { result ≡ position (λ b. b == 58) bytes.now }
{
    bytes.iter().position(|b| *b == b':')
}

/// The position of the first byte that is no whitespace.
fn place_of_no_gap(bytes: &[u8]) -> Option<usize>
    ensures { result ≡ position (λ b. not (is_ascii_whitespace b)) bytes.now }
{
    bytes.iter().position(|b| !b.is_ascii_whitespace())
}

/// Returns how many bytes come before the first that ends a literal.
pub fn literal_len(in_list: bool, bytes: &[u8]) -> usize
    ensures place { result ≡ position_or_len (ends_literal in_list) bytes.now }
    ensures inside { result ≤ length bytes.now }
{
    match place_of_special(in_list, bytes) {
        Some(place) => place,
        None => bytes.len(),
    }
}

/// Returns how many bytes come before the first that ends a word.
pub fn word_len(bytes: &[u8]) -> usize
    ensures place { result ≡ position_or_len ends_word bytes.now }
    ensures inside { result ≤ length bytes.now }
{
    match place_of_end(bytes) {
        Some(place) => place,
        None => bytes.len(),
    }
}

/// What is before the first colon, and what is after it.
fn key_and_value(word: &[u8]) -> (&[u8], &[u8])
    ensures key { result.0.now ≡ before_first (λ b. b == 58) word.now }
    ensures value { result.1.now ≡ after_first (λ b. b == 58) word.now }
{
    match place_of_colon(word) {
        Some(place) => {
            let (key, rest) = word.split_at(place);
            (key, &rest[1..])
        }
        None => (word, &[]),
    }
}

/// The component with one more word, which begins where `left` bytes are left.
fn with_word(
    component: Option<Component>,
    word: &[u8],
    left: usize,
) -> Result<Component, Fault<BracketReason>>
    ensures { result ≡ at_fault (with_word component word.now) left }
{
    let changed = match component {
        None => named(word).ok_or(BracketReason::UnknownName),
        Some(component) => {
            let (key, value) = key_and_value(word);
            modified(component, key, value)
        }
    };
    changed.map_err(|reason| Fault { reason, left })
}

/// Whether nothing is missing in a component: an `ignore` has its count.
fn is_whole(component: Component) -> bool
    ensures { result ≡ is_whole component }
{
    match component {
        Component::Ignore(m) => m.count != 0,
        _ => true,
    }
}

/// The component of brackets that are closed where `left` bytes are left.
fn finished(component: Option<Component>, left: usize) -> Result<Component, Fault<BracketReason>>
    ensures { result ≡ at_fault (finished component) left }
{
    let reason = match component {
        None => BracketReason::MissingName,
        Some(component) if is_whole(component) => return Ok(component.current()),
        Some(_) => BracketReason::MissingModifier,
    };
    Err(Fault { reason, left })
}

/// Returns the kind of list that `optional` or `first` begins.
fn list_kind_of(component: Option<Component>, word: &[u8]) -> Option<ListKind>
    ensures { result ≡ list_kind_of component word.now }
{
    match component {
        None => {
            if word == b"optional".as_slice() {
                Some(ListKind::Optional)
            } else if word == b"first".as_slice() {
                Some(ListKind::First)
            } else {
                None
            }
        }
        Some(_) => None,
    }
}

/// Returns the item that brackets hold, and the bytes after them.
///
/// The opening bracket is before the bytes, and `opened` bytes are left from it on.
pub fn in_brackets(opened: usize, bytes: &[u8]) -> Result<(Bracketed, &[u8]), Fault<BracketReason>>
    ensures goes_on { InBrackets opened bytes.now result }
    ensures shorter { IfOk result (λ x. length x.1.now ≤ length bytes.now) }
    ensures end { IfOk result (λ x. IsEnd bytes.now x.1.now) }
{
    let unclosed = Fault {
        reason: BracketReason::UnclosedBracket,
        left: opened,
    };
    let mut component: Option<Component> = None;
    let mut rest = bytes;
    'words: loop {
        let Some((first, after)) = first_and_rest(rest) else {
            return Err(unclosed);
        };
        if is_special(first) {
            return Err(unclosed);
        }
        if first == b']' {
            let component = finished(component, rest.len())?;
            return Ok((Bracketed::Component(component), after));
        }
        if first.is_ascii_whitespace() {
            rest = after;
        } else {
            let (word, after) = rest.split_at(word_len(rest));
            let Some((end, _)) = first_and_rest(after) else {
                return Err(unclosed);
            };
            if is_special(end) {
                return Err(unclosed);
            }
            if let Some(kind) = list_kind_of(component, word) {
                return Ok((Bracketed::Lists(kind), after));
            }
            component = Some(with_word(component, word, rest.len())?);
            rest = after;
        }
    }
}

/// Returns the bytes after whitespace.
pub fn after_gap(bytes: &[u8]) -> &[u8]
    ensures { result.now ≡ drop (prefix_len is_ascii_whitespace bytes.now) bytes.now }
{
    match place_of_no_gap(bytes) {
        Some(place) => &bytes[place..],
        None => &[],
    }
}
