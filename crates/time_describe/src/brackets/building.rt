//! Items, put one after the other into lists.
ghost use Rattle.std.specs.Prelude.{◌≡◌, ◌+◌, ◌<◌, ◌∷◌, [], ℕ, List, None, length, IfOk};
ghost use Rattle.arrayvec.specs.ArrayVec.{array_vec_len};
ghost use Rattle.time_below.specs.Tree.{Tree};
ghost use Rattle.time_describe.specs.Items.{is_nil};
ghost use Rattle.time_describe.specs.Outcome.{AreOpen, Ends, GoesOn, IsEnd, lacks_list};
ghost use Rattle.time_describe.specs.Outcome as outcome;
ghost use Rattle.time_describe.specs.Reading as reading;
ghost use Rattle.time_describe.specs.Reading.{brackets, escape, nested, outside, read, takes_list};

use super::frame::{Frame, Frames};
use super::pieces::{Bracketed, after_gap, in_brackets, is_escapable, literal_len};
use super::reason::BracketReason;
use crate::fault::Fault;
use crate::items::{Items, ListKind};
use crate::text::first_and_rest;

/// Returns whether `optional` has no list yet.
fn lacks_list(kind: ListKind, is_first: bool) -> bool
    ensures { result ≡ lacks_list kind is_first }
{
    match kind {
        ListKind::First => false,
        ListKind::Optional => is_first,
    }
}

/// Whether one more list may stand in brackets.
fn takes_list(kind: ListKind, is_first: bool) -> bool
    ensures { (lists : List Tree) → is_first ≡ is_nil lists → result ≡ takes_list kind lists }
{
    match kind {
        ListKind::First => true,
        ListKind::Optional => is_first,
    }
}

/// Ends brackets with lists, which are closed where `left` bytes are left.
fn end_lists<I: Items>(
    items: &mut I,
    kind: ListKind,
    is_first: bool,
    left: usize,
) -> Result<(), Fault<BracketReason>>
    ensures ended { (text : List ℕ) (fs : List reading.Frame) (before lists : List Tree)
        → is_first ≡ is_nil lists → I.HoldsLists text fs kind before items.old lists
        → Ends (I.Holds text fs items.new) before result (nested kind lists left) }
    ensures lender { I.lender items.new ≡ I.lender items.old }
{
    if lacks_list(kind, is_first) {
        return Err(Fault {
            reason: BracketReason::MissingItems,
            left,
        });
    }
    items.end_lists(kind);
    Ok(())
}

/// Reads on between lists: up to a list's opening bracket, or after the closing one.
fn between<'a, I: Items>(
    items: &mut I,
    frames: &mut Frames,
    kind: ListKind,
    opened: usize,
    is_first: bool,
    bytes: &'a [u8],
) -> Result<&'a [u8], Fault<BracketReason>>
    ensures goes_on { (text : List ℕ) (fs : List reading.Frame) (before lists : List Tree)
        → is_first ≡ is_nil lists → outcome.AreKept frames.old.items fs
        → I.HoldsLists text fs kind before items.old lists
        → GoesOn (AreOpen (λ gs. I.Holds text gs items.new) frames.new.items) result
        (read fs (reading.between kind opened lists) before [] bytes.now) }
    ensures shorter { IfOk result (λ rest. length rest.now < length bytes.now) }
    ensures end { IfOk result (λ rest. IsEnd bytes.now rest.now) }
    ensures lender { I.lender items.new ≡ I.lender items.old }
{
    let rest = after_gap(bytes);
    let Some((first, after)) = first_and_rest(rest) else {
        return Err(Fault {
            reason: BracketReason::UnclosedBracket,
            left: opened,
        });
    };
    if first == b']' {
        end_lists(items, kind, is_first, rest.len())?;
        return Ok(after);
    }
    if first != b'[' || !takes_list(kind, is_first) {
        return Err(Fault {
            reason: BracketReason::UnexpectedByte,
            left: rest.len(),
        });
    }
    if frames.is_full() {
        return Err(Fault {
            reason: BracketReason::TooDeep,
            left: rest.len(),
        });
    }
    items.open_list(frames.len(), is_first);
    frames.push(Frame {
        kind,
        opened,
        opened_list: rest.len(),
    });
    Ok(after)
}

/// Reads what is after a backslash, from which `left` bytes are left.
fn escaped<'a, I: Items>(
    items: &mut I,
    left: usize,
    rest: &'a [u8],
) -> Result<&'a [u8], Fault<BracketReason>>
    requires { left ≡ length rest.now + 1 }
    ensures goes_on { (text : List ℕ) (fs : List reading.Frame) (before : List Tree)
        → I.Holds text fs items.old before
        → GoesOn (λ gs now. (gs ≡ fs) × I.Holds text gs items.new now) result
        (read fs escape before [] rest.now) }
    ensures shorter { IfOk result (λ after. length after.now < length rest.now) }
    ensures end { IfOk result (λ after. IsEnd rest.now after.now) }
    ensures lender { I.lender items.new ≡ I.lender items.old }
{
    match first_and_rest(rest) {
        Some((escaped, after)) if is_escapable(escaped) => {
            items.put_byte(escaped);
            Ok(after)
        }
        _ => Err(Fault {
            reason: BracketReason::InvalidEscape,
            left,
        }),
    }
}

/// Closes the innermost list, and reads on after its closing bracket.
fn close_list<'a, I: Items>(
    items: &mut I,
    frames: &mut Frames,
    rest: &'a [u8],
) -> Result<&'a [u8], Fault<BracketReason>>
    requires { 0 < array_vec_len frames.old }
    ensures goes_on { (text : List ℕ) (fs : List reading.Frame) (before : List Tree)
        → AreOpen (λ gs. I.Holds text gs items.old) frames.old.items fs before
        → GoesOn (AreOpen (λ gs. I.Holds text gs items.new) frames.new.items) result
        (read fs outside before [] (93 ∷ rest.now)) }
    ensures shorter { IfOk result (λ after. length after.now < length rest.now) }
    ensures end { IfOk result (λ after. IsEnd rest.now after.now) }
    ensures lender { I.lender items.new ≡ I.lender items.old }
{
    let Some(frame) = frames.pop() else {
        unreachable!();
    };
    items.close_list(frames.len());
    between(items, frames, frame.kind, frame.opened, false, rest)
}

/// Reads what brackets hold, the opening one of which stands where `opened` bytes are left.
fn bracketed<'a, I: Items>(
    items: &mut I,
    frames: &mut Frames,
    opened: usize,
    bytes: &'a [u8],
) -> Result<&'a [u8], Fault<BracketReason>>
    ensures goes_on { (text : List ℕ) (fs : List reading.Frame) (before : List Tree)
        → AreOpen (λ gs. I.Holds text gs items.old) frames.old.items fs before
        → GoesOn (AreOpen (λ gs. I.Holds text gs items.new) frames.new.items) result
        (read fs (brackets opened None []) before [] bytes.now) }
    ensures shorter { IfOk result (λ after. length after.now < length bytes.now + 1) }
    ensures end { IfOk result (λ after. IsEnd bytes.now after.now) }
    ensures lender { I.lender items.new ≡ I.lender items.old }
{
    let (inside, after) = in_brackets(opened, bytes)?;
    match inside {
        Bracketed::Component(component) => {
            items.put_component(component);
            Ok(after)
        }
        Bracketed::Lists(kind) => {
            items.begin_lists();
            between(items, frames, kind, opened, true, after)
        }
    }
}

/// Reads the first part of the rest of a text, and returns what follows it.
pub fn step<'a, I: Items>(
    items: &mut I,
    frames: &mut Frames,
    text: &[u8],
    rest: &'a [u8],
) -> Result<&'a [u8], Fault<BracketReason>>
    requires some { 0 < length rest.now }
    requires end { IsEnd text.now rest.now }
    ensures goes_on { (fs : List reading.Frame) (before : List Tree)
        → AreOpen (λ gs. I.Holds text.now gs items.old) frames.old.items fs before
        → GoesOn (AreOpen (λ gs. I.Holds text.now gs items.new) frames.new.items)
        result (read fs outside before [] rest.now) }
    ensures shorter { IfOk result (λ after. length after.now < length rest.now) }
    ensures end { IfOk result (λ after. IsEnd rest.now after.now) }
    ensures lender { I.lender items.new ≡ I.lender items.old }
{
    let Some((first, after)) = first_and_rest(rest) else {
        unreachable!();
    };
    if first == b'[' {
        return bracketed(items, frames, rest.len(), after);
    }
    if first == b'\\' {
        return escaped(items, rest.len(), after);
    }
    if first == b']' && !frames.is_empty() {
        return close_list(items, frames, after);
    }
    let len = literal_len(!frames.is_empty(), rest);
    items.put_literal(text, text.len() - rest.len(), len);
    Ok(&rest[len..])
}
