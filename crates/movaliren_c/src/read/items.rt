//! Texts by a description, read back as moments.
ghost use Rattle.std.specs.Prelude.{◌≡◌, ◌≤◌, ℕ, Err, IfErr, IfOk, IsOk, IsTrue, List, MatchResult};
ghost use Rattle.std.specs.Prelude.{Result, length, take};
ghost use Rattle.movaliren_c.specs.Items.{trees_of};
ghost use Rattle.movaliren_c.specs.ReadItems.{HasText, HasTextOfMoment, IsOfUtc};
ghost use Rattle.movaliren_c.specs.ReadItems.{IsReadBy, IsTextOf, IsUnread, LeavesRead, read_tree};
ghost use Rattle.movaliren_c.specs.declared.answers.reason.Reason.{Reason};
ghost use Rattle.time_below.specs.Tree.{Tree};

use crate::answers::reason::{Reason, answer_number};
use crate::described::item::{Item, Part, part_of};
use crate::described::{SHORT, first_reason, width, write_items};
use crate::read::OfValue;
use crate::read::place::{ReadError, place_of};
use crate::values::moment::{Moment, UtcMoment};
use std::default::Default;
use std::marker::Brand;
use time_below::{OffsetDateTime, UtcDateTime};
use time_plan::Shown;
use time_provide::ComponentProvider;
use time_read::{
    Kinds, LiteralRef, NotRead, ReadStep, Readable, StepParts, readable_kinds, reader_by_kinds,
};

/// Why no moment is read.
#[derive(Clone, Copy)]
pub enum Unread {
    /// No text is read by this description.
    Never(Reason),
    /// This text is not read.
    At(NotRead),
}

/// How texts of a description are read as moments. It is made once for all texts.
#[derive(Clone, Copy)]
pub enum Way {
    /// They do not determine a moment.
    Undetermined,
    /// As a date and a time in UTC, or as Unix time, by these components.
    InUtc(Kinds),
    /// As a date and a time with their offset, by these components.
    WithOffset(Kinds),
}

impl ReadStep for Item {
    ghost tree_of = { read_tree };

    #[inline(always)]
    #[tactic(auto, using(time_read::proofs::StepLemmas::component_alone, crate::proofs::StepLemmas::run_alone, time_read::proofs::StepLemmas::literal_alone, time_read::proofs::StepLemmas::nothing_alone))]
    fn parts<'a>(&'a self, texts: &'a [u8]) -> StepParts<'a> {
        let empty = Shown::Nothing;
        let none = LiteralRef::Bytes([].as_slice());
        let (shown, literal) = match part_of(self, texts) {
            Ok(Part::Component(component)) => (Shown::Component(component), none),
            Ok(Part::Run(run)) => (Shown::Run(run), none),
            Ok(Part::Byte(byte)) => (empty, LiteralRef::Byte(byte)),
            Ok(Part::Text(bytes)) => (empty, LiteralRef::Bytes(bytes)),
            Err(_) => (empty, none),
        };
        StepParts { shown, literal }
    }

    #[inline(always)]
    fn shown<'a>(&'a self, texts: &[u8], place: &'a mut Shown) -> &'a Shown {
        *place = self.parts(texts).shown;
        place
    }
}

/// A moment that is read by a description.
pub trait OfText: Copy {
    /// Whether this is its text by the description.
    ghost HasText: { Result (List Tree) Reason → List ℕ → Self → Type 0 };

    /// The moment of the text, or why none is read.
    fn of_text(items: &[Item], texts: &[u8], way: Way, text: &[u8]) -> Result<Self, Unread>
        ensures read { MatchResult result (HasText (trees_of texts.now items.now) text.now)
            (IsUnread (trees_of texts.now items.now) text.now) };
}

/// How texts of the items are read as moments.
pub fn way_of(items: &[Item], texts: &[u8]) -> Way {
    if let Ok(kinds) = readable_kinds::<Item, OffsetDateTime>(items, texts) {
        return Way::WithOffset(kinds);
    }
    match readable_kinds::<Item, UtcDateTime>(items, texts) {
        Ok(kinds) => Way::InUtc(kinds),
        Err(_) => Way::Undetermined,
    }
}

/// The value whose text by the items is this text, or why none is read.
///
/// A short text is written at once and compared, for the row "a reading by a description, from C".
/// Any other is read step by step, which also finds the fault.
fn value_of<V: Readable>(
    items: &[Item],
    texts: &[u8],
    kinds: Kinds,
    text: &[u8],
) -> Result<V, Unread>
where
    V::State: Drop,
    V: Drop,
    ensures read { IfOk result (λ v.
        IsTextOf (trees_of texts.now items.now) (V.facts v) text.now) }
    ensures unread { IfErr result (IsUnread (trees_of texts.now items.now) text.now) }
{
    match reader_by_kinds::<Item, V>(items, texts, kinds).candidate(text) {
        Some(value) if is_text_of(items, texts, &value, text) => Ok(value),
        _ => read_any(items, texts, kinds, text),
    }
}

/// Whether the text of a value by the items is this text. Of a long text the answer is no.
#[tactic(auto, using(crate::proofs::ReadItemLemmas::text_shown))]
fn is_text_of<V: ComponentProvider>(items: &[Item], texts: &[u8], value: &V, text: &[u8]) -> bool
where
    V::State: Drop,
    ensures { IsTrue result
        → IsTextOf (trees_of texts.now items.now) (V.facts value.now) text.now }
{
    let mut line = [0u8; SHORT];
    let mut state = V::State::default();
    match write_items::<Brand, V>(items, texts, value, &mut state, &mut line) {
        Ok(count) if count <= SHORT => is_start(&line, count, text),
        _ => false,
    }
}

/// Whether so many bytes of an array are this text.
fn is_start(line: &[u8], count: usize, text: &[u8]) -> bool
    requires { count ≤ length line.now }
    ensures { IsTrue result → take count line.now ≡ text.now }
{
    &line[..count] == text
}

/// The same value of any text, step by step, which also finds the fault of another one.
#[cold]
#[inline(never)]
#[tactic(auto, using(crate::proofs::ReadItemLemmas::never_read))]
fn read_any<V: Readable>(
    items: &[Item],
    texts: &[u8],
    kinds: Kinds,
    text: &[u8],
) -> Result<V, Unread>
where
    V::State: Drop,
    V: Drop,
    ensures read { IfOk result (λ v.
        IsTextOf (trees_of texts.now items.now) (V.facts v) text.now) }
    ensures unread { IfErr result (IsUnread (trees_of texts.now items.now) text.now) }
{
    match tested(items, texts) {
        Ok(()) => read_valid(items, texts, kinds, text),
        Err(reason) => Err(Unread::Never(reason)),
    }
}

/// The same by items of which each is valid.
#[tactic(auto, using(crate::proofs::ReadItemLemmas::text_by_items))]
fn read_valid<V: Readable>(
    items: &[Item],
    texts: &[u8],
    kinds: Kinds,
    text: &[u8],
) -> Result<V, Unread>
where
    V::State: Drop,
    V: Drop,
    requires valid { IsOk (trees_of texts.now items.now) }
    ensures read { IfOk result (λ v.
        IsTextOf (trees_of texts.now items.now) (V.facts v) text.now) }
    ensures unread { IfErr result (IsUnread (trees_of texts.now items.now) text.now) }
{
    match reader_by_kinds::<Item, V>(items, texts, kinds).read(text) {
        Ok(value) => Ok(value),
        Err(fault) => Err(Unread::At(fault)),
    }
}

/// The reason of the first item that is invalid, if one is.
fn tested(items: &[Item], texts: &[u8]) -> Result<(), Reason>
    ensures { MatchResult result (λ _. IsOk (trees_of texts.now items.now))
        (λ reason. trees_of texts.now items.now ≡ Err reason) }
{
    match width(items, texts) {
        Ok(_) => Ok(()),
        Err(reason) => Err(reason),
    }
}

/// Keeps the moment, or sets the place of a text that is not read.
fn leave<M: Copy>(read: Result<M, Unread>, moment: &mut M, error: &mut ReadError) -> isize
    ensures { LeavesRead read result moment.old moment.new error.old error.new }
{
    match read {
        Ok(value) => {
            *moment = value;
            answer_number(Ok(0))
        }
        Err(Unread::Never(reason)) => answer_number(Err(reason)),
        Err(Unread::At(fault)) => {
            *error = place_of(fault);
            answer_number(Err(Reason::NotRead))
        }
    }
}

impl OfText for Moment {
    ghost HasText = { HasText };

    #[tactic(auto, using(crate::proofs::ReadItemLemmas::undetermined_by))]
    fn of_text(items: &[Item], texts: &[u8], way: Way, text: &[u8]) -> Result<Moment, Unread> {
        let Way::WithOffset(kinds) = way else {
            return Err(Unread::Never(first_reason(items, texts, Reason::Undetermined)));
        };
        match value_of::<OffsetDateTime>(items, texts, kinds, text) {
            Ok(value) => Ok(Moment::of_value(value)),
            Err(unread) => Err(unread),
        }
    }
}

impl OfText for UtcMoment {
    ghost HasText = { HasTextOfMoment };

    /// The moment is that of a local date and time with its offset, or in UTC where the description
    /// shows no offset.
    #[tactic(auto, using(crate::proofs::ReadItemLemmas::undetermined_by))]
    fn of_text(items: &[Item], texts: &[u8], way: Way, text: &[u8]) -> Result<UtcMoment, Unread> {
        match way {
            Way::WithOffset(kinds) => {
                match value_of::<OffsetDateTime>(items, texts, kinds, text) {
                    Ok(value) => Ok(UtcMoment::of_value(value)),
                    Err(unread) => Err(unread),
                }
            }
            Way::InUtc(kinds) => match value_of::<UtcDateTime>(items, texts, kinds, text) {
                Ok(value) => Ok(moment_in_utc(value)),
                Err(unread) => Err(unread),
            },
            Way::Undetermined => {
                Err(Unread::Never(first_reason(items, texts, Reason::Undetermined)))
            }
        }
    }
}

/// The moment of a date and a time in UTC.
fn moment_in_utc(value: UtcDateTime) -> UtcMoment
    ensures { IsOfUtc result value }
{
    UtcMoment {
        seconds: value.unix_timestamp(),
        nanosecond: value.time().as_hms_nano().3,
    }
}

/// Reads a text by a description, in the way that was made for it.
pub fn read_by<M: OfText>(
    items: &[Item],
    texts: &[u8],
    way: Way,
    text: &[u8],
    moment: &mut M,
    error: &mut ReadError,
) -> isize
    ensures { IsReadBy (M.HasText (trees_of texts.now items.now) text.now)
        (IsUnread (trees_of texts.now items.now) text.now) result
        moment.old moment.new error.old error.new }
{
    leave(M::of_text(items, texts, way, text), moment, error)
}
