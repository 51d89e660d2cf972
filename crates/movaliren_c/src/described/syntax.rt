//! What is wrong in a text that is no description, as C has it, and the items of one that is.
ghost use Rattle.std.specs.Prelude.{◌≡◌, ◌+◌, ℕ, None, Err, OnOk, IfErr};
ghost use Rattle.movaliren_c.specs.Described.{IsHeld, bracket_number, fault_at, items_in, long, many};
ghost use Rattle.movaliren_c.specs.Described.{strftime_number};

use crate::described::item_room::ItemRoom;
use time_describe::{BracketReason, StrftimeReason, Syntax};

/// Why a text gave no items.
#[repr(C)]
#[derive(Clone, Copy)]
pub struct ParseError {
    /// The index of the byte.
    pub at: usize,
    /// How many items there are, if these are too many for an array, or else 0.
    pub items: usize,
    /// The number of what is wrong.
    pub kind: u8,
    /// The byte that the reason names, or 0.
    pub byte: u8,
}

impl ParseError {
    /// A fault at the byte of this index, by the number of its reason and the byte that it names.
    fn at(index: usize, number: (u8, u8)) -> ParseError
        ensures { result ≡ fault_at index number }
    {
        ParseError {
            at: index,
            kind: number.0,
            byte: number.1,
            ..ParseError::many(0)
        }
    }

    /// A text of more bytes than this many, for which there is room.
    pub fn long(most: usize) -> ParseError
        ensures { result ≡ long most }
    {
        ParseError {
            at: most,
            ..ParseError::many(0)
        }
    }

    /// An array that is too short for so many items.
    pub fn many(items: usize) -> ParseError
        ensures { result ≡ many items }
    {
        ParseError {
            at: 0,
            items,
            kind: 0,
            byte: 0,
        }
    }
}

/// What can be wrong in a text of a syntax, by numbers.
pub trait Numbered: Copy {
    /// The number of the reason, and the byte that it names, or 0.
    ghost number: { Self → ℕ × ℕ };

    /// The number of the reason, and the byte that it names, or 0.
    fn number(self) -> (u8, u8)
        ensures { result ≡ number self };
}

impl Numbered for BracketReason {
    ghost number = { bracket_number };

    fn number(self) -> (u8, u8) {
        match self {
            BracketReason::UnclosedBracket => (1, 0),
            BracketReason::InvalidEscape => (2, 0),
            BracketReason::MissingName => (3, 0),
            BracketReason::UnknownName => (4, 0),
            BracketReason::UnknownModifier => (5, 0),
            BracketReason::InvalidValue => (6, 0),
            BracketReason::MissingModifier => (7, 0),
            BracketReason::MissingItems => (8, 0),
            BracketReason::UnexpectedByte => (9, 0),
            BracketReason::TooDeep => (10, 0),
            BracketReason::TooManyItems => (11, 0),
        }
    }
}

impl Numbered for StrftimeReason {
    ghost number = { strftime_number };

    fn number(self) -> (u8, u8) {
        match self {
            StrftimeReason::TooManyItems => (11, 0),
            StrftimeReason::Unfinished => (12, 0),
            StrftimeReason::UnknownConversion(byte) => (13, byte),
            StrftimeReason::ZoneName => (14, 0),
            StrftimeReason::LocaleModifier(byte) => (15, byte),
            StrftimeReason::FieldWidth(byte) => (16, byte),
            StrftimeReason::CaseFlag(byte) => (17, byte),
            StrftimeReason::PlusFlag => (18, 0),
            StrftimeReason::SecondFlag(byte) => (19, byte),
            StrftimeReason::FlagWithoutNumber(byte) => (20, byte),
        }
    }
}

/// Adds the items that a text describes to an array that has none.
#[tactic(auto, using(crate::proofs::ItemLemmas::none_held, crate::proofs::ItemLemmas::all_held, crate::proofs::ItemLemmas::fault_told))]
pub fn put_items<S: Syntax<Reason: Numbered>>(
    items: &mut ItemRoom<'_>,
    text: &[u8],
) -> Result<(), ParseError>
    requires none { items.old.made + items.old.rest ≡ 0 }
    requires shown { items.old.hidden_at ≡ None }
    ensures found { OnOk result (IsHeld text.now
        (items_in S.Reason.number text.now (S.described text.now))
        items.new.array.now items.new.made items.new.rest) }
    ensures fault { IfErr result (λ f. items_in S.Reason.number text.now (S.described text.now)
        ≡ Err f) }
    ensures same_reference { items.new.array.ghost_name ≡ items.old.array.ghost_name }
{
    match S::put_all::<ItemRoom<'_>>(items, text) {
        Ok(()) => Ok(()),
        Err(fault) => Err(ParseError::at(fault.index_in(text), fault.reason.number())),
    }
}
