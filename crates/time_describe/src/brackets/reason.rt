//! What can be wrong in a text in brackets.
use crate::literal::MOST_ITEMS;
use thiserror::Error;

/// What is wrong at a position of a text in brackets. Each variant names the byte whose index an
/// error has.
#[derive(Clone, Copy, Debug, PartialEq, Eq, Error)]
pub enum BracketReason {
    /// A bracket is not closed, or that of a component has another one or a backslash in it: the
    /// opening bracket.
    #[error("unclosed bracket")]
    UnclosedBracket,
    /// No backslash and no bracket follows a backslash: that backslash.
    #[error("invalid escape sequence")]
    InvalidEscape,
    /// Brackets have no name in them: the closing bracket.
    #[error("missing component name")]
    MissingName,
    /// No component has this name: the first byte of the name.
    #[error("unknown component")]
    UnknownName,
    /// The component has no modifier with this key: the first byte of the key.
    #[error("unknown modifier")]
    UnknownModifier,
    /// The modifier has no such value: the first byte of the key.
    #[error("invalid modifier value")]
    InvalidValue,
    /// An `ignore` has no `count`: the closing bracket.
    #[error("missing modifier `count`")]
    MissingModifier,
    /// An `optional` has no list of items: the closing bracket.
    #[error("missing list of items")]
    MissingItems,
    /// A byte other than whitespace and a bracket stands where only lists of items may, or an
    /// `optional` has another list: that byte, or the bracket of the list.
    #[error("unexpected text")]
    UnexpectedByte,
    /// A list of items is the 33rd in one another: its opening bracket.
    #[error("more than 32 lists in one another")]
    TooDeep,
    /// More than 65,536 opening brackets and backslashes, with one of which each item but a literal
    /// begins: the first one past them.
    #[error("more than {MOST_ITEMS} items")]
    TooManyItems,
}
