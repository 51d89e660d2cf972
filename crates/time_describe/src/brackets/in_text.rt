//! Errors, displayed beside the text that was read.
ghost use Rattle.std.specs.Prelude.{◌≡◌, ◌≤◌, ℕ, length, take, drop, IfSome};

use super::pieces::word_len;
use super::reason::BracketReason;
use crate::fault::InvalidDescription;
use std::error::Error;
use std::{fmt, str};

/// The longest word that is displayed, in bytes.
const LONGEST_WORD: usize = 64;

/// An error, displayed with the word that it is about, as ``unknown component `yaer` at byte 1``.
///
/// A word that is longer than 64 bytes or not UTF-8 is left out.
#[derive(Clone, Copy, Debug)]
pub struct InText<'a> {
    /// The error.
    pub error: InvalidDescription,
    /// The text that was read.
    pub text: &'a [u8],
}

impl InvalidDescription<BracketReason> {
    /// Returns the error with the text that was read, which is displayed with the word that is
    /// wrong, as ``unknown component `yaer` at byte 1``.
    pub fn in_text(self, text: &[u8]) -> InText<'_>
        ensures error { result.error ≡ self }
        ensures text { result.text.now ≡ text.now }
    {
        InText { error: self, text }
    }
}

/// How many bytes belong to what is wrong at the front of a text.
fn wrong_len(reason: BracketReason, bytes: &[u8]) -> usize
    ensures inside { result ≤ length bytes.now }
{
    match reason {
        BracketReason::UnknownName
        | BracketReason::UnknownModifier
        | BracketReason::InvalidValue
        | BracketReason::UnexpectedByte => word_len(bytes).max(bytes.len().min(1)),
        BracketReason::InvalidEscape => bytes.len().min(2),
        _ => 0,
    }
}

/// The word at an index of a text that a reason is about.
fn wrong_word(reason: BracketReason, text: &[u8], index: usize) -> Option<&str>
    ensures { IfSome result (λ word. (n : ℕ) × (word.now ≡ take n (drop index text.now))) }
{
    let rest = text.get(index..)?;
    let word = &rest[..wrong_len(reason, rest)];
    if word.is_empty() || word.len() > LONGEST_WORD {
        return None;
    }
    match str::from_utf8(word) {
        Ok(word) => Some(word),
        Err(_) => None,
    }
}

impl fmt::Display for InText<'_> {
    fn fmt<W: fmt::Write>(&self, f: &mut fmt::Formatter<W>) -> fmt::Result {
        if let InvalidDescription::Invalid { reason, index } = self.error {
            if let Some(word) = wrong_word(reason, self.text, index) {
                return write!(f, "{reason} `{word}` at byte {index}");
            }
        }
        write!(f, "{}", self.error)
    }
}

impl Error for InText<'_> {}
