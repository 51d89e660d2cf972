//! Why a text is no description, in any syntax.
ghost use Rattle.std.specs.Prelude.{◌≡◌, ◌-◌, ◌<◌, length};
ghost use Rattle.time_describe.specs.Description.{LiesWithin};

use crate::brackets::reason::BracketReason;
use crate::strftime::reason::StrftimeReason;
use std::fmt;
use thiserror::Error;

/// What is wrong, and where.
#[derive(Clone, Copy)]
pub struct Fault<R> {
    /// What is wrong.
    pub reason: R,
    /// How many bytes the text has from there to its end.
    pub left: usize,
}

impl<R> Fault<R> {
    /// Returns the index of the fault's byte in the text.
    pub fn index_in(&self, text: &[u8]) -> usize
        requires { LiesWithin (length text.now) self.now }
        ensures index { result ≡ length text.now - self.now.left }
        ensures inside { result < length text.now }
    {
        text.len() - self.left
    }
}

/// Why no description was made of a text, whose syntax has these reasons. Those of brackets are
/// meant where none are named.
///
/// It displays what is wrong and where, as `unknown component at byte 1`. With the text one of
/// brackets shows the word too: see [`InvalidDescription::in_text`].
#[derive(Clone, Copy, Debug, PartialEq, Eq, Error)]
#[error_bound(R: fmt::Display)]
pub enum InvalidDescription<R = BracketReason> {
    /// An allocation failed.
    #[error("memory could not be reserved")]
    OutOfMemory,
    /// The text is no description: what is wrong first, and the index of its byte. Too many items
    /// in brackets are told before a fault at an earlier byte.
    #[error("{reason} at byte {index}")]
    Invalid {
        /// What is wrong.
        reason: R,
        /// The index of the byte, from 0 on, below the length of the text.
        index: usize,
    },
}

/// Why no description was made of a text in the syntax of strftime.
pub type InvalidStrftime = InvalidDescription<StrftimeReason>;
