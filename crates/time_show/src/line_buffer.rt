//! The line whose end has not come yet.
ghost use Rattle.std.specs.Prelude.{◌≡◌, ◌≤◌, ◌↔◌, ℕ, List, [], ◌∷◌, take, Option, Some, None};
ghost use Rattle.std.specs.Prelude.{◌+◌, MatchOption, IsTrue, nat_le, if◌then◌else◌};
ghost use Rattle.time_show.specs.LineBuffer.{kept_with};
ghost use Rattle.time_show.specs.declared.line_buffer.TheConstants.{LINE_LIMIT};

use std::marker::Model;

/// The greatest length of a line, in bytes and without its end. A longer one is a bad line.
const LINE_LIMIT: usize = 128;

/// The first 128 bytes of a line in an array, and whether more have come: `len` is 129 then.
#[derive(Drop)]
pub struct LineBuffer {
    bytes: [u8; LINE_LIMIT],
    len: usize,
}

impl Model for LineBuffer {
    ghost Value = { Option (List ℕ) };

    ghost view = { λ b. if nat_le b.len LINE_LIMIT then Some (take b.len b.bytes) else None };

    ghost invariant = { λ b. b.len ≤ LINE_LIMIT + 1 };
}

impl LineBuffer {
    /// An empty line.
    pub fn new() -> Self
        ensures { result ≡ Some [] }
    {
        LineBuffer {
            bytes: [0; LINE_LIMIT],
            len: 0,
        }
    }

    /// Begins the next line.
    pub fn clear(&mut self)
        ensures { self.new ≡ Some [] }
    {
        self.len = 0;
    }

    /// Adds the next byte of the line. One that is too long stays so until it is cleared.
    pub fn push(&mut self, byte: u8)
        ensures { self.new ≡ kept_with self.old (byte ∷ []) }
    {
        if self.len < LINE_LIMIT {
            self.bytes[self.len] = byte;
            self.len += 1;
        } else {
            self.len = LINE_LIMIT + 1;
        }
    }

    /// Whether no byte of the line has come.
    pub fn is_empty(&self) -> bool
        ensures { IsTrue result ↔ (self.now ≡ Some []) }
    {
        self.len == 0
    }

    /// The line, if it is not too long.
    pub fn line(&self) -> Option<&[u8]>
        ensures { MatchOption result (self.now ≡ None) (λ line. self.now ≡ Some line.now) }
    {
        if self.len > LINE_LIMIT {
            None
        } else {
            Some(&self.bytes[..self.len])
        }
    }
}
