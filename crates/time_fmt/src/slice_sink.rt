//! The start of a buffer, as a sink.
//!
//! What the buffer held before is a ghost member of a type parameter. So the sink's own invariants
//! say that what follows the text is as it was, and no writer has to.
ghost use Rattle.std.specs.Prelude.{◌≡◌, ◌<◌, ◌≤◌, ◌+◌, ◌++◌, ℕ, List, [], Some, length, take};
ghost use Rattle.std.specs.Prelude.{drop};

use crate::sink::Sink;
use std::marker::{Brand, PhantomData};
use std::mem::replace;

/// What a buffer held before a text was written to its start.
pub trait OldBytes {
    ghost before: { List ℕ };
}

impl OldBytes for Brand {
    ghost before = { [] };
}

/// A text at the start of a buffer. What follows it is as it was before.
#[derive(Drop)]
pub struct SliceSink<'a, B: OldBytes> {
    room: &'a mut [u8],
    len: usize,
    held: PhantomData<B>,
    ghost within: { len ≤ length room.now },
    ghost as_long: { 0 < length room.now → length room.now ≡ length B.before },
    ghost behind: { 0 < length room.now → drop len room.now ≡ drop len B.before },
}

impl<'a, B: OldBytes> SliceSink<'a, B> {
    /// Returns an empty text at the start of a buffer, which holds what `B` says.
    pub fn new(room: &'a mut [u8]) -> SliceSink<'a, B>
        requires before { room.old ≡ B.before }
        ensures { ⟦<SliceSink<'a, B> as Sink>⟧.buffer result ≡ record {
          bytes = [];
          len = 0;
          block = record { capacity = length room.old; lender = Some room.entry.ghost_name };
        } }
    {
        SliceSink {
            room,
            len: 0,
            held: PhantomData,
        }
    }

    /// Returns the number of bytes of the text.
    pub fn len(&self) -> usize
        ensures { result ≡ (⟦<SliceSink<'a, B> as Sink>⟧.buffer self.now).len }
    {
        self.len
    }
}

impl<B: OldBytes> Sink for SliceSink<'_, B> {
    ghost buffer = { λ s. record {
      bytes = take s.len s.room.now;
      len = s.len;
      block = record { capacity = length s.room.now; lender = Some s.room.ghost_name };
    } };

    fn put_byte(&mut self, byte: u8) {
        let at = self.len;
        self.len = at + 1;
        self.room[at] = byte;
    }

    fn room(&self) -> usize {
        self.room.len() - self.len
    }

    fn take_out(&mut self) -> Self {
        let empty = SliceSink {
            room: &mut [],
            len: 0,
            held: PhantomData,
        };
        replace(self, empty)
    }

    fn put_back(&mut self, taken: Self) {
        *self = taken;
    }
}

/// Overwrites the bytes of a buffer from a position on.
#[tactic(auto, using(crate::proofs::RoomLemmas::written_over))]
pub fn write_over(room: &mut [u8], at: usize, bytes: &[u8])
    requires { at + length bytes.now ≤ length room.old }
    ensures before { take (at + length bytes.now) room.new ≡ take at room.old ++ bytes.now }
    ensures behind { drop (at + length bytes.now) room.new ≡ drop (at + length bytes.now) room.old }
    ensures len { length room.new ≡ length room.old }
{
    room[at..at + bytes.len()].copy_from_slice(bytes);
}
