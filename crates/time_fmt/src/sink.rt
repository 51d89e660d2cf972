//! Sinks of bytes, which hold no more than they have capacity for. No writer makes one grow.
//!
//! Writers and the engine are generic over them. `Formattable` appends to vectors alone, since a
//! format may be one of its impls, and a pair takes the vector out by what is known of vectors.
ghost use Rattle.std.specs.Prelude.{◌≡◌, ◌+◌, ◌++◌, ◌∷◌, []};
ghost use Rattle.time_fmt.specs.Sink.{Buffer, Fits, vec_buffer};

use crate::writers::{put_back, take_out};

/// A sink of bytes.
pub trait Sink: Sized {
    /// What it holds, and how much it can.
    ghost buffer: { Self → Buffer };

    /// Appends a byte.
    fn put_byte(&mut self, byte: u8)
        requires room { Fits (buffer self.old) 1 }
        ensures bytes { (buffer self.new).bytes ≡ (buffer self.old).bytes ++ byte ∷ [] }
        ensures len { (buffer self.new).len ≡ (buffer self.old).len + 1 }
        ensures block { (buffer self.new).block ≡ (buffer self.old).block };

    /// Returns how many more bytes the sink can hold.
    ///
    /// A writer that adds counts asks for it, since nothing else bounds their sum.
    fn room(&self) -> usize
        ensures { (buffer self.now).len + result ≡ (buffer self.now).block.capacity };

    /// Takes the sink out of its borrow, which keeps an empty one. Loops and the slow paths of
    /// writers take the sink out, and put it back.
    fn take_out(&mut self) -> Self
        ensures taken { buffer result ≡ buffer self.old };

    /// Puts the sink back in place of the empty one.
    fn put_back(&mut self, taken: Self)
        ensures put { buffer self.new ≡ buffer taken };
}

impl Sink for Vec<u8> {
    ghost buffer = { vec_buffer };

    fn put_byte(&mut self, byte: u8) {
        self.push_reserved(byte);
    }

    fn room(&self) -> usize {
        self.capacity() - self.len()
    }

    fn take_out(&mut self) -> Vec<u8> {
        take_out(self)
    }

    fn put_back(&mut self, taken: Vec<u8>) {
        put_back(self, taken);
    }
}
