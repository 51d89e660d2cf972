//! Texts that are put into a sink piece by piece.
ghost use Rattle.std.specs.Prelude.{◌≡◌, ◌≤◌, ◌++◌, ℕ, List, Ok, drop, length};
ghost use Rattle.time_fmt.specs.Ends.{Ends};
ghost use Rattle.time_fmt.specs.Outcome.{AppendsUpTo, done};
ghost use Rattle.time_fmt.specs.Room.{HasRoom};
ghost use Rattle.time_fmt.specs.Sink.{Fits};

use std::marker::Brand;
use time_fmt::writers::{put_back, take_out};
use time_fmt::{OldBytes, Sink, SliceSink};

/// A text that is not written yet.
pub trait Text {
    /// The most bytes of the text, which must fit the sink.
    ghost width: { Self → ℕ };

    /// Its bytes.
    ghost text: { Self → List ℕ };

    /// Puts the text into a sink.
    fn put_into<S: Sink>(&self, output: &mut S)
        requires room { Fits (S.buffer output.old) (width self.now) }
        ensures puts { Ends (width self.now) (S.buffer output.old) (S.buffer output.new)
            (Ok tt) (done (text self.now)) };
}

// Appends the text, and returns the number of its bytes.
#[inline(always)]
pub(crate) fn append<T: Text>(output: &mut Vec<u8>, text: &T) -> usize
    requires room { HasRoom output.old (T.width text.now) }
    ensures appends { AppendsUpTo (T.width text.now) output.old output.new (Ok result)
        (done (T.text text.now)) }
{
    let mut taken = take_out(output);
    let begin = taken.len();
    text.put_into(&mut taken);
    let count = taken.len() - begin;
    put_back(output, taken);
    count
}

/// Puts the text at the start of the buffer, and returns the number of its bytes.
#[inline(always)]
pub fn put_at_start<T: Text>(text: &T, room: &mut [u8]) -> usize
    requires room { T.width text.now ≤ length room.old }
    ensures fits { result ≤ length room.old }
    ensures count { result ≡ length (T.text text.now) }
    ensures text { room.new
        ≡ T.text text.now ++ drop (length (T.text text.now)) room.old }
{
    put_before::<Brand, T>(text, room)
}

// Puts it at the start of a buffer that held these bytes before.
#[inline(always)]
fn put_before<B: OldBytes, T: Text>(text: &T, room: &mut [u8]) -> usize
    requires before { room.old ≡ B.before }
    requires room { T.width text.now ≤ length room.old }
    ensures fits { result ≤ length room.old }
    ensures count { result ≡ length (T.text text.now) }
    ensures text { room.new
        ≡ T.text text.now ++ drop (length (T.text text.now)) room.old }
{
    let mut sink = SliceSink::<B>::new(room);
    text.put_into(&mut sink);
    sink.len()
}
