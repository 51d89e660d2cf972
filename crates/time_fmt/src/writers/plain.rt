//! Bytes and texts as they are.
ghost use Rattle.std.specs.Prelude.{◌≡◌, ◌+◌, ◌<◌, ◌≤◌, length, take, [], if◌then◌else◌};
ghost use Rattle.std.specs.Prelude.{vec_capacity};
ghost use Rattle.time_digits.specs.Digits.{joined};
ghost use Rattle.time_fmt.specs.Sink.{Fits, Puts};

use crate::sink::Sink;
use std::mem::{forget, replace};

/// Takes the vector out of its borrow, which keeps an empty one.
pub fn take_out(output: &mut Vec<u8>) -> Vec<u8>
    ensures taken { result ≡ output.old }
    ensures left { vec_capacity output.new ≡ 0 }
{
    let alloc = *output.allocator();
    replace(output, Vec::new(alloc))
}

/// Puts the vector back in place of the empty one, which has no memory to free.
pub fn put_back(output: &mut Vec<u8>, taken: Vec<u8>)
    ensures put { output.new ≡ taken }
{
    forget(replace(output, taken))
}

/// Appends the bytes, and returns their number.
pub fn write_bytes<S: Sink>(output: &mut S, bytes: &[u8]) -> usize
    requires room { Fits (S.buffer output.old) (length bytes.now) }
    ensures writes { Puts (S.buffer output.old) (S.buffer output.new) result bytes.now }
{
    match bytes {
        [] => {}
        [a] => output.put_byte(*a),
        [a, b] => {
            output.put_byte(*a);
            output.put_byte(*b);
        }
        _ => write_in_blocks(output, bytes),
    }
    bytes.len()
}

/// Appends the bytes of a text whose length the caller's type says.
pub(crate) fn write_each<S: Sink>(output: &mut S, bytes: &[u8]) -> usize
    requires room { Fits (S.buffer output.old) (length bytes.now) }
    ensures writes { Puts (S.buffer output.old) (S.buffer output.new) result bytes.now }
{
    for byte in bytes {
        output.put_byte(*byte);
    }
    bytes.len()
}

/// Appends a literal of a list.
///
/// For a long one the sink is taken out once more.
#[inline(always)]
pub fn write_literal<S: Sink>(output: &mut S, bytes: &[u8]) -> usize
    requires room { Fits (S.buffer output.old) (length bytes.now) }
    ensures writes { Puts (S.buffer output.old) (S.buffer output.new) result bytes.now }
{
    if bytes.len() == 1 {
        output.put_byte(bytes[0]);
        return 1;
    }
    if bytes.len() == 2 {
        let (first, second) = (bytes[0], bytes[1]);
        output.put_byte(first);
        output.put_byte(second);
        return 2;
    }
    write_long_literal(output, bytes)
}

// Appends a literal of any length to a sink that is taken out.
fn write_long_literal<S: Sink>(output: &mut S, bytes: &[u8]) -> usize
    requires room { Fits (S.buffer output.old) (length bytes.now) }
    ensures writes { Puts (S.buffer output.old) (S.buffer output.new) result bytes.now }
{
    let mut taken = output.take_out();
    write_in_blocks(&mut taken, bytes);
    output.put_back(taken);
    bytes.len()
}

/// Appends the bytes, eight at a time. `extend_from_slice` has no clause that the capacity stays.
#[inline(never)]
fn write_in_blocks<S: Sink>(output: &mut S, bytes: &[u8])
    requires room { Fits (S.buffer output.old) (length bytes.now) }
    ensures puts { Puts (S.buffer output.old) (S.buffer output.new) (length bytes.now) bytes.now }
{
    let mut taken = output.take_out();
    let mut rest = bytes;
    while let [a, b, c, d, e, f, g, h, more @ ..] = rest {
        let (first, second) = ([*a, *b, *c, *d], [*e, *f, *g, *h]);
        push_four(&mut taken, first);
        push_four(&mut taken, second);
        rest = more;
    }
    if let [a, b, c, d, more @ ..] = rest {
        push_four(&mut taken, [*a, *b, *c, *d]);
        rest = more;
    }
    push_rest(&mut taken, rest);
    output.put_back(taken);
}

// Appends four bytes.
fn push_four<S: Sink>(output: &mut S, bytes: [u8; 4])
    requires room { Fits (S.buffer output.old) 4 }
    ensures puts { Puts (S.buffer output.old) (S.buffer output.new) 4 bytes }
{
    let [a, b, c, d] = bytes;
    output.put_byte(a);
    output.put_byte(b);
    output.put_byte(c);
    output.put_byte(d);
}

// Appends the last bytes, at most three.
fn push_rest<S: Sink>(output: &mut S, bytes: &[u8])
    requires few { length bytes.now < 4 }
    requires room { Fits (S.buffer output.old) (length bytes.now) }
    ensures puts { Puts (S.buffer output.old) (S.buffer output.new) (length bytes.now) bytes.now }
{
    match bytes {
        [a] => output.put_byte(*a),
        [a, b] => {
            let (a, b) = (*a, *b);
            output.put_byte(a);
            output.put_byte(b);
        }
        [a, b, c] => {
            let (a, b, c) = (*a, *b, *c);
            output.put_byte(a);
            output.put_byte(b);
            output.put_byte(c);
        }
        _ => {}
    }
}

/// Appends the text, and returns the number of its bytes.
#[inline(always)]
pub fn write<S: Sink>(output: &mut S, text: &str) -> usize
    requires room { Fits (S.buffer output.old) (length text.now) }
    ensures writes { Puts (S.buffer output.old) (S.buffer output.new) result text.now }
{
    write_bytes(output, text.as_bytes())
}

// Appends a text of two bytes.
pub(crate) fn write_pair<S: Sink>(output: &mut S, text: &str) -> usize
    requires pair { length text.now ≡ 2 }
    requires room { Fits (S.buffer output.old) 2 }
    ensures writes { Puts (S.buffer output.old) (S.buffer output.new) result text.now }
{
    let bytes = text.as_bytes();
    let (first, second) = (bytes[0], bytes[1]);
    output.put_byte(first);
    output.put_byte(second);
    2
}

// Appends three bytes, as of a short name, without a loop over blocks.
pub(crate) fn write_three<S: Sink>(output: &mut S, bytes: &[u8]) -> usize
    requires three { length bytes.now ≡ 3 }
    requires room { Fits (S.buffer output.old) 3 }
    ensures writes { Puts (S.buffer output.old) (S.buffer output.new) result bytes.now }
{
    let (first, second, third) = (bytes[0], bytes[1], bytes[2]);
    output.put_byte(first);
    output.put_byte(second);
    output.put_byte(third);
    3
}

/// Appends the texts one after another, and returns the number of their bytes.
pub fn write_many<S: Sink>(output: &mut S, texts: &[&str]) -> usize
    requires room { Fits (S.buffer output.old) (length (joined texts.now)) }
    ensures writes { Puts (S.buffer output.old) (S.buffer output.new) result (joined texts.now) }
{
    let _room = output.room();
    let mut sum = 0;
    for text in texts {
        sum += write(output, text);
    }
    sum
}

/// Appends the text if it is wanted, and returns the number of bytes appended.
pub fn write_if<S: Sink>(output: &mut S, is_wanted: bool, text: &str) -> usize
    requires room { Fits (S.buffer output.old) (length (if is_wanted then text.now else [])) }
    ensures writes { Puts (S.buffer output.old) (S.buffer output.new) result
        (if is_wanted then text.now else []) }
{
    if is_wanted { write(output, text) } else { 0 }
}

/// Appends the first text if it is wanted, else the other, and returns the number of bytes
/// appended.
pub fn write_if_else<S: Sink>(output: &mut S, is_wanted: bool, text: &str, other: &str) -> usize
    requires room { Fits (S.buffer output.old)
        (length (if is_wanted then text.now else other.now)) }
    ensures writes { Puts (S.buffer output.old) (S.buffer output.new) result
        (if is_wanted then text.now else other.now) }
{
    write(output, if is_wanted { text } else { other })
}
