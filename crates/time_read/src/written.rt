//! Texts that are written and compared with those that are read.
ghost use Rattle.std.specs.Prelude.{◌≡◌, ◌≢◌, ◌≤◌, IfNone, IfSome, length};

use crate::fault::{Expected, Mismatch, Unexpected};
use time_known::sink::{Text, put_at_start};

/// The most bytes of a text that is compared here.
const ROOM: usize = 32;

/// The first byte at which a text is another one than its own, if there is one.
pub(crate) fn difference_from<T: Text>(own: &T, text: &[u8]) -> Option<Unexpected>
    requires { T.width own.now ≤ ROOM }
    ensures same { IfNone result (T.text own.now ≡ text.now) }
    ensures other { IfSome result (λ _. T.text own.now ≢ text.now) }
    ensures left { IfSome result (λ fault. fault.left ≤ length text.now) }
{
    let mut room = [0u8; ROOM];
    let count = put_at_start(own, &mut room);
    first_difference(&room[..count], text)
}

/// The first byte at which a text is another one than what was written, if there is one.
#[inline(always)]
pub(crate) fn first_difference(own: &[u8], text: &[u8]) -> Option<Unexpected>
    ensures same { IfNone result (own.now ≡ text.now) }
    ensures other { IfSome result (λ _. own.now ≢ text.now) }
    ensures left { IfSome result (λ fault. fault.left ≤ length text.now) }
{
    if own == text {
        None
    } else {
        Some(fault_between(own, text))
    }
}

/// The fault of a text that no value has.
#[cold]
pub(crate) fn no_value(text: &[u8]) -> Unexpected
    ensures { result.left ≤ length text.now }
{
    Unexpected {
        left: text.len(),
        expected: Expected::Plan(Mismatch::Otherwise),
    }
}

/// The first byte at which a text is another one than this.
#[cold]
#[inline(never)]
pub(crate) fn fault_between(own: &[u8], text: &[u8]) -> Unexpected
    ensures { result.left ≤ length text.now }
{
    let count = same_bytes(own, text);
    let expected = match own.get(count) {
        Some(byte) => Expected::Byte(*byte),
        None => Expected::End,
    };
    Unexpected {
        left: text.len().saturating_sub(count),
        expected,
    }
}

/// How many bytes two texts have in common at the front.
fn same_bytes(own: &[u8], text: &[u8]) -> usize {
    let mut count = 0usize;
    while count < own.len() && count < text.len() && own[count] == text[count] {
        count += 1;
    }
    count
}
