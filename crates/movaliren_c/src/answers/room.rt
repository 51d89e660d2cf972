//! Texts at the start of the buffer.
ghost use Rattle.std.specs.Prelude.{◌≡◌, ◌≤◌, ◌+◌, ◌++◌, IfOk, drop, length};
ghost use Rattle.movaliren_c.specs.Answer.{IsWritten};
ghost use Rattle.time_fmt.specs.Outcome.{done};

use crate::answers::reason::Reason;
use time_fmt::write_over;

/// Copies the text to the start of the buffer, if it fits.
#[inline(always)]
pub fn copy_text(text: &[u8], room: &mut [u8]) -> Result<usize, Reason>
    ensures written { IsWritten result (done text.now) room.old room.new }
    ensures fits { IfOk result (λ count. count ≤ length room.old) }
{
    let count = text.len();
    if count > room.len() {
        return Err(Reason::BufferTooSmall);
    }
    copy_over(text, room);
    Ok(count)
}

/// Copies the text to the start of a buffer that has room for it. A text of eight to thirty-two
/// bytes, as most have, needs no call.
#[inline(always)]
pub fn copy_over(text: &[u8], room: &mut [u8])
    requires { length text.now ≤ length room.old }
    ensures { room.new ≡ text.now ++ drop (length text.now) room.old }
{
    match text.len() {
        16..=32 => copy_ends(text, 16, room),
        8..=15 => copy_ends(text, 8, room),
        count => room[..count].copy_from_slice(text),
    }
}

/// Copies the first bytes of a text and the last ones to the start of a buffer, so many of each.
/// They may overlap, and are all of the text.
#[tactic(auto, using(crate::proofs::RoomLemmas::ends_copied))]
fn copy_ends(text: &[u8], count: usize, room: &mut [u8])
    requires least { count ≤ length text.now }
    requires all { length text.now ≤ count + count }
    requires room { length text.now ≤ length room.old }
    ensures { room.new ≡ text.now ++ drop (length text.now) room.old }
{
    let rest = text.len() - count;
    write_over(room, 0, &text[..count]);
    write_over(room, rest, &text[rest..]);
}
