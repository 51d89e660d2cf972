//! What reads the moments of texts in lines.
ghost use Rattle.std.specs.Prelude.{◌≡◌, ◌≤◌, ℕ, List, Option, IfNone, IfSome, length};
ghost use Rattle.time_below.specs.Moment.{IsMoment, local_moment};
ghost use Rattle.time_lines.specs.Read.{SameReads};
ghost use Rattle.time_lines.specs.declared.front.Front.{Front};

use crate::passed::Why;
use time_below::{OffsetDateTime, Timestamp};

/// A text at the front of another one that was read.
#[derive(Clone, Copy)]
pub struct Front {
    /// How many bytes it has.
    pub count: usize,
    /// How many decimals of a second it has, at most nine.
    pub decimals: usize,
    /// Its moment, unless it has none.
    pub moment: Option<Timestamp>,
    /// Why it has no moment, if it has none.
    pub lacks: Why,
}

/// What reads texts at the front of others.
pub trait Reads {
    /// What may be read at the front of a text.
    ghost reads: { Self → List ℕ → Option Front → Type 0 };

    /// Reads the text at the front of this one, if one is there.
    fn read_front(&mut self, text: &[u8]) -> Option<Front>
        ensures same { SameReads (reads self.old) (reads self.new) }
        ensures front { reads self.old text.now result }
        ensures inside { IfSome result (λ front. front.count ≤ length text.now) };
}

/// The moment of the value, if its year is in range.
pub(crate) fn moment_of_value(value: OffsetDateTime) -> Option<Timestamp>
    ensures some { IfSome result (λ m. (m ≡ local_moment value) × IsMoment m) }
    ensures none { IfNone result (¬ IsMoment (local_moment value)) }
{
    let (_, _, _, nanosecond) = value.time().as_hms_nano();
    match Timestamp::new(value.unix_timestamp(), nanosecond) {
        Ok(moment) => Some(moment),
        Err(_) => None,
    }
}
