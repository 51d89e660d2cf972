//! Formats that write into the buffer and allocate nothing.
ghost use Rattle.std.specs.Prelude.{Result};
ghost use Rattle.movaliren_c.specs.Answer.{IsText};
ghost use Rattle.movaliren_c.specs.declared.answers.reason.Reason.{Reason};
ghost use Rattle.time_fmt.specs.Outcome.{Outcome};

use crate::answers::reason::Reason;

/// A format, and what it formats.
pub trait Writer {
    /// What is passed for one text.
    type Item;

    /// What the item gives: the outcome of its value, or the reason why there is none.
    ghost asked: { Self → Self.Item → Result Outcome Reason };

    /// Writes the text of the item to the start of the buffer.
    fn write(&self, item: &Self::Item, room: &mut [u8]) -> Result<usize, Reason>
        ensures { IsText (asked self.now item.now) result room.old room.new };
}
