//! Formats of moments, whose texts are written without an allocation.
ghost use Rattle.std.specs.Prelude.{◌≡◌, ◌≤◌, ℕ, IfOk, IfErr, length};
ghost use Rattle.movaliren_c.specs.Answer.{IsAnswer, IsRefusedFor, IsText, IsWritten, gives};
ghost use Rattle.time_below.specs.Moment.{OffsetDateAndTime};
ghost use Rattle.time_fmt.specs.Outcome.{Outcome, done};

use crate::answers::reason::{Reason, answer_number};
use crate::answers::room::copy_text;
use crate::answers::writer::Writer;
use crate::values::moment::UtcMoment;
use crate::values::source::Source;
use time_below::OffsetDateTime;
use time_known::sink::{Text, put_at_start};

/// A format of moments, whose texts have at most 35 bytes.
pub trait MomentFormat: Copy {
    /// A text, of a value of which nothing is refused.
    type Text: Text + Copy;

    ghost WIDTH: { ℕ };

    /// The most bytes of a text.
    const WIDTH: usize;

    /// What the format gives.
    ghost outcome: { Self → OffsetDateAndTime → Outcome };

    /// The text of the value, or the reason why it has none.
    fn text(self, value: &OffsetDateTime) -> Result<Self::Text, Reason>
        ensures text { IfOk result (λ t. outcome self value.now ≡ done (Self.Text.text t)) }
        ensures width { IfOk result (λ t. Self.Text.width t ≤ WIDTH) }
        ensures short { WIDTH ≤ 35 }
        ensures refused { IfErr result (λ r. IsRefusedFor r (outcome self value.now)) };
}

/// The texts of a format, of the moments of a source.
#[derive(Clone, Copy)]
pub struct Texts<F, S> {
    format: F,
    source: S,
}

/// Returns the texts of this format, of the moments of this source.
pub fn texts_of<F: MomentFormat, S: Source>(format: F, source: S) -> Texts<F, S>
    ensures { result ≡ record { format = format; source = source } }
{
    Texts { format, source }
}

impl<F: MomentFormat, S: Source> Writer for Texts<F, S> {
    type Item = S::Item;

    ghost asked = { λ texts item. gives (S.given texts.source item) (F.outcome texts.format) };

    fn write(&self, item: &S::Item, room: &mut [u8]) -> Result<usize, Reason> {
        if room.len() < F::WIDTH {
            return self.copy(item, room);
        }
        match self.source.value(item) {
            Ok(value) => self.put(&value, room),
            Err(reason) => Err(reason),
        }
    }
}

impl<F: MomentFormat, S: Source> Texts<F, S> {
    /// Puts the text of the value at the start of a buffer that holds every text.
    fn put(&self, value: &OffsetDateTime, room: &mut [u8]) -> Result<usize, Reason>
        requires room { F.WIDTH ≤ length room.old }
        ensures { IsWritten result (F.outcome self.now.format value.now) room.old room.new }
    {
        match self.format.text(value) {
            Ok(text) => Ok(put_at_start(&text, room)),
            Err(reason) => Err(reason),
        }
    }

    /// Writes the text of the item to the start of a buffer that may be too small.
    #[cold]
    #[inline(never)]
    fn copy(&self, item: &S::Item, room: &mut [u8]) -> Result<usize, Reason>
        ensures { IsText (gives (S.given self.now.source item.now) (F.outcome self.now.format))
            result room.old room.new }
    {
        let value = self.source.value(item)?;
        let text = self.format.text(&value)?;
        let mut line = [0u8; 35];
        let count = put_at_start(&text, &mut line);
        copy_text(&line[..count], room)
    }
}

/// Answers for a moment by its seconds since 1970 and its nanosecond.
pub fn answer_at<W: Writer<Item = UtcMoment>>(
    writer: &W,
    seconds: i64,
    nanosecond: u32,
    room: &mut [u8],
) -> isize
    ensures { IsAnswer (W.asked writer.now (record { seconds = seconds; nanosecond = nanosecond }))
        result room.old room.new }
{
    let moment = UtcMoment {
        seconds,
        nanosecond,
    };
    answer_number(writer.write(&moment, room))
}
