//! Texts that are written without an allocation, and read without one where they stand in the
//! input.
ghost use Rattle.std.specs.Prelude.{◌≤◌, IfOk, IsUtf8, OnOk};
ghost use Rattle.std.specs.Cow.{cow_str_bytes};
ghost use Rattle.serde.specs.Event.{Logs, text as text_event};
ghost use Rattle.time_serde.specs.Events.{IsGiven};

use serde::{Deserializer, Format, Serializer};
use std::alloc::Global;
use std::borrow::CowStr;
use time_known::sink::{Text, put_at_start};

/// Writes a text of at most 35 bytes.
pub(crate) fn write_text<T: Text, S: Serializer>(text: &T, out: &mut S) -> Result<(), S::Error>
    requires width { T.width text.now ≤ 35 }
    requires utf8 { IsUtf8 (T.text text.now) }
    ensures { OnOk result (Logs (S.written out.old) (S.written out.new)
        (text_event (T.text text.now))) }
{
    let mut room = [0u8; 35];
    let count = put_at_start(text, &mut room);
    match std::str::from_utf8(&room[..count]) {
        Ok(text) => out.str(text),
        Err(_) => unreachable!(),
    }
}

/// Reads a text, which is copied only where it does not stand in the input as it reads, as with an
/// escape.
pub(crate) fn read_text<'de, F: Format>(
    alloc: Global,
    from: &mut Deserializer<'de, '_, F>,
) -> Result<CowStr<'de>, F::Error>
    ensures { IfOk result (λ text. IsGiven F.gives (cow_str_bytes text)) }
{
    let mark = from.mark();
    match from.borrowed_str() {
        Ok(text) => {
            from.release(mark);
            return Ok(CowStr::Borrowed(text));
        }
        Err(error) => {
            if from.is_fatal(&error) {
                return Err(error);
            }
        }
    }
    from.rewind(mark);
    from.release(mark);
    Ok(CowStr::Owned(from.string(alloc)?))
}
