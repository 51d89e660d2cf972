//! Moments as texts of RFC 3339.
ghost use Rattle.std.specs.Prelude.{◌≡◌, ◌≤◌, IfErr, IfOk, OnOk};
ghost use Rattle.time_fmt.specs.Ends.{refusal_of};
ghost use Rattle.time_fmt.specs.Outcome.{done, refused};
ghost use Rattle.time_known.specs.Rfc3339.{rfc3339_of};
ghost use Rattle.time_known.specs.Rfc3339Grammar.{Rfc3339Spells};
ghost use Rattle.time_serde.specs.Events.{IsReadFrom, WritesText};
ghost use Rattle.time_serde.specs.Moments.{IsValueAt};

use crate::moments::Moment;
use crate::text::{read_text, write_text};
use crate::words::{out_of_range, unread, unwritten};
use serde::{Deserializer, Format, Serializer};
use std::alloc::Global;
use std::default::Default;
use time_below::OffsetDateTime;
use time_fmt::Refused;
use time_known::fields::accepted_fields;
use time_known::rfc3339::Rfc3339Text;
use time_known::sink::Text;
use time_provide::DateState;
use time_read::rfc3339::read;

pub mod option;

/// The text of the local date and time, or why there is none.
fn text_of(local: &OffsetDateTime) -> Result<Rfc3339Text, Refused>
    ensures text { IfOk result (λ t. rfc3339_of local.now ≡ done (⟦<Rfc3339Text as Text>⟧.text t)) }
    ensures width { IfOk result (λ t. ⟦<Rfc3339Text as Text>⟧.width t ≤ 35) }
    ensures refused { IfErr result (λ reason. rfc3339_of local.now ≡ refused (refusal_of reason)) }
{
    match accepted_fields(0, 23, local, &mut DateState::default()) {
        Ok(fields) => Ok(Rfc3339Text { fields }),
        Err(reason) => Err(reason),
    }
}

/// Writes the moment as a text of RFC 3339, section 5.6, of at most 35 bytes. Only the serializer
/// allocates.
///
/// A year outside 0 to 9,999, an offset of more than 23 hours or one with seconds is an error of
/// the serializer, whose message names the component.
pub fn serialize<T: Moment, S: Serializer>(moment: &T, out: &mut S) -> Result<(), S::Error>
    ensures { OnOk result (WritesText (rfc3339_of (T.local moment.now))
        (S.written out.old) (S.written out.new)) }
{
    match text_of(&moment.to_local()) {
        Ok(text) => write_text(&text, out),
        Err(reason) => Err(out.custom(unwritten(reason).as_str())),
    }
}

/// Reads the moment from a text that spells it by the grammar of RFC 3339, section 5.6, as [`read`]
/// does. A text is copied only where it has an escape.
///
/// Any other text is an error of the format, whose message says at which byte it is invalid and
/// what could have stood there.
pub fn deserialize<'de, T: Moment, F: Format>(
    alloc: Global,
    from: &mut Deserializer<'de, '_, F>,
) -> Result<T, F::Error>
    ensures { IfOk result (λ moment. IsReadFrom F.gives (λ v text. Rfc3339Spells v text
        × IsValueAt T.has_moment T.of_local v moment)) }
{
    let text = read_text(alloc, from)?;
    let local = match read(text.as_str().as_bytes()) {
        Ok(local) => local,
        Err(place) => return Err(from.custom(unread(place).as_str())),
    };
    match T::from_local(local) {
        Some(moment) => Ok(moment),
        None => Err(from.custom(out_of_range().as_str())),
    }
}
