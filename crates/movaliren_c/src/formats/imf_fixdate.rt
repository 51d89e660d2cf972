//! The date of HTTP, RFC 9110, section 5.6.7.
ghost use Rattle.movaliren_c.specs.Answer.{IsAnswer, gives};
ghost use Rattle.movaliren_c.specs.Utc.{utc_value};
ghost use Rattle.movaliren_c.specs.Value.{moment_value};
ghost use Rattle.time_known.specs.ImfFixdate.{imf_fixdate_of};

use crate::answers::reason::{Reason, answer_number};
use crate::answers::writer::Writer;
use crate::formats::moment_text::{MomentFormat, answer_at, texts_of};
use crate::values::moment::Moment;
use crate::values::source::{ByParts, InUtc};
use std::default::Default;
use time_below::OffsetDateTime;
use time_known::imf_fixdate::ImfFixdateText;
use time_provide::DateState;

/// The date of HTTP.
#[derive(Clone, Copy)]
pub struct ImfFixdate;

impl MomentFormat for ImfFixdate {
    type Text = ImfFixdateText;

    ghost WIDTH = { 29 };

    const WIDTH: usize = 29;

    ghost outcome = { λ _. imf_fixdate_of };

    fn text(self, value: &OffsetDateTime) -> Result<ImfFixdateText, Reason> {
        let text = ImfFixdateText::accepted(value, &mut DateState::default())?;
        Ok(text)
    }
}

/// The date of HTTP of a moment whose offset is zero.
#[unsafe(no_mangle)]
pub extern "C" fn movaliren_imf_fixdate(moment: &Moment, buffer: &mut [u8]) -> isize
    ensures { IsAnswer (gives (moment_value moment.now) imf_fixdate_of)
        result buffer.old buffer.new }
{
    answer_number(texts_of(ImfFixdate, ByParts).write(moment, buffer))
}

/// The date of HTTP of a moment in UTC.
#[unsafe(no_mangle)]
pub extern "C" fn movaliren_imf_fixdate_utc(
    seconds: i64,
    nanosecond: u32,
    buffer: &mut [u8],
) -> isize
    ensures { IsAnswer (gives (utc_value seconds nanosecond) imf_fixdate_of)
        result buffer.old buffer.new }
{
    answer_at(&texts_of(ImfFixdate, InUtc), seconds, nanosecond, buffer)
}
