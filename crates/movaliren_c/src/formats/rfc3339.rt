//! RFC 3339, section 5.6.
ghost use Rattle.movaliren_c.specs.Answer.{IsAnswer, gives};
ghost use Rattle.movaliren_c.specs.Utc.{local_value, utc_value};
ghost use Rattle.movaliren_c.specs.Value.{moment_value};
ghost use Rattle.time_known.specs.Rfc3339.{rfc3339_of};

use crate::answers::reason::{Reason, answer_number};
use crate::answers::writer::Writer;
use crate::formats::moment_text::{MomentFormat, answer_at, texts_of};
use crate::values::moment::Moment;
use crate::values::source::{AtOffset, ByParts, InUtc};
use std::default::Default;
use time_below::OffsetDateTime;
use time_known::fields::accepted_fields;
use time_known::rfc3339::Rfc3339Text;
use time_provide::DateState;

/// The format of RFC 3339.
#[derive(Clone, Copy)]
pub struct Rfc3339;

impl MomentFormat for Rfc3339 {
    type Text = Rfc3339Text;

    ghost WIDTH = { 35 };

    const WIDTH: usize = 35;

    ghost outcome = { λ _. rfc3339_of };

    fn text(self, value: &OffsetDateTime) -> Result<Rfc3339Text, Reason> {
        let fields = accepted_fields(0, 23, value, &mut DateState::default())?;
        Ok(Rfc3339Text { fields })
    }
}

/// The text of RFC 3339.
#[unsafe(no_mangle)]
pub extern "C" fn movaliren_rfc3339(moment: &Moment, buffer: &mut [u8]) -> isize
    ensures { IsAnswer (gives (moment_value moment.now) rfc3339_of) result buffer.old buffer.new }
{
    answer_number(texts_of(Rfc3339, ByParts).write(moment, buffer))
}

/// The text of RFC 3339 of a moment in UTC.
#[unsafe(no_mangle)]
pub extern "C" fn movaliren_rfc3339_utc(seconds: i64, nanosecond: u32, buffer: &mut [u8]) -> isize
    ensures { IsAnswer (gives (utc_value seconds nanosecond) rfc3339_of)
        result buffer.old buffer.new }
{
    answer_at(&texts_of(Rfc3339, InUtc), seconds, nanosecond, buffer)
}

/// The text of RFC 3339 of a moment, at an offset of this many seconds east of UTC.
#[unsafe(no_mangle)]
pub extern "C" fn movaliren_rfc3339_local(
    seconds: i64,
    nanosecond: u32,
    offset: i64,
    buffer: &mut [u8],
) -> isize
    ensures { IsAnswer (gives (local_value seconds nanosecond offset) rfc3339_of)
        result buffer.old buffer.new }
{
    let texts = texts_of(Rfc3339, AtOffset(offset));
    answer_at(&texts, seconds, nanosecond, buffer)
}
