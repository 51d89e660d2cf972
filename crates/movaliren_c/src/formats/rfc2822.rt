//! RFC 2822, section 3.3.
ghost use Rattle.movaliren_c.specs.Answer.{IsAnswer, gives};
ghost use Rattle.movaliren_c.specs.Utc.{local_value, utc_value};
ghost use Rattle.movaliren_c.specs.Value.{moment_value};
ghost use Rattle.time_known.specs.Rfc2822.{rfc2822_of};

use crate::answers::reason::{Reason, answer_number};
use crate::answers::writer::Writer;
use crate::formats::moment_text::{MomentFormat, answer_at, texts_of};
use crate::values::moment::Moment;
use crate::values::source::{AtOffset, ByParts, InUtc};
use std::default::Default;
use time_below::OffsetDateTime;
use time_known::fields::accepted_fields;
use time_known::rfc2822::Rfc2822Text;
use time_provide::DateState;

/// The format of RFC 2822.
#[derive(Clone, Copy)]
pub struct Rfc2822;

impl MomentFormat for Rfc2822 {
    type Text = Rfc2822Text;

    ghost WIDTH = { 31 };

    const WIDTH: usize = 31;

    ghost outcome = { λ _. rfc2822_of };

    #[tactic(auto, using(time_known::proofs::AcceptedLemmas::any_hour))]
    fn text(self, value: &OffsetDateTime) -> Result<Rfc2822Text, Reason> {
        match accepted_fields(1900, 25, value, &mut DateState::default()) {
            Ok(fields) => {
                let weekday = value.date().weekday();
                Ok(Rfc2822Text { weekday, fields })
            }
            Err(component) => Err(component.into()),
        }
    }
}

/// The text of RFC 2822.
#[unsafe(no_mangle)]
pub extern "C" fn movaliren_rfc2822(moment: &Moment, buffer: &mut [u8]) -> isize
    ensures { IsAnswer (gives (moment_value moment.now) rfc2822_of) result buffer.old buffer.new }
{
    answer_number(texts_of(Rfc2822, ByParts).write(moment, buffer))
}

/// The text of RFC 2822 of a moment in UTC.
#[unsafe(no_mangle)]
pub extern "C" fn movaliren_rfc2822_utc(seconds: i64, nanosecond: u32, buffer: &mut [u8]) -> isize
    ensures { IsAnswer (gives (utc_value seconds nanosecond) rfc2822_of)
        result buffer.old buffer.new }
{
    answer_at(&texts_of(Rfc2822, InUtc), seconds, nanosecond, buffer)
}

/// The text of RFC 2822 of a moment, at an offset of this many seconds east of UTC.
#[unsafe(no_mangle)]
pub extern "C" fn movaliren_rfc2822_local(
    seconds: i64,
    nanosecond: u32,
    offset: i64,
    buffer: &mut [u8],
) -> isize
    ensures { IsAnswer (gives (local_value seconds nanosecond offset) rfc2822_of)
        result buffer.old buffer.new }
{
    let texts = texts_of(Rfc2822, AtOffset(offset));
    answer_at(&texts, seconds, nanosecond, buffer)
}
