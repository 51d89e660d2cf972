//! Stamps: texts of moments in UTC whose bytes are in the order of the moments.
ghost use Rattle.movaliren_c.specs.Answer.{IsAnswer, gives};
ghost use Rattle.movaliren_c.specs.Utc.{utc_stamp_of, utc_value};
ghost use Rattle.time_known.specs.Stamps.{stamp_length};

use crate::answers::reason::Reason;
use crate::formats::moment_text::{MomentFormat, answer_at, texts_of};
use crate::values::source::InUtc;
use std::default::Default;
use time_below::{OffsetDateTime, UtcDateTime};
use time_known::fields::accepted_fields;
use time_known::iso8601::StampText;
use time_provide::DateState;

/// Stamps of moments in UTC.
#[derive(Clone, Copy)]
struct Stamp;

impl MomentFormat for Stamp {
    type Text = StampText;

    ghost WIDTH = { stamp_length };

    const WIDTH: usize = 30;

    ghost outcome = { λ _. utc_stamp_of };

    fn text(self, value: &OffsetDateTime) -> Result<StampText, Reason> {
        let value = UtcDateTime::new(value.date(), value.time());
        let fields = accepted_fields(0, 25, &value, &mut DateState::default())?;
        Ok(StampText { fields })
    }
}

/// The stamp of a moment.
#[unsafe(no_mangle)]
pub extern "C" fn movaliren_stamp_utc(seconds: i64, nanosecond: u32, buffer: &mut [u8]) -> isize
    ensures { IsAnswer (gives (utc_value seconds nanosecond) utc_stamp_of)
        result buffer.old buffer.new }
{
    answer_at(&texts_of(Stamp, InUtc), seconds, nanosecond, buffer)
}
