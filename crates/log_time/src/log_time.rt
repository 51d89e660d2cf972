//! Times at one offset, with as many decimals in each text.
ghost use Rattle.std.specs.Prelude.{◌≡◌, ◌≤◌, IfErr, IfOk, IsAscii, IsSomeAnd};
ghost use Rattle.time_below.specs.Moment.{local_at};
ghost use Rattle.time_below.specs.Offset.{utc};
ghost use Rattle.time_digits.specs.Shown.{shown};
ghost use Rattle.time_fmt.specs.Outcome.{Names, done};
ghost use Rattle.time_known.specs.declared.iso8601.config.DecimalSign.TheVariants.{Point};
ghost use Rattle.log_time.specs.LogText.{digits_of, log_outcome};

use std::default::Default;
use time_below::{Timestamp, UtcOffset};
use time_digits::{StackStr, ru8};
use time_fmt::{Format, Refused};
use time_known::fields::accepted_fields;
use time_known::iso8601::{DecimalSign, SeparatedText, Usual};
use time_known::sink::{Text, put_at_start};
use time_provide::DateState;

/// The most bytes of a text.
const LONGEST: usize = 35;

/// How many decimals of the second a text has. What a moment has after them is cut off, not
/// rounded.
#[derive(Debug, Clone, Copy, PartialEq, Eq)]
pub enum Decimals {
    /// None, and no point.
    Seconds,
    /// Three.
    Milliseconds,
    /// Six.
    Microseconds,
    /// Nine.
    Nanoseconds,
}

impl Decimals {
    /// Returns the choices of ISO 8601 for these decimals.
    fn usual(self) -> Usual
        ensures digits { result.decimal_digits ≡ digits_of self }
        ensures sign { result.decimal_sign ≡ Point }
    {
        let decimal_digits = match self {
            Decimals::Seconds => None,
            Decimals::Milliseconds => ru8::new(3),
            Decimals::Microseconds => ru8::new(6),
            Decimals::Nanoseconds => ru8::new(9),
        };
        Usual {
            decimal_digits,
            decimal_sign: DecimalSign::Point,
        }
    }
}

/// The times of the lines of one log, at one offset from UTC and with as many decimals in each:
/// texts of RFC 3339, section 5.6, such as `1985-04-12T23:20:50.520Z`, which are texts of ISO 8601
/// too.
#[derive(Debug, Clone, Copy)]
pub struct LogTime {
    /// The offset of each text.
    pub offset: UtcOffset,
    /// The decimals of each text.
    pub decimals: Decimals,
}

impl LogTime {
    /// Returns times in UTC.
    pub fn utc(decimals: Decimals) -> LogTime
        ensures offset { result.offset ≡ utc }
        ensures decimals { result.decimals ≡ decimals }
    {
        LogTime {
            offset: UtcOffset::from_valid_hms(0, 0, 0),
            decimals,
        }
    }

    /// Returns the text of a moment. Nothing is allocated.
    ///
    /// # Errors
    ///
    /// Refuses a year outside 0 to 9,999 as the component `year`, then an offset of more than 23
    /// hours as `offset_hour`, and then one with seconds as `offset_second`.
    pub fn text(&self, moment: Timestamp) -> Result<StackStr<LONGEST>, Format>
        ensures text { IfOk result (λ t.
            log_outcome self.now.decimals (local_at moment self.now.offset) ≡ done (shown t)) }
        ensures refused { IfErr result (λ e. IsSomeAnd
            (log_outcome self.now.decimals (local_at moment self.now.offset)).refusal (Names e)) }
    {
        let Some(local) = moment.checked_to_offset(self.offset) else {
            return Err(Format::from(Refused::InvalidYear));
        };
        match accepted_fields(0, 23, &local, &mut DateState::default()) {
            Ok(fields) => Ok(text_of(SeparatedText {
                usual: self.decimals.usual(),
                fields,
            })),
            Err(reason) => Err(Format::from(reason)),
        }
    }
}

/// Returns the text of fields of which nothing is refused.
fn text_of(text: SeparatedText) -> StackStr<LONGEST>
    requires width { ⟦<SeparatedText as Text>⟧.width text ≤ LONGEST }
    requires ascii { IsAscii (⟦<SeparatedText as Text>⟧.text text) }
    ensures { shown result ≡ ⟦<SeparatedText as Text>⟧.text text }
{
    let mut bytes = [0u8; LONGEST];
    let len = put_at_start(&text, &mut bytes);
    StackStr::new(bytes, len)
}
