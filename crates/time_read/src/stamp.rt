//! Stamps, which are texts of 30 bytes that sort as their moments.
ghost use Rattle.std.specs.Prelude.{◌≡◌, ◌≢◌, ◌≤◌, ℕ, List, IfErr, IfNone, IfOk, IfSome, length};
ghost use Rattle.time_below.specs.Moment.{DateAndTime};
ghost use Rattle.time_fmt.specs.Outcome.{done};
ghost use Rattle.time_known.specs.Stamps.{HasStamp, stamp_of};
ghost use Rattle.time_read.specs.Stamp.{IsStamp};

use crate::fault::{Expected, NotRead, Unexpected};
use crate::places::{SECONDS, place_of_fault};
use crate::rfc3339;
use crate::written::difference_from;
use std::default::Default;
use time_below::UtcDateTime;
use time_known::fields::accepted_fields;
use time_known::iso8601::StampText;
use time_known::sink::Text;
use time_provide::DateState;

// The stamp of a value, if it has one.
fn stamp_of(value: &UtcDateTime) -> Option<StampText>
    ensures text { IfSome result (λ t. stamp_of value.now ≡ done (⟦<StampText as Text>⟧.text t)) }
    ensures has { IfSome result (λ _. HasStamp value.now) }
    ensures none { IfNone result ((text : List ℕ) → stamp_of value.now ≢ done text) }
{
    match accepted_fields(0, 25, value, &mut DateState::default()) {
        Ok(fields) => Some(StampText { fields }),
        Err(_) => None,
    }
}

/// Returns the date and time in UTC whose stamp a text is, as `stamp_into` of `time_known` writes
/// it: nine decimals and `Z`. Any other text is refused.
///
/// A text is read by RFC 3339, and what it means is written as a stamp and compared.
pub fn read(text: &[u8]) -> Result<UtcDateTime, NotRead>
    ensures read { IfOk result (λ v. IsStamp v text.now) }
    ensures refused { IfErr result (λ _. (v : DateAndTime) → ¬ IsStamp v text.now) }
    ensures within { IfErr result (λ e. e.at ≤ length text.now) }
{
    let value = match rfc3339::read(text) {
        Ok(value) => UtcDateTime::new(value.date(), value.time()),
        Err(fault) => return Err(fault),
    };
    let Some(own) = stamp_of(&value) else {
        let fault = Unexpected {
            left: text.len(),
            expected: Expected::Digit(0, 9),
        };
        return Err(place_of_fault(text, fault, SECONDS));
    };
    match difference_from(&own, text) {
        None => Ok(value),
        Some(fault) => Err(place_of_fault(text, fault, SECONDS)),
    }
}
