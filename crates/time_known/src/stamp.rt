//! Stamps: texts of moments whose bytes are in the order of the moments.
ghost use Rattle.std.specs.Prelude.{◌≡◌, ◌≢◌, ◌↔◌, ◌++◌, ◌+◌, codes, IsOk, IfOk, IfErr, OnErr};
ghost use Rattle.std.specs.Prelude.{vec_len, vec_capacity};
ghost use Rattle.time_fmt.specs.Outcome.{Names, invalid_component, is_out_of_memory};
ghost use Rattle.time_fmt.specs.Room.{HasRoom, Reserves};
ghost use Rattle.time_known.specs.Stamps.{HasStamp, IsStampYear, stamp_length, stamp_text};
ghost use Rattle.time_known.specs.Stamps.{stamp_width};

use crate::Iso8601;
use std::default::Default;
use time_below::UtcDateTime;
use time_fmt::{Format, Formattable};
use time_provide::DateState;

/// Appends the stamp of a date and time in UTC, and returns 30, the number of its bytes.
///
/// A stamp is the text by the default configuration of ISO 8601. The bytes of two stamps compare as
/// their moments do. Reserves once if the spare capacity is below the 35 bytes of that format's
/// maximum length.
///
/// # Errors
///
/// A year outside 0 to 9,999 is refused as the component `year`. If the reservation fails, the
/// error is `OutOfMemory`. The output is unchanged by both.
///
/// # Examples
///
/// ```text
/// stamp_into(&mut line, &utc_datetime!(1997-11-12 15:55:06))?; // 1997-11-12T15:55:06.000000000Z
/// ```
pub fn stamp_into(output: &mut Vec<u8>, value: &UtcDateTime) -> Result<usize, Format>
    ensures appended { IfOk result
        (λ _. output.new.items ≡ output.old.items ++ stamp_text value.now) }
    ensures length { IfOk result (λ count. count ≡ stamp_length) }
    ensures longer { IfOk result (λ _. vec_len output.new ≡ vec_len output.old + stamp_length) }
    ensures is_stamp { IfOk result (λ _. HasStamp value.now) }

    // Other years are refused by their name, and nothing else is. No byte comes before a refusal.
    ensures year { result ≢ Err Format.OutOfMemory
        → IsOk result ↔ IsStampYear value.now.date.year }
    ensures named { IfErr result (λ e. e ≢ Format.OutOfMemory
        → Names e (invalid_component (codes "year"))) }
    ensures unchanged { OnErr result (output.new.items ≡ output.old.items) }

    // `OutOfMemory` is never returned if the maximum length fits.
    ensures reserves { Reserves output.old stamp_width (vec_capacity output.new)
        (is_out_of_memory result) }
    ensures room { HasRoom output.old stamp_width → result ≢ Err Format.OutOfMemory }
{
    Iso8601::default().format_into(output, value, &mut DateState::default())
}
