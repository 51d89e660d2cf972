//! The text of an offset.
ghost use Rattle.std.specs.Prelude.{◌≡◌, Some, unsigned_abs};
ghost use Rattle.time_below.specs.OffsetText.{offset_text};

use crate::text::{TwoDigits, pad, sign_of};
use crate::utc_offset::UtcOffset;
use std::fmt;
use std::fmt::{Debug, Display};

// The parts of an offset without their sign.
fn sizes(offset: UtcOffset) -> (u8, u8, u8)
    ensures hours { result.0 ≡ unsigned_abs offset.hours }
    ensures minutes { result.1 ≡ unsigned_abs offset.minutes }
    ensures seconds { result.2 ≡ unsigned_abs offset.seconds }
{
    let UtcOffset {
        hours,
        minutes,
        seconds,
    } = offset;
    (
        hours.unsigned_abs(),
        minutes.unsigned_abs(),
        seconds.unsigned_abs(),
    )
}

/// A sign, and two digits each of the hours, the minutes and the seconds: `+05:30:00`, `-00:00:01`.
impl Display for UtcOffset {
    ghost output = { λ o. Some (offset_text o) };

    fn fmt<W: fmt::Write>(&self, f: &mut fmt::Formatter<W>) -> fmt::Result {
        let sign = sign_of(self.is_negative());
        let (hours, minutes, seconds) = sizes(*self);
        let (hours, minutes, seconds) = (TwoDigits(hours), TwoDigits(minutes), TwoDigits(seconds));
        pad(f, format_args!("{sign}{hours}:{minutes}:{seconds}"))
    }
}

/// The same text as `Display`.
impl Debug for UtcOffset {
    ghost debug_output = { λ o. Some (offset_text o) };

    fn fmt<W: fmt::Write>(&self, f: &mut fmt::Formatter<W>) -> fmt::Result {
        Display::fmt(self, f)
    }
}
