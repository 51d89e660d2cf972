//! The text of a date and time in UTC.
ghost use Rattle.std.specs.Prelude.{Some};
ghost use Rattle.time_below.specs.DateTimeText.{utc_text};

use super::UtcDateTime;
use crate::text::pad;
use std::fmt;
use std::fmt::{Debug, Display};

/// The date, the time and the offset of UTC: `2026-11-22 9:55:06.12 +00`.
impl Display for UtcDateTime {
    ghost output = { λ t. Some (utc_text t) };

    fn fmt<W: fmt::Write>(&self, f: &mut fmt::Formatter<W>) -> fmt::Result {
        let date = self.date;
        let time = self.time;
        pad(f, format_args!("{date} {time} +00"))
    }
}

/// The same text as `Display`.
impl Debug for UtcDateTime {
    ghost debug_output = { λ t. Some (utc_text t) };

    fn fmt<W: fmt::Write>(&self, f: &mut fmt::Formatter<W>) -> fmt::Result {
        Display::fmt(self, f)
    }
}
