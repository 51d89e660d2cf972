//! The text of a local date and time.
ghost use Rattle.std.specs.Prelude.{Some};
ghost use Rattle.time_below.specs.DateTimeText.{local_text};

use super::OffsetDateTime;
use crate::text::pad;
use std::fmt;
use std::fmt::{Debug, Display};

/// The date, the time and the offset: `2026-11-22 9:55:06.12 +05:30:00`.
impl Display for OffsetDateTime {
    ghost output = { λ t. Some (local_text t) };

    fn fmt<W: fmt::Write>(&self, f: &mut fmt::Formatter<W>) -> fmt::Result {
        let date = self.date;
        let time = self.time;
        let offset = self.offset;
        pad(f, format_args!("{date} {time} {offset}"))
    }
}

/// The same text as `Display`.
impl Debug for OffsetDateTime {
    ghost debug_output = { λ t. Some (local_text t) };

    fn fmt<W: fmt::Write>(&self, f: &mut fmt::Formatter<W>) -> fmt::Result {
        Display::fmt(self, f)
    }
}
