//! The text of a date and time.
ghost use Rattle.std.specs.Prelude.{Some};
ghost use Rattle.time_below.specs.DateTimeText.{plain_text};

use super::PlainDateTime;
use crate::text::pad;
use std::fmt;
use std::fmt::{Debug, Display};

/// The date, a space and the time: `2026-11-22 9:55:06.12`.
impl Display for PlainDateTime {
    ghost output = { λ t. Some (plain_text t) };

    fn fmt<W: fmt::Write>(&self, f: &mut fmt::Formatter<W>) -> fmt::Result {
        let date = self.date;
        let time = self.time;
        pad(f, format_args!("{date} {time}"))
    }
}

/// The same text as `Display`.
impl Debug for PlainDateTime {
    ghost debug_output = { λ t. Some (plain_text t) };

    fn fmt<W: fmt::Write>(&self, f: &mut fmt::Formatter<W>) -> fmt::Result {
        Display::fmt(self, f)
    }
}
