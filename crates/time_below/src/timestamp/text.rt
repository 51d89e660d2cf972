//! The text of a moment.
ghost use Rattle.std.specs.Prelude.{Some};
ghost use Rattle.time_below.specs.DateTimeText.{moment_text};

use super::Timestamp;
use crate::utc_date_time::UtcDateTime;
use std::fmt;
use std::fmt::{Debug, Display};

/// The date, the time and the offset of UTC: `2026-11-22 9:55:06.12 +00`.
impl Display for Timestamp {
    ghost output = { λ t. Some (moment_text t) };

    fn fmt<W: fmt::Write>(&self, f: &mut fmt::Formatter<W>) -> fmt::Result {
        Display::fmt(&UtcDateTime::from(*self), f)
    }
}

/// The same text as `Display`.
impl Debug for Timestamp {
    ghost debug_output = { λ t. Some (moment_text t) };

    fn fmt<W: fmt::Write>(&self, f: &mut fmt::Formatter<W>) -> fmt::Result {
        Display::fmt(self, f)
    }
}
