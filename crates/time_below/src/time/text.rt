//! The text of a time.
ghost use Rattle.std.specs.Prelude.{Some};
ghost use Rattle.time_below.specs.TimeText.{time_text};

use crate::text::{Decimals, TwoDigits, pad};
use crate::time::Time;
use std::fmt;
use std::fmt::{Debug, Display};

/// The hour without a zero before it, two digits of the minute and of the second, and the decimals
/// up to the last that is not zero, but at least one: `9:55:06.12`, `0:00:00.0`.
impl Display for Time {
    ghost output = { λ t. Some (time_text t) };

    fn fmt<W: fmt::Write>(&self, f: &mut fmt::Formatter<W>) -> fmt::Result {
        let hour = self.hour;
        let minute = TwoDigits(self.minute);
        let second = TwoDigits(self.second);
        let decimals = Decimals(self.nanosecond);
        pad(f, format_args!("{hour}:{minute}:{second}.{decimals}"))
    }
}

/// The same text as `Display`.
impl Debug for Time {
    ghost debug_output = { λ t. Some (time_text t) };

    fn fmt<W: fmt::Write>(&self, f: &mut fmt::Formatter<W>) -> fmt::Result {
        Display::fmt(self, f)
    }
}
