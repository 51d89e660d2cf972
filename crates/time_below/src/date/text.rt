//! The text of a date (ISO 8601-1:2019, 5.2.2), as `2026-11-22`.
ghost use Rattle.std.specs.Prelude.{◌≡◌, IfOk, Some};
ghost use Rattle.std.specs.Fmt.{padded};
ghost use Rattle.std.specs.Fmt.InlineText.{inline_text};
ghost use Rattle.time_below.specs.DateText.{date_text, year_sign};

use super::Date;
use std::fmt;
use std::fmt::{InlineText, Write};

impl Date {
    // The sign of a year before 0, or of one of more than four digits.
    fn year_sign(self) -> &'static str
        ensures { result.now ≡ year_sign self.year }
    {
        if self.year < 0 {
            "-"
        } else if self.year > 9999 {
            "+"
        } else {
            ""
        }
    }

    // The text, which has at most 13 bytes.
    fn text(self) -> Result<InlineText<13>, fmt::Error>
        ensures { IfOk result (λ text. inline_text text ≡ date_text self) }
    {
        let (year, month, day) = self.to_calendar_date();
        let sign = self.year_sign();
        let size = year.unsigned_abs();
        let month = u8::from(month);
        let mut text = InlineText::new();
        write!(text, "{sign}{size:04}-{month:02}-{day:02}")?;
        Ok(text)
    }
}

/// Writes the year, the month and the day, as `2026-11-22`, by the width of the formatter, as a
/// text. The year has at least four digits, and a sign before 0 and after 9999.
impl fmt::Display for Date {
    ghost output = { λ date. Some (date_text date) };

    ghost styled_output = { λ date options. Some (padded options (date_text date)) };

    fn fmt<W: fmt::Write>(&self, f: &mut fmt::Formatter<W>) -> fmt::Result {
        f.pad(self.text()?.as_str())
    }
}

/// Writes the same as `Display`.
impl fmt::Debug for Date {
    ghost debug_output = { λ date. Some (date_text date) };

    fn fmt<W: fmt::Write>(&self, f: &mut fmt::Formatter<W>) -> fmt::Result {
        fmt::Display::fmt(self, f)
    }
}
