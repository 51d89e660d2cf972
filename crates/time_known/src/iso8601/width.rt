//! The most bytes of a text, which its configuration decides.
ghost use Rattle.std.specs.Prelude.{◌≡◌, ◌≤◌};
ghost use Rattle.time_known.specs.Iso8601Width.{iso8601_width, iso_date_width, iso_time_width};
ghost use Rattle.time_known.specs.Iso8601Width.{iso_offset_width, decimal_part_width};
ghost use Rattle.time_known.specs.UsualText.{choices_of};

use crate::iso8601::config::{
    Config, DateKind, FormattedComponents, OffsetPrecision, TimePrecision, Usual,
};
use time_digits::ru8;

impl Config {
    /// Returns the most bytes of a text by this configuration: at most 284.
    pub fn width(&self) -> usize
        ensures width { result ≡ iso8601_width self.now }
        ensures most { result ≤ 284 }
    {
        let date = self.date_width();
        let time = self.time_width();
        let offset = self.offset_width();
        match self.formatted_components() {
            FormattedComponents::None => 0,
            FormattedComponents::Date => date,
            FormattedComponents::Time => time,
            FormattedComponents::Offset => offset,
            FormattedComponents::DateTime => date + time,
            FormattedComponents::DateTimeOffset => date + time + offset,
            FormattedComponents::TimeOffset => time + offset,
        }
    }

    /// Returns the most bytes of the date by this configuration, 7 to 13: the spare capacity that
    /// `format_date` needs.
    ///
    /// It does not depend on whether the configuration formats dates.
    pub fn date_width(&self) -> usize
        ensures width { result ≡ iso_date_width self.now }
        ensures most { result ≤ 13 }
    {
        let year = if self.year_is_six_digits() { 7 } else { 4 };
        let dash = self.separator("-").len();
        let rest = match self.date_kind() {
            DateKind::Calendar | DateKind::Week => 4 + 2 * dash,
            DateKind::Ordinal => 3 + dash,
        };
        year + rest
    }

    /// Returns the most bytes of the time by this configuration, 2 to 265: the spare capacity that
    /// `format_time` needs.
    ///
    /// It does not depend on whether the configuration formats times.
    pub fn time_width(&self) -> usize
        ensures width { result ≡ iso_time_width self.now }
        ensures most { result ≤ 265 }
    {
        let letter = if self.has_time_letter() { 1 } else { 0 };
        let colon = self.separator(":").len();
        let units = match self.time_precision() {
            TimePrecision::Hour { decimal_digits } => 2 + decimals_width(decimal_digits),
            TimePrecision::Minute { decimal_digits } => 4 + colon + decimals_width(decimal_digits),
            TimePrecision::Second { decimal_digits } => 6
                + 2 * colon
                + decimals_width(decimal_digits),
        };
        letter + units
    }

    /// Returns the most bytes of the offset by this configuration, 3 to 6: the spare capacity that
    /// `format_offset` needs.
    ///
    /// It does not depend on whether the configuration formats offsets.
    pub fn offset_width(&self) -> usize
        ensures width { result ≡ iso_offset_width self.now }
        ensures most { result ≤ 6 }
    {
        match self.offset_precision() {
            OffsetPrecision::Hour => 3,
            OffsetPrecision::Minute => 5 + self.separator(":").len(),
        }
    }
}

impl Usual {
    /// Returns the most bytes of a text by these choices: 25 to 281.
    pub fn width(&self) -> usize
        ensures width { result ≡ iso8601_width (choices_of self.now) }
        ensures most { result ≤ 281 }
    {
        25 + decimals_width(self.decimal_digits)
    }
}

// The decimal sign and the decimals, if any are wanted.
fn decimals_width(decimal_digits: Option<ru8<1, 255>>) -> usize
    ensures width { result ≡ decimal_part_width decimal_digits }
    ensures most { result ≤ 256 }
{
    match decimal_digits {
        Some(digits) => 1 + digits.get() as usize,
        None => 0,
    }
}
