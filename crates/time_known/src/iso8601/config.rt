//! The choices of ISO 8601-1:2019 that a text is written by.
ghost use Rattle.std.specs.Prelude.{◌≡◌, ◌↔◌, IfSome, IsTrue};
ghost use Rattle.time_known.specs.Changes.{with_choice, the_components, the_separators, the_year};
ghost use Rattle.time_known.specs.Changes.{the_date, the_time, the_offset, the_sign};
ghost use Rattle.time_known.specs.Config.{default_choices, separator, decimal_sign_text};
ghost use Rattle.time_known.specs.Config.{has_time_letter, has_date, has_time, has_offset};
ghost use Rattle.time_known.specs.Config.{groups_of};
ghost use Rattle.time_known.specs.UsualText.{choices_of, usual_of};

use crate::groups::Groups;
use std::default::Default;
use std::marker::Model;
use time_digits::ru8;

/// The parts of a text.
#[derive(Debug, Clone, Copy, PartialEq, Eq)]
pub enum FormattedComponents {
    /// No part, which formats nothing.
    None,
    Date,
    Time,
    Offset,
    DateTime,
    DateTimeOffset,
    TimeOffset,
}

/// The kind of the date in a text.
#[derive(Debug, Clone, Copy, PartialEq, Eq)]
pub enum DateKind {
    /// The year, the month and the day (section 5.2.2).
    Calendar,
    /// The year of the week calendar, its week and the weekday (section 5.2.4).
    Week,
    /// The year and the day of the year (section 5.2.3).
    Ordinal,
}

/// The smallest whole unit of a time, and how many decimals of it follow (section 5.3.1).
#[derive(Debug, Clone, Copy, PartialEq, Eq)]
pub enum TimePrecision {
    Hour { decimal_digits: Option<ru8<1, 255>> },
    Minute { decimal_digits: Option<ru8<1, 255>> },
    Second { decimal_digits: Option<ru8<1, 255>> },
}

/// The sign before the decimals of a time (section 5.3.1).
#[derive(Debug, Clone, Copy, PartialEq, Eq)]
pub enum DecimalSign {
    /// The point, `.`.
    Point,
    /// The comma, `,`.
    Comma,
}

/// The smallest unit of an offset (section 5.3.4).
#[derive(Debug, Clone, Copy, PartialEq, Eq)]
pub enum OffsetPrecision {
    Hour,
    Minute,
}

/// The configuration of a text.
#[derive(Debug, Clone, Copy, PartialEq, Eq)]
pub struct Config {
    formatted_components: FormattedComponents,
    use_separators: bool,
    year_is_six_digits: bool,
    date_kind: DateKind,
    time_precision: TimePrecision,
    offset_precision: OffsetPrecision,
    decimal_sign: DecimalSign,
}

/// What is left to choose for a text with separators of the date by month and day after four digits
/// of the year, the time to the second or to decimals of it, and the offset to the minute.
#[derive(Clone, Copy)]
pub struct Usual {
    /// How many decimals of the second are written, if any.
    pub decimal_digits: Option<ru8<1, 255>>,
    /// The sign before them.
    pub decimal_sign: DecimalSign,
}

impl Model for Config {
    ghost use Rattle.time_known.specs.Config.{Choices};

    ghost Value = { Choices };

    ghost view = { λ c. record {
      formatted_components = c.formatted_components;
      use_separators = c.use_separators;
      year_is_six_digits = c.year_is_six_digits;
      date_kind = c.date_kind;
      time_precision = c.time_precision;
      offset_precision = c.offset_precision;
      decimal_sign = c.decimal_sign;
    } };

    ghost inverse = { λ c. record {
      formatted_components = c.formatted_components;
      use_separators = c.use_separators;
      year_is_six_digits = c.year_is_six_digits;
      date_kind = c.date_kind;
      time_precision = c.time_precision;
      offset_precision = c.offset_precision;
      decimal_sign = c.decimal_sign;
    } };
}

impl Default for Config {
    ghost is_default = { λ c. c ≡ default_choices };

    /// Returns the default configuration: date, time and offset with separators, the calendar date
    /// with four digits of the year, nine decimals of the second after a point, and the minutes of
    /// the offset.
    fn default() -> Self {
        Config {
            formatted_components: FormattedComponents::DateTimeOffset,
            use_separators: true,
            year_is_six_digits: false,
            date_kind: DateKind::Calendar,
            time_precision: TimePrecision::Second {
                decimal_digits: ru8::new(9),
            },
            offset_precision: OffsetPrecision::Minute,
            decimal_sign: DecimalSign::Point,
        }
    }
}

impl Config {
    /// Returns this configuration with these parts of a text.
    pub fn set_formatted_components(self, formatted_components: FormattedComponents) -> Self
        ensures { result ≡ with_choice the_components formatted_components self }
    {
        Config {
            formatted_components,
            ..self
        }
    }

    /// Returns this configuration with or without separators.
    pub fn set_use_separators(self, use_separators: bool) -> Self
        ensures { result ≡ with_choice the_separators use_separators self }
    {
        Config {
            use_separators,
            ..self
        }
    }

    /// Returns this configuration with six digits of the year and its sign, or with four digits.
    pub fn set_year_is_six_digits(self, year_is_six_digits: bool) -> Self
        ensures { result ≡ with_choice the_year year_is_six_digits self }
    {
        Config {
            year_is_six_digits,
            ..self
        }
    }

    /// Returns this configuration with this kind of date.
    pub fn set_date_kind(self, date_kind: DateKind) -> Self
        ensures { result ≡ with_choice the_date date_kind self }
    {
        Config { date_kind, ..self }
    }

    /// Returns this configuration with this precision of the time.
    pub fn set_time_precision(self, time_precision: TimePrecision) -> Self
        ensures { result ≡ with_choice the_time time_precision self }
    {
        Config {
            time_precision,
            ..self
        }
    }

    /// Returns this configuration with this precision of the offset.
    pub fn set_offset_precision(self, offset_precision: OffsetPrecision) -> Self
        ensures { result ≡ with_choice the_offset offset_precision self }
    {
        Config {
            offset_precision,
            ..self
        }
    }

    /// Returns this configuration with this sign before the decimals of the time.
    ///
    /// It has no effect on a text without decimals.
    pub fn set_decimal_sign(self, decimal_sign: DecimalSign) -> Self
        ensures { result ≡ with_choice the_sign decimal_sign self }
    {
        Config {
            decimal_sign,
            ..self
        }
    }

    /// Returns the parts that are written.
    pub fn formatted_components(&self) -> FormattedComponents
        ensures { result ≡ self.now.formatted_components }
    {
        self.formatted_components
    }

    /// Returns whether there are separators.
    pub fn use_separators(&self) -> bool
        ensures { result ≡ self.now.use_separators }
    {
        self.use_separators
    }

    /// Returns whether the year has six digits and its sign, and not four digits.
    pub fn year_is_six_digits(&self) -> bool
        ensures { result ≡ self.now.year_is_six_digits }
    {
        self.year_is_six_digits
    }

    /// Returns the kind of date.
    pub fn date_kind(&self) -> DateKind
        ensures { result ≡ self.now.date_kind }
    {
        self.date_kind
    }

    /// Returns the precision of the time.
    pub fn time_precision(&self) -> TimePrecision
        ensures { result ≡ self.now.time_precision }
    {
        self.time_precision
    }

    /// Returns the precision of the offset.
    pub fn offset_precision(&self) -> OffsetPrecision
        ensures { result ≡ self.now.offset_precision }
    {
        self.offset_precision
    }

    /// Returns the sign before the decimals of the time.
    pub fn decimal_sign(&self) -> DecimalSign
        ensures { result ≡ self.now.decimal_sign }
    {
        self.decimal_sign
    }

    // The separator, where the configuration has them.
    pub(super) fn separator(&self, text: &'static str) -> &'static str
        ensures { result.now ≡ separator self.now text.now }
    {
        if self.use_separators { text } else { "" }
    }

    // Whether the letter T precedes the time.
    pub(super) fn has_time_letter(&self) -> bool
        ensures { result ≡ has_time_letter self.now }
    {
        !self.use_separators || self.has_date()
    }

    // What is left to choose of a text with separators, where the other choices are the default.
    pub(super) fn usual(&self) -> Option<Usual>
        ensures usual { result ≡ usual_of self.now }
        ensures fits { IfSome result (λ u. self.now ≡ choices_of u) }
    {
        let parts = (self.formatted_components, self.date_kind);
        match (parts, self.time_precision, self.offset_precision) {
            (
                (FormattedComponents::DateTimeOffset, DateKind::Calendar),
                TimePrecision::Second { decimal_digits },
                OffsetPrecision::Minute,
            ) if self.use_separators && !self.year_is_six_digits => Some(Usual {
                decimal_digits,
                decimal_sign: self.decimal_sign,
            }),
            _ => None,
        }
    }

    /// Returns whether the configuration has no part.
    pub fn formats_nothing(&self) -> bool
        ensures { IsTrue result ↔ self.now.formatted_components ≡ FormattedComponents.None }
    {
        matches!(self.formatted_components, FormattedComponents::None)
    }

    // The groups of a value that are formatted.
    pub(super) fn groups(&self) -> Groups
        ensures { result ≡ groups_of self.now.formatted_components }
    {
        Groups {
            date: self.has_date(),
            time: self.has_time(),
            offset: self.has_offset(),
        }
    }

    /// Returns whether the date is formatted.
    pub fn has_date(&self) -> bool
        ensures { result ≡ has_date self.now.formatted_components }
    {
        matches!(
            self.formatted_components,
            FormattedComponents::Date
                | FormattedComponents::DateTime
                | FormattedComponents::DateTimeOffset
        )
    }

    /// Returns whether the offset is formatted.
    pub fn has_offset(&self) -> bool
        ensures { result ≡ has_offset self.now.formatted_components }
    {
        matches!(
            self.formatted_components,
            FormattedComponents::Offset
                | FormattedComponents::DateTimeOffset
                | FormattedComponents::TimeOffset
        )
    }

    /// Returns whether the time is formatted.
    pub fn has_time(&self) -> bool
        ensures { result ≡ has_time self.now.formatted_components }
    {
        matches!(
            self.formatted_components,
            FormattedComponents::Time
                | FormattedComponents::DateTime
                | FormattedComponents::DateTimeOffset
                | FormattedComponents::TimeOffset
        )
    }
}

impl DecimalSign {
    pub(super) fn text(self) -> &'static str
        ensures { result.now ≡ decimal_sign_text self }
    {
        match self {
            DecimalSign::Point => ".",
            DecimalSign::Comma => ",",
        }
    }
}
