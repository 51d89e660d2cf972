//! The English names of weekdays.
ghost use Rattle.std.specs.Prelude.{◌≡◌, Some};
ghost use Rattle.std.specs.Fmt.{padded};
ghost use Rattle.time_below.specs.Names.{weekday_name};
ghost use Rattle.time_below.specs.Weekday.{days_from_monday};

use super::Weekday;
use crate::invalid_variant::InvalidVariant;
use crate::names::padded_weekday_name;
use std::fmt;
use std::str::FromStr;

impl Weekday {
    // The name.
    fn name(self) -> &'static str
        ensures { result.now ≡ weekday_name (days_from_monday self) }
    {
        let (name, len) = padded_weekday_name(self);
        &name[..len]
    }
}

/// Writes the name, by the width of the formatter, as a text.
impl fmt::Display for Weekday {
    ghost output = { λ weekday. Some (weekday_name (days_from_monday weekday)) };

    ghost styled_output = { λ weekday options.
        Some (padded options (weekday_name (days_from_monday weekday))) };

    fn fmt<W: fmt::Write>(&self, f: &mut fmt::Formatter<W>) -> fmt::Result {
        f.pad(self.name())
    }
}

/// Reads the name, with its capital letter. Refuses any other text.
impl FromStr for Weekday {
    type Err = InvalidVariant;

    ghost use Rattle.time_below.specs.Names.{IsNamed};

    ghost from_str_gives = { IsNamed (λ weekday. weekday_name (days_from_monday weekday)) };

    #[tactic(auto, using(crate::proofs::NameLemmas::numbers_of_names))]
    fn from_str(text: &str) -> Result<Weekday, InvalidVariant> {
        for days in 0..7 {
            let weekday = Weekday::from_monday(days);
            if weekday.name() == text {
                return Ok(weekday);
            }
        }
        Err(InvalidVariant)
    }
}
