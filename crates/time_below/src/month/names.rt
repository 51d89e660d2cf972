//! The English names of months.
ghost use Rattle.std.specs.Prelude.{◌≡◌, Some};
ghost use Rattle.std.specs.Fmt.{padded};
ghost use Rattle.time_below.specs.Month.{month_number};
ghost use Rattle.time_below.specs.Names.{month_name};

use super::Month;
use crate::invalid_variant::InvalidVariant;
use crate::names::padded_month_name;
use std::fmt;
use std::str::FromStr;

impl Month {
    // The name.
    fn name(self) -> &'static str
        ensures { result.now ≡ month_name (month_number self) }
    {
        let (name, len) = padded_month_name(self);
        &name[..len]
    }
}

/// Writes the name, by the width of the formatter, as a text.
impl fmt::Display for Month {
    ghost output = { λ month. Some (month_name (month_number month)) };

    ghost styled_output = { λ month options.
        Some (padded options (month_name (month_number month))) };

    fn fmt<W: fmt::Write>(&self, f: &mut fmt::Formatter<W>) -> fmt::Result {
        f.pad(self.name())
    }
}

/// Reads the name, with its capital letter. Refuses any other text.
impl FromStr for Month {
    type Err = InvalidVariant;

    ghost use Rattle.time_below.specs.Names.{IsNamed};

    ghost from_str_gives = { IsNamed (λ month. month_name (month_number month)) };

    #[tactic(auto, using(crate::proofs::NameLemmas::numbers_of_names))]
    fn from_str(text: &str) -> Result<Month, InvalidVariant> {
        for months_before in 0..12 {
            let month = Month::from_number(months_before + 1);
            if month.name() == text {
                return Ok(month);
            }
        }
        Err(InvalidVariant)
    }
}
