//! Descriptions by the decimals of the text that theirs replaces.
ghost use Rattle.std.specs.Prelude.{◌≡◌, ℕ, [], ◌∷◌, map, IfOk};
ghost use Rattle.time_lines.specs.Shown.{description_for, with_decimals};

use std::alloc::{AllocError, Global};
use std::default::Default;
use time_digits::ru8;
use time_fmt::Formattable;
use time_known::{Config, Iso8601, TimePrecision};

/// A description, or one for each number of decimals of a second that the text has which is
/// replaced.
#[derive(Drop)]
pub struct Descriptions<F: Formattable + Drop> {
    /// That of a text without decimals, of a text with one, and so on.
    pub by_decimals: Vec<F>,
    /// That of each other text.
    pub usual: F,
}

impl<F: Formattable + Drop> Descriptions<F> {
    /// One description for all texts.
    pub fn one(alloc: Global, usual: F) -> Descriptions<F>
        ensures { (decimals : ℕ) → description_for result decimals ≡ usual }
    {
        Descriptions {
            by_decimals: Vec::new(alloc),
            usual,
        }
    }

    /// Returns the description for a text with so many decimals.
    pub fn of(&self, decimals: usize) -> &F
        ensures { result.now ≡ description_for self.now decimals }
    {
        match self.by_decimals.get(decimals) {
            Some(description) => description,
            None => &self.usual,
        }
    }
}

/// ISO 8601 by the default choices, with so many decimals.
pub fn with_decimals(decimals: u8) -> Iso8601
    ensures { result ≡ with_decimals decimals }
{
    let decimal_digits = ru8::new(decimals);
    Iso8601::new(Config::default().set_time_precision(TimePrecision::Second { decimal_digits }))
}

impl Descriptions<Iso8601> {
    /// ISO 8601 with as many decimals as the text has that is replaced.
    pub fn as_read(alloc: Global) -> Result<Descriptions<Iso8601>, AllocError>
        ensures few { IfOk result (λ d. d.by_decimals.items
            ≡ map with_decimals (0 ∷ 1 ∷ 2 ∷ 3 ∷ 4 ∷ 5 ∷ 6 ∷ 7 ∷ 8 ∷ [])) }
        ensures most { IfOk result (λ d. d.usual ≡ with_decimals 9) }
    {
        let by_decimals = vec![in alloc;
            with_decimals(0),
            with_decimals(1),
            with_decimals(2),
            with_decimals(3),
            with_decimals(4),
            with_decimals(5),
            with_decimals(6),
            with_decimals(7),
            with_decimals(8),
        ]?;
        Ok(Descriptions {
            by_decimals,
            usual: with_decimals(9),
        })
    }
}
