//! Values that are read by the calls of `time`.
ghost use Rattle.std.specs.Prelude.{◌≡◌, ℕ, List, IfOk};
ghost use Rattle.time_fmt.specs.Outcome.{done};

use thiserror::Error;
use time_fmt::Formattable;
use time_plan::Plan;
use time_provide::ComponentProvider;
use time_read::{NoReader, NotRead, ReadPlan, Readable};

/// A format by which texts are read as values of a type.
pub trait Parsable<V> {
    /// Why a text is not read.
    type Error;

    /// The value of which a text is read.
    ghost reads: { Self → V → List ℕ → Type 0 };

    /// Returns the value of a text.
    ///
    /// # Errors
    ///
    /// Returns why the text has no value.
    fn read_value(&self, text: &[u8]) -> Result<V, Self::Error>
        ensures { IfOk result (λ value. reads self.now value text.now) };
}

/// Why a text is not read by a plan.
#[derive(Clone, Copy, Debug, PartialEq, Eq, Error)]
pub enum NotReadByPlan {
    /// No text of the plan is read as a value of the type.
    #[error("{0}")]
    NoReader(NoReader),
    /// The text is none of the plan.
    #[error("{0}")]
    NotRead(NotRead),
}

impl<V: Readable + Drop> Parsable<V> for Plan
where
    V::State: Drop,
{
    type Error = NotReadByPlan;

    ghost reads = { λ plan value text.
        ⟦<Plan as Formattable>⟧.outcome_of plan (V.facts value) ≡ done text };

    fn read_value(&self, text: &[u8]) -> Result<V, NotReadByPlan> {
        let reader = match self.reader::<V>() {
            Ok(reader) => reader,
            Err(refused) => return Err(NotReadByPlan::NoReader(refused)),
        };
        match reader.read(text) {
            Ok(value) => Ok(value),
            Err(fault) => Err(NotReadByPlan::NotRead(fault)),
        }
    }
}

/// A value that is read by the calls of `time`.
pub trait ParseValue: ComponentProvider + Sized {
    /// Returns the value that a text has by a format, such as `Rfc3339`, `Rfc2822`, `Iso8601` or a
    /// `Plan`.
    ///
    /// A program that reads many texts by one plan makes a reader once, by `plan.reader::<V>()`.
    ///
    /// # Errors
    ///
    /// Returns where and why the text has no value by the format.
    ///
    /// # Examples
    ///
    /// ```text
    /// let moment = OffsetDateTime::parse("2026-11-22T09:55:06.12-06:00", &Rfc3339)?;
    /// ```
    final fn parse<F: Parsable<Self>>(text: &str, format: &F) -> Result<Self, F::Error>
        ensures { IfOk result (λ value. F.reads format.now value text.now) }
    {
        format.read_value(text.as_bytes())
    }
}

impl<V: ComponentProvider> ParseValue for V {}
