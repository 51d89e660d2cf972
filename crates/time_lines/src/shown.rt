//! What is shown of a moment: a text by a description, at the clock of a place.
ghost use Rattle.std.specs.Prelude.{◌≡◌, ◌↔◌, ℕ, List, Option, IfOk};
ghost use Rattle.time_below.specs.Facts.{facts_of_timestamp};
ghost use Rattle.time_below.specs.Moment.{Moment};
ghost use Rattle.time_below.specs.Offset.{Offset};
ghost use Rattle.time_lines.specs.Shown.{AppendsShown, SameShown, ShowsAt, description_for};
ghost use Rattle.time_lines.specs.Shown.{text_of};

use crate::descriptions::Descriptions;
use std::alloc::AllocError;
use std::default::Default;
use time_below::{Timestamp, UtcOffset};
use time_fmt::{Format, Formattable};
use time_provide::{ComponentProvider, DateState, TimestampState};

/// What is shown of moments.
pub trait Shows {
    /// What may be shown of a moment in place of a text with so many decimals of a second.
    ghost shows: { Self → ℕ → Moment → Option (List ℕ) → Type 0 };

    /// Appends what is shown of the moment, and says whether that is a text.
    fn append(
        &mut self,
        output: &mut Vec<u8>,
        moment: &Timestamp,
        decimals: usize,
    ) -> Result<bool, AllocError>
        ensures same { SameShown (shows self.old) (shows self.new) }
        ensures shown { IfOk result
            (AppendsShown (shows self.old decimals moment.now) output.old.items output.new.items) };
}

/// A place, whose clock has an offset at each moment.
pub trait Place {
    /// The offset that the clock may have at a moment.
    ghost has_offset: { Self → Moment → Offset → Type 0 };

    /// The offset of the clock at the moment.
    fn offset_at(&mut self, moment: &Timestamp) -> UtcOffset
        ensures same { (m : Moment) (o : Offset)
            → has_offset self.old m o ↔ has_offset self.new m o }
        ensures offset { has_offset self.old moment.now result };
}

/// Appends the text of a value, or nothing where the description refuses it, and says whether it
/// has one.
pub(crate) fn append_text<F: Formattable, V: ComponentProvider>(
    description: &F,
    output: &mut Vec<u8>,
    value: &V,
    state: &mut V::State,
) -> Result<bool, AllocError>
    requires agrees { V.agrees state.old value.now }
    ensures { IfOk result (AppendsShown
        (λ text. text ≡ text_of (F.outcome_of description.now (V.facts value.now)))
        output.old.items output.new.items) }
{
    let length = output.len();
    match description.format_into(output, value, state) {
        Ok(_) => Ok(true),
        Err(Format::OutOfMemory) => Err(AllocError),
        Err(_) => {
            output.truncate(length);
            Ok(false)
        }
    }
}

/// The texts of descriptions in UTC.
#[derive(Drop)]
pub struct InUtc<F: Formattable + Drop> {
    pub descriptions: Descriptions<F>,
}

impl<F: Formattable + Drop> Shows for InUtc<F> {
    ghost shows = { λ s decimals m text. text
        ≡ text_of (F.outcome_of (description_for s.descriptions decimals) (facts_of_timestamp m)) };

    fn append(
        &mut self,
        output: &mut Vec<u8>,
        moment: &Timestamp,
        decimals: usize,
    ) -> Result<bool, AllocError> {
        append_text(
            self.descriptions.of(decimals),
            output,
            moment,
            &mut TimestampState::default(),
        )
    }
}

/// The texts of descriptions by the clock of a place.
#[derive(Drop)]
pub struct InPlace<F: Formattable + Drop, P: Place + Drop> {
    pub descriptions: Descriptions<F>,
    pub place: P,
}

impl<F: Formattable + Drop, P: Place + Drop> Shows for InPlace<F, P> {
    ghost shows = { λ s decimals m text. (o : Offset) × P.has_offset s.place m o
        × ShowsAt (F.outcome_of (description_for s.descriptions decimals)) o m text };

    fn append(
        &mut self,
        output: &mut Vec<u8>,
        moment: &Timestamp,
        decimals: usize,
    ) -> Result<bool, AllocError> {
        let offset = self.place.offset_at(moment);
        match moment.checked_to_offset(offset) {
            None => Ok(false),
            Some(local) => append_text(
                self.descriptions.of(decimals),
                output,
                &local,
                &mut DateState::default(),
            ),
        }
    }
}
