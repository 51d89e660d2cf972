//! Plans and steps as descriptions that are read.
ghost use Rattle.std.specs.Prelude.{map};
ghost use Rattle.time_below.specs.Tree.{trees};
ghost use Rattle.time_fmt.specs.Description.{trees_outcome};

use crate::fault::Unexpected;
use crate::plan::any_step::ReadStep;
use crate::plan::compare::{difference, stepwise_difference};
use crate::plan::steps::read_steps;
use crate::reading::Described;
use crate::values::text_fields::TextFields;
use time_fmt::{ComponentProvider, Formattable};
use time_plan::Plan;

impl Described for Plan {
    ghost outcome_of = { λ plan. ⟦<Plan as Formattable>⟧.outcome_of plan };

    #[inline(always)]
    fn read_fields<'a>(&self, text: &'a [u8], fields: &mut TextFields) -> Option<&'a [u8]> {
        read_steps(self.steps(), &[], text, fields)
    }

    #[inline(always)]
    fn difference<V: ComponentProvider>(&self, text: &[u8], value: &V) -> Option<Unexpected>
    where
        V::State: Drop,
    {
        difference(self, text, value)
    }
}

/// Steps of any kind, and what their literals may lie in.
#[derive(Drop)]
pub(crate) struct Steps<'a, T>(pub(crate) &'a [T], pub(crate) &'a [u8]);

impl<T: ReadStep> Described for Steps<'_, T> {
    ghost outcome_of = { λ it. trees_outcome (trees (map (T.tree_of it.1.now) it.0.now)) };

    fn read_fields<'a>(&self, text: &'a [u8], fields: &mut TextFields) -> Option<&'a [u8]> {
        read_steps(self.0, self.1, text, fields)
    }

    fn difference<V: ComponentProvider>(&self, text: &[u8], value: &V) -> Option<Unexpected>
    where
        V::State: Drop,
    {
        stepwise_difference(self.0, self.1, text, value)
    }
}
