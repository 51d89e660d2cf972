//! The text of a value by the steps of a plan, compared with another one.
ghost use Rattle.std.specs.Prelude.{◌≡◌, ◌≤◌, IfNone, IfOk, IfSome, length, map, take};
ghost use Rattle.time_below.specs.Tree.{Trees, more, trees};
ghost use Rattle.time_below.specs.Width.{trees_width};
ghost use Rattle.time_fmt.specs.Description.{tree_outcome, trees_outcome};
ghost use Rattle.time_fmt.specs.Outcome.{done};
ghost use Rattle.time_plan.specs.Shown.{shown_tree};
ghost use Rattle.time_plan.specs.Steps.{step_trees};

use crate::fault::Unexpected;
use crate::plan::any_step::{ReadStep, StepParts};
use crate::plan::names::{behind_bytes, behind_literal};
use crate::written::{first_difference, no_value};
use std::default::Default;
use std::marker::Brand;
use time_fmt::{ComponentProvider, ComputeMetadata, Formattable, OldBytes, SliceSink};
use time_plan::{Plan, Shown, Step, write_shown, write_steps};

/// The most bytes of a text that is compared as a whole.
const ROOM: usize = 64;

/// The first byte at which a text is not that of the value by the plan, if there is one.
#[inline(always)]
pub(crate) fn difference<V: ComponentProvider>(
    plan: &Plan,
    text: &[u8],
    value: &V,
) -> Option<Unexpected>
where
    V::State: Drop,
    ensures { IfNone result (⟦<Plan as Formattable>⟧.outcome_of plan.now (V.facts value.now)
        ≡ done text.now) }
{
    if plan.compute_metadata().max_bytes_needed <= ROOM {
        whole_difference(plan.steps(), text, value)
    } else {
        stepwise_difference(plan.steps(), &[], text, value)
    }
}

/// The same for steps whose texts have room in an array.
#[inline(always)]
fn whole_difference<V: ComponentProvider>(
    steps: &[Step],
    text: &[u8],
    value: &V,
) -> Option<Unexpected>
where
    V::State: Drop,
    requires room { trees_width (step_trees steps.now) ≤ ROOM }
    ensures { IfNone result (trees_outcome (step_trees steps.now) (V.facts value.now)
        ≡ done text.now) }
{
    let mut room = [0u8; ROOM];
    let Some(count) = written::<Brand, V>(steps, &mut room, value) else {
        return Some(no_value(text));
    };
    first_difference(&room[..count], text)
}

/// Writes the text of a value to the start of a buffer, and returns the number of its bytes, or
/// nothing if the value is refused.
fn written<B: OldBytes, V: ComponentProvider>(
    steps: &[Step],
    room: &mut [u8],
    value: &V,
) -> Option<usize>
where
    V::State: Drop,
    requires before { room.old ≡ B.before }
    requires room { trees_width (step_trees steps.now) ≤ length room.old }
    ensures text { IfSome result (λ count. trees_outcome (step_trees steps.now) (V.facts value.now)
        ≡ done (take count room.new)) }
    ensures within { IfSome result (λ count. count ≤ length room.new) }
{
    let mut state = V::State::default();
    let mut sink = SliceSink::<B>::new(room);
    match write_steps(steps, &mut sink, value, &mut state) {
        Ok(_) => Some(sink.len()),
        Err(_) => None,
    }
}

/// The bytes of an array for what a step shows before its literal, which has at most 18.
const SHOWN_ROOM: usize = 32;

/// The same for steps of any width, one by one. Literals are compared where they lie.
#[inline(never)]
pub(crate) fn stepwise_difference<T: ReadStep, V: ComponentProvider>(
    steps: &[T],
    texts: &[u8],
    text: &[u8],
    value: &V,
) -> Option<Unexpected>
where
    V::State: Drop,
    ensures { IfNone result (trees_outcome (trees (map (T.tree_of texts.now) steps.now))
        (V.facts value.now)
        ≡ done text.now) }
{
    let mut state = V::State::default();
    let mut left = text;
    for step in steps {
        match behind_step(step, texts, left, value, &mut state) {
            Ok(rest) => left = rest,
            Err(fault) => return Some(fault),
        }
    }
    first_difference(&[], left)
}

/// What follows the text of a step, or the first byte at which the text is another one.
fn behind_step<'a, T: ReadStep, V: ComponentProvider>(
    step: &T,
    texts: &[u8],
    text: &'a [u8],
    value: &V,
    state: &mut V::State,
) -> Result<&'a [u8], Unexpected>
    requires agrees { V.agrees state.old value.now }
    ensures agrees { V.agrees state.new value.now }
    ensures behind { IfOk result (λ rest. (others : Trees)
        → trees_outcome others (V.facts value.now) ≡ done rest.now
        → trees_outcome (more (T.tree_of texts.now step.now) others) (V.facts value.now)
        ≡ done text.now) }
{
    let mut room = [0u8; SHOWN_ROOM];
    let StepParts { shown, literal } = step.parts(texts);
    let Some(count) = shown_in_room::<Brand, V>(&shown, &mut room, value, state) else {
        return Err(no_value(text));
    };
    let rest = ok!(behind_bytes(text, &room[..count]));
    behind_literal(rest, literal)
}

/// Writes what a step shows to the start of a buffer, and returns the number of its bytes, or
/// nothing if the value is refused.
fn shown_in_room<B: OldBytes, V: ComponentProvider>(
    shown: &Shown,
    room: &mut [u8],
    value: &V,
    state: &mut V::State,
) -> Option<usize>
    requires before { room.old ≡ B.before }
    requires agrees { V.agrees state.old value.now }
    ensures agrees { V.agrees state.new value.now }
    ensures text { IfSome result (λ count. tree_outcome (shown_tree shown.now) (V.facts value.now)
        ≡ done (take count room.new)) }
    ensures within { IfSome result (λ count. count ≤ length room.new) }
{
    if room.len() < shown.width() {
        return None;
    }
    let mut sink = SliceSink::<B>::new(room);
    match write_shown(shown, &mut sink, value, state) {
        Ok(_) => Some(sink.len()),
        Err(_) => None,
    }
}
