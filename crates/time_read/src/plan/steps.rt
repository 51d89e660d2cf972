//! The steps of a text, one by one.
use crate::plan::any_step::ReadStep;
use crate::plan::behind::StepsFrom;
use crate::plan::components::{behind_component, read_usual};
use crate::plan::names::{after_literal, literal_fault};
use crate::plan::runs::{behind_run, read_date, read_time};
use crate::values::text_fields::TextFields;
use time_plan::{Run, Shown};

/// Reads the steps in order into the fields, and returns what follows them. Of a text that is none
/// of them the fields have the place.
#[inline(always)]
pub(crate) fn read_steps<'a, T: ReadStep>(
    steps: &[T],
    texts: &[u8],
    text: &'a [u8],
    fields: &mut TextFields,
) -> Option<&'a [u8]> {
    let mut left = text;
    let mut steps_left = steps;
    'steps: while let [step, others @ ..] = steps_left {
        let here = StepsFrom {
            step,
            others,
            texts,
        };
        left = read_step(here, left, fields)?;
        steps_left = others;
    }
    Some(left)
}

/// Reads what a step shows into the fields, and its literal, and returns what follows them.
#[inline(always)]
fn read_step<'a, T: ReadStep>(
    steps: StepsFrom<'_, T>,
    text: &'a [u8],
    fields: &mut TextFields,
) -> Option<&'a [u8]> {
    let mut place = Shown::Nothing;
    let shown = steps.step.shown(steps.texts, &mut place);
    let rest = match read_shown(shown, text, fields) {
        Some(rest) => rest,
        None => {
            let count = read_otherwise(steps.step, steps.others, steps.texts, text, fields)?;
            text.get(count..)?
        }
    };
    let literal = steps.step.parts(steps.texts).literal;
    match after_literal(rest, literal) {
        Some(rest) => Some(rest),
        None => {
            stop_at_literal(steps.step, steps.texts, rest, fields);
            None
        }
    }
}

/// Keeps the place of a text that does not go on by the literal of a step. It takes the step and not
/// its literal: else that would lie in memory for this call.
#[cold]
#[inline(never)]
fn stop_at_literal<T: ReadStep>(step: &T, texts: &[u8], text: &[u8], fields: &mut TextFields) {
    fields.stop = Some(literal_fault(text, step.parts(texts).literal));
}

/// Reads what a step shows into the fields, if that is met often and in its usual form, and returns
/// what follows it.
#[inline(always)]
fn read_shown<'a>(shown: &Shown, text: &'a [u8], fields: &mut TextFields) -> Option<&'a [u8]> {
    match shown {
        Shown::Component(component) => read_usual(component, text, fields),
        Shown::Run(Run::Time(_)) => read_time(text, fields),
        Shown::Run(Run::Date(_)) => read_date(text, fields),
        Shown::Nothing => Some(text),
    }
}

/// Reads what a step shows, in any form, and returns how many bytes it has. Of a text that is none of
/// it the fields have the place. It takes the step and not what it shows, and what is behind the step
/// by its parts, and returns no slice: else these would lie in memory for this call.
#[inline(never)]
fn read_otherwise<T: ReadStep>(
    step: &T,
    others: &[T],
    texts: &[u8],
    text: &[u8],
    fields: &mut TextFields,
) -> Option<usize> {
    let here = StepsFrom {
        step,
        others,
        texts,
    };
    let behind = here.digits_behind().unwrap_or(0);
    let read = match step.parts(texts).shown {
        Shown::Component(component) => behind_component(component, behind, text, fields),
        Shown::Run(run) => behind_run(run, text, fields),
        Shown::Nothing => Ok(text),
    };
    match read {
        Ok(rest) => Some(text.len().saturating_sub(rest.len())),
        Err(fault) => {
            fields.stop = Some(fault);
            None
        }
    }
}
