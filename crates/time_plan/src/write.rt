//! The steps of a plan, as they are written.
ghost use Rattle.std.specs.Prelude.{◌≡◌, MatchOption, length, true};
ghost use Rattle.time_below.specs.Tree.{all_of};
ghost use Rattle.time_below.specs.Width.{tree_width, trees_width};
ghost use Rattle.time_fmt.specs.Description.{tree_outcome};
ghost use Rattle.time_fmt.specs.Ends.{Ends};
ghost use Rattle.time_fmt.specs.Guarantee.{AppendsTree};
ghost use Rattle.time_fmt.specs.Sink.{Fits, Puts};
ghost use Rattle.time_plan.specs.Literal.{literal_bytes};
ghost use Rattle.time_plan.specs.Shown.{shown_tree};
ghost use Rattle.time_plan.specs.Steps.{step_tree, step_trees};

use crate::literal::Literal;
use crate::shown::Shown;
use crate::step::Step;
use time_fmt::writers::write_bytes;
use time_fmt::{
    Refused, Sink, WriteStep, write_component, write_component_inline, write_run,
    write_steps_inline,
};
use time_provide::ComponentProvider;

/// Writes the steps in order.
///
/// # Errors
///
/// The first step that is refused ends the text, and its refusal is returned.
#[inline(never)]
pub fn write_steps<S: Sink, V: ComponentProvider>(
    steps: &[Step],
    output: &mut S,
    value: &V,
    state: &mut V::State,
) -> Result<(), Refused>
    requires room { Fits (S.buffer output.old) (trees_width (step_trees steps.now)) }
    requires agrees { V.agrees state.old value.now }
    ensures appends { AppendsTree (all_of (step_trees steps.now)) (V.facts value.now)
        (S.buffer output.old) (S.buffer output.new) result }
    ensures agrees { V.agrees state.new value.now }
{
    let mut left = steps;
    while let [step, behind @ ..] = write_steps_inline(left, (), output, value, state)? {
        write_step(step, output, value, state)?;
        left = behind;
    }
    Ok(())
}

impl WriteStep<()> for Step {
    ghost tree_of = { λ _ step. step_tree step };

    ghost is_valid = { λ _ _. true };

    ghost has_room = { true };

    /// Writes a date or a time of day, or a component of a frequent kind, with the literal behind it.
    fn write_inline<S: Sink, V: ComponentProvider>(
        &self,
        _beside: (),
        output: &mut S,
        value: &V,
        state: &mut V::State,
    ) -> Option<Result<(), Refused>> {
        match write_shown_inline(&self.shown, output, value, state) {
            Some(Ok(())) => {
                write_literal(output, &self.literal);
                Some(Ok(()))
            }
            Some(Err(refused)) => Some(Err(refused)),
            None => None,
        }
    }
}

/// Writes what a step shows, if that is a date, a time of day, or a component of a frequent kind, and
/// returns its refusal, if it is refused. For any other component writes nothing and returns `None`.
fn write_shown_inline<S: Sink, V: ComponentProvider>(
    shown: &Shown,
    output: &mut S,
    value: &V,
    state: &mut V::State,
) -> Option<Result<(), Refused>>
    requires room { Fits (S.buffer output.old) (tree_width (shown_tree shown.now)) }
    requires agrees { V.agrees state.old value.now }
    ensures ends { MatchOption result (S.buffer output.new ≡ S.buffer output.old)
        (λ answer. Ends (tree_width (shown_tree shown.now))
        (S.buffer output.old) (S.buffer output.new) answer
        (tree_outcome (shown_tree shown.now) (V.facts value.now))) }
    ensures agrees { V.agrees state.new value.now }
{
    match shown {
        Shown::Component(component) => write_component_inline(*component, output, value, state),
        Shown::Run(run) => Some(write_run(run, output, value, state)),
        Shown::Nothing => Some(Ok(())),
    }
}

/// Writes any step, or returns the refusal of what it shows.
#[inline(never)]
fn write_step<S: Sink, V: ComponentProvider>(
    step: &Step,
    output: &mut S,
    value: &V,
    state: &mut V::State,
) -> Result<(), Refused>
    requires room { Fits (S.buffer output.old) (tree_width (step_tree step.now)) }
    requires agrees { V.agrees state.old value.now }
    ensures appends { AppendsTree (step_tree step.now) (V.facts value.now)
        (S.buffer output.old) (S.buffer output.new) result }
    ensures agrees { V.agrees state.new value.now }
{
    match write_shown(&step.shown, output, value, state) {
        Ok(_) => {
            write_literal(output, &step.literal);
            Ok(())
        }
        Err(refused) => Err(refused),
    }
}

/// Writes what a step shows.
///
/// # Errors
///
/// Returns the refusal of its component.
pub fn write_shown<S: Sink, V: ComponentProvider>(
    shown: &Shown,
    output: &mut S,
    value: &V,
    state: &mut V::State,
) -> Result<(), Refused>
    requires room { Fits (S.buffer output.old) (tree_width (shown_tree shown.now)) }
    requires agrees { V.agrees state.old value.now }
    ensures ends { Ends (tree_width (shown_tree shown.now))
        (S.buffer output.old) (S.buffer output.new) result
        (tree_outcome (shown_tree shown.now) (V.facts value.now)) }
    ensures agrees { V.agrees state.new value.now }
{
    match shown {
        Shown::Component(component) => write_component(*component, output, value, state),
        Shown::Run(run) => write_run(run, output, value, state),
        Shown::Nothing => Ok(()),
    }
}

/// Writes the literal after a component, and returns the number of bytes. For more than two bytes
/// the sink is taken out once more.
#[inline(always)]
fn write_literal<S: Sink>(output: &mut S, literal: &Literal) -> usize
    requires room { Fits (S.buffer output.old) (length (literal_bytes literal.now)) }
    ensures writes { Puts (S.buffer output.old) (S.buffer output.new) result
        (literal_bytes literal.now) }
{
    let bytes = match literal {
        Literal::Byte(byte) => {
            output.put_byte(*byte);
            return 1;
        }
        Literal::Bytes(bytes) => bytes.as_slice(),
    };
    if bytes.is_empty() {
        return 0;
    }
    if bytes.len() == 2 {
        let (first, second) = (bytes[0], bytes[1]);
        output.put_byte(first);
        output.put_byte(second);
        return 2;
    }
    let mut taken = output.take_out();
    let count = write_bytes(&mut taken, bytes);
    output.put_back(taken);
    count
}
