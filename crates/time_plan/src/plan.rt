//! Plans: descriptions that were flattened, with what is known of their texts.
ghost use Rattle.std.specs.Prelude.{◌≡◌};
ghost use Rattle.time_below.specs.Metadata.{trees_metadata};
ghost use Rattle.time_below.specs.Width.{trees_width, are_guaranteed_text};
ghost use Rattle.time_fmt.specs.Description.{trees_outcome};
ghost use Rattle.time_fmt.specs.Ends.{refusal_of};
ghost use Rattle.time_fmt.specs.Outcome.{Names};
ghost use Rattle.time_plan.specs.Steps.{step_trees};

use crate::flatten::{add_node, add_nodes};
use crate::step::Step;
use crate::write::write_steps;
use std::alloc::{AllocError, Global};
use std::default::Default;
use time_below::format_description::{Layer, Metadata, Node};
use time_fmt::{ComputeMetadata, Format, Formattable, Refused};
use time_provide::ComponentProvider;

/// A description that was made of a tree once, with its width cached.
///
/// It has the tree's outcome for every value, its width and its guarantee of UTF-8. Dates and times
/// cost less than half of what they cost by the tree, so a plan pays where it writes more than a
/// few texts.
#[derive(Drop)]
pub struct Plan {
    steps: Vec<Step>,
    metadata: Metadata,
    ghost known: { metadata ≡ trees_metadata (step_trees steps.items) },
}

impl Plan {
    ghost use Rattle.std.specs.Prelude.{IfOk, map};
    ghost use Rattle.time_below.specs.Tree.{all_of, trees};
    ghost use Rattle.time_fmt.specs.Laws.{Means};
    ghost use Rattle.time_plan.specs.Plan.{steps_of};

    /// Returns the plan of a tree: a borrowed or an owned item, or a version 3 description by its
    /// `inner`.
    ///
    /// # Errors
    ///
    /// Returns an error only if an allocation fails.
    pub fn of<T: Node>(alloc: Global, node: &T) -> Result<Plan, AllocError>
        ensures means { IfOk result (λ plan. Means
            (⟦<Plan as Formattable>⟧.outcome_of plan)
            (⟦<Plan as ComputeMetadata>⟧.width_of plan)
            (⟦<Plan as ComputeMetadata>⟧.is_guaranteed plan)
            (T.tree node.now)) }
    {
        let mut steps = Vec::with_capacity(alloc, likely_steps(items_of(node)))?;
        add_node(alloc, &mut steps, node)?;
        Ok(Plan::of_steps(steps))
    }

    /// Returns the plan of items in order, as of a slice of borrowed or owned items.
    ///
    /// # Errors
    ///
    /// Returns an error only if an allocation fails.
    pub fn of_items<T: Node>(alloc: Global, nodes: &[T]) -> Result<Plan, AllocError>
        ensures means { IfOk result (λ plan. Means
            (⟦<Plan as Formattable>⟧.outcome_of plan)
            (⟦<Plan as ComputeMetadata>⟧.width_of plan)
            (⟦<Plan as ComputeMetadata>⟧.is_guaranteed plan)
            (all_of (trees (map T.tree nodes.now)))) }
    {
        let mut steps = Vec::with_capacity(alloc, likely_steps(nodes.len()))?;
        add_nodes(alloc, &mut steps, nodes)?;
        Ok(Plan::of_steps(steps))
    }

    /// Returns the steps in order: a component or a run of them, and the literal after it.
    pub fn steps(&self) -> &[Step]
        ensures steps { result.now ≡ steps_of self.now }
        ensures outcome { ⟦<Plan as Formattable>⟧.outcome_of self.now
            ≡ trees_outcome (step_trees result.now) }
        ensures width { ⟦<Plan as ComputeMetadata>⟧.width_of self.now
            ≡ trees_width (step_trees result.now) }
    {
        self.steps.as_slice()
    }

    /// The plan that has these steps.
    fn of_steps(steps: Vec<Step>) -> Plan
        ensures { result.steps ≡ steps }
    {
        let metadata = metadata_of(steps.as_slice());
        Plan { steps, metadata }
    }
}

/// What is known of the texts of steps, one after the other.
fn metadata_of(steps: &[Step]) -> Metadata
    ensures { result ≡ trees_metadata (step_trees steps.now) }
{
    let mut sum = Metadata::default();
    for step in steps {
        sum = sum + step.metadata();
    }
    sum
}

/// How many items are at the head of a tree.
fn items_of<T: Node>(node: &T) -> usize {
    match node.layer() {
        Layer::All(nodes) => nodes.len(),
        _ => 1,
    }
}

/// How many steps so many items mostly make, since a literal is part of the step before it.
fn likely_steps(items: usize) -> usize {
    items / 2 + 1
}

/// The error of a refusal.
#[cold]
fn named(refused: Refused) -> Format
    ensures { Names result (refusal_of refused) }
{
    Format::from(refused)
}

impl ComputeMetadata for Plan {
    ghost width_of = { λ plan. trees_width (step_trees plan.steps.items) };

    ghost is_guaranteed = { λ plan. are_guaranteed_text (step_trees plan.steps.items) };

    fn compute_metadata(&self) -> Metadata {
        self.metadata
    }
}

impl Formattable for Plan {
    ghost outcome_of = { λ plan. trees_outcome (step_trees plan.steps.items) };

    #[tactic(auto, using(time_fmt::proofs::EndLemmas::answered))]
    fn write_into<V: ComponentProvider>(
        &self,
        output: &mut Vec<u8>,
        value: &V,
        state: &mut V::State,
    ) -> Result<usize, Format> {
        let begin = output.len();
        match write_steps(self.steps.as_slice(), output, value, state) {
            Ok(_) => Ok(output.len() - begin),
            Err(refused) => Err(named(refused)),
        }
    }
}
