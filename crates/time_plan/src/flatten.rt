//! The steps of a tree.
ghost use Rattle.std.specs.Prelude.{◌≡◌, true, OnOk, MatchOption, IsUtf8, map};
ghost use Rattle.time_below.specs.Tree.{of_component, all_of, trees};
ghost use Rattle.time_plan.specs.Literal.{literal_tree};
ghost use Rattle.time_plan.specs.Shown.{shown_tree};
ghost use Rattle.time_plan.specs.Steps.{step_trees, Extends};

use crate::literal::Literal;
use crate::runs::{kept_of, run_of};
use crate::shown::Shown;
use crate::step::Step;
use std::alloc::{AllocError, Global};
use time_below::format_description::{Component, Layer, Node};

/// Adds the nodes in order. A date or a time of day is one step in place of three.
#[cycle(flatten)]
pub(crate) fn add_nodes<T: Node>(
    alloc: Global,
    steps: &mut Vec<Step>,
    nodes: &[T],
) -> Result<(), AllocError>
    ensures extends { OnOk result (Extends (step_trees steps.old.items) (step_trees steps.new.items)
        (all_of (trees (map T.tree nodes.now)))) }
{
    let mut left = nodes;
    'nodes: while let [node, ..] = left {
        if let Some((run, behind)) = run_of(left) {
            add_shown(alloc, steps, Shown::Run(run))?;
            left = behind;
            continue;
        }
        match add_leaf(alloc, steps, node) {
            Some(added) => added?,
            None => add_node(alloc, steps, node)?,
        }
        left = &left[1..];
    }
    Ok(())
}

/// Adds a text or a component, and nothing of any other node. It becomes part of the loop over a
/// list, so that no item of these needs a call there.
fn add_leaf<T: Node>(
    alloc: Global,
    steps: &mut Vec<Step>,
    node: &T,
) -> Option<Result<(), AllocError>>
    ensures extends { MatchOption result (steps.new ≡ steps.old) (λ added. OnOk added (Extends
        (step_trees steps.old.items) (step_trees steps.new.items) (T.tree node.now))) }
{
    match node.layer() {
        Layer::Text(text) => Some(add_literal(alloc, steps, text.as_bytes(), true)),
        Layer::Component(component) => Some(add_component(alloc, steps, component)),
        _ => None,
    }
}

/// Adds the steps of a node.
#[cycle(flatten)]
pub(crate) fn add_node<T: Node>(
    alloc: Global,
    steps: &mut Vec<Step>,
    node: &T,
) -> Result<(), AllocError>
    ensures extends { OnOk result (Extends (step_trees steps.old.items) (step_trees steps.new.items)
        (T.tree node.now)) }
{
    match node.layer() {
        Layer::Bytes(bytes) => add_literal(alloc, steps, bytes, false),
        Layer::Text(text) => add_literal(alloc, steps, text.as_bytes(), true),
        Layer::Component(component) => add_component(alloc, steps, component),
        Layer::All(nodes) => add_nodes(alloc, steps, nodes),
        Layer::First(nodes) => match nodes.first() {
            Some(node) => add_node(alloc, steps, node),
            None => Ok(()),
        },
        Layer::Optional(node) => add_node(alloc, steps, node),
        Layer::Nothing => Ok(()),
    }
}

/// Adds a component.
fn add_component(
    alloc: Global,
    steps: &mut Vec<Step>,
    component: Component,
) -> Result<(), AllocError>
    ensures extends { OnOk result (Extends (step_trees steps.old.items) (step_trees steps.new.items)
        (of_component component)) }
{
    add_shown(alloc, steps, Shown::Component(kept_of(component)))
}

/// Adds a step without a literal.
fn add_shown(alloc: Global, steps: &mut Vec<Step>, shown: Shown) -> Result<(), AllocError>
    ensures extends { OnOk result (Extends (step_trees steps.old.items) (step_trees steps.new.items)
        (shown_tree shown)) }
{
    steps.push(Step {
        shown,
        literal: Literal::Bytes(Vec::new(alloc)),
        is_text: true,
    })?;
    Ok(())
}

/// Adds a literal to the last step, if that has none yet, or after no component.
fn add_literal(
    alloc: Global,
    steps: &mut Vec<Step>,
    bytes: &[u8],
    is_text: bool,
) -> Result<(), AllocError>
    requires utf8 { is_text ≡ true → IsUtf8 bytes.now }
    ensures extends { OnOk result (Extends (step_trees steps.old.items) (step_trees steps.new.items)
        (literal_tree is_text bytes.now)) }
{
    let literal = Literal::of(alloc, bytes)?;
    match steps.last_mut() {
        Some(last) if last.has_no_literal() => {
            last.end_with(literal, is_text);
            Ok(())
        }
        _ => {
            steps.push(Step {
                shown: Shown::Nothing,
                literal,
                is_text,
            })?;
            Ok(())
        }
    }
}
