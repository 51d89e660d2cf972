//! The engine: one recursion for each kind of tree.
ghost use Rattle.std.specs.Prelude.{map, true};
ghost use Rattle.time_below.specs.Tree.{all_of, trees};
ghost use Rattle.time_below.specs.Width.{tree_width, trees_width};
ghost use Rattle.time_fmt.specs.Guarantee.{AppendsTree};
ghost use Rattle.time_fmt.specs.Sink.{Fits};

use crate::component::{write_component, write_component_inline};
use crate::refused::Refused;
use crate::sink::Sink;
use crate::step::{WriteStep, write_steps_inline};
use crate::writers::{write, write_bytes, write_literal};
use time_below::format_description::{Layer, Node};
use time_provide::ComponentProvider;

/// Appends the texts of the nodes in order, up to the first that is refused, and returns its
/// refusal. The output needs spare capacity for their maximum length.
#[cycle(engine)]
#[inline(always)]
pub(super) fn write_nodes<T: Node, S: Sink, V: ComponentProvider>(
    nodes: &[T],
    output: &mut S,
    value: &V,
    state: &mut V::State,
) -> Result<(), Refused>
    requires room { Fits (S.buffer output.old) (trees_width (trees (map T.tree nodes.now))) }
    requires agrees { V.agrees state.old value.now }
    ensures appends { AppendsTree (all_of (trees (map T.tree nodes.now))) (V.facts value.now)
        (S.buffer output.old) (S.buffer output.new) result }
    ensures agrees { V.agrees state.new value.now }
{
    let mut left = nodes;
    while let [node, behind @ ..] = write_steps_inline(left, (), output, value, state)? {
        write_node(node, output, value, state)?;
        left = behind;
    }
    Ok(())
}

/// Each node is a step.
impl<T: Node> WriteStep<()> for T {
    ghost tree_of = { λ _ node. T.tree node };

    ghost is_valid = { λ _ _. true };

    ghost has_room = { true };

    /// Writes a literal, or a component of a frequent kind.
    #[inline(always)]
    fn write_inline<S: Sink, V: ComponentProvider>(
        &self,
        _beside: (),
        output: &mut S,
        value: &V,
        state: &mut V::State,
    ) -> Option<Result<(), Refused>> {
        let bytes = match self.layer() {
            Layer::Bytes(bytes) => bytes,
            Layer::Text(text) => text.as_bytes(),
            Layer::Component(component) => {
                return write_component_inline(component, output, value, state);
            }
            _ => return None,
        };
        write_literal(output, bytes);
        Some(Ok(()))
    }
}

/// Appends the text of the node, up to the first component that is refused, and returns its
/// refusal. The output needs spare capacity for its maximum length.
#[cycle(engine)]
#[inline(never)]
pub(super) fn write_node<T: Node, S: Sink, V: ComponentProvider>(
    node: &T,
    output: &mut S,
    value: &V,
    state: &mut V::State,
) -> Result<(), Refused>
    requires room { Fits (S.buffer output.old) (tree_width (T.tree node.now)) }
    requires agrees { V.agrees state.old value.now }
    ensures appends { AppendsTree (T.tree node.now) (V.facts value.now)
        (S.buffer output.old) (S.buffer output.new) result }
    ensures agrees { V.agrees state.new value.now }
{
    match node.layer() {
        Layer::Bytes(bytes) => {
            write_bytes(output, bytes);
            Ok(())
        }
        Layer::Text(text) => {
            write(output, text);
            Ok(())
        }
        Layer::Component(component) => write_component(component, output, value, state),
        Layer::All(nodes) => write_nodes(nodes, output, value, state),
        Layer::First(nodes) => match nodes.first() {
            Some(node) => write_node(node, output, value, state),
            None => Ok(()),
        },
        Layer::Optional(node) => write_node(node, output, value, state),
        Layer::Nothing => Ok(()),
    }
}
