//! Dates and times of day at the front of a list.
ghost use Rattle.std.specs.Prelude.{◌≡◌, ◌∷◌, [], true, IfSome, map, drop};
ghost use Rattle.std.specs.Str.{is_utf8};
ghost use Rattle.time_below.specs.Facts.{Facts};
ghost use Rattle.time_below.specs.Tree.{Trees, of_component, text_literal, more, trees};
ghost use Rattle.time_below.specs.Width.{component_width};
ghost use Rattle.time_fmt.specs.Description.{component_outcome};
ghost use Rattle.time_fmt.specs.Runs.{run_tree};
ghost use Rattle.time_plan.specs.Steps.{IsAlike, Begins};

use time_below::format_description::{Component, Layer, Node, component_width};
use time_fmt::{Run, Separators};

/// The date or the time of day at the front of the nodes, and the nodes after it.
pub(crate) fn run_of<T: Node>(nodes: &[T]) -> Option<(Run, &[T])>
    ensures begins { IfSome result (λ found. Begins (trees (map T.tree nodes.now))
        (run_tree found.0) (trees (map T.tree found.1.now))) }
    ensures behind { IfSome result (λ found. found.1.now ≡ drop 5 nodes.now) }
{
    let [first, before_second, second, before_third, third, ..] = nodes else {
        return None;
    };
    match run_between(first, before_second, second, before_third, third) {
        Some(run) => Some((run, &nodes[5..])),
        None => None,
    }
}

/// The date or the time of day that five nodes are, if they are one.
fn run_between<T: Node>(
    first: &T,
    before_second: &T,
    second: &T,
    before_third: &T,
    third: &T,
) -> Option<Run>
    ensures { IfSome result (λ run. (left : Trees) → Begins
        (more (T.tree first.now) (more (T.tree before_second.now) (more (T.tree second.now)
        (more (T.tree before_third.now) (more (T.tree third.now) left))))) (run_tree run) left) }
{
    let first = component_of(first)?;
    let between = Separators {
        first: byte_of(before_second)?,
        second: byte_of(before_third)?,
    };
    Run::of(first, component_of(second)?, component_of(third)?, between)
}

/// The component that a node is, if it is one.
fn component_of<T: Node>(node: &T) -> Option<Component>
    ensures { IfSome result (λ component. IsAlike (T.tree node.now) (of_component component)) }
{
    match node.layer() {
        Layer::Component(component) => Some(kept_of(component)),
        _ => None,
    }
}

/// The byte that a node is, if it is a text of one.
fn byte_of<T: Node>(node: &T) -> Option<u8>
    ensures tree { IfSome result (λ byte. T.tree node.now ≡ text_literal (byte ∷ [])) }
    ensures text { IfSome result (λ byte. is_utf8 (byte ∷ []) ≡ true) }
{
    match node.layer() {
        Layer::Text(text) => match text.as_bytes() {
            [byte] => Some(*byte),
            _ => None,
        },
        _ => None,
    }
}

/// The current component in the place of a deprecated one, where it is as wide.
pub(crate) fn kept_of(component: Component) -> Component
    ensures outcome { (f : Facts) → component_outcome result f ≡ component_outcome component f }
    ensures width { component_width result ≡ component_width component }
{
    match component {
        Component::Month(_)
        | Component::Weekday(_)
        | Component::WeekNumber(_)
        | Component::Hour(_)
        | Component::UnixTimestamp(_)
        | Component::Year(_) => current_if_as_wide(component),
        _ => component,
    }
}

/// The current component in place of any one, where its maximum length is the same.
fn current_if_as_wide(component: Component) -> Component
    ensures outcome { (f : Facts) → component_outcome result f ≡ component_outcome component f }
    ensures width { component_width result ≡ component_width component }
{
    let current = component.current();
    if component_width(&current) == component_width(&component) {
        current
    } else {
        component
    }
}
