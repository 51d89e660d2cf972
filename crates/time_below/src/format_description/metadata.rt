//! What is known of a text before it is written.
ghost use Rattle.std.specs.Prelude.{◌≡◌, ◌+◌, ◌≤◌, fold, map, min, true, IfSome, IsTrue};
ghost use Rattle.time_below.specs.Metadata.{tree_metadata, trees_metadata};
ghost use Rattle.time_below.specs.Tree.{trees};
ghost use Rattle.time_below.specs.Width.{tree_width, trees_width, is_guaranteed_text};

use crate::format_description::{Layer, Node, component_width};
use std::default::Default;
use std::iter::Sum;
use std::ops::Add;

/// What is known of a text before it is written.
#[derive(Clone, Copy, Debug)]
pub struct Metadata {
    /// A number of bytes that no text exceeds, or the greatest `usize` if that is less.
    pub max_bytes_needed: usize,
    /// Whether the text is sure to be UTF-8.
    pub guaranteed_utf8: bool,
}

impl Metadata {
    // What is known once a text of at most this many bytes comes after.
    fn with_text(self, width: usize) -> Metadata
        ensures width { result.max_bytes_needed ≡ min (self.max_bytes_needed + width) usize.MAX }
        ensures text { result.guaranteed_utf8 ≡ self.guaranteed_utf8 }
    {
        Metadata {
            max_bytes_needed: self.max_bytes_needed.saturating_add(width),
            guaranteed_utf8: self.guaranteed_utf8,
        }
    }
}

/// No bytes, which are a text.
impl Default for Metadata {
    ghost use Rattle.time_below.specs.Metadata.{of_nothing};

    ghost is_default = { λ m. m ≡ of_nothing };

    fn default() -> Metadata {
        Metadata {
            max_bytes_needed: 0,
            guaranteed_utf8: true,
        }
    }
}

/// One text after another. The sum of the maximum lengths stops at the greatest `usize`.
impl Add for Metadata {
    type Output = Metadata;

    ghost use Rattle.time_below.specs.Metadata.{of_both};

    ghost add_gives = { λ a b sum. sum ≡ of_both a b };

    fn add(self, other: Metadata) -> Metadata {
        Metadata {
            max_bytes_needed: self.max_bytes_needed.saturating_add(other.max_bytes_needed),
            guaranteed_utf8: self.guaranteed_utf8 && other.guaranteed_utf8,
        }
    }
}

/// Texts one after another, from none on.
impl Sum<Metadata> for Metadata {
    ghost use Rattle.time_below.specs.Metadata.{of_nothing, of_both};

    ghost sum_gives = { λ all sum. sum ≡ fold of_both of_nothing all };

    fn sum<I: Iterator<Item = Metadata>>(iter: I) -> Metadata {
        let mut sum = Metadata::default();
        for metadata in iter {
            sum = sum + metadata;
        }
        sum
    }
}

/// Returns the maximum length and the text guarantee of items in order.
#[cycle(metadata)]
pub fn metadata_of_nodes<T: Node>(nodes: &[T]) -> Metadata
    ensures { result ≡ trees_metadata (trees (map T.tree nodes.now)) }
{
    let mut sum = Metadata::default();
    for node in nodes {
        match width_of_text(node) {
            Some(width) => sum = sum.with_text(width),
            None => sum = sum + metadata_of_node(node),
        }
    }
    sum
}

// The most bytes of a text or a component, and nothing of any other description. It becomes part of
// the loop over a list, so that no item of these needs a call there.
fn width_of_text<T: Node>(node: &T) -> Option<usize>
    ensures width { IfSome result (λ width. width ≡ tree_width (T.tree node.now)) }
    ensures text { IfSome result (λ _. is_guaranteed_text (T.tree node.now) ≡ true) }
{
    match node.layer() {
        Layer::Text(text) => Some(text.len()),
        Layer::Component(component) => Some(component_width(&component)),
        _ => None,
    }
}

/// Returns the maximum length and the text guarantee of a description.
#[cycle(metadata)]
pub fn metadata_of_node<T: Node>(node: &T) -> Metadata
    ensures { result ≡ tree_metadata (T.tree node.now) }
{
    match node.layer() {
        Layer::Bytes(bytes) => Metadata {
            max_bytes_needed: bytes.len(),
            guaranteed_utf8: false,
        },
        Layer::Text(text) => Metadata {
            max_bytes_needed: text.len(),
            guaranteed_utf8: true,
        },
        Layer::Component(component) => Metadata {
            max_bytes_needed: component_width(&component),
            guaranteed_utf8: true,
        },
        Layer::All(nodes) => metadata_of_nodes(nodes),
        Layer::First([node, ..]) | Layer::Optional(node) => metadata_of_node(node),
        Layer::First([]) | Layer::Nothing => Metadata::default(),
    }
}

/// Returns `true` only if this many bytes are enough for the text of the items in order, as their
/// bounds tell. It is `false` where an item has no bound.
///
/// Row: a borrowed list of 11 items, of which a fifth would else be spent on the maximum length.
#[inline]
pub fn nodes_fit<T: Node>(nodes: &[T], room: usize) -> bool
    ensures { IsTrue result → trees_width (trees (map T.tree nodes.now)) ≤ room }
{
    let mut left = room;
    for node in nodes {
        match node.quick_bound() {
            Some(bound) if bound <= left => left -= bound,
            _ => return false,
        }
    }
    true
}
