//! One layer of a description of any type.
ghost use Rattle.std.specs.Prelude.{ℕ, ◌≡◌, ◌<◌, ◌≤◌, ⊤, IfSome};
ghost use Rattle.time_below.specs.Size.{size_below};
ghost use Rattle.time_below.specs.Tree.{Tree, layer_tree};
ghost use Rattle.time_below.specs.Width.{tree_width};

use crate::format_description::Component;
use std::alloc::AllocError;
use std::clone::Clone;

/// What is at the head of a description, with the descriptions below it.
#[derive_where(Copy)]
pub enum Layer<'a, T> {
    /// Bytes, which need not be UTF-8.
    Bytes(&'a [u8]),
    /// A text.
    Text(&'a str),
    /// A part of the value.
    Component(Component),
    /// Items in order.
    All(&'a [T]),
    /// Items of which the first one alone is written.
    First(&'a [T]),
    /// An item that a parser may leave out.
    Optional(&'a T),
    /// An item that is not written.
    Nothing,
}

impl<T> Clone for Layer<'_, T> {
    ghost is_clone = { λ layer copy. copy ≡ layer };

    ghost is_infallible = { λ _. ⊤ };

    fn clone(&self) -> Result<Self, AllocError> {
        Ok(*self)
    }
}

/// A description that shows itself layer by layer.
pub trait Node: Sized {
    /// What is described.
    ghost tree: { Self → Tree };

    /// How large it is.
    ghost size: { Self → ℕ };

    /// The layer at the head. What stands below it is smaller.
    fn layer(&self) -> Layer<'_, Self>
        ensures tree { layer_tree tree result ≡ tree self.now }
        ensures smaller { size_below size result < size self.now };

    /// A bound of the bytes of the text of a literal or a component. Other descriptions have none.
    ///
    /// Row: a borrowed list of 11 items, whose room is found by these bounds.
    fn quick_bound(&self) -> Option<usize>
        ensures { IfSome result (λ bound. tree_width (tree self.now) ≤ bound) }
    {
        None
    }
}
