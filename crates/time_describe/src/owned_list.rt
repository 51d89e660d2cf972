//! Items that own their parts.
ghost use Rattle.std.specs.Prelude.{◌≡◌, ◌++◌, ◌∷◌, [], ℕ, List, Ok, None, false, map};
ghost use Rattle.std.specs.Prelude.{IfOk, IsFalse, OnOk};
ghost use Rattle.time_below.specs.Tree.{Tree, all_of, owned_tree, of_component, trees};
ghost use Rattle.time_describe.specs.Literal.{literal_of};
ghost use Rattle.time_describe.specs.Owned.{HoldsOwned, HoldsOwnedLists, outer_views};
ghost use Rattle.time_describe.specs.Reading as reading;

use crate::items::{Items, ListKind, Parted};
use crate::literal::literal;
use std::alloc::{AllocError, Global};
use std::mem;
use time_below::format_description::{Component, OwnedFormatItem};

/// Brackets with lists that are not closed yet.
#[derive(Drop)]
pub struct Outer {
    /// The items before the brackets.
    pub items: Vec<OwnedFormatItem>,
    /// The lists in them, up to the one that is open.
    pub lists: Vec<OwnedFormatItem>,
}

/// Items that own their parts.
#[derive(Drop)]
pub struct OwnedList {
    alloc: Global,
    items: Vec<OwnedFormatItem>,
    outer: Vec<Outer>,
    // Whether an allocation failed, after which nothing is said of the items.
    is_out_of_memory: bool,
}

impl OwnedList {
    /// Returns a list of no items.
    pub fn new(alloc: Global) -> OwnedList
        ensures items { result.items.items ≡ [] }
        ensures outer { result.outer.items ≡ [] }
    {
        OwnedList {
            alloc,
            items: Vec::new(alloc),
            outer: Vec::new(alloc),
            is_out_of_memory: false,
        }
    }

    /// Returns the items.
    ///
    /// # Errors
    ///
    /// Returns an error if an allocation failed for one.
    pub fn into_items(self) -> Result<Vec<OwnedFormatItem>, AllocError>
        ensures items { IfOk result (λ items. items ≡ self.items) }
        ensures all { IfOk result (λ _. self.is_out_of_memory ≡ false) }
    {
        if self.is_out_of_memory {
            return Err(AllocError);
        }
        Ok(self.items)
    }

    /// Remembers that an allocation failed, if one did.
    fn note(&mut self, has_failed: bool)
        ensures before { IsFalse self.new.is_out_of_memory → IsFalse self.old.is_out_of_memory }
        ensures now { IsFalse self.new.is_out_of_memory → IsFalse has_failed }
        ensures items { self.new.items ≡ self.old.items }
        ensures outer { self.new.outer ≡ self.old.outer }
    {
        if has_failed {
            self.is_out_of_memory = true;
        }
    }
}

/// Adds the bytes as a literal, a text where they are UTF-8.
fn put_literal(
    alloc: Global,
    items: &mut Vec<OwnedFormatItem>,
    bytes: &[u8],
) -> Result<(), AllocError>
    ensures { OnOk result (map owned_tree items.new.items
        ≡ map owned_tree items.old.items ++ literal_of bytes.now ∷ []) }
{
    items.push(literal(alloc, bytes)?)?;
    Ok(())
}

/// Adds a component.
fn put_component(items: &mut Vec<OwnedFormatItem>, component: Component) -> Result<(), AllocError>
    ensures { OnOk result (map owned_tree items.new.items
        ≡ map owned_tree items.old.items ++ of_component component ∷ []) }
{
    items.push(OwnedFormatItem::Component(component))?;
    Ok(())
}

/// The item that lists in brackets are, where there are as many as there have to be.
fn nested(
    alloc: Global,
    kind: ListKind,
    mut lists: Vec<OwnedFormatItem>,
) -> Result<OwnedFormatItem, AllocError>
    ensures { IfOk result (λ item. (left : ℕ) (tree : Tree)
        → reading.nested kind (map owned_tree lists.items) left ≡ Ok tree
        → owned_tree item ≡ tree) }
{
    match kind {
        ListKind::Optional if !lists.is_empty() => {
            let list = lists.remove(0);
            Ok(OwnedFormatItem::Optional(Box::new(alloc, list)?))
        }
        _ => Ok(OwnedFormatItem::First(lists)),
    }
}

/// Adds the item that lists in brackets are, where there are as many as there have to be.
fn put_lists(
    alloc: Global,
    items: &mut Vec<OwnedFormatItem>,
    kind: ListKind,
    lists: Vec<OwnedFormatItem>,
) -> Result<(), AllocError>
    ensures { OnOk result ((left : ℕ) (tree : Tree)
        → reading.nested kind (map owned_tree lists.items) left ≡ Ok tree
        → map owned_tree items.new.items ≡ map owned_tree items.old.items ++ tree ∷ []) }
{
    items.push(nested(alloc, kind, lists)?)?;
    Ok(())
}

/// Adds a list to the innermost brackets, if there are any.
fn add_to_last(outer: &mut Vec<Outer>, list: Vec<OwnedFormatItem>) -> Result<(), AllocError>
    ensures { OnOk result ((before lists all : List Tree) (others : List (List Tree × List Tree))
        → map owned_tree list.items ≡ all
        → outer_views outer.old.items ≡ (before, lists) ∷ others
        → outer_views outer.new.items ≡ (before, lists ++ all_of (trees all) ∷ []) ∷ others) }
{
    if let Some(last) = outer.pop() {
        let Outer { items, mut lists } = last;
        lists.push(OwnedFormatItem::Compound(list))?;
        outer.push(Outer { items, lists })?;
    }
    Ok(())
}

impl Items for OwnedList {
    ghost Holds = { λ _ fs list items.
        IsFalse list.is_out_of_memory → HoldsOwned fs list.items list.outer items };

    ghost HoldsLists = { λ _ fs _ items list lists.
        IsFalse list.is_out_of_memory → HoldsOwnedLists fs items list.items list.outer lists };

    ghost lender = { λ _. None };

    fn put_component(&mut self, component: Component) {
        let put = put_component(&mut self.items, component);
        self.note(put.is_err());
    }

    fn put_byte(&mut self, byte: u8) {
        let put = put_literal(self.alloc, &mut self.items, &[byte]);
        self.note(put.is_err());
    }

    fn put_literal(&mut self, text: &[u8], start: usize, len: usize) {
        let put = put_literal(self.alloc, &mut self.items, &text[start..start + len]);
        self.note(put.is_err());
    }

    /// None: it has an item for each of the five.
    fn put_parted(&mut self, _parted: Parted) -> bool {
        false
    }

    fn begin_lists(&mut self) {
        let items = mem::replace(&mut self.items, Vec::new(self.alloc));
        let begun = self.outer.push(Outer {
            items,
            lists: Vec::new(self.alloc),
        });
        self.note(begun.is_err());
    }

    fn open_list(&mut self, _depth: usize, _is_first: bool) {}

    fn close_list(&mut self, _depth: usize) {
        let list = mem::replace(&mut self.items, Vec::new(self.alloc));
        let closed = add_to_last(&mut self.outer, list);
        self.note(closed.is_err());
    }

    fn end_lists(&mut self, kind: ListKind) {
        if let Some(outer) = self.outer.pop() {
            let Outer { items, lists } = outer;
            self.items = items;
            let ended = put_lists(self.alloc, &mut self.items, kind, lists);
            self.note(ended.is_err());
        }
    }
}
