//! Items at the start of an array.
ghost use Rattle.std.specs.Prelude.{◌≡◌, ◌+◌, ◌<◌, ◌∷◌, [], List, ℕ, Option, None, length};
ghost use Rattle.std.specs.Prelude.{◌++◌, min, nat_le, slice_set};
ghost use Rattle.movaliren_c.specs.Described.{DescribeNothing, HoldsIn, HoldsItems, HoldsListsIn};
ghost use Rattle.movaliren_c.specs.Described.{IsItem, no_item};
ghost use Rattle.movaliren_c.specs.Flat.{closed_at, flat, or_at};
ghost use Rattle.time_below.specs.Tree.{Tree, all_of, trees};
ghost use Rattle.time_describe.specs.Items.{Adds};
ghost use Rattle.time_describe.specs.Reading.{Frame};

use crate::described::item::Item;
use crate::described::join::{join_last, run_of};
use crate::described::made_item::{NO_ITEM, byte_item, item_of, run_item, text_item};
use time_below::format_description::Component;
use time_describe::{Items, ListKind, Parted};

/// Items at the start of an array, where each date and each time of day is one. Those that do not
/// fit are counted alone. Those of lists that are not the first in their brackets are left out.
#[derive(Drop)]
pub struct ItemRoom<'a> {
    array: &'a mut [Item],
    // How many were made of the items of the text, and how many more it has.
    made: usize,
    rest: usize,
    hidden_at: Option<usize>,
}

impl<'a> ItemRoom<'a> {
    /// No items.
    pub fn new(array: &'a mut [Item]) -> ItemRoom<'a>
        ensures made { result.made ≡ 0 }
        ensures rest { result.rest ≡ 0 }
        ensures hidden { result.hidden_at ≡ None }
        ensures same_reference { result.array.ghost_name ≡ array.entry.ghost_name }
        ensures array { result.array.now ≡ array.old }
    {
        ItemRoom {
            array,
            made: 0,
            rest: 0,
            hidden_at: None,
        }
    }

    /// How many items the text has, up to the greatest `usize`.
    pub fn count(&self) -> usize
        ensures { result ≡ min (self.now.made + self.now.rest) 0xffff_ffff_ffff_ffff }
    {
        self.made.saturating_add(self.rest)
    }

    /// How many items are in the array, where it has room for all that the text has.
    pub fn made(&self) -> usize
        ensures { result ≡ self.now.made }
    {
        self.made
    }

    /// Whether the array has room for all that the text has.
    pub fn is_complete(&self) -> bool
        ensures value { result ≡ nat_le (min (self.now.made + self.now.rest) 0xffff_ffff_ffff_ffff)
            (length self.now.array.now) }
        ensures size { length self.now.array.now < 0xffff_ffff_ffff_ffff }
    {
        self.count() <= self.array.len()
    }

    /// Makes the first item of the array none.
    #[tactic(auto, using(crate::proofs::ItemLemmas::cleared))]
    pub fn clear(&mut self)
        ensures cleared { DescribeNothing self.new.array.now }
        ensures made { self.new.made ≡ self.old.made }
        ensures rest { self.new.rest ≡ self.old.rest }
        ensures len { length self.new.array.now ≡ length self.old.array.now }
        ensures same_reference { self.new.array.ghost_name ≡ self.old.array.ghost_name }
    {
        make_none(self.array);
    }

    /// Adds an item behind those that were made, if the array has room for it. It shows what one
    /// item of the text does, and so many others.
    fn push(&mut self, item: Item, others: usize)
        ensures pushed { (text : List ℕ) (all more : List Tree) → length more ≡ others + 1
            → IsItem text item (all_of (trees more))
            → HoldsItems text self.old.array.now self.old.made self.old.rest all
            → HoldsItems text self.new.array.now self.new.made self.new.rest (all ++ more) }
        ensures hidden { self.new.hidden_at ≡ self.old.hidden_at }
        ensures same_reference { self.new.array.ghost_name ≡ self.old.array.ghost_name }
    {
        self.rest = self.rest.saturating_add(others);
        if self.made < self.array.len() {
            self.array[self.made] = item;
            self.made += 1;
        } else {
            self.rest = self.rest.saturating_add(1);
        }
    }

    /// Adds an item behind all others, unless it is left out.
    fn put(&mut self, item: Item)
        ensures put { (text : List ℕ) (fs : List Frame) (tree : Tree) → IsItem text item tree
            → flat tree ≡ tree ∷ []
            → Adds (λ room all. HoldsIn text fs room.array.now room.made room.rest
            room.hidden_at all) self.old self.new (tree ∷ []) }
        ensures same_reference { self.new.array.ghost_name ≡ self.old.array.ghost_name }
    {
        if self.hidden_at.is_some() {
            return;
        }
        self.push(item, 0);
    }

    /// Makes one item of the last five where they are a date or a time of day.
    #[tactic(auto, using(crate::proofs::ItemLemmas::fewer_held))]
    fn join(&mut self)
        ensures same { (text : List ℕ) (fs : List Frame) (all : List Tree)
            → HoldsIn text fs self.old.array.now self.old.made self.old.rest self.old.hidden_at all
            → HoldsIn text fs self.new.array.now self.new.made self.new.rest
            self.new.hidden_at all }
        ensures same_reference { self.new.array.ghost_name ≡ self.old.array.ghost_name }
    {
        let made = join_last(self.array, self.made);
        self.rest = self.rest.saturating_add(self.made - made);
        self.made = made;
    }
}

/// Where the lists begin that are left out, if a list is opened in so many others.
fn opened_at(hidden_at: Option<usize>, is_first: bool, depth: usize) -> Option<usize>
    ensures { result ≡ or_at hidden_at is_first depth }
{
    match hidden_at {
        Some(outer) => Some(outer),
        None if is_first => None,
        None => Some(depth),
    }
}

/// The same, if a list is closed in so many others.
fn closed_at(hidden_at: Option<usize>, depth: usize) -> Option<usize>
    ensures { result ≡ closed_at hidden_at depth }
{
    match hidden_at {
        Some(outer) if outer != depth => Some(outer),
        _ => None,
    }
}

/// Makes the first item of an array none.
pub fn make_none(array: &mut [Item])
    ensures stored { 0 < length array.old → array.new ≡ slice_set array.old 0 no_item }
    ensures len { length array.new ≡ length array.old }
{
    if !array.is_empty() {
        array[0] = NO_ITEM;
    }
}

impl Items for ItemRoom<'_> {
    ghost use Rattle.std.specs.Prelude.{Some};

    ghost Holds = { λ text fs room items. HoldsIn text fs room.array.now room.made room.rest
        room.hidden_at items };

    ghost HoldsLists = { λ text fs _ items room lists. HoldsListsIn text fs items room.array.now
        room.made room.rest room.hidden_at lists };

    ghost lender = { λ room. Some room.array.ghost_name };

    fn put_component(&mut self, component: Component) {
        self.put(item_of(component));
        self.join();
    }

    fn put_byte(&mut self, byte: u8) {
        self.put(byte_item(byte));
    }

    fn put_parted(&mut self, parted: Parted) -> bool {
        match run_of(parted) {
            Some(run) => {
                self.push(run_item(run), 4);
                true
            }
            None => false,
        }
    }

    fn put_literal(&mut self, text: &[u8], start: usize, len: usize) {
        self.put(text_item(text, start, len));
    }

    #[tactic(auto, using(crate::proofs::ItemLemmas::begun))]
    fn begin_lists(&mut self) {}

    #[tactic(auto, using(crate::proofs::ItemLemmas::opened))]
    fn open_list(&mut self, depth: usize, is_first: bool) {
        self.hidden_at = opened_at(self.hidden_at, is_first, depth);
    }

    fn close_list(&mut self, depth: usize) {
        self.hidden_at = closed_at(self.hidden_at, depth);
    }

    fn end_lists(&mut self, _kind: ListKind) {}
}
