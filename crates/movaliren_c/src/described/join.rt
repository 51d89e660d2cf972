//! Dates and times of day among the items of a text, each in one item.
ghost use Rattle.std.specs.Prelude.{◌≡◌, ◌≤◌, ◌∷◌, [], ℕ, IfSome, List, Ok};
ghost use Rattle.std.specs.Prelude.{length, take};
ghost use Rattle.movaliren_c.specs.Described.{Describes, IsItem, Joins, item_of_run};
ghost use Rattle.movaliren_c.specs.Items.{item_tree};
ghost use Rattle.time_below.specs.Tree.{Tree, all_of, byte_literal, of_component, trees};
ghost use Rattle.time_describe.specs.Items.{items_of_parted};

use crate::described::item::{Item, component_of};
use crate::described::made_item::run_item;
use time_below::format_description::Component;
use time_describe::Parted;
use time_plan::{Run, Separators};

/// Makes one item of the last five of so many, if they are a date or a time of day. Returns how
/// many there are then.
pub fn join_last(items: &mut [Item], made: usize) -> usize
    ensures same { made ≤ length items.old → (text : List ℕ) (all : List Tree)
        → Describes text (take made items.old) all → Describes text (take result items.new) all }
    ensures fewer { result ≤ made }
    ensures len { length items.new ≡ length items.old }
{
    if made < 5 || made > items.len() {
        return made;
    }
    match joined(&items[made - 5..made]) {
        Some(whole) => {
            items[made - 5] = whole;
            made - 4
        }
        None => made,
    }
}

/// The date or the time of day that the first five items are, if they are one.
fn joined(items: &[Item]) -> Option<Item>
    ensures five { IfSome result (λ _. 5 ≤ length items.now) }
    ensures joins { IfSome result (λ item. (text : List ℕ) → Joins text (take 5 items.now) item) }
{
    let [first, before_second, second, before_third, third, ..] = items else {
        return None;
    };
    let (before_second, before_third) = (byte_in(before_second)?, byte_in(before_third)?);
    let parted = Parted {
        first: component_in(first)?,
        before_second,
        second: component_in(second)?,
        before_third,
        third: component_in(third)?,
    };
    Some(run_item(run_of(parted)?))
}

/// The date or the time of day that three components are with these bytes between them, if they are
/// one and the bytes are ASCII.
#[tactic(auto, using(crate::proofs::JoinLemmas::runs_show, crate::proofs::StepLemmas::ascii_is_text))]
pub fn run_of(parted: Parted) -> Option<Run>
    ensures { IfSome result (λ run. (text : List ℕ)
        → IsItem text (item_of_run run) (all_of (trees (items_of_parted parted)))) }
{
    let (first, second) = (parted.before_second, parted.before_third);
    if !first.is_ascii() || !second.is_ascii() {
        return None;
    }
    Run::of(
        parted.first,
        parted.second,
        parted.third,
        Separators { first, second },
    )
}

/// The component that an item is, if it is one.
#[tactic(auto, using(crate::proofs::JoinLemmas::component_there))]
fn component_in(item: &Item) -> Option<Component>
    ensures { IfSome result (λ component. (text : List ℕ)
        → item_tree text item.now ≡ Ok (of_component component)) }
{
    if item.kind >= 252 {
        return None;
    }
    component_of(item).ok()
}

/// The byte that an item is, if it is one.
fn byte_in(item: &Item) -> Option<u8>
    ensures { IfSome result (λ byte. (text : List ℕ)
        → item_tree text item.now ≡ Ok (byte_literal (byte ∷ []))) }
{
    if item.kind == 254 {
        return Some(item.byte);
    }
    None
}
