//! The law of plans: a plan gives for every value what it was made of gives.
ghost use Rattle.std.specs.Prelude.{◌≡◌, map};
ghost use Rattle.time_below.specs.Facts.{Facts};
ghost use Rattle.time_below.specs.Tree.{all_of, borrowed_tree, owned_tree, trees, v3_tree};
ghost use Rattle.time_fmt.specs.Description.{tree_outcome};

use crate::plan::Plan;
use time_below::format_description::{BorrowedFormatItem, FormatDescriptionV3, OwnedFormatItem};
use time_fmt::{BorrowedItems, Formattable, OwnedItems};

/// A plan with the outcome of a description's tree, as `Plan::of` and `Plan::of_items` make it,
/// gives for every value what the description gives: an item, a version 3 description or a list,
/// borrowed or owned.
pub fn plans_give_what_they_were_made_of(
    plan: &Plan,
    borrowed: &BorrowedFormatItem<'_>,
    owned: &OwnedFormatItem,
    v3: &FormatDescriptionV3<'_>,
    borrowed_list: BorrowedItems<'_>,
    owned_list: OwnedItems<'_>,
)
    ensures borrowed { (f : Facts) → ⟦<Plan as Formattable>⟧.outcome_of plan.now f
        ≡ tree_outcome (borrowed_tree borrowed.now) f
        → ⟦<Plan as Formattable>⟧.outcome_of plan.now f
        ≡ ⟦<BorrowedFormatItem<'static> as Formattable>⟧.outcome_of borrowed.now f }
    ensures owned { (f : Facts) → ⟦<Plan as Formattable>⟧.outcome_of plan.now f
        ≡ tree_outcome (owned_tree owned.now) f
        → ⟦<Plan as Formattable>⟧.outcome_of plan.now f
        ≡ ⟦<OwnedFormatItem as Formattable>⟧.outcome_of owned.now f }
    ensures v3 { (f : Facts) → ⟦<Plan as Formattable>⟧.outcome_of plan.now f
        ≡ tree_outcome (v3_tree v3.now) f
        → ⟦<Plan as Formattable>⟧.outcome_of plan.now f
        ≡ ⟦<FormatDescriptionV3<'static> as Formattable>⟧.outcome_of v3.now f }
    ensures borrowed_list { (f : Facts) → ⟦<Plan as Formattable>⟧.outcome_of plan.now f
        ≡ tree_outcome (all_of (trees (map borrowed_tree borrowed_list.entry.0.now))) f
        → ⟦<Plan as Formattable>⟧.outcome_of plan.now f
        ≡ ⟦<BorrowedItems<'static> as Formattable>⟧.outcome_of borrowed_list.entry f }
    ensures owned_list { (f : Facts) → ⟦<Plan as Formattable>⟧.outcome_of plan.now f
        ≡ tree_outcome (all_of (trees (map owned_tree owned_list.entry.0.now))) f
        → ⟦<Plan as Formattable>⟧.outcome_of plan.now f
        ≡ ⟦<OwnedItems<'static> as Formattable>⟧.outcome_of owned_list.entry f }
{}
