//! Laws of descriptions: the contract of each function is the law, and its body does nothing.
ghost use Rattle.std.specs.Prelude.{◌≡◌, ◌↔◌, map, true};
ghost use Rattle.time_below.specs.Tree.{all_of, borrowed_tree, owned_tree, v3_tree, trees};
ghost use Rattle.time_below.specs.Width.{component_width};
ghost use Rattle.time_fmt.specs.Ends.{refusal_of};
ghost use Rattle.time_fmt.specs.Errors.{format_in, range_in};
ghost use Rattle.time_fmt.specs.Laws.{Means, EqualTreesHaveEqualOutcomes, FirstIsItsFirstItem};
ghost use Rattle.time_fmt.specs.Laws.{ListIsItsItemsInOrder, OutcomesAreAMonoid};
ghost use Rattle.time_fmt.specs.Laws.{MetadataIsACommutativeMonoid};
ghost use Rattle.time_fmt.specs.Longest.{ReachesWidth};
ghost use Rattle.time_fmt.specs.Outcome.{Names};
ghost use Rattle.time_fmt.specs.Sink.{vec_buffer};

pub mod choices;
pub mod parts;

use crate::error::{Error, Format};
use crate::formattable::{BorrowedItems, Formattable, OwnedItems};
use crate::metadata::ComputeMetadata;
use crate::refused::Refused;
use crate::sink::Sink;
use std::convert::TryFrom;
use time_below::format_description::{
    BorrowedFormatItem, Component, FormatDescriptionV3, OwnedFormatItem,
};
use time_below::{ComponentRange, DifferentVariant};

/// The maximum length of a component is that of the table, and it has the guarantee. Where it is
/// not deprecated, its text on one of two values is as long as the maximum length.
#[tactic(auto, using(crate::proofs::LongestLemmas::reaches_width))]
pub fn component_has_its_width(component: Component)
    ensures width { ⟦<Component as ComputeMetadata>⟧.width_of component
        ≡ component_width component }
    ensures guarantee { ⟦<Component as ComputeMetadata>⟧.is_guaranteed component ≡ true }
    ensures reached { ReachesWidth component }
{}

/// A borrowed item has the outcome, the maximum length and the guarantee of its tree.
pub fn borrowed_item_means_its_tree(item: &BorrowedFormatItem<'_>)
    ensures { Means
        (⟦<BorrowedFormatItem<'static> as Formattable>⟧.outcome_of item.now)
        (⟦<BorrowedFormatItem<'static> as ComputeMetadata>⟧.width_of item.now)
        (⟦<BorrowedFormatItem<'static> as ComputeMetadata>⟧.is_guaranteed item.now)
        (borrowed_tree item.now) }
{}

/// An owned item has the outcome, the maximum length and the guarantee of its tree.
pub fn owned_item_means_its_tree(item: &OwnedFormatItem)
    ensures { Means
        (⟦<OwnedFormatItem as Formattable>⟧.outcome_of item.now)
        (⟦<OwnedFormatItem as ComputeMetadata>⟧.width_of item.now)
        (⟦<OwnedFormatItem as ComputeMetadata>⟧.is_guaranteed item.now)
        (owned_tree item.now) }
{}

/// A version 3 description has the outcome, the maximum length and the guarantee of its tree.
pub fn v3_description_means_its_tree(description: &FormatDescriptionV3<'_>)
    ensures { Means
        (⟦<FormatDescriptionV3<'static> as Formattable>⟧.outcome_of description.now)
        (⟦<FormatDescriptionV3<'static> as ComputeMetadata>⟧.width_of description.now)
        (⟦<FormatDescriptionV3<'static> as ComputeMetadata>⟧.is_guaranteed description.now)
        (v3_tree description.now) }
{}

/// Borrowed items have the outcome, the maximum length and the guarantee of the list of their
/// trees.
pub fn borrowed_items_mean_their_list(items: BorrowedItems<'_>)
    ensures { Means
        (⟦<BorrowedItems<'static> as Formattable>⟧.outcome_of items.entry)
        (⟦<BorrowedItems<'static> as ComputeMetadata>⟧.width_of items.entry)
        (⟦<BorrowedItems<'static> as ComputeMetadata>⟧.is_guaranteed items.entry)
        (all_of (trees (map borrowed_tree items.entry.0.now))) }
{}

/// Owned items have the outcome, the maximum length and the guarantee of the list of their trees.
pub fn owned_items_mean_their_list(items: OwnedItems<'_>)
    ensures { Means
        (⟦<OwnedItems<'static> as Formattable>⟧.outcome_of items.entry)
        (⟦<OwnedItems<'static> as ComputeMetadata>⟧.width_of items.entry)
        (⟦<OwnedItems<'static> as ComputeMetadata>⟧.is_guaranteed items.entry)
        (all_of (trees (map owned_tree items.entry.0.now))) }
{}

/// Two descriptions, of any types, whose trees are equal once bytes are read as texts and
/// deprecated components as current ones, append the same bytes and give the same refusal.
#[tactic(auto, using(crate::proofs::LawLemmas::equal_outcomes))]
pub fn equal_trees_have_equal_outcomes()
    ensures { EqualTreesHaveEqualOutcomes }
{}

/// A `First` is its first item alone, or nothing.
pub fn first_is_its_first_item()
    ensures { FirstIsItsFirstItem }
{}

/// A list is its items in order, up to the first that is refused.
pub fn list_is_its_items_in_order()
    ensures { ListIsItsItemsInOrder }
{}

/// The order of joins does not matter for outcomes, and the empty text changes nothing.
pub fn outcomes_are_a_monoid()
    ensures { OutcomesAreAMonoid }
{}

/// What is known of texts may be added in any order.
pub fn metadata_is_a_commutative_monoid()
    ensures { MetadataIsACommutativeMonoid }
{}

/// An error becomes the variant that holds it, and is given back by that variant alone. A refusal
/// of the engine becomes the error of its name.
pub fn errors_hold_what_they_are_made_of(
    range: &ComponentRange,
    format: &Format,
    error: &Error,
    refused: Refused,
)
    ensures range { ⟦<Format as From<ComponentRange>>⟧.from_gives range.now format.now
        ↔ (format.now ≡ Format.ComponentRange range.now) }
    ensures format { ⟦<Error as From<Format>>⟧.from_gives format.now error.now
        ↔ (error.now ≡ Error.Format format.now) }
    ensures refused { ⟦<Format as From<Refused>>⟧.from_gives refused format.now
        ↔ Names format.now (refusal_of refused) }
{}

/// What is given back is the range in an error, or the error of a format in an outer one; of each
/// other variant it is `DifferentVariant`.
pub fn errors_give_back_what_they_hold(
    format: &Format,
    error: &Error,
    range: &Result<ComponentRange, DifferentVariant>,
    inner: &Result<Format, DifferentVariant>,
)
    ensures range { ⟦<ComponentRange as TryFrom<Format>>⟧.try_from_gives format.now range.now
        ↔ (range.now ≡ range_in format.now) }
    ensures format { ⟦<Format as TryFrom<Error>>⟧.try_from_gives error.now inner.now
        ↔ (inner.now ≡ format_in error.now) }
{}

/// What a vector holds as a sink are its bytes, by their number, and its capacity.
pub fn vectors_are_sinks_of_their_bytes(output: &Vec<u8>)
    ensures { ⟦<Vec<u8> as Sink>⟧.buffer output.now ≡ vec_buffer output.now }
{}
