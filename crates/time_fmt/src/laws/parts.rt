//! Laws of descriptions by their parts: what each kind of part means, and that a text of parts
//! means the list of the items that the parts are.
ghost use Rattle.std.specs.Char.{is_ascii};
ghost use Rattle.std.specs.List.{list_all};
ghost use Rattle.std.specs.Prelude.{◌≡◌, ◌+◌, ◌&&◌, length, true};
ghost use Rattle.time_below.specs.Facts.{Facts};
ghost use Rattle.time_below.specs.Width.{component_width};
ghost use Rattle.time_fmt.specs.Description.{component_outcome};
ghost use Rattle.time_fmt.specs.Outcome.{done, join};
ghost use Rattle.time_fmt.specs.Parts.{AsciiIsText, ItemMeansItsList, PairMeansBothLists};

use crate::formattable::{Formattable, Literal};
use crate::metadata::ComputeMetadata;
use crate::modifier::Modifier;

/// A literal gives its bytes and no refusal, has their number as its maximum length, and the
/// guarantee where all of them are ASCII.
pub fn literal_means_its_bytes<const N: usize>(text: Literal<N>)
    ensures outcome { (f : Facts)
        → ⟦<Literal<N> as Formattable>⟧.outcome_of text.entry f ≡ done text.entry.0 }
    ensures width { ⟦<Literal<N> as ComputeMetadata>⟧.width_of text.entry ≡ length text.entry.0 }
    ensures guarantee { ⟦<Literal<N> as ComputeMetadata>⟧.is_guaranteed text.entry
        ≡ list_all is_ascii text.entry.0 }
{}

/// The choices of a component have its outcome and its maximum length, and always the guarantee.
pub fn choices_mean_their_component<M: Modifier>(part: M)
    ensures outcome { (f : Facts)
        → ⟦<M as Formattable>⟧.outcome_of part f ≡ component_outcome (M.component_of part) f }
    ensures width { ⟦<M as ComputeMetadata>⟧.width_of part ≡ component_width (M.component_of part) }
    ensures guarantee { ⟦<M as ComputeMetadata>⟧.is_guaranteed part ≡ true }
{}

/// A pair has the first outcome followed by the second, both maximum lengths, and the guarantee
/// where both have it.
pub fn pair_means_one_after_the_other<A: Formattable + Copy, B: Formattable + Copy>(pair: (A, B))
    ensures outcome { (f : Facts)
        → ⟦<(A, B) as Formattable>⟧.outcome_of pair f
        ≡ join (A.outcome_of pair.0 f) (B.outcome_of pair.1 f) }
    ensures width { ⟦<(A, B) as ComputeMetadata>⟧.width_of pair
        ≡ A.width_of pair.0 + B.width_of pair.1 }
    ensures guarantee { ⟦<(A, B) as ComputeMetadata>⟧.is_guaranteed pair
        ≡ (A.is_guaranteed pair.0 && B.is_guaranteed pair.1) }
{}

/// A pair of descriptions that mean lists means the two lists in one: its outcome, its maximum
/// length and its guarantee are those of that list.
pub fn pair_means_both_lists()
    ensures { PairMeansBothLists }
{}

/// An item, as a component or a literal, means the list of it alone.
#[tactic(auto, using(crate::proofs::PartLemmas::item_means_its_list))]
pub fn item_means_its_list()
    ensures { ItemMeansItsList }
{}

/// A text in ASCII has the guarantee of the item with this text. (Any other `Literal` has none, as
/// an item of bytes has none.)
pub fn ascii_is_text()
    ensures { AsciiIsText }
{}
