//! Trees of each kind.
#![tactic(auto, using(crate::proofs::EndLemmas::answered))]

ghost use Rattle.std.specs.Prelude.{◌+◌, ◌≤◌, vec_len};
ghost use Rattle.time_below.specs.Tree.{borrowed_tree, owned_tree, v3_tree};
ghost use Rattle.time_below.specs.Width.{tree_width, is_guaranteed_text};
ghost use Rattle.time_fmt.specs.Description.{tree_outcome};
ghost use Rattle.time_fmt.specs.Guarantee.{IsTextIf};
ghost use Rattle.time_fmt.specs.Outcome.{Appends};
ghost use Rattle.time_fmt.specs.Room.{HasRoom};

use crate::error::Format;
use crate::formattable::Formattable;
use crate::formattable::engine::write_node;
use crate::metadata::ComputeMetadata;
use time_below::format_description::{
    BorrowedFormatItem, FormatDescriptionV3, FormatDescriptionV3Inner, Metadata, OwnedFormatItem,
    metadata_of_node,
};
use time_provide::ComponentProvider;

impl ComputeMetadata for BorrowedFormatItem<'_> {
    ghost width_of = { λ item. tree_width (borrowed_tree item) };

    ghost is_guaranteed = { λ item. is_guaranteed_text (borrowed_tree item) };

    fn compute_metadata(&self) -> Metadata {
        metadata_of_node(self)
    }
}

impl Formattable for BorrowedFormatItem<'_> {
    ghost outcome_of = { λ item. tree_outcome (borrowed_tree item) };

    fn write_into<V: ComponentProvider>(
        &self,
        output: &mut Vec<u8>,
        value: &V,
        state: &mut V::State,
    ) -> Result<usize, Format> {
        let begin = output.len();
        write_node(self, output, value, state)?;
        Ok(output.len() - begin)
    }
}

impl ComputeMetadata for OwnedFormatItem {
    ghost width_of = { λ item. tree_width (owned_tree item) };

    ghost is_guaranteed = { λ item. is_guaranteed_text (owned_tree item) };

    fn compute_metadata(&self) -> Metadata {
        metadata_of_node(self)
    }
}

impl Formattable for OwnedFormatItem {
    ghost outcome_of = { λ item. tree_outcome (owned_tree item) };

    fn write_into<V: ComponentProvider>(
        &self,
        output: &mut Vec<u8>,
        value: &V,
        state: &mut V::State,
    ) -> Result<usize, Format> {
        let begin = output.len();
        write_node(self, output, value, state)?;
        Ok(output.len() - begin)
    }
}

impl ComputeMetadata for FormatDescriptionV3<'_> {
    ghost width_of = { λ description. tree_width (v3_tree description) };

    ghost is_guaranteed = { λ description. is_guaranteed_text (v3_tree description) };

    fn compute_metadata(&self) -> Metadata {
        self.metadata()
    }
}

impl Formattable for FormatDescriptionV3<'_> {
    ghost outcome_of = { λ description. tree_outcome (v3_tree description) };

    fn write_into<V: ComponentProvider>(
        &self,
        output: &mut Vec<u8>,
        value: &V,
        state: &mut V::State,
    ) -> Result<usize, Format> {
        v3_write_into(self.inner(), output, value, state)
    }
}

/// Appends the text of the description, and allocates nothing.
///
/// The output needs spare capacity for its maximum length. Returns the number of bytes appended.
///
/// # Errors
///
/// A component that is refused ends the text. The bytes appended before it stay.
pub fn v3_write_into<V: ComponentProvider>(
    item: &FormatDescriptionV3Inner<'_>,
    output: &mut Vec<u8>,
    value: &V,
    state: &mut V::State,
) -> Result<usize, Format>
    requires room { HasRoom output.old (tree_width (v3_tree item.now)) }
    requires agrees { V.agrees state.old value.now }
    ensures appends { Appends output.old output.new result
        (tree_outcome (v3_tree item.now) (V.facts value.now)) }
    ensures within { vec_len output.new ≤ vec_len output.old + tree_width (v3_tree item.now) }
    ensures text { IsTextIf (is_guaranteed_text (v3_tree item.now))
        (tree_outcome (v3_tree item.now) (V.facts value.now)) }
    ensures agrees { V.agrees state.new value.now }
{
    let begin = output.len();
    write_node(item, output, value, state)?;
    Ok(output.len() - begin)
}
