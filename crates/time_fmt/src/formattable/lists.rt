//! Lists of items, which mean what a compound of the same items means.
#![tactic(auto, using(crate::proofs::EndLemmas::answered))]

ghost use Rattle.std.specs.Prelude.{map};
ghost use Rattle.time_below.specs.Tree.{borrowed_tree, owned_tree, trees};
ghost use Rattle.time_below.specs.Width.{trees_width, are_guaranteed_text};
ghost use Rattle.time_fmt.specs.Description.{trees_outcome};

use crate::error::Format;
use crate::formattable::engine::write_nodes;
use crate::formattable::{Formattable, make_room};
use crate::metadata::ComputeMetadata;
use time_below::format_description::{
    BorrowedFormatItem, Metadata, OwnedFormatItem, metadata_of_nodes, nodes_fit,
};
use time_provide::ComponentProvider;

/// Borrowed items in order.
#[derive(Clone, Copy)]
pub struct BorrowedItems<'a>(pub &'a [BorrowedFormatItem<'a>]);

impl ComputeMetadata for BorrowedItems<'_> {
    ghost width_of = { λ items. trees_width (trees (map borrowed_tree items.0.now)) };

    ghost is_guaranteed = { λ items. are_guaranteed_text (trees (map borrowed_tree items.0.now)) };

    fn compute_metadata(&self) -> Metadata {
        metadata_of_nodes(self.0)
    }
}

impl Formattable for BorrowedItems<'_> {
    ghost outcome_of = { λ items. trees_outcome (trees (map borrowed_tree items.0.now)) };

    fn write_into<V: ComponentProvider>(
        &self,
        output: &mut Vec<u8>,
        value: &V,
        state: &mut V::State,
    ) -> Result<usize, Format> {
        let BorrowedItems(items) = *self;
        let begin = output.len();
        write_nodes(items, output, value, state)?;
        Ok(output.len() - begin)
    }

    // Row: a borrowed list of 11 items, whose maximum length is not computed where it fits.
    #[inline(always)]
    fn format_into<V: ComponentProvider>(
        &self,
        output: &mut Vec<u8>,
        value: &V,
        state: &mut V::State,
    ) -> Result<usize, Format> {
        if !nodes_fit(self.0, output.capacity() - output.len()) {
            let width = self.compute_metadata().max_bytes_needed;
            if width == usize::MAX || make_room(output, width).is_err() {
                return Err(Format::OutOfMemory);
            }
        }
        self.write_into(output, value, state)
    }
}

/// Owned items in order.
#[derive(Clone, Copy)]
pub struct OwnedItems<'a>(pub &'a [OwnedFormatItem]);

impl ComputeMetadata for OwnedItems<'_> {
    ghost width_of = { λ items. trees_width (trees (map owned_tree items.0.now)) };

    ghost is_guaranteed = { λ items. are_guaranteed_text (trees (map owned_tree items.0.now)) };

    fn compute_metadata(&self) -> Metadata {
        metadata_of_nodes(self.0)
    }
}

impl Formattable for OwnedItems<'_> {
    ghost outcome_of = { λ items. trees_outcome (trees (map owned_tree items.0.now)) };

    fn write_into<V: ComponentProvider>(
        &self,
        output: &mut Vec<u8>,
        value: &V,
        state: &mut V::State,
    ) -> Result<usize, Format> {
        let OwnedItems(items) = *self;
        let begin = output.len();
        write_nodes(items, output, value, state)?;
        Ok(output.len() - begin)
    }

    // Row: a borrowed list of 11 items, whose maximum length is not computed where it fits.
    #[inline(always)]
    fn format_into<V: ComponentProvider>(
        &self,
        output: &mut Vec<u8>,
        value: &V,
        state: &mut V::State,
    ) -> Result<usize, Format> {
        if !nodes_fit(self.0, output.capacity() - output.len()) {
            let width = self.compute_metadata().max_bytes_needed;
            if width == usize::MAX || make_room(output, width).is_err() {
                return Err(Format::OutOfMemory);
            }
        }
        self.write_into(output, value, state)
    }
}
