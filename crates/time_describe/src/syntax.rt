//! A syntax of descriptions, and what is made of a text in any.
ghost use Rattle.std.specs.Prelude.{◌≡◌, ℕ, List, [], length, Err, Ok, Result, IfOk, IfErr, OnOk};
ghost use Rattle.time_below.specs.Tree.{Tree, owned_tree};
ghost use Rattle.time_describe.specs.Description.{IsFound, IsWithin, LiesWithin, Says};
ghost use Rattle.time_describe.specs.Description.{SaysFault, tree_of};
ghost use Rattle.time_describe.specs.declared.fault.Fault.{Fault};

use crate::fault::{Fault, InvalidDescription};
use crate::items::Items;
use crate::owned_list::OwnedList;
use std::alloc::Global;
use time_below::format_description::OwnedFormatItem;

/// A syntax of descriptions.
pub trait Syntax {
    /// What can be wrong in a text.
    type Reason: Copy;

    /// The items that a text describes, or its first fault.
    ghost described: { List ℕ → Result (List Tree) (Fault Self.Reason) };

    /// Adds the items that a text describes to a list that has none.
    ///
    /// # Errors
    ///
    /// Returns the first fault of a text that is no description. The list may hold the items before
    /// it then.
    fn put_all<I: Items>(items: &mut I, text: &[u8]) -> Result<(), Fault<Self::Reason>>
        requires none { I.Holds text.now [] items.old [] }
        ensures found { OnOk result (IsFound (described text.now) (I.Holds text.now [] items.new)) }
        ensures fault { IfErr result (λ fault. described text.now ≡ Err fault) }
        ensures within { IfErr result (LiesWithin (length text.now)) }
        ensures lender { I.lender items.new ≡ I.lender items.old };
}

/// Returns the description that a text is.
///
/// # Errors
///
/// Returns the first fault and the index of its byte. Only for a text without a fault it returns
/// that an allocation failed. Nothing is kept then.
pub fn parse<S: Syntax>(
    alloc: Global,
    text: &[u8],
) -> Result<OwnedFormatItem, InvalidDescription<S::Reason>>
    ensures found { IfOk result (λ item. tree_of (S.described text.now) ≡ Ok (owned_tree item)) }
    ensures says { IfErr result (Says (length text.now) (S.described text.now)) }
    ensures inside { IfErr result (IsWithin (length text.now)) }
    ensures says_fault { IfErr result (SaysFault (S.described text.now)) }
{
    let mut items = OwnedList::new(alloc);
    match S::put_all::<OwnedList>(&mut items, text) {
        Ok(()) => match items.into_items() {
            Ok(items) => Ok(OwnedFormatItem::Compound(items)),
            Err(_) => Err(InvalidDescription::OutOfMemory),
        },
        Err(fault) => {
            Err(InvalidDescription::Invalid {
                reason: fault.reason,
                index: fault.index_in(text),
            })
        }
    }
}
