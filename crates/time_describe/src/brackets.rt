//! The syntax of `time`'s format descriptions, version 2, as `[year]-[month]-[day]`.
ghost use Rattle.std.specs.Prelude.{◌≡◌, [], length, Err, Ok, IfOk, IfErr, OnOk};
ghost use Rattle.time_below.specs.Tree.{owned_tree};
ghost use Rattle.time_describe.specs.Description.{tree_of, IsFound, IsWithin, Says};
ghost use Rattle.time_describe.specs.Description.{SaysFault};
ghost use Rattle.time_describe.specs.Reading.{described, read, outside};

mod building;
mod frame;
pub mod in_text;
mod marks;
mod names;
mod pieces;
pub mod reason;
mod values;

use crate::fault::{Fault, InvalidDescription};
use crate::items::Items;
use crate::syntax::{Syntax, parse};
use building::step;
use frame::Frames;
use marks::first_item_over_limit;
use reason::BracketReason;
use std::alloc::Global;
use time_below::format_description::OwnedFormatItem;

/// The syntax of brackets.
pub struct Brackets;

/// Adds the items of a text that has no more of them than allowed.
fn put_items<I: Items>(items: &mut I, text: &[u8]) -> Result<(), Fault<BracketReason>>
    requires { I.Holds text.now [] items.old [] }
    ensures found { OnOk result
        (IsFound (read [] outside [] [] text.now) (I.Holds text.now [] items.new)) }
    ensures fault { IfErr result (λ fault. read [] outside [] [] text.now ≡ Err fault) }
    ensures lender { I.lender items.new ≡ I.lender items.old }
{
    let mut frames = Frames::new();
    let mut rest = text;
    'steps: while !rest.is_empty() {
        rest = step(items, &mut frames, text, rest)?;
    }
    match frames.pop() {
        None => Ok(()),
        Some(frame) => Err(Fault {
            reason: BracketReason::UnclosedBracket,
            left: frame.opened_list,
        }),
    }
}

impl Syntax for Brackets {
    type Reason = BracketReason;

    ghost described = { described };

    fn put_all<I: Items>(items: &mut I, text: &[u8]) -> Result<(), Fault<BracketReason>> {
        match first_item_over_limit(b'[', b'\\', text) {
            None => put_items(items, text),
            Some(left) => Err(Fault {
                reason: BracketReason::TooManyItems,
                left,
            }),
        }
    }
}

/// Returns the description that a text in brackets is.
///
/// # Errors
///
/// The error is the first fault, with the index of its byte. At most 32 lists may stand in one
/// another, and 65,536 items may begin: of a text in which more begin, that alone is the fault. A
/// failed allocation is the error only of a text without a fault. Nothing is kept then.
///
/// # Examples
///
/// ```text
/// let description = parse_owned(alloc, b"[day padding:none] [month repr:long]")?;
/// date.format_into(&mut line, &description)?; // 22 November
/// ```
pub fn parse_owned(alloc: Global, text: &[u8]) -> Result<OwnedFormatItem, InvalidDescription>
    ensures found { IfOk result (λ item. tree_of (described text.now) ≡ Ok (owned_tree item)) }
    ensures says { IfErr result (Says (length text.now) (described text.now)) }
    ensures inside { IfErr result (IsWithin (length text.now)) }
    ensures says_fault { IfErr result (SaysFault (described text.now)) }
{
    parse::<Brackets>(alloc, text)
}
