//! Literals, and how many items there may be.
ghost use Rattle.std.specs.Prelude.{◌≡◌, IfOk};
ghost use Rattle.time_below.specs.Tree.{owned_tree};
ghost use Rattle.time_describe.specs.Literal.{literal_of};

use std::alloc::{AllocError, Global};
use std::str;
use time_below::format_description::OwnedFormatItem;

/// How many items a description from a text may have.
pub const MOST_ITEMS: usize = 65_536;

/// Returns the literal of these bytes: a text where they are UTF-8.
pub fn literal(alloc: Global, bytes: &[u8]) -> Result<OwnedFormatItem, AllocError>
    ensures { IfOk result (λ item. owned_tree item ≡ literal_of bytes.now) }
{
    match str::from_utf8(bytes) {
        Ok(text) => Ok(OwnedFormatItem::StringLiteral(String::from_str(alloc, text)?)),
        Err(_) => Ok(OwnedFormatItem::Literal(Vec::from_slice(alloc, bytes)?)),
    }
}
