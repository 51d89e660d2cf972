//! A description over borrowed parts.
ghost use Rattle.time_below.specs.Size.{borrowed_size};
ghost use Rattle.time_below.specs.Tree.{borrowed_tree};

use crate::format_description::{Component, Layer, Node, component_bound};

/// A description whose parts are borrowed.
///
/// It is walked by recursion, so the stack bounds its depth. A test formats 1,000 levels of items
/// in items; a level took at most 305 bytes of the stack when it was measured.
#[derive(Clone, Drop)]
pub enum BorrowedFormatItem<'a> {
    /// Bytes, which need not be UTF-8.
    Literal(&'a [u8]),
    /// A text.
    StringLiteral(&'a str),
    /// A part of the value.
    Component(Component),
    /// Items in order.
    Compound(&'a [BorrowedFormatItem<'a>]),
    /// An item that a parser may leave out. It is always written.
    Optional(&'a BorrowedFormatItem<'a>),
    /// Items of which a parser takes the first that fits. The first one alone is written.
    First(&'a [BorrowedFormatItem<'a>]),
}

impl Node for BorrowedFormatItem<'_> {
    ghost tree = { borrowed_tree };

    ghost size = { borrowed_size };

    fn layer(&self) -> Layer<'_, Self> {
        match self {
            BorrowedFormatItem::Literal(bytes) => Layer::Bytes(bytes),
            BorrowedFormatItem::StringLiteral(text) => Layer::Text(text),
            BorrowedFormatItem::Component(component) => Layer::Component(*component),
            BorrowedFormatItem::Compound(items) => Layer::All(items),
            BorrowedFormatItem::Optional(item) => Layer::Optional(item),
            BorrowedFormatItem::First(items) => Layer::First(items),
        }
    }

    // Row: a borrowed list of 11 items. A `match` takes longer than two tests.
    fn quick_bound(&self) -> Option<usize> {
        if let BorrowedFormatItem::Component(component) = self {
            return Some(component_bound(component));
        }
        if let BorrowedFormatItem::StringLiteral(text) = self {
            return Some(text.len());
        }
        None
    }
}
