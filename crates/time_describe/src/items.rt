//! Where the items of a text go.
ghost use Rattle.std.specs.Prelude.{◌≡◌, ◌+◌, ◌≤◌, ◌∷◌, ◌++◌, [], ℕ, List, Option, Ok};
ghost use Rattle.std.specs.Prelude.{IsFalse, IsTrue, length, slice_range};
ghost use base.Fml.{GName};
ghost use Rattle.time_below.specs.Tree.{Tree, trees, of_component, all_of};
ghost use Rattle.time_describe.specs.Items.{Adds, is_nil, items_of_parted};
ghost use Rattle.time_describe.specs.Literal.{literal_of};
ghost use Rattle.time_describe.specs.Reading.{Frame};
ghost use Rattle.time_describe.specs.Reading as reading;
ghost use Rattle.time_describe.specs.declared.items.ListKind.{ListKind};

use time_below::format_description::Component;

/// The kind of the lists that brackets hold.
#[derive(Clone, Copy)]
pub enum ListKind {
    /// One list, which a parser may leave out.
    Optional,
    /// Lists of which a parser takes the first that fits.
    First,
}

/// Three components, with a byte between each two.
#[derive(Clone, Copy)]
pub struct Parted {
    /// The first component.
    pub first: Component,
    /// The byte after it.
    pub before_second: u8,
    /// The second component.
    pub second: Component,
    /// The byte after it.
    pub before_third: u8,
    /// The third component.
    pub third: Component,
}

/// Items that are added at the end of a list, and lists of them in one another.
///
/// No call of it fails, so that a text is read to its first fault whatever the list does. A list
/// that had no memory for an item remembers that.
pub trait Items {
    /// Whether it holds these items of a text, in these open lists, of which the first is the
    /// innermost.
    ghost Holds: { List ℕ → List Frame → Self → List Tree → Type 0 };

    /// Whether it holds these lists of items, in brackets after these items, in these open lists.
    ghost HoldsLists: { List ℕ → List Frame → ListKind → List Tree → Self → List Tree → Type 0 };

    /// What it is borrowed from.
    ghost lender: { Self → Option GName };

    /// Adds a component.
    fn put_component(&mut self, component: Component)
        ensures put { (text : List ℕ) (fs : List Frame)
            → Adds (Holds text fs) self.old self.new (of_component component ∷ []) }
        ensures lender { lender self.new ≡ lender self.old };

    /// Adds a literal of one byte.
    fn put_byte(&mut self, byte: u8)
        ensures put { (text : List ℕ) (fs : List Frame)
            → Adds (Holds text fs) self.old self.new (literal_of (byte ∷ []) ∷ []) }
        ensures lender { lender self.new ≡ lender self.old };

    /// Adds a literal of so many bytes of the text, from a position on.
    fn put_literal(&mut self, text: &[u8], start: usize, len: usize)
        requires within { start + len ≤ length text.now }
        ensures put { (fs : List Frame) → Adds (Holds text.now fs) self.old self.new
            (literal_of (slice_range text.now start (start + len)) ∷ []) }
        ensures lender { lender self.new ≡ lender self.old };

    /// Adds three components, and between them literals of one byte, where no list is open. Returns
    /// whether it did: where it has no shorter way, it adds nothing.
    fn put_parted(&mut self, parted: Parted) -> bool
        ensures put { IsTrue result → (text : List ℕ)
            → Adds (Holds text []) self.old self.new (items_of_parted parted) }
        ensures same { IsFalse result → self.new ≡ self.old }
        ensures lender { lender self.new ≡ lender self.old };

    /// Begins brackets with lists.
    fn begin_lists(&mut self)
        ensures begun { (text : List ℕ) (fs : List Frame) (kind : ListKind) (items : List Tree)
            → Holds text fs self.old items → HoldsLists text fs kind items self.new [] }
        ensures lender { lender self.new ≡ lender self.old };

    /// Opens a list in brackets, in so many other lists.
    fn open_list(&mut self, depth: usize, is_first: bool)
        ensures opened { (text : List ℕ) (f : Frame) (fs : List Frame)
            → depth ≡ length fs → is_first ≡ is_nil f.lists
            → HoldsLists text fs f.kind f.items self.old f.lists → Holds text (f ∷ fs) self.new [] }
        ensures lender { lender self.new ≡ lender self.old };

    /// Closes the innermost list, if one is open, which stands in so many others.
    fn close_list(&mut self, depth: usize)
        ensures closed { (text : List ℕ) (f : Frame) (fs : List Frame) (items : List Tree)
            → depth ≡ length fs → Holds text (f ∷ fs) self.old items
            → HoldsLists text fs f.kind f.items self.new (f.lists ++ all_of (trees items) ∷ []) }
        ensures lender { lender self.new ≡ lender self.old };

    /// Ends brackets with lists, if some were begun, and adds the item that they are.
    fn end_lists(&mut self, kind: ListKind)
        ensures ended { (text : List ℕ) (fs : List Frame) (items lists : List Tree)
            (left : ℕ) (item : Tree) → HoldsLists text fs kind items self.old lists
            → reading.nested kind lists left ≡ Ok item
            → Holds text fs self.new (items ++ item ∷ []) }
        ensures lender { lender self.new ≡ lender self.old };
}
