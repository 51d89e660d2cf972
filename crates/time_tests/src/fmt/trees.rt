//! Trees of each kind, by one trait: a test of trees is proved once, for all kinds. And each kind of
//! description once.
use crate::asserted::{assert_formats, assert_same, assert_that};
use crate::values::wednesday;
use std::alloc::{AllocError, Global};
use std::default::Default;
use std::process::Abort;
use std::test::Fail;
use time_below::format_description::{Node, metadata_of_node};
use time_below::{
    BorrowedFormatItem as Borrowed, Component, FormatDescriptionV3,
    FormatDescriptionV3Inner as Inner, OwnedFormatItem as Owned,
};
use time_fmt::{BorrowedItems, ComputeMetadata, Metadata, OwnedItems, parts};
use time_known::{Iso8601, Rfc2822, Rfc3339};

const DAY: Component = Component::Day(parts::DAY);

const MONTH: Component = Component::MonthNumerical(parts::MONTH);

const NAME: Component = Component::MonthLong(parts::MONTH_LONG);

/// A tree borrows its parts, for their whole life, so they are leaked.
struct Lent;

/// A tree owns its parts.
struct Held;

trait Tree<Parts>: Node + Drop {
    fn component(component: Component) -> Self;

    fn slash(alloc: Global) -> Result<Self, AllocError>;

    fn list(items: Vec<Self>) -> Self;

    fn first(items: Vec<Self>) -> Self;

    /// Whether the item is written is a choice of the third version alone.
    fn optional(is_written: bool, item: Box<Self>) -> Self;

    /// Compares the text and the maximum length, of the Wednesday.
    fn assert_text(self, rt: &impl Abort, alloc: Global, texts: (&str, usize));
}

impl<'a> Tree<Lent> for Borrowed<'a> {
    fn component(component: Component) -> Borrowed<'a> {
        Borrowed::Component(component)
    }

    fn slash(_alloc: Global) -> Result<Borrowed<'a>, AllocError> {
        Ok(Borrowed::StringLiteral("/"))
    }

    fn list(items: Vec<Borrowed<'a>>) -> Borrowed<'a> {
        Borrowed::Compound(items.leak())
    }

    fn first(items: Vec<Borrowed<'a>>) -> Borrowed<'a> {
        Borrowed::First(items.leak())
    }

    fn optional(_is_written: bool, item: Box<Borrowed<'a>>) -> Borrowed<'a> {
        Borrowed::Optional(Box::leak(item))
    }

    fn assert_text(self, rt: &impl Abort, alloc: Global, texts: (&str, usize)) {
        assert_formats(rt, alloc, &self, &wednesday(rt), texts);
    }
}

impl Tree<Held> for Owned {
    fn component(component: Component) -> Owned {
        Owned::Component(component)
    }

    fn slash(alloc: Global) -> Result<Owned, AllocError> {
        Ok(Owned::StringLiteral(String::from_str(alloc, "/")?))
    }

    fn list(items: Vec<Owned>) -> Owned {
        Owned::Compound(items)
    }

    fn first(items: Vec<Owned>) -> Owned {
        Owned::First(items)
    }

    fn optional(_is_written: bool, item: Box<Owned>) -> Owned {
        Owned::Optional(item)
    }

    fn assert_text(self, rt: &impl Abort, alloc: Global, texts: (&str, usize)) {
        assert_formats(rt, alloc, &self, &wednesday(rt), texts);
    }
}

impl<'a> Tree<Lent> for Inner<'a> {
    fn component(component: Component) -> Inner<'a> {
        Inner::from(component)
    }

    fn slash(_alloc: Global) -> Result<Inner<'a>, AllocError> {
        Ok(Inner::BorrowedLiteral("/"))
    }

    fn list(items: Vec<Inner<'a>>) -> Inner<'a> {
        Inner::BorrowedCompound(items.leak())
    }

    fn first(items: Vec<Inner<'a>>) -> Inner<'a> {
        Inner::BorrowedFirst(items.leak())
    }

    fn optional(format: bool, item: Box<Inner<'a>>) -> Inner<'a> {
        let item = Box::leak(item);
        Inner::BorrowedOptional { format, item }
    }

    fn assert_text(self, rt: &impl Abort, alloc: Global, texts: (&str, usize)) {
        assert_v3(rt, alloc, self, texts);
    }
}

impl<'a> Tree<Held> for Inner<'a> {
    fn component(component: Component) -> Inner<'a> {
        Inner::from(component)
    }

    fn slash(alloc: Global) -> Result<Inner<'a>, AllocError> {
        Ok(Inner::OwnedLiteral(String::from_str(alloc, "/")?))
    }

    fn list(items: Vec<Inner<'a>>) -> Inner<'a> {
        Inner::OwnedCompound(items)
    }

    fn first(items: Vec<Inner<'a>>) -> Inner<'a> {
        Inner::OwnedFirst(items)
    }

    fn optional(format: bool, item: Box<Inner<'a>>) -> Inner<'a> {
        Inner::OwnedOptional { format, item }
    }

    fn assert_text(self, rt: &impl Abort, alloc: Global, texts: (&str, usize)) {
        assert_v3(rt, alloc, self, texts);
    }
}

/// Compares the text, the maximum length and the stored maximum length of an item.
fn assert_v3(rt: &impl Abort, alloc: Global, item: Inner<'_>, (text, width): (&str, usize)) {
    let item = FormatDescriptionV3::new(item);
    assert_same(rt, item.max_bytes_needed(), width);
    assert_formats(rt, alloc, &item, &wednesday(rt), (text, width));
}

/// An item, a slash and a component.
fn slashed<K, T: Tree<K>>(alloc: Global, item: T, then: Component) -> Result<Vec<T>, AllocError> {
    let mut items = Vec::new(alloc);
    items.push(item)?;
    items.push(T::slash(alloc)?)?;
    items.push(T::component(then))?;
    Ok(items)
}

/// A list is written in order, and of a first the first item alone.
fn assert_lists<K, T: Tree<K>>(rt: &impl Abort, alloc: Global) -> Result<(), AllocError> {
    let day_and_month = slashed::<K, T>(alloc, T::component(DAY), MONTH)?;
    T::list(day_and_month).assert_text(rt, alloc, ("12/11", 5));
    let day_or_name = slashed::<K, T>(alloc, T::component(DAY), NAME)?;
    T::first(day_or_name).assert_text(rt, alloc, ("12", 2));
    let name_or_day = T::first(slashed::<K, T>(alloc, T::component(NAME), DAY)?);
    T::list(slashed::<K, T>(alloc, name_or_day, DAY)?).assert_text(rt, alloc, ("November/12", 12));
    T::list(Vec::new(alloc)).assert_text(rt, alloc, ("", 0));
    T::first(Vec::new(alloc)).assert_text(rt, alloc, ("", 0));
    Ok(())
}

/// An optional item, and one that the third version leaves out.
fn assert_optionals<K, T: Tree<K>>(
    rt: &impl Abort,
    alloc: Global,
    left_out: (&str, usize),
) -> Result<(), AllocError> {
    let name = Box::new(alloc, T::component(NAME))?;
    T::optional(true, name).assert_text(rt, alloc, ("November", 9));
    let name = Box::new(alloc, T::component(NAME))?;
    T::optional(false, name).assert_text(rt, alloc, left_out);
    Ok(())
}

/// The day in 1,000 optional items.
fn nested<K, T: Tree<K>>(alloc: Global) -> Result<T, AllocError> {
    let mut item = T::component(DAY);
    for _ in 0..1_000 {
        item = T::optional(true, Box::new(alloc, item)?);
    }
    Ok(item)
}

/// How many lists are in one another. Were each list measured twice, the innermost one would be
/// measured 2^64 times.
const LEVELS: usize = 64;

/// Lists in one another, each the last of four items: no clause says how long the maximum length
/// takes.
fn last_of_four<K, T: Tree<K>>(alloc: Global) -> Result<T, AllocError> {
    let mut item = T::component(DAY);
    for _ in 0..LEVELS {
        let mut items = slashed::<K, T>(alloc, T::component(DAY), MONTH)?;
        items.push(item)?;
        item = T::list(items);
    }
    Ok(item)
}

fn assert_deep<K, T: Tree<K>>(rt: &impl Abort, alloc: Global) -> Result<(), AllocError> {
    let item: T = nested(alloc)?;
    item.assert_text(rt, alloc, ("12", 2));
    let item: T = last_of_four(alloc)?;
    let width = metadata_of_node(&item).max_bytes_needed;
    assert_same(rt, width, 5 * LEVELS + 2);
    Ok(())
}

/// All that is compared of trees of a kind, at one call: each names what it asks of the kind once
/// more.
fn assert_trees<K, T: Tree<K>>(rt: &impl Abort, alloc: Global, left_out: (&str, usize)) {
    assert_that(rt, assert_lists::<K, T>(rt, alloc).is_ok());
    assert_that(rt, assert_optionals::<K, T>(rt, alloc, left_out).is_ok());
    assert_that(rt, assert_deep::<K, T>(rt, alloc).is_ok());
}

#[test]
fn a_borrowed_tree_is_written(rt: HostRuntime) {
    assert_trees::<Lent, Borrowed<'_>>(&rt, rt.alloc(), ("November", 9));
}

#[test]
fn an_owned_tree_is_written(rt: HostRuntime) {
    assert_trees::<Held, Owned>(&rt, rt.alloc(), ("November", 9));
}

#[test]
fn a_borrowed_tree_of_the_third_version_is_written(rt: HostRuntime) {
    assert_trees::<Lent, Inner<'_>>(&rt, rt.alloc(), ("", 0));
}

#[test]
fn an_owned_tree_of_the_third_version_is_written(rt: HostRuntime) {
    assert_trees::<Held, Inner<'_>>(&rt, rt.alloc(), ("", 0));
}

const DATE: &[Borrowed<'static>] = &[
    Borrowed::Component(DAY),
    Borrowed::StringLiteral("/"),
    Borrowed::Component(MONTH),
];

#[test]
fn lists_in_slices_and_the_formats_of_standards_are_written(rt: HostRuntime) -> Result<(), Fail> {
    let (alloc, value) = (rt.alloc(), wednesday(&rt));
    assert_formats(&rt, alloc, &BorrowedItems(DATE), &value, ("12/11", 5));
    let items = slashed::<Held, Owned>(alloc, Owned::Component(DAY), MONTH)?;
    assert_formats(
        &rt,
        alloc,
        &OwnedItems(items.as_slice()),
        &value,
        ("12/11", 5),
    );
    let texts = ("1997-11-12T09:55:06.000000000-06:00", 35);
    assert_formats(&rt, alloc, &Iso8601::default(), &value, texts);
    let texts = ("1997-11-12T09:55:06-06:00", 35);
    assert_formats(&rt, alloc, &Rfc3339, &value, texts);
    let texts = ("Wed, 12 Nov 1997 09:55:06 -0600", 31);
    assert_formats(&rt, alloc, &Rfc2822, &value, texts);
    Ok(())
}

#[test]
fn a_list_of_ten_thousand_days_is_written(rt: HostRuntime) -> Result<(), Fail> {
    let mut items = Vec::with_capacity(rt.alloc(), 10_000)?;
    for _ in 0..10_000 {
        items.push(Borrowed::Component(DAY))?;
    }
    let text = "12".repeat(rt.alloc(), 10_000)?;
    let texts = (text.as_str(), 20_000);
    assert_formats(
        &rt,
        rt.alloc(),
        &BorrowedItems(&items),
        &wednesday(&rt),
        texts,
    );
    Ok(())
}

/// Metadata of this maximum length, of a text.
fn width(max_bytes_needed: usize) -> Metadata {
    Metadata {
        max_bytes_needed,
        guaranteed_utf8: true,
    }
}

/// The maximum length and the guarantee.
fn both(metadata: Metadata) -> (usize, bool) {
    (metadata.max_bytes_needed, metadata.guaranteed_utf8)
}

#[test]
fn a_sum_of_metadata_stops_at_the_greatest_number_and_bytes_take_its_guarantee(rt: HostRuntime) {
    let sum: Metadata = [width(3), width(0), width(4)].into_iter().sum();
    assert_same(&rt, both(sum), (7, true));
    let bytes = Borrowed::Literal(b"a").compute_metadata();
    assert_same(&rt, both(width(usize::MAX) + bytes), (usize::MAX, false));
    assert_same(&rt, both(Metadata::default()), (0, true));
}
