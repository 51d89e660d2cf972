//! Refusals in the midst of a text, after which the same state writes the next one, and literals
//! that are no text by themselves.
use crate::asserted::{append, assert_refusal, assert_same, assert_that};
use crate::values::date;
use std::alloc::Global;
use std::default::Default;
use std::process::Abort;
use time_below::modifier::{Padding, Year, YearRange, YearRepr};
use time_below::{BorrowedFormatItem as Item, Component, Time};
use time_fmt::{ComputeMetadata, DateState, Formattable, parts};

const DAY: Item<'static> = Item::Component(Component::Day(parts::DAY));

const HOUR: Item<'static> = Item::Component(Component::Hour24(parts::HOUR));

const YEAR: Item<'static> = Item::Component(Component::CalendarYearFullStandardRange(
    parts::YEAR_STANDARD,
));

const CENTURY: Item<'static> = Item::Component(Component::CalendarYearCenturyStandardRange(
    parts::YEAR_CENTURY_STANDARD,
));

const OLD_CENTURY: Item<'static> = Item::Component(Component::Year(Year {
    padding: Padding::Zero,
    repr: YearRepr::Century,
    range: YearRange::Standard,
    iso_week_based: false,
    sign_is_mandatory: false,
}));

const INSUFFICIENT: &str = "InsufficientTypeInformation";

const RANGE: &str = "ComponentRange(ComponentRange { name: \"year\", is_conditional: true })";

/// Rows of a date, the items of a list of which one is refused, the variant of the refusal, the
/// output, which held `x` before, and the maximum length.
macro_rules! refused {
    ($($date:tt [$($item:expr),+] $variant:ident $output:literal $width:literal,)+) => {
        &[$(($date, Item::Compound(&[$($item),+]), ($variant, $output, $width))),+]
    };
}

type Row = (
    (i32, u8, u8),
    Item<'static>,
    (&'static str, &'static str, usize),
);

const REFUSED: &[Row] = refused! {
    (10_000, 1, 1) [YEAR] RANGE "x" 5,
    (10_000, 1, 1) [CENTURY] RANGE "x" 3,
    (10_000, 1, 1) [OLD_CENTURY] RANGE "x" 5,
    (10_000, 1, 1) [DAY, Item::StringLiteral("/"), YEAR, Item::StringLiteral("/")] RANGE "x01/" 9,
    (1997, 11, 12) [Item::StringLiteral("on "), DAY, Item::StringLiteral(" at "), HOUR]
        INSUFFICIENT "xon 12 at " 11,
    (1997, 11, 12) [
        Item::StringLiteral("a"),
        Item::Compound(&[Item::StringLiteral("b"), HOUR, Item::StringLiteral("c")]),
        Item::StringLiteral("d")
    ] INSUFFICIENT "xab" 6,
};

/// Appends the text behind a byte, compares the refusal with what stands before it, and appends the
/// day by the same state.
fn assert_refused(rt: &impl Abort, alloc: Global, (day, item, texts): &Row) {
    let (variant, before, width) = *texts;
    let mut output = Vec::new(alloc);
    assert_that(rt, output.push(b'x').is_ok());
    let (value, mut state) = (date(rt, *day), DateState::default());
    let refused = append(&mut output, item, &value, &mut state);
    assert_refusal(rt, alloc, &refused, variant);
    assert_same(rt, output.as_slice(), before.as_bytes());
    assert_same(rt, item.compute_metadata().max_bytes_needed, width);
    let written = append(&mut output, &DAY, &value, &mut state);
    assert_that(rt, matches!(&written, Ok(2)));
    assert_same(rt, output.len(), before.len().saturating_add(2));
}

#[test]
fn bytes_before_a_refusal_stay_and_the_state_writes_the_next_text(rt: HostRuntime) {
    for row in REFUSED {
        assert_refused(&rt, rt.alloc(), row);
    }
}

const C3: Item<'static> = Item::Literal(b"\xc3");

const A9: Item<'static> = Item::Literal(b"\xa9");

const X: Item<'static> = Item::StringLiteral("x");

/// Rows of literals in order, and the text that they are read as.
macro_rules! literals {
    ($([$($item:expr),*] $text:literal,)+) => {
        &[$((Item::Compound(&[$($item),*]), $text)),+]
    };
}

const LITERALS: &[(Item<'static>, &str)] = literals! {
    [C3, A9] "\u{e9}",
    [Item::Literal(b"\xe2"), Item::Compound(&[Item::Literal(b"\x82"), Item::Literal(b"\xac")])]
        "\u{20ac}",
    [C3] "\u{fffd}",
    [C3, X, A9] "\u{fffd}x\u{fffd}",
    [Item::Literal(b"\xe2\x82")] "\u{fffd}",
    [] "",
};

/// Compares the text that is made of midnight.
fn assert_made(rt: &impl Abort, alloc: Global, item: &Item<'_>, text: &str) {
    match item.format(alloc, &Time::MIDNIGHT, &mut ()) {
        Ok(made) => assert_same(rt, made.as_str(), text),
        Err(_) => panic!(rt; "{text} is refused"),
    }
}

#[test]
fn a_letter_is_read_over_the_literals_that_it_stands_in(rt: HostRuntime) {
    for (item, text) in LITERALS {
        assert_made(&rt, rt.alloc(), item, text);
    }
}
