//! Plans of lists, trees and texts, and what they refuse.
use crate::asserted::{assert_same, assert_that, wednesday};
use std::alloc::{AllocError, Global};
use std::default::Default;
use std::process::Abort;
use std::test::Fail;
use time_below::format_description::Node;
use time_below::{
    BorrowedFormatItem as Borrowed, Component, FormatDescriptionV3Inner as Inner, OffsetDateTime,
};
use time_fmt::{BorrowedItems, ComputeMetadata, DateState, Format, Formattable, parts};
use time_plan::{InvalidDescription, InvalidStrftime, Plan};

const YEAR: Component = Component::CalendarYearFullStandardRange(parts::YEAR_STANDARD);

const MONTH: Component = Component::MonthNumerical(parts::MONTH);

const DAY: Component = Component::Day(parts::DAY);

const HOUR: Component = Component::Hour24(parts::HOUR);

/// A date, a byte that is no text by itself, and an hour.
const ITEMS: &[Borrowed<'static>] = &[
    Borrowed::Component(YEAR),
    Borrowed::StringLiteral("-"),
    Borrowed::Component(MONTH),
    Borrowed::StringLiteral("-"),
    Borrowed::Component(DAY),
    Borrowed::Literal(b"\xff"),
    Borrowed::Component(HOUR),
];

/// The list in levels.
const TREE: &Borrowed<'static> = &Borrowed::First(&[Borrowed::Compound(&[
    Borrowed::Compound(ITEMS),
    Borrowed::Optional(&Borrowed::Component(HOUR)),
    Borrowed::First(&[]),
])]);

/// Appends the text of a moment by a plan. No clause is handed on.
fn append(output: &mut Vec<u8>, plan: &Plan, moment: &OffsetDateTime) -> Result<usize, Format> {
    plan.format_into(output, moment, &mut DateState::default())
}

/// Compares the bytes that a plan appends of the Wednesday.
fn assert_appends(rt: &impl Abort, alloc: Global, plan: &Plan, wanted: &[u8]) {
    let mut output = Vec::new(alloc);
    match append(&mut output, plan, &wednesday(rt)) {
        Ok(count) => assert_same(rt, (output.as_slice(), count), (wanted, wanted.len())),
        Err(refusal) => panic!(rt; "{refusal}"),
    }
}

/// The plan of a tree. No clause is handed on, so that a test proves no more than it compares.
fn plan_of<T: Node>(alloc: Global, tree: &T) -> Result<Plan, AllocError> {
    Plan::of(alloc, tree)
}

#[test]
fn a_list_and_a_tree_of_each_kind_have_a_plan(rt: HostRuntime) -> Result<(), Fail> {
    let alloc = rt.alloc();
    let list = Plan::of_items(alloc, ITEMS)?;
    assert_appends(&rt, alloc, &list, b"1997-11-12\xff09");
    let metadata = list.compute_metadata();
    let width = BorrowedItems(ITEMS).compute_metadata().max_bytes_needed;
    assert_that(
        &rt,
        metadata.max_bytes_needed == width && !metadata.guaranteed_utf8,
    );
    let tree = plan_of(alloc, TREE)?;
    assert_appends(&rt, alloc, &tree, b"1997-11-12\xff0909");
    let left_out = Inner::OwnedOptional {
        format: false,
        item: Box::new(alloc, Inner::from(YEAR))?,
    };
    let slash = Inner::BorrowedLiteral("/");
    let items = vec![in alloc; Inner::from(YEAR), left_out, slash, Inner::from(MONTH)]?;
    let third = plan_of(alloc, &Inner::OwnedCompound(items))?;
    assert_appends(&rt, alloc, &third, b"1997/11");
    Ok(())
}

#[test]
fn a_text_has_a_plan_or_its_fault(rt: HostRuntime) -> Result<(), Fail> {
    let alloc = rt.alloc();
    let brackets = Plan::parse(alloc, b"[year]-[month]-[day] [hour]:[minute]:[second]")?;
    assert_appends(&rt, alloc, &brackets, b"1997-11-12 09:55:06");
    let percents = Plan::parse_strftime(alloc, b"%d/%b/%Y:%H:%M:%S %z")?;
    assert_appends(&rt, alloc, &percents, b"12/Nov/1997:09:55:06 -0630");
    let fault = Plan::parse(alloc, b"[day]/[mnth]");
    assert_that(
        &rt,
        matches!(fault, Err(InvalidDescription::Invalid { index: 7, .. })),
    );
    let fault = Plan::parse_strftime(alloc, b"%d/%Q");
    assert_that(
        &rt,
        matches!(fault, Err(InvalidStrftime::Invalid { index: 4, .. })),
    );
    Ok(())
}

#[test]
fn what_the_value_lacks_is_refused_behind_the_text_before_it(rt: HostRuntime) -> Result<(), Fail> {
    let plan = Plan::of_items(rt.alloc(), ITEMS)?;
    let mut output = Vec::new(rt.alloc());
    let date = wednesday(&rt).date();
    let refused = plan.format_into(&mut output, &date, &mut DateState::default());
    assert_that(
        &rt,
        matches!(refused, Err(Format::InsufficientTypeInformation)),
    );
    assert_same(&rt, output.as_slice(), b"1997-11-12\xff".as_slice());
    let Ok(far) = wednesday(&rt).replace_year(10_000) else {
        panic!(rt; "no year");
    };
    let refused = append(&mut output, &plan, &far);
    assert_that(&rt, matches!(refused, Err(Format::ComponentRange(_))));
    assert_same(&rt, output.len(), 11);
    Ok(())
}
