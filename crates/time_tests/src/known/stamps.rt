//! Stamps, and their order.
use crate::asserted::{assert_same, assert_that};
use crate::values::{date, time};
use std::alloc::Global;
use std::process::Abort;
use std::test::Fail;
use time_below::UtcDateTime;
use time_fmt::Format;
use time_known::stamp_into;

/// A year, a month and a day, and an hour, a minute, a second and a nanosecond.
type Parts = ((i32, u8, u8), (u8, u8, u8, u32));

/// Twenty moments, from the first to the last.
const MOMENTS: &[Parts] = &[
    ((0, 1, 1), (0, 0, 0, 0)),
    ((0, 1, 1), (0, 0, 0, 1)),
    ((0, 12, 31), (23, 59, 59, 999_999_999)),
    ((1, 1, 1), (0, 0, 0, 0)),
    ((99, 12, 31), (23, 59, 59, 0)),
    ((999, 12, 31), (23, 59, 59, 999_999_999)),
    ((1000, 1, 1), (0, 0, 0, 0)),
    ((1900, 2, 28), (23, 59, 59, 0)),
    ((1900, 3, 1), (0, 0, 0, 0)),
    ((1969, 12, 31), (23, 59, 59, 999_999_999)),
    ((1970, 1, 1), (0, 0, 0, 0)),
    ((1970, 1, 1), (0, 0, 0, 1)),
    ((1997, 11, 12), (9, 55, 6, 0)),
    ((1997, 11, 12), (15, 55, 6, 0)),
    ((1997, 11, 12), (15, 55, 6, 100_000_000)),
    ((1997, 12, 1), (0, 0, 0, 0)),
    ((2000, 2, 29), (12, 0, 0, 0)),
    ((2000, 3, 1), (0, 0, 0, 0)),
    ((9999, 12, 31), (23, 59, 59, 0)),
    ((9999, 12, 31), (23, 59, 59, 999_999_999)),
];

/// Appends the stamp. No clause is handed on, so that a test proves no more than it compares.
fn append(rt: &impl Abort, output: &mut Vec<u8>, (day, clock): Parts) -> Result<usize, Format> {
    stamp_into(output, &UtcDateTime::new(date(rt, day), time(rt, clock)))
}

fn stamp(rt: &impl Abort, alloc: Global, parts: Parts) -> Vec<u8> {
    let mut output = Vec::new(alloc);
    let answer = append(rt, &mut output, parts);
    assert_that(rt, matches!(&answer, Ok(30)));
    output
}

/// The texts, sorted, are in the order of the moments.
#[test]
fn the_order_of_stamps_is_that_of_moments(rt: HostRuntime) -> Result<(), Fail> {
    let mut texts = Vec::new(rt.alloc());
    for i in 0..20usize {
        texts.push(stamp(&rt, rt.alloc(), MOMENTS[7 * i % 20]))?;
    }
    texts.sort()?;
    for (parts, text) in MOMENTS.iter().zip(texts.iter()) {
        assert_same(
            &rt,
            stamp(&rt, rt.alloc(), *parts).as_slice(),
            text.as_slice(),
        );
    }
    Ok(())
}
