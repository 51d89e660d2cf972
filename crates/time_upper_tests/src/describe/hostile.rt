//! Texts of up to a megabyte, and deep ones.
use super::{fault_in_brackets, fault_in_percents};
use crate::asserted::assert_that;
use std::alloc::AllocError;
use time_describe::BracketReason::{self, TooDeep, TooManyItems, UnclosedBracket};
use time_describe::StrftimeReason;

/// Rows of what a text repeats, how often, and its first fault or none.
macro_rules! repeated {
    ($($bytes:literal $times:literal $fault:expr,)+) => {
        &[$(($bytes, $times, $fault)),+]
    };
}

const LONG: &[(&[u8], usize, Option<(BracketReason, usize)>)] = repeated! {
    b"[" 1_000_000 Some((TooManyItems, 65_536)),
    b"\\[" 40_000 Some((TooManyItems, 65_536)),
    b"[day]" 65_537 Some((TooManyItems, 327_680)),
    b"[optional [" 32_768 Some((TooDeep, 362)),
    b"[first [" 33 Some((TooDeep, 263)),
    b"[aaaaaa" 1 Some((UnclosedBracket, 0)),
    b"]" 100_000 None,
    b"\xff" 100_000 None,
    b"[day]" 16_384 None,
};

const PERCENTS: &[(&[u8], usize, Option<(StrftimeReason, usize)>)] = repeated! {
    b"%c" 500_000 Some((StrftimeReason::TooManyItems, 10_082)),
    b"%d." 333_333 Some((StrftimeReason::TooManyItems, 98_304)),
    b"%-" 500_000 Some((StrftimeReason::FlagWithoutNumber(b'%'), 2)),
    b"%--" 333_333 Some((StrftimeReason::SecondFlag(b'-'), 2)),
    b"%\xff" 500_000 Some((StrftimeReason::UnknownConversion(b'\xff'), 1)),
    b"\xff" 1_000_000 None,
};

#[test]
fn long_texts_are_read_and_too_many_items_and_too_deep_lists_refused(
    rt: HostRuntime,
) -> Result<(), AllocError> {
    for &(bytes, times, wanted) in LONG {
        let text = bytes.repeat(rt.alloc(), times)?;
        assert_that(&rt, fault_in_brackets(rt.alloc(), &text) == wanted);
    }
    for &(bytes, times, wanted) in PERCENTS {
        let text = bytes.repeat(rt.alloc(), times)?;
        assert_that(&rt, fault_in_percents(rt.alloc(), &text) == wanted);
    }
    Ok(())
}
