//! What tests assert, and values by their numbers. No helper hands on a clause, so that a test
//! proves no more than it compares.
use std::alloc::Global;
use std::fmt::{Debug, Display};
use std::process::Abort;
use time_below::{OffsetDateTime, Timestamp, UtcOffset};

/// Fails where this does not hold. A call leaves no branch in a test.
pub(crate) fn assert_that(rt: &impl Abort, holds: bool) {
    assert!(rt; holds);
}

/// One comparison for all types, so that no test proves it again.
pub(crate) fn assert_same<T: PartialEq + Debug + Copy>(rt: &impl Abort, found: T, wanted: T) {
    assert_eq!(rt; found, wanted);
}

/// Takes the text, so that it does not outlive its comparison.
pub(crate) fn assert_text(rt: &impl Abort, text: String, wanted: &str) {
    assert!(rt; text.as_str() == wanted, "{text}, not {wanted}");
}

/// Compares what is displayed with a text.
pub(crate) fn assert_displays<D: Display>(rt: &impl Abort, alloc: Global, shown: &D, wanted: &str) {
    match format!(in alloc; "{shown}") {
        Ok(text) => assert_text(rt, text, wanted),
        Err(_) => panic!(rt; "no memory"),
    }
}

/// Fails where a text is read, or is refused with other words than these.
pub(crate) fn assert_refused<V, E: Display + Drop>(
    rt: &impl Abort,
    alloc: Global,
    answer: Result<V, E>,
    words: &str,
) {
    match answer {
        Ok(_) => panic!(rt; "a text is read, for which {words}"),
        Err(fault) => assert_displays(rt, alloc, &fault, words),
    }
}

/// What is answered. Fails where it is refused.
pub(crate) fn answered<V: Drop, E: Display + Drop>(rt: &impl Abort, answer: Result<V, E>) -> V {
    match answer {
        Ok(value) => value,
        Err(fault) => panic!(rt; "{fault}"),
    }
}

pub(crate) fn timestamp(rt: &impl Abort, seconds: i64, nanosecond: u32) -> Timestamp {
    match Timestamp::new(seconds, nanosecond) {
        Ok(timestamp) => timestamp,
        Err(_) => panic!(rt; "no timestamp"),
    }
}

pub(crate) fn offset(rt: &impl Abort, hours: i8, minutes: i8, seconds: i8) -> UtcOffset {
    match UtcOffset::from_hms(hours, minutes, seconds) {
        Ok(offset) => offset,
        Err(_) => panic!(rt; "no offset"),
    }
}

/// 1997-11-12 9:55:06.123456789 -6:30, a Wednesday.
pub(crate) fn wednesday(rt: &impl Abort) -> OffsetDateTime {
    let moment = timestamp(rt, 879_351_906, 123_456_789);
    match moment.checked_to_offset(offset(rt, -6, -30, 0)) {
        Some(local) => local,
        None => panic!(rt; "no local time"),
    }
}
