//! What is said of a moment that is not written or not read.
use std::fmt::InlineText;
use time_below::ComponentRange;
use time_fmt::{Format, Refused};
use time_read::NotRead;

// The most bytes that are said.
const WORDS: usize = 100;

/// The words of `time_fmt` for a component that RFC 3339 cannot write.
pub(crate) fn unwritten(reason: Refused) -> InlineText<WORDS> {
    InlineText::of(Format::from(reason))
}

/// The words of `time_read` for the position at which a text is not one of RFC 3339.
pub(crate) fn unread(place: NotRead) -> InlineText<WORDS> {
    InlineText::of(place)
}

/// The words of `time_below` for seconds that are outside their range.
pub(crate) fn out_of_range() -> InlineText<WORDS> {
    InlineText::of(ComponentRange::unconditional("seconds"))
}
