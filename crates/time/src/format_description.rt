//! Descriptions of a text: formats of standards, items, and what is read from a text.
//!
//! A [`Plan`] is a description that was prepared once for many texts.
pub mod well_known;

pub use time_below::format_description::{
    BorrowedFormatItem, Component, FormatDescriptionV3, FormatDescriptionV3Inner, OwnedFormatItem,
    modifier,
};
pub use time_describe::{parse_owned, parse_strftime_owned};
pub use time_fmt::{BorrowedItems, Literal, OwnedItems};
pub use time_plan::Plan;
