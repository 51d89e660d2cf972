//! The formatter layer of the Rust crate `time` 0.3.55, by that crate's paths and calls.
//!
//! A program names this crate alone in `crates.txt`. With [`prelude`] in scope, a value is
//! formatted as in `time`:
//!
//! ```text
//! use time::format_description::well_known::Rfc3339;
//! use time::prelude::*;
//!
//! moment.format_into(&mut out, &Rfc3339)?;
//! moment.format(alloc, &text!(YEAR, b"-", MONTH, b"-", DAY))?;
//! ```
#![tactic(auto)]

pub mod error;
pub mod format_description;
mod format_value;
pub mod formatting;
pub mod laws;
pub mod literals;
pub mod macros;
mod parse_iso8601;
mod parse_rfcs;
mod parse_value;
pub mod parsing;
pub mod parts;
pub mod prelude;
pub mod util;

pub use time_below::{
    Date, Month, OffsetDateTime, PlainDateTime, PlainDateTime as PrimitiveDateTime, Time,
    Timestamp, UtcDateTime, UtcOffset, Weekday,
};
