//! Values supplied to a description, method by method. No call allocates.
//!
//! What is read into `_in_range` shows that a value is in its ranges, and costs no instruction.
#![tactic(auto)]

pub mod component_provider;
mod date_cache;
mod date_state;
pub mod laws;
mod providers;
pub mod ranges;
mod timestamp_state;

pub use component_provider::ComponentProvider;
pub use date_cache::DateCache;
pub use date_state::DateState;
pub use ranges::{
    Day, ExtendedCentury, Hours, IsoWeekNumber, LastTwo, Minutes, MondayBasedWeek, Nanoseconds,
    OffsetHours, OffsetMinutes, OffsetSeconds, Ordinal, Seconds, StandardCentury, StandardYear,
    SundayBasedWeek, Year,
};
pub use timestamp_state::TimestampState;
