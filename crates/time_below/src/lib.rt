//! Calendar values and description trees, as far as a formatter needs them. No call allocates.
#![tactic(auto)]

mod calendar;
mod component_range;
mod conversions;
mod date;
mod date_time;
mod different_variant;
pub mod format_description;
mod invalid_variant;
pub mod laws;
pub mod moment;
mod month;
pub mod names;
mod now;
mod offset_date_time;
mod period;
mod plain_date_time;
mod text;
mod time;
mod timestamp;
mod utc_date_time;
mod utc_offset;
pub mod util;
mod weekday;

pub use calendar::is_leap_year;
pub use component_range::ComponentRange;
pub use date::Date;
pub use date_time::{DateTime, NoOffset, Utc};
pub use different_variant::DifferentVariant;
pub use format_description::{
    BorrowedFormatItem, Component, FormatDescriptionV3, FormatDescriptionV3Inner, OwnedFormatItem,
    component_width, modifier,
};
pub use invalid_variant::InvalidVariant;
pub use month::Month;
pub use offset_date_time::OffsetDateTime;
pub use period::Period;
pub use plain_date_time::{PlainDateTime, PlainDateTime as PrimitiveDateTime};
pub use time::Time;
pub use timestamp::Timestamp;
pub use utc_date_time::UtcDateTime;
pub use utc_offset::UtcOffset;
pub use weekday::Weekday;
