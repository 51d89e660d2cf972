//! What a program that formats or reads brings into scope: the calls of values and of plans, `text!`
//! with its components, and the maximum length of a format.
//!
//! ```text
//! use time::prelude::*;
//!
//! let format = text!(YEAR, b"-", MONTH, b"-", DAY);
//! let most = format.compute_metadata().max_bytes_needed;
//! moment.format_into(&mut line, &format)?;
//! ```
pub use crate::format_description::Literal;
pub use crate::format_value::FormatValue;
pub use crate::formatting::ComputeMetadata;
pub use crate::parse_value::ParseValue;
pub use crate::text;
pub use time_fmt::parts::{
    DAY, HOUR, HOUR_12, ISO_YEAR, ISO_YEAR_CENTURY, ISO_YEAR_CENTURY_STANDARD, ISO_YEAR_LAST_TWO,
    ISO_YEAR_STANDARD, MINUTE, MONTH, MONTH_LONG, MONTH_SHORT, NINE_DECIMALS, OFFSET_HOUR,
    OFFSET_MINUTE, OFFSET_SECOND, ORDINAL, PERIOD, SECOND, SIGNED_OFFSET_HOUR, SIX_DECIMALS,
    SUBSECOND, THREE_DECIMALS, UNIX_TIMESTAMP, UNIX_TIMESTAMP_MILLISECOND, WEEK_NUMBER,
    WEEK_NUMBER_MONDAY, WEEK_NUMBER_SUNDAY, WEEKDAY, WEEKDAY_MONDAY, WEEKDAY_SHORT, WEEKDAY_SUNDAY,
    YEAR, YEAR_CENTURY, YEAR_CENTURY_STANDARD, YEAR_LAST_TWO, YEAR_STANDARD,
};
pub use time_read::ReadPlan;
