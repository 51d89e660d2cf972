//! What formats, and what is formatted.
//!
//! [`Formattable`] is the trait of descriptions, and [`FormatValue`] that of values. The calls of a
//! description take a state, which caches the costly components of a value for its next text.
pub use crate::format_value::FormatValue;
pub use time_fmt::{
    ComponentProvider, ComputeMetadata, DateState, Formattable, Metadata, TimestampState,
};
pub use time_known::stamp_into;
