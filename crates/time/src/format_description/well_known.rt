//! The formats of standards.
pub use time_known::{ImfFixdate, Iso8601, Rfc2822, Rfc3339};

/// The choices of a format of ISO 8601. The number of its decimals is a [`ru8`], 1 to 255, as
/// `ru8::new(3)`.
pub mod iso8601 {
    pub use time_digits::ru8;
    pub use time_known::iso8601::{
        Config, DateKind, DecimalSign, FormattedComponents, OffsetPrecision, TimePrecision,
    };
}
