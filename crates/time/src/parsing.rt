//! Texts of RFC 3339, RFC 2822, ISO 8601, stamps and plans, read back.
pub use crate::parse_iso8601::NotReadByIso8601;
pub use crate::parse_rfcs::Spelled;
pub use crate::parse_value::{NotReadByPlan, Parsable};
pub use time_read::{Expected, MailPart, NotRead, Profile, iso8601, rfc2822, rfc3339, stamp};

/// Texts of plans.
pub mod plan {
    pub use time_read::{ComponentName, Mismatch, NoReader, NotRead, ReadPlan, Readable, Reader};
}
