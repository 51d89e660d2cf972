//! The well-known formats and stamps, written.
mod imf_fixdate;
pub mod iso8601;
mod moment_text;
mod rfc2822;
mod rfc3339;
mod stamp;
