//! Moments for `serde`, as texts of RFC 3339 and as Unix time.
#![tactic(auto)]

mod moments;
pub mod rfc3339;
mod text;
pub mod timestamp;
mod words;

pub use moments::Moment;
