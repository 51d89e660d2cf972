//! Filters of lines: what each line becomes is written, in order, before the next read.
//!
//! A [`LineJob`] says what a line becomes, an [`Exchange`] is where lines come from and texts go
//! to, and [`run`] does the job for each line.
#![tactic(auto)]

mod exchange;
mod filter;
pub mod laws;
mod lines;
mod standard;

pub use exchange::{Exchange, FilterError};
pub use filter::run;
pub use lines::{LineJob, place_of_end};
pub use standard::StandardStreams;
