//! Moments and dates as text, for C: RFC 3339, RFC 2822, the date of HTTP, ISO 8601, stamps, and
//! descriptions in brackets or in the syntax of `strftime`; and texts of RFC 3339, RFC 2822, ISO
//! 8601 and a description, read back.
//!
//! An export of one text returns the number of bytes at the start of the buffer, which are the
//! whole text, or a negative number that names the error; the buffer is then unchanged.
//! `movaliren_description_max_length` returns the maximum length of a description. No export has a
//! condition, and none allocates.
#![tactic(auto)]

mod answers;
mod described;
mod description;
mod formats;
pub mod laws;
mod read;
mod values;
mod words;
