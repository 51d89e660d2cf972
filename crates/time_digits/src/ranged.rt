//! Numbers that keep their bounds. Conversions between widths go through `get` and `new`.

pub mod signed;
pub mod unsigned;

pub use signed::{ri8, ri16, ri32};
pub use unsigned::{ru8, ru16, ru32};
