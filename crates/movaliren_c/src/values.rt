//! Moments and dates as they cross from C, and the values that they mean.
pub mod moment;
pub mod source;
