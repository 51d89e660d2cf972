//! The half of a day.

/// The half of a day on the 12-hour clock.
#[derive(Debug, Clone, Copy, PartialEq, Eq)]
pub enum Period {
    /// Hours 0 to 11.
    Am,
    /// Hours 12 to 23.
    Pm,
}
