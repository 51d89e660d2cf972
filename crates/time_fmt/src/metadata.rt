//! The maximum length of a description, and its guarantee of UTF-8.
ghost use Rattle.std.specs.Prelude.{◌≡◌, ℕ, Bool, min, true};
ghost use Rattle.time_below.specs.Width.{component_width};
ghost use Rattle.time_fmt.specs.Longest.{ReachesWidth};

use time_below::format_description::{Component, Metadata, component_width};

/// A description whose maximum length is known before its text is written.
pub trait ComputeMetadata {
    /// A number of bytes that no text exceeds, without a bound of its own.
    ghost width_of: { Self → ℕ };

    /// Whether no byte literal is among what the maximum length counts.
    ghost is_guaranteed: { Self → Bool };

    /// Returns the maximum length of a text in bytes, at most the greatest `usize`, and whether
    /// each text is sure to be UTF-8.
    ///
    /// # Examples
    ///
    /// ```text
    /// let most = text!(HOUR, b":", MINUTE).compute_metadata().max_bytes_needed; // 5
    /// ```
    fn compute_metadata(&self) -> Metadata
        ensures width { result.max_bytes_needed ≡ min (width_of self.now) usize.MAX }
        ensures text { result.guaranteed_utf8 ≡ is_guaranteed self.now };
}

impl ComputeMetadata for Component {
    ghost width_of = { component_width };

    ghost is_guaranteed = { λ _. true };

    // The text of one of two values has as many bytes.
    #[tactic(auto, using(crate::proofs::LongestLemmas::reaches_width))]
    fn compute_metadata(&self) -> Metadata
        ensures width { result.max_bytes_needed ≡ min (component_width self.now) usize.MAX }
        ensures text { result.guaranteed_utf8 ≡ true }
        ensures reached { ReachesWidth self.now }
    {
        Metadata {
            max_bytes_needed: component_width(self),
            guaranteed_utf8: true,
        }
    }
}
