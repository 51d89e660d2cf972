//! How many digits a number has.
ghost use Rattle.std.specs.Prelude.{◌≡◌, ℕ, length, decimal};

/// A number whose decimal digits are counted. Signed numbers are left out: their sign is written
/// first.
pub trait DigitCount {
    /// The number.
    ghost number: { Self → ℕ };

    /// The number of digits of the shortest decimal text: 1 for zero, and at most 10 for a `u32`.
    fn num_digits(self) -> u8
        ensures { result ≡ length (decimal (number self)) };
}

impl DigitCount for u8 {
    ghost number = { λ n. n };

    fn num_digits(self) -> u8 {
        u32::from(self).num_digits()
    }
}

impl DigitCount for u16 {
    ghost number = { λ n. n };

    fn num_digits(self) -> u8 {
        u32::from(self).num_digits()
    }
}

impl DigitCount for u32 {
    ghost number = { λ n. n };

    #[tactic(auto, using(crate::proofs::LengthLemmas::count_facts))]
    fn num_digits(self) -> u8 {
        match self.checked_ilog10() {
            Some(k) => k as u8 + 1,
            None => 1,
        }
    }
}
