//! Facts about the definitions that the contracts of this crate speak of, and about its constants.
//! Nothing here is run.
ghost use Rattle.std.specs.Prelude.{◌≡◌, ◌↔◌, ℕ, IsTrue, ◌+◌, ◌*◌, ◌/◌, ◌%◌, ◌^◌, ◌<◌, ◌≤◌, []};
ghost use Rattle.std.specs.Prelude.{◌∷◌, ◌++◌, length, take, drop, decimal};
ghost use Rattle.time_digits.specs.Digits.{zero_padded, space_padded};
ghost use Rattle.time_digits.specs.Fraction.{IsOnlyTrimmedFraction};

use crate::num_fmt::{DIV_100_FACTOR, DIV_100_SHIFT};
use crate::ranged::{ri8, ri16, ri32, ru8, ru16, ru32};
use crate::tables::{SINGLE_DIGITS, SPACE_PADDED_PAIRS, ZERO_PADDED_PAIRS};

/// The decimal text of a number of at most 64 digits is one digit below 10, else the text of the
/// number's quotient by 10 and then its last digit; 48 is the byte of the digit 0.
#[tactic(auto, using(crate::proofs::DigitLemmas::decimal_recursion))]
pub fn decimal_by_last_digit()
    ensures one { (n : ℕ) → n < 10 → decimal n ≡ (48 + n) ∷ [] }
    ensures more { (n : ℕ) → 10 ≤ n → n < 10 ^ 64
        → decimal n ≡ decimal (n / 10) ++ (48 + n % 10) ∷ [] }
{}

/// The trimmed fraction of each number from 0 to 999,999,999 is the shortest list of one to nine
/// digits that, filled with zeros to nine, is the nine digits of the number. No other list is.
#[tactic(auto, using(crate::proofs::FractionLemmas::only_trimmed_fraction))]
pub fn trimmed_fraction_is_shortest()
    ensures { (n : ℕ) → n < 1_000_000_000 → IsOnlyTrimmedFraction n }
{}

/// The product of a number and 5243, shifted right by 19 bits, which divides it by 2 ^ 19, is the
/// quotient of the number by 100, for each number from 0 to 43,698 and not for the next one. These
/// are the two constants of `div_100`.
#[tactic(auto, using(crate::proofs::DivisionLemmas::quotient_by_5243))]
pub fn quotient_by_5243()
    ensures up_to { (n : ℕ) → n ≤ 43_698 → n * 5243 / 2 ^ 19 ≡ n / 100 }
    ensures no_further { 43_699 * 5243 / 2 ^ 19 ≡ 43_699 / 100 + 1 }
    ensures factor { DIV_100_FACTOR ≡ 5243 }
    ensures shift { DIV_100_SHIFT ≡ 19 }
{}

/// Each text of a table is at its index: that of the digit `n` at the byte `n`, and those of the
/// number `n` in two places at the byte `2 * n`. Nothing else is in a table: the first has 10
/// bytes, the others 200.
#[tactic(auto, using(crate::proofs::SpacePaddedLemmas::entries_of_tables))]
pub fn texts_of_tables()
    ensures digits { (n : ℕ) → n < 10 → take 1 (drop n SINGLE_DIGITS.now) ≡ decimal n }
    ensures zeros { (n : ℕ) → n < 100
        → take 2 (drop (2 * n) ZERO_PADDED_PAIRS.now) ≡ zero_padded 2 n }
    ensures spaces { (n : ℕ) → n < 100
        → take 2 (drop (2 * n) SPACE_PADDED_PAIRS.now) ≡ space_padded 2 n }
    ensures digits_len { length SINGLE_DIGITS.now ≡ 10 }
    ensures zeros_len { length ZERO_PADDED_PAIRS.now ≡ 200 }
    ensures spaces_len { length SPACE_PADDED_PAIRS.now ≡ 200 }
{}

/// Two numbers of the type are equal exactly if they are the same.
pub fn ru8_equality<const MIN: u8, const MAX: u8>(a: ru8<MIN, MAX>, b: ru8<MIN, MAX>)
    ensures equal { IsTrue (⟦<ru8<MIN, MAX> as PartialEq>⟧.eq a.entry b.entry)
        ↔ (a.entry ≡ b.entry) }
{}

/// Two numbers of the type are equal exactly if they are the same.
pub fn ru16_equality<const MIN: u16, const MAX: u16>(a: ru16<MIN, MAX>, b: ru16<MIN, MAX>)
    ensures equal { IsTrue (⟦<ru16<MIN, MAX> as PartialEq>⟧.eq a.entry b.entry)
        ↔ (a.entry ≡ b.entry) }
{}

/// Two numbers of the type are equal exactly if they are the same.
pub fn ru32_equality<const MIN: u32, const MAX: u32>(a: ru32<MIN, MAX>, b: ru32<MIN, MAX>)
    ensures equal { IsTrue (⟦<ru32<MIN, MAX> as PartialEq>⟧.eq a.entry b.entry)
        ↔ (a.entry ≡ b.entry) }
{}

/// Two numbers of the type are equal exactly if they are the same.
pub fn ri8_equality<const MAX: u8>(a: ri8<MAX>, b: ri8<MAX>)
    ensures equal { IsTrue (⟦<ri8<MAX> as PartialEq>⟧.eq a.entry b.entry) ↔ (a.entry ≡ b.entry) }
{}

/// Two numbers of the type are equal exactly if they are the same.
pub fn ri16_equality<const MAX: u16>(a: ri16<MAX>, b: ri16<MAX>)
    ensures equal { IsTrue (⟦<ri16<MAX> as PartialEq>⟧.eq a.entry b.entry) ↔ (a.entry ≡ b.entry) }
{}

/// Two numbers of the type are equal exactly if they are the same.
pub fn ri32_equality<const MAX: u32>(a: ri32<MAX>, b: ri32<MAX>)
    ensures equal { IsTrue (⟦<ri32<MAX> as PartialEq>⟧.eq a.entry b.entry) ↔ (a.entry ≡ b.entry) }
{}
