//! Unsigned numbers that keep a least and a greatest value.
ghost use Rattle.std.specs.Prelude.{◌≡◌, ℕ, ◌≤◌, SomeIff};

use std::marker::Model;

/// A `u8` from `MIN` to `MAX`, both included.
#[derive(Debug, Clone, Copy, PartialEq, Eq)]
pub struct ru8<const MIN: u8, const MAX: u8> {
    number: u8,
}

impl<const MIN: u8, const MAX: u8> Model for ru8<MIN, MAX> {
    ghost Value = { ℕ };

    ghost view = { λ r. r.number };

    ghost invariant = { λ r. (MIN ≤ r.number) × (r.number ≤ MAX) };

    ghost inverse = { λ n. record { number = n } };
}

impl<const MIN: u8, const MAX: u8> ru8<MIN, MAX> {
    /// Returns `n` if it is in `MIN` to `MAX`, else `None`.
    pub fn new(n: u8) -> Option<Self>
        ensures { SomeIff result ((MIN ≤ n) × (n ≤ MAX)) n }
    {
        if MIN <= n && n <= MAX {
            Some(ru8 { number: n })
        } else {
            None
        }
    }

    /// Returns `n`, which is known to be in `MIN` to `MAX`; nothing is tested.
    pub fn within(n: u8) -> Self
        requires least { MIN ≤ n }
        requires greatest { n ≤ MAX }
        ensures { result ≡ n }
    {
        ru8 { number: n }
    }

    /// Returns the number, from `MIN` to `MAX`.
    pub fn get(self) -> u8
        ensures value { result ≡ self.entry }
        ensures least { MIN ≤ result }
        ensures greatest { result ≤ MAX }
    {
        self.number
    }

    /// Widens the bounds to some that contain `MIN` to `MAX`. Nothing is tested.
    pub fn expand<const LOW: u8, const HIGH: u8>(self) -> ru8<LOW, HIGH>
        requires least { LOW ≤ MIN }
        requires greatest { MAX ≤ HIGH }
        ensures { result ≡ self.entry }
    {
        ru8::within(self.number)
    }

    /// Narrows the bounds to `LOW` to `HIGH`, or returns `None` if the number is outside.
    pub fn narrow<const LOW: u8, const HIGH: u8>(self) -> Option<ru8<LOW, HIGH>>
        ensures { SomeIff result ((LOW ≤ self.entry) × (self.entry ≤ HIGH)) self.entry }
    {
        ru8::new(self.number)
    }
}

/// A `u16` from `MIN` to `MAX`, both included.
#[derive(Debug, Clone, Copy, PartialEq, Eq)]
pub struct ru16<const MIN: u16, const MAX: u16> {
    number: u16,
}

impl<const MIN: u16, const MAX: u16> Model for ru16<MIN, MAX> {
    ghost Value = { ℕ };

    ghost view = { λ r. r.number };

    ghost invariant = { λ r. (MIN ≤ r.number) × (r.number ≤ MAX) };

    ghost inverse = { λ n. record { number = n } };
}

impl<const MIN: u16, const MAX: u16> ru16<MIN, MAX> {
    /// Returns `n` if it is in `MIN` to `MAX`, else `None`.
    pub fn new(n: u16) -> Option<Self>
        ensures { SomeIff result ((MIN ≤ n) × (n ≤ MAX)) n }
    {
        if MIN <= n && n <= MAX {
            Some(ru16 { number: n })
        } else {
            None
        }
    }

    /// Returns `n`, which is known to be in `MIN` to `MAX`; nothing is tested.
    pub fn within(n: u16) -> Self
        requires least { MIN ≤ n }
        requires greatest { n ≤ MAX }
        ensures { result ≡ n }
    {
        ru16 { number: n }
    }

    /// Returns the number, from `MIN` to `MAX`.
    pub fn get(self) -> u16
        ensures value { result ≡ self.entry }
        ensures least { MIN ≤ result }
        ensures greatest { result ≤ MAX }
    {
        self.number
    }

    /// Widens the bounds to some that contain `MIN` to `MAX`. Nothing is tested.
    pub fn expand<const LOW: u16, const HIGH: u16>(self) -> ru16<LOW, HIGH>
        requires least { LOW ≤ MIN }
        requires greatest { MAX ≤ HIGH }
        ensures { result ≡ self.entry }
    {
        ru16::within(self.number)
    }

    /// Narrows the bounds to `LOW` to `HIGH`, or returns `None` if the number is outside.
    pub fn narrow<const LOW: u16, const HIGH: u16>(self) -> Option<ru16<LOW, HIGH>>
        ensures { SomeIff result ((LOW ≤ self.entry) × (self.entry ≤ HIGH)) self.entry }
    {
        ru16::new(self.number)
    }
}

/// A `u32` from `MIN` to `MAX`, both included.
#[derive(Debug, Clone, Copy, PartialEq, Eq)]
pub struct ru32<const MIN: u32, const MAX: u32> {
    number: u32,
}

impl<const MIN: u32, const MAX: u32> Model for ru32<MIN, MAX> {
    ghost Value = { ℕ };

    ghost view = { λ r. r.number };

    ghost invariant = { λ r. (MIN ≤ r.number) × (r.number ≤ MAX) };

    ghost inverse = { λ n. record { number = n } };
}

impl<const MIN: u32, const MAX: u32> ru32<MIN, MAX> {
    /// Returns `n` if it is in `MIN` to `MAX`, else `None`.
    pub fn new(n: u32) -> Option<Self>
        ensures { SomeIff result ((MIN ≤ n) × (n ≤ MAX)) n }
    {
        if MIN <= n && n <= MAX {
            Some(ru32 { number: n })
        } else {
            None
        }
    }

    /// Returns `n`, which is known to be in `MIN` to `MAX`; nothing is tested.
    pub fn within(n: u32) -> Self
        requires least { MIN ≤ n }
        requires greatest { n ≤ MAX }
        ensures { result ≡ n }
    {
        ru32 { number: n }
    }

    /// Returns the number, from `MIN` to `MAX`.
    pub fn get(self) -> u32
        ensures value { result ≡ self.entry }
        ensures least { MIN ≤ result }
        ensures greatest { result ≤ MAX }
    {
        self.number
    }

    /// Widens the bounds to some that contain `MIN` to `MAX`. Nothing is tested.
    pub fn expand<const LOW: u32, const HIGH: u32>(self) -> ru32<LOW, HIGH>
        requires least { LOW ≤ MIN }
        requires greatest { MAX ≤ HIGH }
        ensures { result ≡ self.entry }
    {
        ru32::within(self.number)
    }

    /// Narrows the bounds to `LOW` to `HIGH`, or returns `None` if the number is outside.
    pub fn narrow<const LOW: u32, const HIGH: u32>(self) -> Option<ru32<LOW, HIGH>>
        ensures { SomeIff result ((LOW ≤ self.entry) × (self.entry ≤ HIGH)) self.entry }
    {
        ru32::new(self.number)
    }
}
