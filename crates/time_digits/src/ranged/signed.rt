//! Signed numbers that keep a greatest magnitude.
ghost use Rattle.std.specs.Prelude.{◌≡◌, ℤ, pos, neg_ℤ, ◌≤◌, ◌≤ℤ◌, ◌<ℤ◌, ◌↔◌, IsTrue, SomeIff};
ghost use Rattle.std.specs.Prelude.{unsigned_abs};

use crate::ranged::unsigned::{ru8, ru16, ru32};
use std::marker::Model;

/// An `i8` from `-MAX` to `MAX`, both included.
#[derive(Debug, Clone, Copy, PartialEq, Eq)]
pub struct ri8<const MAX: u8> {
    number: i8,
}

impl<const MAX: u8> Model for ri8<MAX> {
    ghost Value = { ℤ };

    ghost view = { λ r. r.number };

    ghost invariant = { λ r. unsigned_abs r.number ≤ MAX };

    ghost inverse = { λ n. record { number = n } };
}

impl<const MAX: u8> ri8<MAX> {
    /// Returns `n` if it is in `-MAX` to `MAX`, else `None`.
    pub fn new(n: i8) -> Option<Self>
        ensures { SomeIff result (unsigned_abs n ≤ MAX) n }
    {
        if n.unsigned_abs() <= MAX {
            Some(ri8 { number: n })
        } else {
            None
        }
    }

    /// Returns `n`, which is known to be in `-MAX` to `MAX`; nothing is tested.
    pub fn within(n: i8) -> Self
        requires range { unsigned_abs n ≤ MAX }
        ensures { result ≡ n }
    {
        ri8 { number: n }
    }

    /// Returns the number, from `-MAX` to `MAX`.
    pub fn get(self) -> i8
        ensures value { result ≡ self.entry }
        ensures range { unsigned_abs result ≤ MAX }
        ensures least { neg_ℤ (pos MAX) ≤ℤ result }
        ensures greatest { result ≤ℤ pos MAX }
    {
        self.number
    }

    /// Returns the magnitude of the number, from 0 to `MAX`.
    pub fn abs(self) -> ru8<0, MAX>
        ensures { result ≡ unsigned_abs self.entry }
    {
        ru8::within(self.number.unsigned_abs())
    }

    /// Returns whether the number is below zero.
    pub fn is_negative(self) -> bool
        ensures { IsTrue result ↔ (self.entry <ℤ pos 0) }
    {
        self.number < 0
    }

    /// Widens the bounds to a greatest magnitude of at least `MAX`. Nothing is tested.
    pub fn expand<const HIGH: u8>(self) -> ri8<HIGH>
        requires greatest { MAX ≤ HIGH }
        ensures { result ≡ self.entry }
    {
        ri8::within(self.number)
    }

    /// Narrows the bounds to `-HIGH` to `HIGH`, or returns `None` if the number is outside.
    pub fn narrow<const HIGH: u8>(self) -> Option<ri8<HIGH>>
        ensures { SomeIff result (unsigned_abs self.entry ≤ HIGH) self.entry }
    {
        ri8::new(self.number)
    }
}

/// An `i16` from `-MAX` to `MAX`, both included.
#[derive(Debug, Clone, Copy, PartialEq, Eq)]
pub struct ri16<const MAX: u16> {
    number: i16,
}

impl<const MAX: u16> Model for ri16<MAX> {
    ghost Value = { ℤ };

    ghost view = { λ r. r.number };

    ghost invariant = { λ r. unsigned_abs r.number ≤ MAX };

    ghost inverse = { λ n. record { number = n } };
}

impl<const MAX: u16> ri16<MAX> {
    /// Returns `n` if it is in `-MAX` to `MAX`, else `None`.
    pub fn new(n: i16) -> Option<Self>
        ensures { SomeIff result (unsigned_abs n ≤ MAX) n }
    {
        if n.unsigned_abs() <= MAX {
            Some(ri16 { number: n })
        } else {
            None
        }
    }

    /// Returns `n`, which is known to be in `-MAX` to `MAX`; nothing is tested.
    pub fn within(n: i16) -> Self
        requires range { unsigned_abs n ≤ MAX }
        ensures { result ≡ n }
    {
        ri16 { number: n }
    }

    /// Returns the number, from `-MAX` to `MAX`.
    pub fn get(self) -> i16
        ensures value { result ≡ self.entry }
        ensures range { unsigned_abs result ≤ MAX }
        ensures least { neg_ℤ (pos MAX) ≤ℤ result }
        ensures greatest { result ≤ℤ pos MAX }
    {
        self.number
    }

    /// Returns the magnitude of the number, from 0 to `MAX`.
    pub fn abs(self) -> ru16<0, MAX>
        ensures { result ≡ unsigned_abs self.entry }
    {
        ru16::within(self.number.unsigned_abs())
    }

    /// Returns whether the number is below zero.
    pub fn is_negative(self) -> bool
        ensures { IsTrue result ↔ (self.entry <ℤ pos 0) }
    {
        self.number < 0
    }

    /// Widens the bounds to a greatest magnitude of at least `MAX`. Nothing is tested.
    pub fn expand<const HIGH: u16>(self) -> ri16<HIGH>
        requires greatest { MAX ≤ HIGH }
        ensures { result ≡ self.entry }
    {
        ri16::within(self.number)
    }

    /// Narrows the bounds to `-HIGH` to `HIGH`, or returns `None` if the number is outside.
    pub fn narrow<const HIGH: u16>(self) -> Option<ri16<HIGH>>
        ensures { SomeIff result (unsigned_abs self.entry ≤ HIGH) self.entry }
    {
        ri16::new(self.number)
    }
}

/// An `i32` from `-MAX` to `MAX`, both included.
#[derive(Debug, Clone, Copy, PartialEq, Eq)]
pub struct ri32<const MAX: u32> {
    number: i32,
}

impl<const MAX: u32> Model for ri32<MAX> {
    ghost Value = { ℤ };

    ghost view = { λ r. r.number };

    ghost invariant = { λ r. unsigned_abs r.number ≤ MAX };

    ghost inverse = { λ n. record { number = n } };
}

impl<const MAX: u32> ri32<MAX> {
    /// Returns `n` if it is in `-MAX` to `MAX`, else `None`.
    pub fn new(n: i32) -> Option<Self>
        ensures { SomeIff result (unsigned_abs n ≤ MAX) n }
    {
        if n.unsigned_abs() <= MAX {
            Some(ri32 { number: n })
        } else {
            None
        }
    }

    /// Returns `n`, which is known to be in `-MAX` to `MAX`; nothing is tested.
    pub fn within(n: i32) -> Self
        requires range { unsigned_abs n ≤ MAX }
        ensures { result ≡ n }
    {
        ri32 { number: n }
    }

    /// Returns the number, from `-MAX` to `MAX`.
    pub fn get(self) -> i32
        ensures value { result ≡ self.entry }
        ensures range { unsigned_abs result ≤ MAX }
        ensures least { neg_ℤ (pos MAX) ≤ℤ result }
        ensures greatest { result ≤ℤ pos MAX }
    {
        self.number
    }

    /// Returns the magnitude of the number, from 0 to `MAX`.
    pub fn abs(self) -> ru32<0, MAX>
        ensures { result ≡ unsigned_abs self.entry }
    {
        ru32::within(self.number.unsigned_abs())
    }

    /// Returns whether the number is below zero.
    pub fn is_negative(self) -> bool
        ensures { IsTrue result ↔ (self.entry <ℤ pos 0) }
    {
        self.number < 0
    }

    /// Widens the bounds to a greatest magnitude of at least `MAX`. Nothing is tested.
    pub fn expand<const HIGH: u32>(self) -> ri32<HIGH>
        requires greatest { MAX ≤ HIGH }
        ensures { result ≡ self.entry }
    {
        ri32::within(self.number)
    }

    /// Narrows the bounds to `-HIGH` to `HIGH`, or returns `None` if the number is outside.
    pub fn narrow<const HIGH: u32>(self) -> Option<ri32<HIGH>>
        ensures { SomeIff result (unsigned_abs self.entry ≤ HIGH) self.entry }
    {
        ri32::new(self.number)
    }
}
