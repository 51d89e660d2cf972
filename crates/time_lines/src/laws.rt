//! Laws of the units of Unix time and of lines that passed: the contract of each function is the
//! law, and its body does nothing.
ghost use Rattle.std.specs.Prelude.{◌≡◌, ◌↔◌, IsTrue};

use crate::number::Unit;
use crate::passed::{FirstPassed, Why};

/// Two units are equal exactly if they are the same.
pub fn unit_equality(a: Unit, b: Unit)
    ensures { IsTrue (⟦<Unit as PartialEq>⟧.eq a b) ↔ (a ≡ b) }
{}

/// Two reasons, or two lines that passed, are equal exactly if they are the same.
pub fn passed_equality(a: Why, b: Why, line: FirstPassed, other: FirstPassed)
    ensures why { IsTrue (⟦<Why as PartialEq>⟧.eq a b) ↔ (a ≡ b) }
    ensures line { IsTrue (⟦<FirstPassed as PartialEq>⟧.eq line other) ↔ (line ≡ other) }
{}
