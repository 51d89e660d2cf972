//! Laws of the error: the contract of each function is the law, and its body does nothing.
ghost use Rattle.std.specs.Prelude.{◌≡◌, ◌↔◌, IsTrue};

use crate::exchange::FilterError;

/// Two errors are equal exactly if they are the same.
pub fn error_equality(a: FilterError, b: FilterError)
    ensures { IsTrue (⟦<FilterError as PartialEq>⟧.eq a b) ↔ (a ≡ b) }
{}
