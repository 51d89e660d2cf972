//! What values supply, what their states hold, and which states are equal: the contract of each
//! function is the law, and its body does nothing. What is said of each type stands beside its
//! impl.
ghost use Rattle.std.specs.Prelude.{◌≡◌, ◌↔◌, IsTrue};

use crate::date_state::DateState;
pub use crate::providers::{states_agree_with_their_values, values_supply_their_components};

/// Two states of a date are equal exactly if each entry of the one is that of the other.
pub fn date_state_equality(a: DateState, b: DateState)
    ensures { IsTrue (⟦<DateState as PartialEq>⟧.eq a b) ↔ (a ≡ b) }
{}
