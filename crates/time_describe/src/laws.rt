//! Laws of descriptions, for all texts.
ghost use Rattle.std.specs.Prelude.{◌≡◌, ◌↔◌, ◌<◌, ◌≤◌, IsTrue, ℕ, List, [], length, Ok, Some};
ghost use Rattle.time_below.specs.Tree.{Tree};
ghost use Rattle.time_describe.specs.Conversions.{composition, composed};
ghost use Rattle.time_describe.specs.Grammar.{Parts, spelling, Means};
ghost use Rattle.time_describe.specs.Items.{are_leaves};
ghost use Rattle.time_describe.specs.Limit.{most_items};
ghost use Rattle.time_describe.specs.Reading.{described, IsWithinLimit};
ghost use Rattle.time_describe.specs.Strftime as strftime;
ghost use Rattle.time_describe.specs.StrftimeGrammar as strftime_grammar;
ghost use Rattle.time_describe.specs.StrftimeGrammar.{SpelledPart};
ghost use Rattle.time_describe.specs.declared.strftime.reason.StrftimeReason.TheVariants as reasons;

use crate::brackets::in_text::InText;
use crate::brackets::reason::BracketReason;
use crate::fault::{InvalidDescription, InvalidStrftime};
use crate::strftime::reason::StrftimeReason;

/// Each text that the grammar spells is a description, of the items that the grammar says.
pub fn what_is_spelled_is_described()
    ensures { (ps : Parts) (all : List Tree) → Means 0 [] [] ps all
        → IsWithinLimit (spelling ps []) → described (spelling ps []) ≡ Ok all }
{}

/// Nothing else is: each description is what the grammar spells, with these items.
pub fn what_is_described_is_spelled()
    ensures { (text : List ℕ) (all : List Tree) → described text ≡ Ok all
        → (ps : Parts) × (spelling ps [] ≡ text) × Means 0 [] [] ps all × IsWithinLimit text }
{}

/// Each text that the grammar of strftime spells is a description, of the items that the grammar
/// says, where they are at most 65,536.
pub fn what_strftime_spells_is_described()
    ensures { (ps : List SpelledPart) (all : List Tree) → strftime_grammar.Means [] ps all
        → length all ≤ most_items → strftime.described (strftime_grammar.spelling ps) ≡ Ok all }
{}

/// Where they are more, that alone is the fault.
pub fn what_strftime_spells_may_have_too_many_items()
    ensures { (ps : List SpelledPart) (all : List Tree) → strftime_grammar.Means [] ps all
        → most_items < length all → (left : ℕ) × (strftime.described (strftime_grammar.spelling ps)
        ≡ strftime.fails reasons.TooManyItems left) }
{}

/// Nothing else is: each description is what the grammar of strftime spells, with these items.
pub fn what_strftime_describes_is_spelled()
    ensures { (text : List ℕ) (all : List Tree) → strftime.described text ≡ Ok all
        → (ps : List SpelledPart) × (strftime_grammar.spelling ps ≡ text)
        × strftime_grammar.Means [] ps all × (length all ≤ most_items) }
{}

/// No item of a text in the syntax of strftime is a list.
pub fn what_strftime_describes_has_no_list()
    ensures { (text : List ℕ) (all : List Tree)
        → strftime.described text ≡ Ok all → IsTrue (are_leaves all) }
{}

/// A composition is what its text describes.
pub fn what_a_composition_means()
    ensures { (letter : ℕ) (text : List ℕ) → composition letter ≡ Some text
        → strftime.described text ≡ Ok (composed text) }
{}

/// Two reasons of one syntax are equal exactly if they are the same.
pub fn reason_equality(a: BracketReason, b: BracketReason, c: StrftimeReason, d: StrftimeReason)
    ensures brackets { IsTrue (⟦<BracketReason as PartialEq>⟧.eq a b) ↔ (a ≡ b) }
    ensures strftime { IsTrue (⟦<StrftimeReason as PartialEq>⟧.eq c d) ↔ (c ≡ d) }
{}

/// Two errors of one syntax are equal exactly if they are the same.
pub fn error_equality(
    a: InvalidDescription,
    b: InvalidDescription,
    c: InvalidStrftime,
    d: InvalidStrftime,
)
    ensures brackets { IsTrue (⟦<InvalidDescription as PartialEq>⟧.eq a b) ↔ (a ≡ b) }
    ensures strftime { IsTrue (⟦<InvalidStrftime as PartialEq>⟧.eq c d) ↔ (c ≡ d) }
{}
