//! A step of a plan.
ghost use Rattle.std.specs.Prelude.{◌≡◌, true};
ghost use Rattle.std.specs.Str.{is_utf8};
ghost use Rattle.time_plan.specs.Literal.{literal_bytes};

use crate::literal::Literal;
use crate::shown::Shown;
use time_below::format_description::Metadata;

/// What is shown of a value, and the literal after it.
#[derive(Drop)]
pub struct Step {
    /// What is shown.
    pub shown: Shown,
    /// What is written after it.
    pub literal: Literal,
    /// Whether the literal was a text.
    pub is_text: bool,
    ghost utf8: { is_text ≡ true → is_utf8 (literal_bytes literal) ≡ true },
}

impl Step {
    ghost use Rattle.std.specs.Prelude.{[], IsTrue, IsUtf8};
    ghost use Rattle.time_below.specs.Metadata.{tree_metadata};
    ghost use Rattle.time_plan.specs.Steps.{step_tree};

    /// What is known of the text.
    pub(crate) fn metadata(&self) -> Metadata
        ensures { result ≡ tree_metadata (step_tree self.now) }
    {
        Metadata {
            max_bytes_needed: self.shown.width().saturating_add(self.literal.len()),
            guaranteed_utf8: self.is_text,
        }
    }

    /// Whether there is plainly no literal after what is shown.
    pub(crate) fn has_no_literal(&self) -> bool
        ensures { IsTrue result
            → (literal_bytes self.now.literal ≡ []) × (self.now.is_text ≡ true) }
    {
        self.is_text && self.literal.is_nothing()
    }

    /// Puts another literal after what is shown.
    pub(crate) fn end_with(&mut self, literal: Literal, is_text: bool)
        requires utf8 { is_text ≡ true → IsUtf8 (literal_bytes literal) }
        ensures shown { self.new.shown ≡ self.old.shown }
        ensures literal { self.new.literal ≡ literal }
        ensures is_text { self.new.is_text ≡ is_text }
    {
        *self = Step {
            shown: self.shown,
            literal,
            is_text,
        };
    }
}
