//! Steps of any kind: what is read of them.
ghost use Rattle.std.specs.Prelude.{◌≡◌, List, ℕ};
ghost use Rattle.time_below.specs.Facts.{Facts};
ghost use Rattle.time_below.specs.Tree.{Tree};
ghost use Rattle.time_fmt.specs.Description.{tree_outcome};
ghost use Rattle.time_plan.specs.Literal.{literal_bytes};
ghost use Rattle.time_plan.specs.Steps.{step_tree};
ghost use Rattle.time_read.specs.Parts.{parts_tree, ref_bytes};

use crate::values::kinds::{Kinds, kind_of};
use time_plan::{Literal, Run, Shown, Step};

/// A literal, where it lies.
#[derive(Clone, Copy)]
pub enum LiteralRef<'a> {
    /// One byte.
    Byte(u8),
    /// Any number of bytes.
    Bytes(&'a [u8]),
}

/// What a step shows of a value, and the literal after it.
#[derive(Clone, Copy)]
pub struct StepParts<'a> {
    /// What is shown: a component, three of them, or nothing.
    pub shown: Shown,
    /// What stands behind it. It may be empty.
    pub literal: LiteralRef<'a>,
}

/// A step of a description: those of a plan, and those of callers that hold a description in arrays
/// of their own.
pub trait ReadStep {
    /// The tree of a step whose literals lie in these bytes.
    ghost tree_of: { List ℕ → Self → Tree };

    /// What the step shows, and the literal after it, which may lie in these bytes.
    fn parts<'a>(&'a self, texts: &'a [u8]) -> StepParts<'a>
        ensures tree { (f : Facts)
            → tree_outcome (tree_of texts.now self.now) f ≡ tree_outcome (parts_tree result) f };

    /// What the step shows, where that lies, or else in this place: a copy costs as much as the
    /// comparison with a literal. No clause of a reader rests on it, since the text of the value
    /// that was read is compared afterwards.
    fn shown<'a>(&'a self, texts: &[u8], place: &'a mut Shown) -> &'a Shown;
}

impl ReadStep for Step {
    ghost tree_of = { λ _ step. step_tree step };

    #[tactic(auto, using(crate::proofs::StepLemmas::step_is_same))]
    fn parts<'a>(&'a self, _texts: &'a [u8]) -> StepParts<'a> {
        StepParts {
            shown: self.shown,
            literal: literal_of(&self.literal),
        }
    }

    #[inline(always)]
    fn shown<'a>(&'a self, _texts: &[u8], _place: &'a mut Shown) -> &'a Shown {
        &self.shown
    }
}

impl ReadStep for StepParts<'_> {
    ghost tree_of = { λ _ parts. parts_tree parts };

    fn parts<'a>(&'a self, _texts: &'a [u8]) -> StepParts<'a> {
        *self
    }

    fn shown<'a>(&'a self, _texts: &[u8], _place: &'a mut Shown) -> &'a Shown {
        &self.shown
    }
}

/// A literal of a plan.
fn literal_of(literal: &Literal) -> LiteralRef<'_>
    ensures { ref_bytes result ≡ literal_bytes literal.now }
{
    match literal {
        Literal::Byte(byte) => LiteralRef::Byte(*byte),
        Literal::Bytes(bytes) => LiteralRef::Bytes(bytes.as_slice()),
    }
}

/// The kinds of components that a step shows.
fn kinds_of(shown: &Shown) -> Kinds {
    match shown {
        Shown::Component(component) => kind_of(component.current()),
        Shown::Nothing => Kinds::NONE,
        Shown::Run(Run::Date(_)) => Kinds::YEAR.and(Kinds::MONTH).and(Kinds::DAY),
        Shown::Run(Run::Time(_)) => Kinds::HOUR24.and(Kinds::MINUTE).and(Kinds::SECOND),
    }
}

/// The kinds of components that the steps show.
pub(crate) fn shown_by<T: ReadStep>(steps: &[T], texts: &[u8]) -> Kinds {
    let mut kinds = Kinds::NONE;
    for step in steps {
        kinds = kinds.and(kinds_of(&step.parts(texts).shown));
    }
    kinds
}
