//! What follows a component: how many digits of a run of digits are not its own.
ghost use Rattle.std.specs.Prelude.{◌≡◌, ⊤};

use crate::plan::any_step::{LiteralRef, ReadStep};
use crate::plan::shapes::{Shape, fixed_decimals, shape_of};
use std::alloc::AllocError;
use std::clone::Clone;
use time_below::format_description::modifier::Padding;
use time_plan::{Run, Shown};

/// How the texts of a component begin.
#[derive(Clone, Copy)]
enum Front {
    /// By as many digits as there are.
    Digits(usize),
    /// By no digit.
    NoDigit,
    /// By digits whose number depends on the value.
    Open,
    /// There is no text.
    Nothing,
}

/// How the texts of a component begin.
fn front_of(shape: Shape) -> Front {
    match shape {
        Shape::Number(Padding::Zero, places) => Front::Digits(places),
        Shape::LastTwo(Padding::Zero) => Front::Digits(2),
        Shape::Weekday(_, _) => Front::Digits(1),
        Shape::Number(_, _) | Shape::LastTwo(_) => Front::Open,
        Shape::Year(year) => signed_front(year.has_sign),
        Shape::OffsetHour(_, has_sign) | Shape::Count(has_sign) => signed_front(has_sign),
        Shape::Decimals(digits) => match fixed_decimals(digits) {
            Some(count) => Front::Digits(count),
            None => Front::Open,
        },
        Shape::Letters => Front::NoDigit,
        Shape::Nothing => Front::Nothing,
    }
}

/// How a number begins that may have a sign, or has one in any case.
fn signed_front(has_sign: bool) -> Front {
    if has_sign {
        Front::NoDigit
    } else {
        Front::Open
    }
}

/// Whether a component ends by digits whose number depends on the value.
fn is_open(shape: Shape) -> bool {
    let padding = match shape {
        Shape::Number(padding, _) | Shape::LastTwo(padding) | Shape::OffsetHour(padding, _) => {
            padding
        }
        Shape::Year(year) if year.places == year.most => year.padding,
        Shape::Year(_) | Shape::Count(_) => return true,
        Shape::Decimals(digits) => return fixed_decimals(digits).is_none(),
        Shape::Weekday(_, _) | Shape::Letters | Shape::Nothing => return false,
    };
    matches!(padding, Padding::None)
}

/// The first byte of a literal.
fn first_byte(literal: LiteralRef<'_>) -> Option<u8> {
    match literal {
        LiteralRef::Byte(byte) => Some(byte),
        LiteralRef::Bytes([byte, ..]) => Some(*byte),
        LiteralRef::Bytes([]) => None,
    }
}

/// How many digits follow a component at once before a byte, unless that depends on the value.
pub(crate) fn digits_before(byte: u8) -> Option<usize> {
    if byte.is_ascii_digit() { None } else { Some(0) }
}

/// A step, those behind it, and what their literals may lie in.
#[derive_where(Copy)]
pub(crate) struct StepsFrom<'a, T> {
    pub(crate) step: &'a T,
    pub(crate) others: &'a [T],
    pub(crate) texts: &'a [u8],
}

impl<T> Clone for StepsFrom<'_, T> {
    ghost is_clone = { λ steps copy. copy ≡ steps };

    ghost is_infallible = { λ _. ⊤ };

    fn clone(&self) -> Result<Self, AllocError> {
        Ok(*self)
    }
}

impl<T: ReadStep> StepsFrom<'_, T> {
    /// How many digits follow what the step shows at once, unless that depends on the value.
    pub(crate) fn digits_behind(self) -> Option<usize> {
        match first_byte(self.step.parts(self.texts).literal) {
            Some(byte) => digits_before(byte),
            None => digits_of(self.others, self.texts),
        }
    }

    /// Whether the step ends by digits whose number depends on the value, and it is not told where
    /// they end.
    pub(crate) fn are_ambiguous(self) -> bool {
        match self.step.parts(self.texts).shown {
            Shown::Component(component) => {
                is_open(shape_of(component.current())) && self.digits_behind().is_none()
            }
            Shown::Run(Run::Date(between)) => between.first.is_ascii_digit(),
            Shown::Run(Run::Time(_)) | Shown::Nothing => false,
        }
    }
}

/// How many digits the steps begin with, unless that depends on the value.
fn digits_of<T: ReadStep>(steps: &[T], texts: &[u8]) -> Option<usize> {
    let mut sum = 0usize;
    for step in steps {
        let parts = step.parts(texts);
        let front = match parts.shown {
            Shown::Component(component) => front_of(shape_of(component.current())),
            Shown::Nothing => Front::Nothing,
            Shown::Run(Run::Date(_)) => Front::Open,
            Shown::Run(Run::Time(between)) => {
                return if between.first.is_ascii_digit() {
                    None
                } else {
                    Some(sum.saturating_add(2))
                };
            }
        };
        match front {
            Front::Digits(count) => sum = sum.saturating_add(count),
            Front::NoDigit => return Some(sum),
            Front::Open => return None,
            Front::Nothing => {}
        }
        if let Some(byte) = first_byte(parts.literal) {
            return if byte.is_ascii_digit() {
                None
            } else {
                Some(sum)
            };
        }
    }
    Some(sum)
}
