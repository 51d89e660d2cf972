//! The refusal of a conversion between errors.
use thiserror::Error;

/// The error is of another variant than the one that was requested.
#[derive(Debug, Clone, Copy, PartialEq, Eq, Error)]
#[error("The error is of a different variant.")]
pub struct DifferentVariant;
