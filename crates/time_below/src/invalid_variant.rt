//! The refusal of a text that names no value.
use thiserror::Error;

/// The text is not the name of a variant.
#[derive(Debug, Clone, Copy, PartialEq, Eq, Error)]
#[error("value was not a valid variant")]
pub struct InvalidVariant;
