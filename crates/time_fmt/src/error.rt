//! Why a value is not formatted.
use std::convert::TryFrom;
use time_below::{ComponentRange, DifferentVariant};

/// The reason why a value is not formatted.
#[derive(Debug, Drop, thiserror::Error)]
pub enum Format {
    /// A component is of a group that the value does not supply, or an ISO 8601 configuration
    /// formats nothing.
    #[error("The type being formatted does not contain sufficient information to format a component.")]
    InsufficientTypeInformation,
    /// The component of this name has no place in a well-known format.
    #[error("The {0} component cannot be formatted into the requested format.")]
    InvalidComponent(&'static str),
    /// A component is outside the range that the description has for it.
    #[error(transparent)]
    ComponentRange(ComponentRange),
    /// An allocation failed, or the maximum length has reached the greatest `usize`.
    #[error("Memory could not be reserved.")]
    OutOfMemory,
}

impl From<ComponentRange> for Format {
    ghost use Rattle.std.specs.Prelude.{◌≡◌};
    ghost use Rattle.time_fmt.specs.declared.error.Format.TheVariants as error;

    ghost from_gives = { λ range format. format ≡ error.ComponentRange range };

    fn from(range: ComponentRange) -> Format {
        Format::ComponentRange(range)
    }
}

/// Gives back the range; every other variant is a `DifferentVariant`.
impl TryFrom<Format> for ComponentRange {
    type Error = DifferentVariant;

    ghost use Rattle.std.specs.Prelude.{◌≡◌};
    ghost use Rattle.time_fmt.specs.Errors.{range_in};

    ghost try_from_gives = { λ format result. result ≡ range_in format };

    fn try_from(format: Format) -> Result<ComponentRange, DifferentVariant> {
        match format {
            Format::ComponentRange(range) => Ok(range),
            Format::InsufficientTypeInformation
            | Format::InvalidComponent(_)
            | Format::OutOfMemory => Err(DifferentVariant),
        }
    }
}

/// The reason why a value is not made or not formatted.
#[derive(Debug, Drop, thiserror::Error)]
pub enum Error {
    /// A value is not formatted.
    #[error(transparent)]
    Format(Format),
    /// A component of a value is outside its range.
    #[error(transparent)]
    ComponentRange(ComponentRange),
}

impl From<Format> for Error {
    ghost use Rattle.std.specs.Prelude.{◌≡◌};
    ghost use Rattle.time_fmt.specs.declared.error.Error.TheVariants as outer;

    ghost from_gives = { λ format error. error ≡ outer.Format format };

    fn from(format: Format) -> Error {
        Error::Format(format)
    }
}

/// Gives back the format's error; every other variant is a `DifferentVariant`.
impl TryFrom<Error> for Format {
    type Error = DifferentVariant;

    ghost use Rattle.std.specs.Prelude.{◌≡◌};
    ghost use Rattle.time_fmt.specs.Errors.{format_in};

    ghost try_from_gives = { λ error result. result ≡ format_in error };

    fn try_from(error: Error) -> Result<Format, DifferentVariant> {
        match error {
            Error::Format(format) => Ok(format),
            Error::ComponentRange(_) => Err(DifferentVariant),
        }
    }
}
