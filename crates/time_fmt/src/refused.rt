//! Why there is no text.
ghost use Rattle.time_fmt.specs.Ends.{refusal_of};
ghost use Rattle.time_fmt.specs.Outcome.{Names};

use crate::error::Format;
use time_below::ComponentRange;

/// Why a component or a value has no text. A `Result<(), Refused>` is returned in registers, where
/// one with the library's error lies in memory.
#[derive(Clone, Copy)]
pub enum Refused {
    /// A component is of a group that the value does not supply.
    Unsupplied,
    /// A year is outside the range of its component.
    YearOutOfRange,
    /// A well-known format has no place for the year.
    InvalidYear,
    /// A well-known format has no place for the hours of the offset.
    InvalidOffsetHour,
    /// A well-known format has no place for the minutes of the offset.
    InvalidOffsetMinute,
    /// A well-known format has no place for the seconds of the offset.
    InvalidOffsetSecond,
}

impl From<Refused> for Format {
    ghost from_gives = { λ refused format. Names format (refusal_of refused) };

    fn from(refused: Refused) -> Format {
        match refused {
            Refused::Unsupplied => Format::InsufficientTypeInformation,
            Refused::YearOutOfRange => Format::ComponentRange(ComponentRange::conditional("year")),
            Refused::InvalidYear => Format::InvalidComponent("year"),
            Refused::InvalidOffsetHour => Format::InvalidComponent("offset_hour"),
            Refused::InvalidOffsetMinute => Format::InvalidComponent("offset_minute"),
            Refused::InvalidOffsetSecond => Format::InvalidComponent("offset_second"),
        }
    }
}
