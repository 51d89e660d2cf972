//! Why a call gives no text.
ghost use Rattle.std.specs.Prelude.{◌≡◌, ◌<◌, IfOk};
ghost use Rattle.movaliren_c.specs.Answer.{answer_number, reason_number, IsReasonFor, Refuses};
ghost use Rattle.movaliren_c.specs.Value.{flag_at};
ghost use Rattle.time_fmt.specs.Ends.{refusal_of};

use time_fmt::{Format, Refused};

/// The reason why there is no text. A call returns its number, below zero.
#[derive(Clone, Copy)]
pub enum Reason {
    /// The year is outside -999,999 to 999,999.
    Year = 1,
    /// The month is outside 1 to 12.
    Month = 2,
    /// The month of that year has no such day.
    Day = 3,
    /// The hour is outside 0 to 23.
    Hour = 4,
    /// The minute is outside 0 to 59.
    Minute = 5,
    /// The second is outside 0 to 59.
    Second = 6,
    /// The nanosecond is outside 0 to 999,999,999.
    Nanosecond = 7,
    /// The hours of the offset are outside -25 to 25.
    OffsetHours = 8,
    /// The minutes of the offset are outside -59 to 59, or of another sign than its hours.
    OffsetMinutes = 9,
    /// The seconds of the offset are outside -59 to 59, or of another sign than its hours or
    /// minutes.
    OffsetSeconds = 10,
    /// The seconds of the moment are outside those of the years -999,999 to 999,999.
    MomentSeconds = 11,
    /// The format cannot represent the year, or the local date is outside -999,999 to 999,999.
    FormatYear = 12,
    /// The format cannot represent the hours of the offset.
    FormatOffsetHour = 13,
    /// The format cannot represent the minutes of the offset.
    FormatOffsetMinute = 14,
    /// The format cannot represent the seconds of the offset.
    FormatOffsetSecond = 15,
    /// The value lacks a component.
    Insufficient = 16,
    /// A component is outside the range that the description has for it.
    OutOfRange = 17,
    /// Invalid configuration value.
    BadConfig = 18,
    /// Invalid item.
    BadItem = 19,
    /// The text does not fit the buffer.
    BufferTooSmall = 20,
    /// Memory was refused, or the maximum length is the greatest `usize`. No call of C returns it.
    OutOfMemory = 21,
    /// The format cannot represent a component of another name. No call of C returns it.
    Other = 22,
    /// The text is none of its format.
    NotRead = 23,
    /// The text is no description.
    BadDescription = 24,
    /// The description has more items than the array holds.
    ManyItems = 25,
    /// The texts of the description, or of the configuration, do not determine a moment.
    Undetermined = 26,
}

/// The number of the reason.
fn reason_number(reason: Reason) -> isize
    ensures { result ≡ reason_number reason }
{
    -(reason as isize)
}

/// The number that a call returns.
pub fn answer_number(answer: Result<usize, Reason>) -> isize
    requires { IfOk answer (λ n. n < 0x8000_0000_0000_0000) }
    ensures { result ≡ answer_number answer }
{
    match answer {
        Ok(count) => count as isize,
        Err(reason) => reason_number(reason),
    }
}

/// Whether a flag is set, or the reason why it is none.
pub fn flag_at(number: u8, reason: Reason) -> Result<bool, Reason>
    ensures { result ≡ flag_at number reason }
{
    match number {
        0 => Ok(false),
        1 => Ok(true),
        _ => Err(reason),
    }
}

/// The reason of an error of the formatter.
pub fn reason_of(error: Format) -> Reason
    ensures { IsReasonFor result error }
{
    match error {
        Format::InsufficientTypeInformation => Reason::Insufficient,
        Format::ComponentRange(_) => Reason::OutOfRange,
        Format::OutOfMemory => Reason::OutOfMemory,
        Format::InvalidComponent(name) => match name {
            "year" => Reason::FormatYear,
            "offset_hour" => Reason::FormatOffsetHour,
            "offset_minute" => Reason::FormatOffsetMinute,
            "offset_second" => Reason::FormatOffsetSecond,
            _ => Reason::Other,
        },
    }
}

/// The reason of what is refused.
impl From<Refused> for Reason {
    ghost from_gives = { λ refused reason. Refuses reason (refusal_of refused) };

    fn from(refused: Refused) -> Reason {
        match refused {
            Refused::Unsupplied => Reason::Insufficient,
            Refused::YearOutOfRange => Reason::OutOfRange,
            Refused::InvalidYear => Reason::FormatYear,
            Refused::InvalidOffsetHour => Reason::FormatOffsetHour,
            Refused::InvalidOffsetMinute => Reason::FormatOffsetMinute,
            Refused::InvalidOffsetSecond => Reason::FormatOffsetSecond,
        }
    }
}
