//! The ranges of components.
use time_digits::{ri8, ri16, ri32, ru8, ru16, ru32};

/// A day of the month, 1 to 31.
pub type Day = ru8<1, 31>;

/// A day of the year, 1 to 366.
pub type Ordinal = ru16<1, 366>;

/// A week of the week calendar, 1 to 53 (ISO 8601-1:2019, week date).
pub type IsoWeekNumber = ru8<1, 53>;

/// A week of the year, 0 to 53, where week 1 begins on the first Monday.
pub type MondayBasedWeek = ru8<0, 53>;

/// A week of the year, 0 to 53, where week 1 begins on the first Sunday.
pub type SundayBasedWeek = ru8<0, 53>;

/// A year, -999,999 to 999,999.
pub type Year = ri32<999_999>;

/// A year of at most four digits, -9,999 to 9,999.
pub type StandardYear = ri16<9_999>;

/// A year without its last two digits, -9,999 to 9,999.
pub type ExtendedCentury = ri16<9_999>;

/// A year of at most four digits, without the last two, -99 to 99.
pub type StandardCentury = ri8<99>;

/// The last two digits of a year, 0 to 99.
pub type LastTwo = ru8<0, 99>;

/// An hour of the day, 0 to 23.
pub type Hours = ru8<0, 23>;

/// A minute of the hour, 0 to 59.
pub type Minutes = ru8<0, 59>;

/// A second of the minute, 0 to 59.
pub type Seconds = ru8<0, 59>;

/// A nanosecond of the second, 0 to 999,999,999.
pub type Nanoseconds = ru32<0, 999_999_999>;

/// An hour of an offset, -25 to 25.
pub type OffsetHours = ri8<25>;

/// A minute of an offset, -59 to 59.
pub type OffsetMinutes = ri8<59>;

/// A second of an offset, -59 to 59.
pub type OffsetSeconds = ri8<59>;
