//! The choices that a component has.

/// The padding before a number that is shorter than its places.
#[derive(Debug, Clone, Copy, PartialEq, Eq)]
pub enum Padding {
    /// Spaces.
    Space,
    /// Zeros.
    Zero,
    /// Nothing.
    None,
}

/// How many decimals of a second are written. Those that are left out are not rounded.
#[derive(Debug, Clone, Copy, PartialEq, Eq)]
pub enum SubsecondDigits {
    /// Tenths of a second.
    One,
    /// Hundredths of a second.
    Two,
    /// Milliseconds.
    Three,
    /// Four decimals.
    Four,
    /// Five decimals.
    Five,
    /// Microseconds.
    Six,
    /// Seven decimals.
    Seven,
    /// Eight decimals.
    Eight,
    /// Nanoseconds.
    Nine,
    /// The fewest digits that show the fraction exactly, at least one.
    OneOrMore,
}

/// What may follow the end of a description, which is for parsers alone.
#[derive(Debug, Clone, Copy, PartialEq, Eq)]
pub enum TrailingInput {
    /// Nothing.
    Prohibit,
    /// Anything, which is passed over.
    Discard,
}

/// The day of the month, 1 to 31, in two places.
#[derive(Debug, Clone, Copy, PartialEq, Eq)]
pub struct Day {
    /// The padding before a number of one digit.
    pub padding: Padding,
}

/// The first three letters of the month's English name.
#[derive(Debug, Clone, Copy, PartialEq, Eq)]
pub struct MonthShort {
    /// Read by parsers alone.
    pub case_sensitive: bool,
}

/// The month's English name, at most nine letters.
#[derive(Debug, Clone, Copy, PartialEq, Eq)]
pub struct MonthLong {
    /// Read by parsers alone.
    pub case_sensitive: bool,
}

/// The month, 1 to 12, in two places.
#[derive(Debug, Clone, Copy, PartialEq, Eq)]
pub struct MonthNumerical {
    /// The padding before a number of one digit.
    pub padding: Padding,
}

/// The day of the year, 1 to 366, in three places (ISO 8601-1:2019, ordinal date).
#[derive(Debug, Clone, Copy, PartialEq, Eq)]
pub struct Ordinal {
    /// The padding before a number of fewer than three digits.
    pub padding: Padding,
}

/// The first three letters of the weekday's English name.
#[derive(Debug, Clone, Copy, PartialEq, Eq)]
pub struct WeekdayShort {
    /// Read by parsers alone.
    pub case_sensitive: bool,
}

/// The weekday's English name, at most nine letters.
#[derive(Debug, Clone, Copy, PartialEq, Eq)]
pub struct WeekdayLong {
    /// Read by parsers alone.
    pub case_sensitive: bool,
}

/// The weekday by one digit from Sunday on, 0 to 6 or 1 to 7.
#[derive(Debug, Clone, Copy, PartialEq, Eq)]
pub struct WeekdaySunday {
    /// Whether Sunday is 1, and not 0.
    pub one_indexed: bool,
}

/// The weekday by one digit from Monday on, 0 to 6 or 1 to 7.
#[derive(Debug, Clone, Copy, PartialEq, Eq)]
pub struct WeekdayMonday {
    /// Whether Monday is 1, and not 0.
    pub one_indexed: bool,
}

/// The week of the week calendar, 1 to 53, in two places (ISO 8601-1:2019, week date).
#[derive(Debug, Clone, Copy, PartialEq, Eq)]
pub struct WeekNumberIso {
    /// The padding before a number of one digit.
    pub padding: Padding,
}

/// The week of the year, 0 to 53, in two places, where week 1 begins on the first Sunday.
#[derive(Debug, Clone, Copy, PartialEq, Eq)]
pub struct WeekNumberSunday {
    /// The padding before a number of one digit.
    pub padding: Padding,
}

/// The week of the year, 0 to 53, in two places, where week 1 begins on the first Monday.
#[derive(Debug, Clone, Copy, PartialEq, Eq)]
pub struct WeekNumberMonday {
    /// The padding before a number of one digit.
    pub padding: Padding,
}

/// The year, -999,999 to 999,999, in at least four places, after a sign if it is negative or above
/// 9,999.
#[derive(Debug, Clone, Copy, PartialEq, Eq)]
pub struct CalendarYearFullExtendedRange {
    /// The padding before a number of fewer than four digits.
    pub padding: Padding,
    /// Whether a plus is written before each year that is not negative, and not only above 9,999.
    pub sign_is_mandatory: bool,
}

/// The year, -9,999 to 9,999, in four places. Every other year is refused.
#[derive(Debug, Clone, Copy, PartialEq, Eq)]
pub struct CalendarYearFullStandardRange {
    /// The padding before a number of fewer than four digits.
    pub padding: Padding,
    /// Whether a plus is written before a number that is not negative.
    pub sign_is_mandatory: bool,
}

/// The year without its last two digits, -9,999 to 9,999, in at least two places, after a sign if
/// the year is negative or above 9,999.
#[derive(Debug, Clone, Copy, PartialEq, Eq)]
pub struct CalendarYearCenturyExtendedRange {
    /// The padding before a number of one digit.
    pub padding: Padding,
    /// Whether a plus is written wherever the year is not negative, and not only above 9,999.
    pub sign_is_mandatory: bool,
}

/// The year without its last two digits, -99 to 99, in two places. Every other one is refused.
#[derive(Debug, Clone, Copy, PartialEq, Eq)]
pub struct CalendarYearCenturyStandardRange {
    /// The padding before a number of one digit.
    pub padding: Padding,
    /// Whether a plus is written where the year is not negative.
    pub sign_is_mandatory: bool,
}

/// The last two digits of the year, 0 to 99, in two places, unsigned.
#[derive(Debug, Clone, Copy, PartialEq, Eq)]
pub struct CalendarYearLastTwo {
    /// The padding before a number of one digit.
    pub padding: Padding,
}

/// The year of the week calendar, -999,999 to 999,999, in at least four places, after a sign if it
/// is negative or above 9,999 (ISO 8601-1:2019, week date).
#[derive(Debug, Clone, Copy, PartialEq, Eq)]
pub struct IsoYearFullExtendedRange {
    /// The padding before a number of fewer than four digits.
    pub padding: Padding,
    /// Whether a plus is written before each year that is not negative, and not only above 9,999.
    pub sign_is_mandatory: bool,
}

/// The year of the week calendar, -9,999 to 9,999, in four places. Every other year is refused.
#[derive(Debug, Clone, Copy, PartialEq, Eq)]
pub struct IsoYearFullStandardRange {
    /// The padding before a number of fewer than four digits.
    pub padding: Padding,
    /// Whether a plus is written before a number that is not negative.
    pub sign_is_mandatory: bool,
}

/// The year of the week calendar without its last two digits, -9,999 to 9,999, in at least two
/// places, after a sign if the year is negative or above 9,999.
#[derive(Debug, Clone, Copy, PartialEq, Eq)]
pub struct IsoYearCenturyExtendedRange {
    /// The padding before a number of one digit.
    pub padding: Padding,
    /// Whether a plus is written wherever the year is not negative, and not only above 9,999.
    pub sign_is_mandatory: bool,
}

/// The year of the week calendar without its last two digits, -99 to 99, in two places. Every
/// other one is refused.
#[derive(Debug, Clone, Copy, PartialEq, Eq)]
pub struct IsoYearCenturyStandardRange {
    /// The padding before a number of one digit.
    pub padding: Padding,
    /// Whether a plus is written where the year is not negative.
    pub sign_is_mandatory: bool,
}

/// The last two digits of the year of the week calendar, 0 to 99, in two places, unsigned.
#[derive(Debug, Clone, Copy, PartialEq, Eq)]
pub struct IsoYearLastTwo {
    /// The padding before a number of one digit.
    pub padding: Padding,
}

/// The hour of the 12-hour clock, 1 to 12, in two places.
#[derive(Debug, Clone, Copy, PartialEq, Eq)]
pub struct Hour12 {
    /// The padding before a number of one digit.
    pub padding: Padding,
}

/// The hour of the day, 0 to 23, in two places.
#[derive(Debug, Clone, Copy, PartialEq, Eq)]
pub struct Hour24 {
    /// The padding before a number of one digit.
    pub padding: Padding,
}

/// The minute of the hour, 0 to 59, in two places.
#[derive(Debug, Clone, Copy, PartialEq, Eq)]
pub struct Minute {
    /// The padding before a number of one digit.
    pub padding: Padding,
}

/// AM or PM, by two letters: before noon, or from noon on.
#[derive(Debug, Clone, Copy, PartialEq, Eq)]
pub struct Period {
    /// Whether the letters are capitals.
    pub is_uppercase: bool,
    /// Read by parsers alone.
    pub case_sensitive: bool,
}

/// The second of the minute, 0 to 59, in two places.
#[derive(Debug, Clone, Copy, PartialEq, Eq)]
pub struct Second {
    /// The padding before a number of one digit.
    pub padding: Padding,
}

/// The decimals of the second, one to nine digits, not rounded.
#[derive(Debug, Clone, Copy, PartialEq, Eq)]
pub struct Subsecond {
    /// How many decimals are written.
    pub digits: SubsecondDigits,
}

/// The hour of the offset from UTC, 0 to 25, in two places, after the sign of the whole offset.
#[derive(Debug, Clone, Copy, PartialEq, Eq)]
pub struct OffsetHour {
    /// The padding before a number of one digit.
    pub padding: Padding,
    /// Whether a plus is written where the offset is not negative.
    pub sign_is_mandatory: bool,
}

/// The minute of the offset from UTC, 0 to 59, in two places, without a sign.
#[derive(Debug, Clone, Copy, PartialEq, Eq)]
pub struct OffsetMinute {
    /// The padding before a number of one digit.
    pub padding: Padding,
}

/// The second of the offset from UTC, 0 to 59, in two places, without a sign.
#[derive(Debug, Clone, Copy, PartialEq, Eq)]
pub struct OffsetSecond {
    /// The padding before a number of one digit.
    pub padding: Padding,
}

/// The seconds since 1970-01-01T00:00:00 UTC, rounded down, at most 14 digits.
#[derive(Debug, Clone, Copy, PartialEq, Eq)]
pub struct UnixTimestampSecond {
    /// Whether a plus is written before a number that is not negative.
    pub sign_is_mandatory: bool,
}

/// The milliseconds since 1970-01-01T00:00:00 UTC, rounded toward zero, at most 17 digits.
#[derive(Debug, Clone, Copy, PartialEq, Eq)]
pub struct UnixTimestampMillisecond {
    /// Whether a plus is written before a number that is not negative.
    pub sign_is_mandatory: bool,
}

/// Nothing: bytes that a parser passes over.
#[derive(Debug, Clone, Copy, PartialEq, Eq)]
pub struct Ignore {
    /// How many bytes, for parsers alone.
    pub count: u16,
}

/// Nothing: the end of what a parser reads.
#[derive(Debug, Clone, Copy, PartialEq, Eq)]
pub struct End {
    /// What may follow, for parsers alone.
    pub trailing_input: TrailingInput,
}

/// How a month is written.
#[derive(Debug, Clone, Copy, PartialEq, Eq)]
pub enum MonthRepr {
    /// The number, 1 to 12.
    Numerical,
    /// The whole name.
    Long,
    /// The first three letters of the name.
    Short,
}

/// How a weekday is written.
#[derive(Debug, Clone, Copy, PartialEq, Eq)]
pub enum WeekdayRepr {
    /// The first three letters of the name.
    Short,
    /// The whole name.
    Long,
    /// A digit, counted from Sunday.
    Sunday,
    /// A digit, counted from Monday.
    Monday,
}

/// Which weeks of the year are counted.
#[derive(Debug, Clone, Copy, PartialEq, Eq)]
pub enum WeekNumberRepr {
    /// Those of the week calendar.
    Iso,
    /// Those that begin on a Sunday.
    Sunday,
    /// Those that begin on a Monday.
    Monday,
}

/// What of a year is written.
#[derive(Debug, Clone, Copy, PartialEq, Eq)]
pub enum YearRepr {
    /// The whole year.
    Full,
    /// The year without its last two digits.
    Century,
    /// The last two digits.
    LastTwo,
}

/// How great a year may be.
#[derive(Debug, Clone, Copy, PartialEq, Eq)]
pub enum YearRange {
    /// The years -9999 to 9999.
    Standard,
    /// The years -999,999 to 999,999.
    Extended,
}

/// The unit in which a moment is counted.
#[derive(Debug, Clone, Copy, PartialEq, Eq)]
pub enum UnixTimestampPrecision {
    /// Whole seconds, rounded down.
    Second,
    /// Whole milliseconds, rounded toward zero.
    Millisecond,
}

/// Deprecated: a month, by its number or its name.
#[derive(Debug, Clone, Copy, PartialEq, Eq)]
pub struct Month {
    /// The padding of the number; names have none.
    pub padding: Padding,
    /// The number or the name.
    pub repr: MonthRepr,
    /// Read by parsers alone.
    pub case_sensitive: bool,
}

/// Deprecated: a weekday, by its name or a digit.
#[derive(Debug, Clone, Copy, PartialEq, Eq)]
pub struct Weekday {
    /// The name or a digit.
    pub repr: WeekdayRepr,
    /// Whether the first day is 1, and not 0.
    pub one_indexed: bool,
    /// Read by parsers alone.
    pub case_sensitive: bool,
}

/// Deprecated: a week of the year.
#[derive(Debug, Clone, Copy, PartialEq, Eq)]
pub struct WeekNumber {
    /// The padding before a number of one digit.
    pub padding: Padding,
    /// Which weeks are counted.
    pub repr: WeekNumberRepr,
}

/// Deprecated: an hour of the day.
#[derive(Debug, Clone, Copy, PartialEq, Eq)]
pub struct Hour {
    /// The padding before a number of one digit.
    pub padding: Padding,
    /// Whether the hour is that of the 12-hour clock, 1 to 12, and not 0 to 23.
    pub is_12_hour_clock: bool,
}

/// Deprecated: the time since 1970-01-01T00:00:00 UTC.
#[derive(Debug, Clone, Copy, PartialEq, Eq)]
pub struct UnixTimestamp {
    /// The unit that is counted.
    pub precision: UnixTimestampPrecision,
    /// Whether a plus is written before a number that is not negative.
    pub sign_is_mandatory: bool,
}

/// Deprecated: a year, or a part of one.
#[derive(Debug, Clone, Copy, PartialEq, Eq)]
pub struct Year {
    /// The padding before a number that is shorter than its places.
    pub padding: Padding,
    /// The whole year or a part of it.
    pub repr: YearRepr,
    /// The range of the whole year or the century; the last two digits have none.
    pub range: YearRange,
    /// Whether the year is that of the week calendar.
    pub iso_week_based: bool,
    /// Whether a plus is written wherever the year is not negative, and in the extended range not
    /// only above 9,999.
    pub sign_is_mandatory: bool,
}
