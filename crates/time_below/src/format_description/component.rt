//! A component of a description.
ghost use Rattle.std.specs.Prelude.{◌≡◌, ◌≤◌, IsTrue};
ghost use Rattle.time_below.specs.Conversion.{current_component, is_current};
ghost use Rattle.time_below.specs.Width.{group_of, component_width, subsecond_width, month_width};
ghost use Rattle.time_below.specs.Width.{weekday_width, unix_timestamp_width, year_width};

use crate::format_description::conversion::{
    current_hour, current_month, current_unix_timestamp, current_week_number, current_weekday,
    current_year,
};
use crate::format_description::modifier;
use crate::format_description::modifier::{
    MonthRepr, SubsecondDigits, UnixTimestampPrecision, WeekdayRepr, YearRepr,
};

/// A part of a text that is taken from a value.
#[derive(Debug, Clone, Copy, PartialEq, Eq)]
pub enum Component {
    /// The day of the month, 1 to 31, in two places.
    Day(modifier::Day),
    /// The first three letters of the month's English name.
    MonthShort(modifier::MonthShort),
    /// The month's English name, at most nine letters.
    MonthLong(modifier::MonthLong),
    /// The month, 1 to 12, in two places.
    MonthNumerical(modifier::MonthNumerical),
    /// The day of the year, 1 to 366, in three places (ISO 8601-1:2019, ordinal date).
    Ordinal(modifier::Ordinal),
    /// The first three letters of the weekday's English name.
    WeekdayShort(modifier::WeekdayShort),
    /// The weekday's English name, at most nine letters.
    WeekdayLong(modifier::WeekdayLong),
    /// The weekday by one digit from Sunday on, 0 to 6 or 1 to 7.
    WeekdaySunday(modifier::WeekdaySunday),
    /// The weekday by one digit from Monday on, 0 to 6 or 1 to 7.
    WeekdayMonday(modifier::WeekdayMonday),
    /// The week of the week calendar, 1 to 53, in two places (ISO 8601-1:2019, week date).
    WeekNumberIso(modifier::WeekNumberIso),
    /// The week of the year, 0 to 53, in two places, where week 1 begins on the first Sunday.
    WeekNumberSunday(modifier::WeekNumberSunday),
    /// The week of the year, 0 to 53, in two places, where week 1 begins on the first Monday.
    WeekNumberMonday(modifier::WeekNumberMonday),
    /// The year, -999,999 to 999,999, in at least four places, after a sign if it is negative or
    /// above 9,999.
    CalendarYearFullExtendedRange(modifier::CalendarYearFullExtendedRange),
    /// The year, -9,999 to 9,999, in four places. Every other year is refused.
    CalendarYearFullStandardRange(modifier::CalendarYearFullStandardRange),
    /// The year without its last two digits, -9,999 to 9,999, in at least two places, after a sign
    /// if the year is negative or above 9,999.
    CalendarYearCenturyExtendedRange(modifier::CalendarYearCenturyExtendedRange),
    /// The year without its last two digits, -99 to 99, in two places. Every other one is refused.
    CalendarYearCenturyStandardRange(modifier::CalendarYearCenturyStandardRange),
    /// The last two digits of the year, 0 to 99, in two places, unsigned.
    CalendarYearLastTwo(modifier::CalendarYearLastTwo),
    /// The year of the week calendar, -999,999 to 999,999, in at least four places, after a sign if
    /// it is negative or above 9,999 (ISO 8601-1:2019, week date).
    IsoYearFullExtendedRange(modifier::IsoYearFullExtendedRange),
    /// The year of the week calendar, -9,999 to 9,999, in four places. Every other year is refused.
    IsoYearFullStandardRange(modifier::IsoYearFullStandardRange),
    /// The year of the week calendar without its last two digits, -9,999 to 9,999, in at least two
    /// places, after a sign if the year is negative or above 9,999.
    IsoYearCenturyExtendedRange(modifier::IsoYearCenturyExtendedRange),
    /// The year of the week calendar without its last two digits, -99 to 99, in two places. Every
    /// other one is refused.
    IsoYearCenturyStandardRange(modifier::IsoYearCenturyStandardRange),
    /// The last two digits of the year of the week calendar, 0 to 99, in two places, unsigned.
    IsoYearLastTwo(modifier::IsoYearLastTwo),
    /// The hour of the 12-hour clock, 1 to 12, in two places.
    Hour12(modifier::Hour12),
    /// The hour of the day, 0 to 23, in two places.
    Hour24(modifier::Hour24),
    /// The minute of the hour, 0 to 59, in two places.
    Minute(modifier::Minute),
    /// AM or PM, by two letters: before noon, or from noon on.
    Period(modifier::Period),
    /// The second of the minute, 0 to 59, in two places.
    Second(modifier::Second),
    /// The decimals of the second, one to nine digits, not rounded.
    Subsecond(modifier::Subsecond),
    /// The hour of the offset from UTC, 0 to 25, in two places, after the sign of the whole offset.
    OffsetHour(modifier::OffsetHour),
    /// The minute of the offset from UTC, 0 to 59, in two places, without a sign.
    OffsetMinute(modifier::OffsetMinute),
    /// The second of the offset from UTC, 0 to 59, in two places, without a sign.
    OffsetSecond(modifier::OffsetSecond),
    /// The seconds since 1970-01-01T00:00:00 UTC, rounded down, at most 14 digits.
    UnixTimestampSecond(modifier::UnixTimestampSecond),
    /// The milliseconds since 1970-01-01T00:00:00 UTC, rounded toward zero, at most 17 digits.
    UnixTimestampMillisecond(modifier::UnixTimestampMillisecond),
    /// Nothing: bytes that a parser passes over.
    Ignore(modifier::Ignore),
    /// Nothing: the end of what a parser reads.
    End(modifier::End),
    /// Deprecated: `MonthNumerical`, `MonthLong` or `MonthShort`.
    Month(modifier::Month),
    /// Deprecated: `WeekdayShort`, `WeekdayLong`, `WeekdaySunday` or `WeekdayMonday`.
    Weekday(modifier::Weekday),
    /// Deprecated: `WeekNumberIso`, `WeekNumberSunday` or `WeekNumberMonday`.
    WeekNumber(modifier::WeekNumber),
    /// Deprecated: `Hour12` or `Hour24`.
    Hour(modifier::Hour),
    /// Deprecated: `UnixTimestampSecond` or `UnixTimestampMillisecond`.
    UnixTimestamp(modifier::UnixTimestamp),
    /// Deprecated: a `CalendarYear` or an `IsoYear` of the same part and range.
    Year(modifier::Year),
}

/// The part of a value that a component is taken from.
#[derive(Debug, Clone, Copy, PartialEq, Eq)]
pub enum Group {
    /// The date: the years, the month, the days, the weekday and the weeks.
    Date,
    /// The time of day.
    Time,
    /// The offset from UTC.
    Offset,
    /// The moment, counted from 1970-01-01T00:00:00 UTC.
    Timestamp,
    /// No part: the component has no text.
    None,
}

// A component of one of these names, whatever its choices are.
macro_rules! one_of {
    ($($name:ident)+) => { $(Component::$name(_))|+ };
}

// A match with the width of each component that has the same one for all choices. The other arms
// follow.
macro_rules! width_of {
    ($component:expr, $($other:pat => $width:expr),+ $(,)?) => {
        match $component {
            Component::WeekdaySunday(_) | Component::WeekdayMonday(_) => 1,
            one_of!(
                Day MonthNumerical WeekNumberIso WeekNumberSunday WeekNumberMonday
                CalendarYearLastTwo IsoYearLastTwo Hour12 Hour24 Minute Period Second OffsetMinute
                OffsetSecond WeekNumber Hour
            ) => 2,
            one_of!(
                MonthShort Ordinal WeekdayShort CalendarYearCenturyStandardRange
                IsoYearCenturyStandardRange OffsetHour
            ) => 3,
            one_of!(
                CalendarYearFullStandardRange CalendarYearCenturyExtendedRange
                IsoYearFullStandardRange IsoYearCenturyExtendedRange
            ) => 5,
            one_of!(CalendarYearFullExtendedRange IsoYearFullExtendedRange) => 7,
            Component::MonthLong(_) | Component::WeekdayLong(_) => 9,
            Component::UnixTimestampSecond(_) => 15,
            Component::UnixTimestampMillisecond(_) => 18,
            $($other => $width,)+
        }
    };
}

impl Component {
    /// Returns the group of a value's parts that the component belongs to.
    pub fn group(self) -> Group
        ensures { result ≡ group_of self }
    {
        match self {
            one_of!(
                Day MonthShort MonthLong MonthNumerical Ordinal WeekdayShort WeekdayLong
                WeekdaySunday WeekdayMonday WeekNumberIso WeekNumberSunday WeekNumberMonday
                CalendarYearFullExtendedRange CalendarYearFullStandardRange
                CalendarYearCenturyExtendedRange CalendarYearCenturyStandardRange
                CalendarYearLastTwo IsoYearFullExtendedRange IsoYearFullStandardRange
                IsoYearCenturyExtendedRange IsoYearCenturyStandardRange IsoYearLastTwo Month Weekday
                WeekNumber Year
            ) => Group::Date,
            one_of!(Hour12 Hour24 Minute Period Second Subsecond Hour) => Group::Time,
            one_of!(OffsetHour OffsetMinute OffsetSecond) => Group::Offset,
            one_of!(UnixTimestampSecond UnixTimestampMillisecond UnixTimestamp) => Group::Timestamp,
            Component::Ignore(_) | Component::End(_) => Group::None,
        }
    }

    /// Returns the current component in place of a deprecated one, and any other unchanged.
    pub fn current(self) -> Component
        ensures converted { result ≡ current_component self }
        ensures current { IsTrue (is_current result) }
    {
        match self {
            Component::Month(modifier) => current_month(modifier),
            Component::Weekday(modifier) => current_weekday(modifier),
            Component::WeekNumber(modifier) => current_week_number(modifier),
            Component::Hour(modifier) => current_hour(modifier),
            Component::UnixTimestamp(modifier) => current_unix_timestamp(modifier),
            Component::Year(modifier) => current_year(modifier),
            other => other,
        }
    }
}

/// Returns the most bytes of the component's text, over all values. For a deprecated `Year` of the
/// standard range it is the width of the extended range.
// Row: a borrowed list of 11 items.
#[inline(always)]
pub fn component_width(component: &Component) -> usize
    ensures { result ≡ component_width component.now }
{
    width_of!(component,
        Component::Subsecond(modifier) => subsecond_width(modifier.digits),
        Component::Ignore(_) | Component::End(_) => 0,
        Component::Month(modifier) => month_width(modifier.repr),
        Component::Weekday(modifier) => weekday_width(modifier.repr),
        Component::UnixTimestamp(modifier) => unix_timestamp_width(modifier.precision),
        Component::Year(modifier) => year_width(modifier.repr),
    )
}

/// Returns a bound of the component's width, whatever its choices are.
///
/// Row: a borrowed list of 11 items.
pub fn component_bound(component: &Component) -> usize
    ensures { component_width component.now ≤ result }
{
    width_of!(component,
        Component::Ignore(_) | Component::End(_) => 1,
        Component::Subsecond(_) => 9,
        Component::Month(_) => 9,
        Component::Weekday(_) => 9,
        Component::UnixTimestamp(_) => 18,
        Component::Year(_) => 7,
    )
}

/// Returns the most bytes that this many decimals of a second have.
pub fn subsecond_width(digits: SubsecondDigits) -> usize
    ensures { result ≡ subsecond_width digits }
{
    match digits {
        SubsecondDigits::One => 1,
        SubsecondDigits::Two => 2,
        SubsecondDigits::Three => 3,
        SubsecondDigits::Four => 4,
        SubsecondDigits::Five => 5,
        SubsecondDigits::Six => 6,
        SubsecondDigits::Seven => 7,
        SubsecondDigits::Eight => 8,
        SubsecondDigits::Nine | SubsecondDigits::OneOrMore => 9,
    }
}

fn month_width(repr: MonthRepr) -> usize
    ensures { result ≡ month_width repr }
{
    match repr {
        MonthRepr::Numerical => 2,
        MonthRepr::Short => 3,
        MonthRepr::Long => 9,
    }
}

fn weekday_width(repr: WeekdayRepr) -> usize
    ensures { result ≡ weekday_width repr }
{
    match repr {
        WeekdayRepr::Sunday | WeekdayRepr::Monday => 1,
        WeekdayRepr::Short => 3,
        WeekdayRepr::Long => 9,
    }
}

fn unix_timestamp_width(precision: UnixTimestampPrecision) -> usize
    ensures { result ≡ unix_timestamp_width precision }
{
    match precision {
        UnixTimestampPrecision::Second => 15,
        UnixTimestampPrecision::Millisecond => 18,
    }
}

fn year_width(repr: YearRepr) -> usize
    ensures { result ≡ year_width repr }
{
    match repr {
        YearRepr::LastTwo => 2,
        YearRepr::Century => 5,
        YearRepr::Full => 7,
    }
}
