//! The names of components.
use time_below::format_description::Component;

/// A component by its name in a description, whatever its padding and its other choices are.
#[derive(Debug, Clone, Copy, PartialEq, Eq)]
pub enum ComponentName {
    /// `[day]`.
    Day,
    /// `[month repr:short]`.
    MonthShort,
    /// `[month repr:long]`.
    MonthLong,
    /// `[month]`.
    MonthNumerical,
    /// `[ordinal]`.
    Ordinal,
    /// `[weekday repr:short]`.
    WeekdayShort,
    /// `[weekday]`.
    WeekdayLong,
    /// `[weekday repr:sunday]`.
    WeekdaySunday,
    /// `[weekday repr:monday]`.
    WeekdayMonday,
    /// `[week_number]`.
    WeekNumberIso,
    /// `[week_number repr:sunday]`.
    WeekNumberSunday,
    /// `[week_number repr:monday]`.
    WeekNumberMonday,
    /// `[year]`.
    CalendarYearFull,
    /// `[year repr:century]`.
    CalendarYearCentury,
    /// `[year repr:last_two]`.
    CalendarYearLastTwo,
    /// `[year base:iso_week]`.
    IsoYearFull,
    /// `[year base:iso_week repr:century]`.
    IsoYearCentury,
    /// `[year base:iso_week repr:last_two]`.
    IsoYearLastTwo,
    /// `[hour repr:12]`.
    Hour12,
    /// `[hour]`.
    Hour24,
    /// `[minute]`.
    Minute,
    /// `[period]`.
    Period,
    /// `[second]`.
    Second,
    /// `[subsecond]`.
    Subsecond,
    /// `[offset_hour]`.
    OffsetHour,
    /// `[offset_minute]`.
    OffsetMinute,
    /// `[offset_second]`.
    OffsetSecond,
    /// `[unix_timestamp]`.
    UnixTimestampSecond,
    /// `[unix_timestamp precision:millisecond]`.
    UnixTimestampMillisecond,
    /// `[end]`.
    End,
    /// `[ignore]`.
    Ignore,
}

impl ComponentName {
    // The name of a component.
    pub(crate) fn of(component: Component) -> ComponentName {
        match component.current() {
            Component::Day(_) => ComponentName::Day,
            Component::MonthShort(_) => ComponentName::MonthShort,
            Component::MonthLong(_) => ComponentName::MonthLong,
            Component::MonthNumerical(_) => ComponentName::MonthNumerical,
            Component::Ordinal(_) => ComponentName::Ordinal,
            Component::WeekdayShort(_) => ComponentName::WeekdayShort,
            Component::WeekdayLong(_) => ComponentName::WeekdayLong,
            Component::WeekdaySunday(_) => ComponentName::WeekdaySunday,
            Component::WeekdayMonday(_) => ComponentName::WeekdayMonday,
            Component::WeekNumberIso(_) => ComponentName::WeekNumberIso,
            Component::WeekNumberSunday(_) => ComponentName::WeekNumberSunday,
            Component::WeekNumberMonday(_) => ComponentName::WeekNumberMonday,
            Component::CalendarYearFullExtendedRange(_)
            | Component::CalendarYearFullStandardRange(_) => ComponentName::CalendarYearFull,
            Component::CalendarYearCenturyExtendedRange(_)
            | Component::CalendarYearCenturyStandardRange(_) => ComponentName::CalendarYearCentury,
            Component::CalendarYearLastTwo(_) => ComponentName::CalendarYearLastTwo,
            Component::IsoYearFullExtendedRange(_) | Component::IsoYearFullStandardRange(_) =>
                ComponentName::IsoYearFull,
            Component::IsoYearCenturyExtendedRange(_) | Component::IsoYearCenturyStandardRange(_) =>
                ComponentName::IsoYearCentury,
            Component::IsoYearLastTwo(_) => ComponentName::IsoYearLastTwo,
            Component::Hour12(_) => ComponentName::Hour12,
            Component::Hour24(_) => ComponentName::Hour24,
            Component::Minute(_) => ComponentName::Minute,
            Component::Period(_) => ComponentName::Period,
            Component::Second(_) => ComponentName::Second,
            Component::Subsecond(_) => ComponentName::Subsecond,
            Component::OffsetHour(_) => ComponentName::OffsetHour,
            Component::OffsetMinute(_) => ComponentName::OffsetMinute,
            Component::OffsetSecond(_) => ComponentName::OffsetSecond,
            Component::UnixTimestampSecond(_) => ComponentName::UnixTimestampSecond,
            Component::UnixTimestampMillisecond(_) => ComponentName::UnixTimestampMillisecond,
            Component::End(_) => ComponentName::End,
            _ => ComponentName::Ignore,
        }
    }

    // The name in a description.
    pub(crate) fn in_brackets(self) -> &'static str {
        match self {
            ComponentName::Day => "[day]",
            ComponentName::MonthShort => "[month repr:short]",
            ComponentName::MonthLong => "[month repr:long]",
            ComponentName::MonthNumerical => "[month]",
            ComponentName::Ordinal => "[ordinal]",
            ComponentName::WeekdayShort => "[weekday repr:short]",
            ComponentName::WeekdayLong => "[weekday]",
            ComponentName::WeekdaySunday => "[weekday repr:sunday]",
            ComponentName::WeekdayMonday => "[weekday repr:monday]",
            ComponentName::WeekNumberIso => "[week_number]",
            ComponentName::WeekNumberSunday => "[week_number repr:sunday]",
            ComponentName::WeekNumberMonday => "[week_number repr:monday]",
            ComponentName::CalendarYearFull => "[year]",
            ComponentName::CalendarYearCentury => "[year repr:century]",
            ComponentName::CalendarYearLastTwo => "[year repr:last_two]",
            ComponentName::IsoYearFull => "[year base:iso_week]",
            ComponentName::IsoYearCentury => "[year base:iso_week repr:century]",
            ComponentName::IsoYearLastTwo => "[year base:iso_week repr:last_two]",
            ComponentName::Hour12 => "[hour repr:12]",
            ComponentName::Hour24 => "[hour]",
            ComponentName::Minute => "[minute]",
            ComponentName::Period => "[period]",
            ComponentName::Second => "[second]",
            ComponentName::Subsecond => "[subsecond]",
            ComponentName::OffsetHour => "[offset_hour]",
            ComponentName::OffsetMinute => "[offset_minute]",
            ComponentName::OffsetSecond => "[offset_second]",
            ComponentName::UnixTimestampSecond => "[unix_timestamp]",
            ComponentName::UnixTimestampMillisecond => "[unix_timestamp precision:millisecond]",
            ComponentName::End => "[end]",
            ComponentName::Ignore => "[ignore]",
        }
    }
}
