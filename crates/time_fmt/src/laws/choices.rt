//! The component of each type of choices is its own, with these choices.
ghost use Rattle.std.specs.Prelude.{◌≡◌};

use crate::modifier::Modifier;
use time_below::format_description::{Component, modifier};

/// The choices of the day, the month, the weekday and the week.
pub fn choices_of_dates()
    ensures day { ⟦<modifier::Day as Modifier>⟧.component_of ≡ Component.Day }
    ensures month_short { ⟦<modifier::MonthShort as Modifier>⟧.component_of ≡ Component.MonthShort }
    ensures month_long { ⟦<modifier::MonthLong as Modifier>⟧.component_of ≡ Component.MonthLong }
    ensures month_numerical { ⟦<modifier::MonthNumerical as Modifier>⟧.component_of
        ≡ Component.MonthNumerical }
    ensures ordinal { ⟦<modifier::Ordinal as Modifier>⟧.component_of ≡ Component.Ordinal }
    ensures weekday_short { ⟦<modifier::WeekdayShort as Modifier>⟧.component_of
        ≡ Component.WeekdayShort }
    ensures weekday_long { ⟦<modifier::WeekdayLong as Modifier>⟧.component_of
        ≡ Component.WeekdayLong }
    ensures weekday_sunday { ⟦<modifier::WeekdaySunday as Modifier>⟧.component_of
        ≡ Component.WeekdaySunday }
    ensures weekday_monday { ⟦<modifier::WeekdayMonday as Modifier>⟧.component_of
        ≡ Component.WeekdayMonday }
    ensures week_number_iso { ⟦<modifier::WeekNumberIso as Modifier>⟧.component_of
        ≡ Component.WeekNumberIso }
    ensures week_number_sunday { ⟦<modifier::WeekNumberSunday as Modifier>⟧.component_of
        ≡ Component.WeekNumberSunday }
    ensures week_number_monday { ⟦<modifier::WeekNumberMonday as Modifier>⟧.component_of
        ≡ Component.WeekNumberMonday }
{}

/// The choices of the year, its century and its last two digits.
pub fn choices_of_years()
    ensures calendar_year_full_extended_range { Component.CalendarYearFullExtendedRange
        ≡ ⟦<modifier::CalendarYearFullExtendedRange as Modifier>⟧.component_of }
    ensures calendar_year_full_standard_range { Component.CalendarYearFullStandardRange
        ≡ ⟦<modifier::CalendarYearFullStandardRange as Modifier>⟧.component_of }
    ensures calendar_year_century_extended_range { Component.CalendarYearCenturyExtendedRange
        ≡ ⟦<modifier::CalendarYearCenturyExtendedRange as Modifier>⟧.component_of }
    ensures calendar_year_century_standard_range { Component.CalendarYearCenturyStandardRange
        ≡ ⟦<modifier::CalendarYearCenturyStandardRange as Modifier>⟧.component_of }
    ensures calendar_year_last_two { ⟦<modifier::CalendarYearLastTwo as Modifier>⟧.component_of
        ≡ Component.CalendarYearLastTwo }
    ensures iso_year_full_extended_range { Component.IsoYearFullExtendedRange
        ≡ ⟦<modifier::IsoYearFullExtendedRange as Modifier>⟧.component_of }
    ensures iso_year_full_standard_range { Component.IsoYearFullStandardRange
        ≡ ⟦<modifier::IsoYearFullStandardRange as Modifier>⟧.component_of }
    ensures iso_year_century_extended_range { Component.IsoYearCenturyExtendedRange
        ≡ ⟦<modifier::IsoYearCenturyExtendedRange as Modifier>⟧.component_of }
    ensures iso_year_century_standard_range { Component.IsoYearCenturyStandardRange
        ≡ ⟦<modifier::IsoYearCenturyStandardRange as Modifier>⟧.component_of }
    ensures iso_year_last_two { ⟦<modifier::IsoYearLastTwo as Modifier>⟧.component_of
        ≡ Component.IsoYearLastTwo }
{}

/// The choices of the time of day, the offset and the moment.
pub fn choices_of_times()
    ensures hour_12 { ⟦<modifier::Hour12 as Modifier>⟧.component_of ≡ Component.Hour12 }
    ensures hour_24 { ⟦<modifier::Hour24 as Modifier>⟧.component_of ≡ Component.Hour24 }
    ensures minute { ⟦<modifier::Minute as Modifier>⟧.component_of ≡ Component.Minute }
    ensures period { ⟦<modifier::Period as Modifier>⟧.component_of ≡ Component.Period }
    ensures second { ⟦<modifier::Second as Modifier>⟧.component_of ≡ Component.Second }
    ensures subsecond { ⟦<modifier::Subsecond as Modifier>⟧.component_of ≡ Component.Subsecond }
    ensures offset_hour { ⟦<modifier::OffsetHour as Modifier>⟧.component_of ≡ Component.OffsetHour }
    ensures offset_minute { ⟦<modifier::OffsetMinute as Modifier>⟧.component_of
        ≡ Component.OffsetMinute }
    ensures offset_second { ⟦<modifier::OffsetSecond as Modifier>⟧.component_of
        ≡ Component.OffsetSecond }
    ensures unix_timestamp_second { ⟦<modifier::UnixTimestampSecond as Modifier>⟧.component_of
        ≡ Component.UnixTimestampSecond }
    ensures unix_timestamp_millisecond { Component.UnixTimestampMillisecond
        ≡ ⟦<modifier::UnixTimestampMillisecond as Modifier>⟧.component_of }
{}
