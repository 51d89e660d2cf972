//! The current component in the place of each deprecated one.
ghost use Rattle.std.specs.Prelude.{◌≡◌, IsTrue};
ghost use Rattle.time_below.specs.Conversion.{current_component, is_current};

use crate::format_description::modifier::{
    MonthRepr, UnixTimestampPrecision, WeekNumberRepr, WeekdayRepr, YearRange, YearRepr,
};
use crate::format_description::{Component, modifier};

// A component with the choices of these names that a deprecated one has.
macro_rules! current {
    ($deprecated:ident as $name:ident: $($choice:ident),+) => {
        Component::$name(modifier::$name { $($choice: $deprecated.$choice),+ })
    };
}

// The number or the name of the month, by the choice.
pub(crate) fn current_month(modifier: modifier::Month) -> Component
    ensures converted { result ≡ current_component (Component.Month modifier) }
    ensures current { IsTrue (is_current result) }
{
    match modifier.repr {
        MonthRepr::Numerical => current!(modifier as MonthNumerical: padding),
        MonthRepr::Long => current!(modifier as MonthLong: case_sensitive),
        MonthRepr::Short => current!(modifier as MonthShort: case_sensitive),
    }
}

// The name of the weekday or a digit, by the choice.
pub(crate) fn current_weekday(modifier: modifier::Weekday) -> Component
    ensures converted { result ≡ current_component (Component.Weekday modifier) }
    ensures current { IsTrue (is_current result) }
{
    match modifier.repr {
        WeekdayRepr::Short => current!(modifier as WeekdayShort: case_sensitive),
        WeekdayRepr::Long => current!(modifier as WeekdayLong: case_sensitive),
        WeekdayRepr::Sunday => current!(modifier as WeekdaySunday: one_indexed),
        WeekdayRepr::Monday => current!(modifier as WeekdayMonday: one_indexed),
    }
}

// The week number of the chosen calendar.
pub(crate) fn current_week_number(modifier: modifier::WeekNumber) -> Component
    ensures converted { result ≡ current_component (Component.WeekNumber modifier) }
    ensures current { IsTrue (is_current result) }
{
    match modifier.repr {
        WeekNumberRepr::Iso => current!(modifier as WeekNumberIso: padding),
        WeekNumberRepr::Sunday => current!(modifier as WeekNumberSunday: padding),
        WeekNumberRepr::Monday => current!(modifier as WeekNumberMonday: padding),
    }
}

// The hour of the chosen clock.
pub(crate) fn current_hour(modifier: modifier::Hour) -> Component
    ensures converted { result ≡ current_component (Component.Hour modifier) }
    ensures current { IsTrue (is_current result) }
{
    match modifier.is_12_hour_clock {
        true => current!(modifier as Hour12: padding),
        false => current!(modifier as Hour24: padding),
    }
}

// The timestamp in the chosen unit.
pub(crate) fn current_unix_timestamp(modifier: modifier::UnixTimestamp) -> Component
    ensures converted { result ≡ current_component (Component.UnixTimestamp modifier) }
    ensures current { IsTrue (is_current result) }
{
    match modifier.precision {
        UnixTimestampPrecision::Second =>
            current!(modifier as UnixTimestampSecond: sign_is_mandatory),
        UnixTimestampPrecision::Millisecond =>
            current!(modifier as UnixTimestampMillisecond: sign_is_mandatory),
    }
}

// The year by the chosen calendar, part and range.
pub(crate) fn current_year(modifier: modifier::Year) -> Component
    ensures converted { result ≡ current_component (Component.Year modifier) }
    ensures current { IsTrue (is_current result) }
{
    match (modifier.iso_week_based, modifier.repr, modifier.range) {
        (true, YearRepr::Full, YearRange::Extended) =>
            current!(modifier as IsoYearFullExtendedRange: padding, sign_is_mandatory),
        (true, YearRepr::Full, YearRange::Standard) =>
            current!(modifier as IsoYearFullStandardRange: padding, sign_is_mandatory),
        (true, YearRepr::Century, YearRange::Extended) =>
            current!(modifier as IsoYearCenturyExtendedRange: padding, sign_is_mandatory),
        (true, YearRepr::Century, YearRange::Standard) =>
            current!(modifier as IsoYearCenturyStandardRange: padding, sign_is_mandatory),
        (true, YearRepr::LastTwo, _) => current!(modifier as IsoYearLastTwo: padding),
        (false, YearRepr::Full, YearRange::Extended) =>
            current!(modifier as CalendarYearFullExtendedRange: padding, sign_is_mandatory),
        (false, YearRepr::Full, YearRange::Standard) =>
            current!(modifier as CalendarYearFullStandardRange: padding, sign_is_mandatory),
        (false, YearRepr::Century, YearRange::Extended) =>
            current!(modifier as CalendarYearCenturyExtendedRange: padding, sign_is_mandatory),
        (false, YearRepr::Century, YearRange::Standard) =>
            current!(modifier as CalendarYearCenturyStandardRange: padding, sign_is_mandatory),
        (false, YearRepr::LastTwo, _) => current!(modifier as CalendarYearLastTwo: padding),
    }
}
