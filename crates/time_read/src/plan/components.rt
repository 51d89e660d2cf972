//! The components of a text, one by one.
//!
//! Its attribute makes a read one function with what is met often, as those of `steps` do.
use crate::component_name::ComponentName;
use crate::digit_runs::{four, two};
use crate::fault::{Expected, Mismatch, Unexpected};
use crate::plan::found::{Found, number_of};
use crate::plan::names::{half_day, month_long, month_short, weekday_long, weekday_short};
use crate::plan::shapes::shape_of;
use crate::values::text_fields::TextFields;
use time_below::format_description::Component;
use time_below::format_description::modifier::Padding;

/// Reads a component that is met often, in its usual form, and returns what follows it. Of any other
/// component, form or text it reads nothing, and returns `None`.
///
/// Whether bytes are digits is seen when the text of the value is compared.
#[inline(always)]
pub(crate) fn read_usual<'a>(
    component: &Component,
    text: &'a [u8],
    fields: &mut TextFields,
) -> Option<&'a [u8]> {
    match component {
        Component::Day(m) => {
            let (day, rest) = two_digits(text, m.padding, u8::MAX)?;
            fields.day = day;
            fields.set_pick(ComponentName::Day, text.len());
            Some(rest)
        }
        Component::MonthShort(_) => month_short(text, &mut fields.month),
        Component::WeekdayShort(_) => weekday_short(text, &mut fields.weekday),
        Component::CalendarYearFullExtendedRange(m) => {
            four_digits(text, m.padding, &mut fields.year)
        }
        Component::OffsetHour(m) => signed_hour(text, m.padding, fields),
        Component::OffsetMinute(m) => {
            let (minute, rest) = two_digits(text, m.padding, 59)?;
            fields.offset_minute = minute;
            Some(rest)
        }
        _ => None,
    }
}

/// A number of two digits, which is at most the greatest, and what follows it.
fn two_digits(text: &[u8], padding: Padding, greatest: u8) -> Option<(u8, &[u8])> {
    match (padding, text) {
        (Padding::Zero, [tens, units, rest @ ..]) => {
            let number = two(*tens, *units);
            if greatest < number {
                None
            } else {
                Some((number, rest))
            }
        }
        _ => None,
    }
}

/// Reads a year of four digits.
fn four_digits<'a>(text: &'a [u8], padding: Padding, year: &mut i32) -> Option<&'a [u8]> {
    match (padding, text) {
        (Padding::Zero, [a, b, c, d, rest @ ..]) if a.is_ascii_digit() => {
            *year = four(*a, *b, *c, *d);
            Some(rest)
        }
        _ => None,
    }
}

/// Reads the hour of an offset by its sign and two digits.
fn signed_hour<'a>(text: &'a [u8], padding: Padding, fields: &mut TextFields) -> Option<&'a [u8]> {
    match (padding, text) {
        (Padding::Zero, [sign, tens, units, rest @ ..]) if *sign == b'+' || *sign == b'-' => {
            let hour = two(*tens, *units);
            if 25 < hour {
                return None;
            }
            fields.offset_hour = hour;
            fields.offset_is_negative = *sign == b'-';
            Some(rest)
        }
        _ => None,
    }
}

/// The fault of a text that is none of a component, or has a number of it that no value has.
fn mismatch(text: &[u8], reason: Mismatch) -> Unexpected {
    Unexpected {
        left: text.len(),
        expected: Expected::Plan(reason),
    }
}

/// Reads any component in any of its forms, and returns what follows it, or why the text is none of
/// it: its number may be out of its own range. So many digits of a run of digits belong to what
/// follows it.
pub(crate) fn behind_component<'a>(
    component: Component,
    behind: usize,
    text: &'a [u8],
    fields: &mut TextFields,
) -> Result<&'a [u8], Unexpected> {
    let current = component.current();
    let Some(rest) = read_component(current, behind, text, fields) else {
        return Err(mismatch(text, Mismatch::Component(ComponentName::of(current))));
    };
    if !is_in_range(current, fields) {
        return Err(mismatch(text, Mismatch::NoValue(ComponentName::of(current))));
    }
    if picks(current) {
        fields.set_pick(ComponentName::of(current), text.len());
    }
    Ok(rest)
}

/// Whether a number that was read is in its own range.
fn is_in_range(component: Component, fields: &TextFields) -> bool {
    match component {
        Component::MonthNumerical(_) => 1 <= fields.month && fields.month <= 12,
        Component::Day(_) => 1 <= fields.day && fields.day <= 31,
        Component::Hour24(_) => fields.hour_24 <= 23,
        Component::Hour12(_) => 1 <= fields.hour_12 && fields.hour_12 <= 12,
        Component::Minute(_) => fields.minute <= 59,
        Component::Second(_) => fields.second <= 59,
        Component::OffsetHour(_) => fields.offset_hour <= 25,
        Component::OffsetMinute(_) => fields.offset_minute <= 59,
        Component::OffsetSecond(_) => fields.offset_second <= 59,
        _ => true,
    }
}

/// Whether the number of a component picks a date of its year, or a moment.
fn picks(component: Component) -> bool {
    matches!(
        component,
        Component::Day(_)
            | Component::Ordinal(_)
            | Component::WeekNumberIso(_)
            | Component::WeekNumberSunday(_)
            | Component::WeekNumberMonday(_)
            | Component::UnixTimestampSecond(_)
            | Component::UnixTimestampMillisecond(_)
    )
}

/// Reads a component that is not deprecated, and returns what follows it.
fn read_component<'a>(
    component: Component,
    behind: usize,
    text: &'a [u8],
    fields: &mut TextFields,
) -> Option<&'a [u8]> {
    match component {
        Component::MonthShort(_) => month_short(text, &mut fields.month),
        Component::MonthLong(_) => month_long(text, &mut fields.month),
        Component::WeekdayShort(_) => weekday_short(text, &mut fields.weekday),
        Component::WeekdayLong(_) => weekday_long(text, &mut fields.weekday),
        Component::Period(m) => half_day(text, m.is_uppercase, &mut fields.is_pm),
        _ => {
            let found = number_of(shape_of(component), text, behind)?;
            set_number(component, found, fields);
            text.get(found.count..)
        }
    }
}

/// Sets the number of a component.
fn set_number(component: Component, found: Found, fields: &mut TextFields) {
    let two_digits = (found.number % 100) as u8;
    match component {
        Component::Day(_) => fields.day = two_digits,
        Component::MonthNumerical(_) => fields.month = two_digits,
        Component::Ordinal(_) => fields.ordinal = (found.number % 1_000) as u16,
        Component::WeekdaySunday(_) | Component::WeekdayMonday(_) => fields.weekday = two_digits,
        Component::WeekNumberIso(_) => fields.iso_week = two_digits,
        Component::WeekNumberSunday(_) => fields.sunday_week = two_digits,
        Component::WeekNumberMonday(_) => fields.monday_week = two_digits,
        Component::CalendarYearLastTwo(_) => fields.last_two = two_digits,
        Component::IsoYearLastTwo(_) => fields.iso_last_two = two_digits,
        Component::Hour12(_) => fields.hour_12 = two_digits,
        Component::Hour24(_) => fields.hour_24 = two_digits,
        Component::Minute(_) => fields.minute = two_digits,
        Component::Second(_) => fields.second = two_digits,
        Component::Subsecond(_) => fields.nanosecond = (found.number % 1_000_000_000) as u32,
        Component::OffsetMinute(_) => fields.offset_minute = two_digits,
        Component::OffsetSecond(_) => fields.offset_second = two_digits,
        Component::OffsetHour(_) => {
            fields.offset_is_negative = found.is_negative;
            fields.offset_hour = two_digits;
        }
        Component::UnixTimestampSecond(_) => fields.unix_second = found.signed(),
        Component::UnixTimestampMillisecond(_) => fields.unix_millisecond = found.signed(),
        Component::CalendarYearFullExtendedRange(_) | Component::CalendarYearFullStandardRange(_) =>
            fields.year = found.year(),
        Component::IsoYearFullExtendedRange(_) | Component::IsoYearFullStandardRange(_) => {
            fields.iso_year = found.year()
        }
        Component::CalendarYearCenturyExtendedRange(_)
        | Component::CalendarYearCenturyStandardRange(_) => {
            fields.is_before_zero = found.is_negative;
            fields.century = (found.number % 10_000) as u16;
        }
        Component::IsoYearCenturyExtendedRange(_) | Component::IsoYearCenturyStandardRange(_) => {
            fields.iso_is_before_zero = found.is_negative;
            fields.iso_century = (found.number % 10_000) as u16;
        }
        _ => {}
    }
}
