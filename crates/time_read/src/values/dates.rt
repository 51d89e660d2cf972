//! The date that the numbers of a text are of.

use crate::values::kinds::Kinds;
use crate::values::text_fields::TextFields;
use time_below::util::weeks_in_year;
use time_below::{Date, Month, is_leap_year};

/// The year of numbers.
fn year_of(fields: &TextFields, kinds: Kinds) -> i32 {
    if kinds.have(Kinds::YEAR) {
        return fields.year;
    }
    whole_year(fields.century, fields.last_two, fields.is_before_zero)
}

/// The year of the week calendar.
fn iso_year_of(fields: &TextFields, kinds: Kinds) -> i32 {
    if kinds.have(Kinds::ISO_YEAR) {
        return fields.iso_year;
    }
    whole_year(
        fields.iso_century,
        fields.iso_last_two,
        fields.iso_is_before_zero,
    )
}

/// The year of its parts.
fn whole_year(century: u16, last_two: u8, is_before_zero: bool) -> i32 {
    let year = (100 * century as u32 + last_two as u32) as i32;
    if is_before_zero { -year } else { year }
}

/// How many days a year has.
fn days_of(year: i32) -> i32 {
    if is_leap_year(year) { 366 } else { 365 }
}

/// The date of a year and a day counted from its first, which may lie in the year before or after.
fn day_near(year: i32, day: i32) -> Option<Date> {
    let year_before = year.wrapping_sub(1);
    let (year, day) = if day < 1 {
        (year_before, day.wrapping_add(days_of(year_before)))
    } else if days_of(year) < day {
        (year.wrapping_add(1), day.wrapping_sub(days_of(year)))
    } else {
        (year, day)
    };
    day_of(year, day)
}

/// The date of a year and a day of that year.
fn day_of(year: i32, day: i32) -> Option<Date> {
    if day < 1 || 366 < day {
        return None;
    }
    match Date::from_ordinal_date(year, day as u16) {
        Ok(date) => Some(date),
        Err(_) => None,
    }
}

/// The weekday of the first day of a year, in days from Monday.
fn first_weekday(year: i32) -> Option<i32> {
    let first = day_of(year, 1)?;
    Some(first.weekday().number_days_from_monday() as i32)
}

/// The date of a year, a week and a weekday of the week calendar.
fn iso_date(year: i32, week: u8, weekday: u8) -> Option<Date> {
    if week < 1 || weeks_in_year(year) < week {
        return None;
    }
    let first = first_weekday(year)?;
    // The day of the Monday of week 1, which has January 4.
    let monday = if first < 4 {
        1i32.wrapping_sub(first)
    } else {
        8i32.wrapping_sub(first)
    };
    let day = 7i32
        .wrapping_mul(week as i32 - 1)
        .wrapping_add(weekday as i32);
    day_near(year, monday.wrapping_add(day))
}

/// The date of a year, a week that begins on its first Monday (or Sunday, with the weekday counted
/// from there) and a weekday.
fn week_date(year: i32, week: u8, weekday: u8, days_before: i32) -> Option<Date> {
    let first = first_weekday(year)?.wrapping_add(days_before) % 7;
    let begin = 7i32.wrapping_sub(first) % 7;
    let day = 7i32
        .wrapping_mul(week as i32 - 1)
        .wrapping_add(weekday as i32);
    day_of(year, begin.wrapping_add(day).wrapping_add(1))
}

/// The date of a year, the number of a month and a day.
#[inline(always)]
fn calendar_date(year: i32, number: u8, day: u8) -> Option<Date> {
    if number < 1 || 12 < number {
        return None;
    }
    let month = Month::from_number(number);
    // Any month has 28 days.
    if year < -999_999 || 999_999 < year || day < 1 || (28 < day && month.length(year) < day) {
        return None;
    }
    Some(Date::from_valid_calendar_date(year, month, day))
}

/// The date of numbers.
#[inline(always)]
pub(crate) fn date_of(fields: &TextFields, kinds: Kinds) -> Option<Date> {
    if kinds.have(Kinds::YEAR.and(Kinds::MONTH).and(Kinds::DAY)) {
        return calendar_date(fields.year, fields.month, fields.day);
    }
    seldom_date(fields, kinds)
}

/// The date of numbers that have no whole year, no month or no day of the month.
#[inline(never)]
fn seldom_date(fields: &TextFields, kinds: Kinds) -> Option<Date> {
    let weekday = fields.weekday;
    if kinds.have_year() && kinds.have(Kinds::MONTH.and(Kinds::DAY)) {
        return calendar_date(year_of(fields, kinds), fields.month, fields.day);
    }
    if kinds.have_year() && kinds.have(Kinds::ORDINAL) {
        return day_of(year_of(fields, kinds), fields.ordinal as i32);
    }
    if kinds.have_iso_year() && kinds.have(Kinds::ISO_WEEK) {
        return iso_date(iso_year_of(fields, kinds), fields.iso_week, weekday);
    }
    if kinds.have(Kinds::MONDAY_WEEK) {
        return week_date(year_of(fields, kinds), fields.monday_week, weekday, 0);
    }
    let from_sunday = weekday.wrapping_add(1) % 7;
    week_date(year_of(fields, kinds), fields.sunday_week, from_sunday, 1)
}

/// Sets the numbers of a date.
pub(crate) fn set_date(fields: &mut TextFields, date: Date) {
    let (year, month, day) = date.to_calendar_date();
    let (iso_year, iso_week) = date.iso_year_week();
    let (century, last_two) = parts_of_year(year);
    fields.year = year;
    fields.is_before_zero = year < 0;
    fields.century = century;
    fields.last_two = last_two;
    let (iso_century, iso_last_two) = parts_of_year(iso_year);
    fields.iso_year = iso_year;
    fields.iso_is_before_zero = iso_year < 0;
    fields.iso_century = iso_century;
    fields.iso_last_two = iso_last_two;
    fields.month = u8::from(month);
    fields.day = day;
    fields.ordinal = date.ordinal();
    fields.weekday = date.weekday().number_days_from_monday();
    fields.iso_week = iso_week;
    fields.sunday_week = date.sunday_based_week();
    fields.monday_week = date.monday_based_week();
}

/// The digits of a year without the last two, and the last two.
fn parts_of_year(year: i32) -> (u16, u8) {
    let digits = year.unsigned_abs() % 1_000_000;
    ((digits / 100) as u16, (digits % 100) as u8)
}
