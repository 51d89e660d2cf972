//! Constructors and their refusals, the calendar beside other programs, and conversions.
mod moments;
mod texts;

use crate::asserted::{assert_same, assert_that};
use crate::values::{date, offset, timestamp};
use std::convert::TryFrom;
use std::str::FromStr;
use time_below::util::weeks_in_year;
use time_below::{
    ComponentRange, Date, InvalidVariant, Month, Time, Timestamp, UtcOffset, Weekday,
};

/// The name of the part that is refused, and whether that depends on other parts.
fn refusal_of<T>(made: &Result<T, ComponentRange>) -> (&'static str, bool) {
    match made {
        Err(refusal) => (refusal.name(), refusal.is_conditional()),
        Ok(_) => ("none", false),
    }
}

const DATES: &[(i32, Month, u8, &str, bool)] = &[
    (1_000_000, Month::January, 0, "year", false),
    (1900, Month::February, 29, "day", true),
    (2023, Month::January, 0, "day", true),
];

const ORDINALS: &[(i32, u16, &str, bool)] = &[
    (-1_000_000, 0, "year", false),
    (2023, 366, "ordinal", true),
];

#[test]
fn refuses_a_date_by_its_year_before_what_depends_on_it(rt: HostRuntime) {
    for &(year, month, day, name, is_conditional) in DATES {
        let date = Date::from_calendar_date(year, month, day);
        assert_same(&rt, refusal_of(&date), (name, is_conditional));
    }
    for &(year, ordinal, name, is_conditional) in ORDINALS {
        let date = Date::from_ordinal_date(year, ordinal);
        assert_same(&rt, refusal_of(&date), (name, is_conditional));
    }
}

const TIMES: &[(u8, u8, u8, u32, &str)] = &[
    (24, 60, 60, 1_000_000_000, "hour"),
    (23, 60, 60, 1_000_000_000, "minute"),
    (23, 59, 60, 1_000_000_000, "second"),
    (23, 59, 59, 1_000_000_000, "nanosecond"),
];

const OFFSETS: &[(i8, i8, i8, &str)] = &[
    (26, 60, 60, "hours"),
    (0, 60, 60, "minutes"),
    (-25, -59, -60, "seconds"),
    (i8::MIN, 0, 0, "hours"),
];

const TIMESTAMPS: &[(i64, u32, &str)] = &[
    (31_494_784_780_800, 1_000_000_000, "seconds"),
    (-31_619_087_596_801, 0, "seconds"),
    (0, 1_000_000_000, "nanosecond"),
];

#[test]
fn refuses_a_time_an_offset_and_a_moment_by_the_first_part_out_of_range(rt: HostRuntime) {
    for &(hour, minute, second, nanosecond, name) in TIMES {
        let time = Time::from_hms_nano(hour, minute, second, nanosecond);
        assert_same(&rt, refusal_of(&time), (name, false));
    }
    for &(hours, minutes, seconds, name) in OFFSETS {
        let offset = UtcOffset::from_hms(hours, minutes, seconds);
        assert_same(&rt, refusal_of(&offset), (name, false));
    }
    for &(seconds, nanosecond, name) in TIMESTAMPS {
        let timestamp = Timestamp::new(seconds, nanosecond);
        assert_same(&rt, refusal_of(&timestamp), (name, false));
    }
}

const SETTLED: &[((i8, i8, i8), (i8, i8, i8))] = &[
    ((1, -30, 0), (1, 30, 0)),
    ((-1, 30, 0), (-1, -30, 0)),
    ((0, 1, -1), (0, 1, 1)),
    ((-25, -59, -59), (-25, -59, -59)),
];

#[test]
fn the_largest_part_has_the_sign_of_an_offset(rt: HostRuntime) {
    for &(given, settled) in SETTLED {
        assert_same(&rt, offset(&rt, given).as_hms(), settled);
    }
}

#[test]
fn milliseconds_round_toward_zero(rt: HostRuntime) {
    let greatest = timestamp(&rt, 31_494_784_780_799, 999_999_999);
    assert_same(&rt, greatest.as_milliseconds(), 31_494_784_780_799_999);
    let before_1970 = timestamp(&rt, -1, 999_500_000);
    assert_same(&rt, before_1970.as_parts(), (-1, 999_500_000));
    assert_same(&rt, before_1970.as_milliseconds(), 0);
}

/// A date, its weekday, its weeks by ISO 8601, from Sunday and from Monday, and its ISO year.
const DAYS: &[((i32, u8, u8), Weekday, [u8; 3], i32)] = &[
    ((2008, 12, 29), Weekday::Monday, [1, 52, 52], 2009),
    ((2010, 1, 3), Weekday::Sunday, [53, 1, 0], 2009),
    ((2000, 2, 29), Weekday::Tuesday, [9, 9, 9], 2000),
    ((-999_999, 1, 1), Weekday::Monday, [1, 0, 1], -999_999),
    ((999_999, 12, 31), Weekday::Friday, [52, 52, 52], 999_999),
];

#[test]
fn weeks_are_counted_from_three_days(rt: HostRuntime) {
    for &(day, weekday, weeks, iso_year) in DAYS {
        let date = date(&rt, day);
        let (year, week) = date.iso_year_week();
        let found = [week, date.sunday_based_week(), date.monday_based_week()];
        assert_same(&rt, (date.weekday(), year), (weekday, iso_year));
        assert_same(&rt, found, weeks);
    }
}

/// Julian day numbers by Python's `datetime`. The day 0 of that count is -4713-11-24.
const JULIAN_DAYS: &[((i32, u8, u8), i32)] = &[
    ((-999_999, 1, 1), -363_521_074),
    ((-4713, 11, 24), 0),
    ((1, 1, 1), 1_721_426),
    ((1858, 11, 17), 2_400_001),
    ((2000, 1, 1), 2_451_545),
    ((9999, 12, 31), 5_373_484),
    ((999_999, 12, 31), 366_963_559),
];

#[test]
fn a_date_has_its_julian_day_number(rt: HostRuntime) {
    for &(day, number) in JULIAN_DAYS {
        let date = date(&rt, day);
        assert_same(&rt, date.to_julian_day(), number);
        assert_that(&rt, Date::from_julian_day(number) == Ok(date));
    }
}

/// Dates of weeks by Python's `date.fromisocalendar`, where it has them.
const WEEK_DATES: &[((i32, u8, Weekday), (i32, u8, u8))] = &[
    ((-999_999, 1, Weekday::Monday), (-999_999, 1, 1)),
    ((1, 1, Weekday::Monday), (1, 1, 1)),
    ((2009, 53, Weekday::Sunday), (2010, 1, 3)),
    ((2020, 53, Weekday::Thursday), (2020, 12, 31)),
    ((2025, 1, Weekday::Monday), (2024, 12, 30)),
    ((999_999, 52, Weekday::Friday), (999_999, 12, 31)),
];

#[test]
fn a_week_date_is_its_date(rt: HostRuntime) {
    for &((year, week, weekday), day) in WEEK_DATES {
        let date = date(&rt, day);
        assert_that(
            &rt,
            Date::from_iso_week_date(year, week, weekday) == Ok(date),
        );
        assert_same(&rt, date.to_iso_week_date(), (year, week, weekday));
    }
    assert_same(&rt, weeks_in_year(2004), 53);
    assert_same(&rt, weeks_in_year(2024), 52);
}

#[test]
fn a_name_or_a_number_of_no_month_is_refused(rt: HostRuntime) {
    assert_same(&rt, Month::from_str("May"), Ok(Month::May));
    assert_same(&rt, Weekday::from_str("Friday"), Ok(Weekday::Friday));
    for text in ["", "may", "May ", "Friday"] {
        assert_same(&rt, Month::from_str(text), Err(InvalidVariant));
    }
    assert_same(&rt, Weekday::from_str("fri"), Err(InvalidVariant));
    assert_that(&rt, Month::try_from(12) == Ok(Month::December));
    assert_same(&rt, refusal_of(&Month::try_from(0)), ("month", false));
    assert_same(&rt, refusal_of(&Month::try_from(13)), ("month", false));
}
