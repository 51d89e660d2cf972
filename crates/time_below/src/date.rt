//! The dates of the calendar.
ghost use Rattle.std.specs.Prelude.{◌≡◌, ◌↔◌, ◌+◌, ◌<◌, ◌≤◌, ◌%◌, nat_le, IsTrue, IsOk, IfOk};
ghost use Rattle.std.specs.Prelude.{IfErr, codes, if◌then◌else◌, pos, ◌+ℤ◌, ◌-ℤ◌, ◌*ℤ◌};
ghost use Rattle.std.specs.Prelude.{unsigned_abs};
ghost use Rattle.std.specs.Int.{IsInRange};
ghost use Rattle.time_below.specs.Calendar.{greatest_year, IsYear, IsDate, IsDayOfMonth, month_of};
ghost use Rattle.time_below.specs.Calendar.{day_of, date_of, day_number, date_at, weekday_of};
ghost use Rattle.time_below.specs.Calendar.{thursday_of, iso_year_of, iso_week_of};
ghost use Rattle.time_below.specs.Calendar.{monday_based_week_of, sunday_based_week_of};
ghost use Rattle.time_below.specs.ComponentRange.{range_refusal, conditional_range};
ghost use Rattle.time_below.specs.ComponentRange.{unconditional_range};
ghost use Rattle.time_below.specs.Moment.{IsTimestampSecond, day_seconds, unix_day};
ghost use Rattle.time_below.specs.Month.{month_number};
ghost use Rattle.time_below.specs.Weekday.{days_from_monday};

mod days;
mod replace;
mod text;
mod week_date;
mod with_time;

use crate::calendar;
use crate::component_range::ComponentRange;
use crate::month::Month;
use crate::time::DAY_SECONDS;
use crate::weekday::Weekday;
use std::marker::Model;

// The first year is as many before the year 0.
const GREATEST_YEAR: i32 = 999_999;

// The days of the years from the first to 0, which are 2,500 times 400 years and whole weeks.
const DAYS_BEFORE: u32 = 365_242_500;

// The days of all years.
const ALL_DAYS: u32 = 730_484_634;

// The days from -999999-01-01 to 1970-01-01.
const DAYS_TO_1970: i64 = 365_961_662;

// Whether a date may have the year.
fn is_year(year: i32) -> bool
    ensures { IsTrue result ↔ IsYear year }
{
    -GREATEST_YEAR <= year && year <= GREATEST_YEAR
}

/// A date of the proleptic Gregorian calendar, in the years -999,999 to 999,999.
#[derive(Clone, Copy, PartialEq, Eq, PartialOrd, Ord, Hash)]
pub struct Date {
    year: i32,
    ordinal: u16,
}

impl Model for Date {
    ghost use Rattle.time_below.specs.Calendar.{OrdinalDate, IsDate};

    ghost Value = { OrdinalDate };

    ghost view = { λ d. record { year = d.year; ordinal = d.ordinal } };

    ghost invariant = { λ d. IsDate (record { year = d.year; ordinal = d.ordinal }) };

    ghost inverse = { λ d. record { year = d.year; ordinal = d.ordinal } };
}

impl Date {
    /// The first date, -999999-01-01.
    pub const MIN: Date = Date {
        year: -GREATEST_YEAR,
        ordinal: 1,
    };

    /// The last date, 999999-12-31.
    pub const MAX: Date = Date {
        year: GREATEST_YEAR,
        ordinal: 365,
    };

    /// Returns the date of a year, -999,999 to 999,999, a month, and a day of that month.
    ///
    /// # Errors
    ///
    /// A year out of range is refused as `year`. A day that the month does not have in that year is
    /// refused as `day`.
    ///
    /// # Examples
    ///
    /// ```text
    /// let Ok(date) = Date::from_calendar_date(2026, Month::November, 22) else { .. };
    /// ```
    pub fn from_calendar_date(year: i32, month: Month, day: u8) -> Result<Date, ComponentRange>
        ensures accepted { IsOk result
            ↔ (IsYear year × IsDayOfMonth year (month_number month) day) }
        ensures value { IfOk result (λ d. d ≡ date_of year (month_number month) day) }
        ensures refusal { IfErr result (λ e. range_refusal e
            ≡ (if nat_le (unsigned_abs year) greatest_year then conditional_range (codes "day")
            else unconditional_range (codes "year"))) }
    {
        if !is_year(year) {
            return Err(ComponentRange::unconditional("year"));
        }
        if day == 0 || day > month.length(year) {
            return Err(ComponentRange::conditional("day"));
        }
        Ok(Date::from_valid_calendar_date(year, month, day))
    }

    /// Returns the date of a year, a month and a day that the calendar has, as the caller knows.
    ///
    /// [`from_calendar_date`](Date::from_calendar_date) tests them.
    #[tactic(auto, using(crate::proofs::MonthLemmas::month_within))]
    pub fn from_valid_calendar_date(year: i32, month: Month, day: u8) -> Date
        requires year { IsYear year }
        requires day { IsDayOfMonth year (month_number month) day }
        ensures { result ≡ date_of year (month_number month) day }
    {
        let is_leap = calendar::is_leap_year(year);
        Date {
            year,
            ordinal: calendar::days_before_month(is_leap, u8::from(month)) + day as u16,
        }
    }

    /// Returns the date of a year, -999,999 to 999,999, and a day of the year, 1 to 365, or 366 in
    /// a leap year.
    ///
    /// # Errors
    ///
    /// A year out of range is refused as `year`, and a day that the year does not have as
    /// `ordinal`.
    pub fn from_ordinal_date(year: i32, ordinal: u16) -> Result<Date, ComponentRange>
        ensures accepted { IsOk result ↔ IsDate (record { year = year; ordinal = ordinal }) }
        ensures value { IfOk result (λ d. d ≡ record { year = year; ordinal = ordinal }) }
        ensures refusal { IfErr result (λ e. range_refusal e
            ≡ (if nat_le (unsigned_abs year) greatest_year then conditional_range (codes "ordinal")
            else unconditional_range (codes "year"))) }
    {
        if !is_year(year) {
            return Err(ComponentRange::unconditional("year"));
        }
        if ordinal == 0 || ordinal > calendar::days_in_year(year) {
            return Err(ComponentRange::conditional("ordinal"));
        }
        Ok(Date { year, ordinal })
    }

    // The date this many days after -999999-01-01.
    pub(crate) fn from_days(days: u32) -> Date
        requires { days < ALL_DAYS }
        ensures { result ≡ date_at (pos days -ℤ pos DAYS_BEFORE) }
    {
        let quarters = 4 * days + 3;
        let rest = quarters % 146_097 / 4 * 4 + 3;
        Date {
            year: (100 * (quarters / 146_097) + rest / 1461) as i32 - GREATEST_YEAR,
            ordinal: (rest % 1461 / 4 + 1) as u16,
        }
    }

    // The years from -999,999 to that of the date.
    fn years_from_start(self) -> u32
        ensures value { self.year +ℤ pos greatest_year ≡ pos result }
        ensures range { result < 1_999_999 }
    {
        (self.year + GREATEST_YEAR) as u32
    }

    // The days from -999999-01-01 to the date.
    fn days_from_start(self) -> u32
        ensures value { pos result ≡ day_number self +ℤ pos DAYS_BEFORE }
        ensures range { result < ALL_DAYS }
    {
        let years = self.years_from_start();
        365 * years + years / 4 - years / 100 + years / 400 + self.ordinal as u32 - 1
    }

    // 1970-01-01.
    pub(crate) const UNIX_EPOCH: Date = Date {
        year: 1970,
        ordinal: 1,
    };

    // The seconds from 1970-01-01 to the start of the day, whose last second is 86,399 later.
    pub(crate) fn unix_midnight(self) -> i64
        ensures value { result ≡ (day_number self -ℤ pos unix_day) *ℤ pos day_seconds }
        ensures start { IsTimestampSecond result }
        ensures end { IsTimestampSecond (result +ℤ pos 86_399) }
    {
        (self.days_from_start() as i64 - DAYS_TO_1970) * DAY_SECONDS as i64
    }

    /// Returns the year, -999,999 to 999,999. The year 0 is the one before the year 1.
    pub fn year(self) -> i32
        ensures value { result ≡ self.year }
        ensures range { IsYear result }
        ensures date { IsDate self }
    {
        self.year
    }

    /// Returns the month.
    pub fn month(self) -> Month
        ensures { month_number result ≡ month_of self }
    {
        self.to_calendar_date().1
    }

    /// Returns the day of the year, 1 to 366.
    pub fn ordinal(self) -> u16
        ensures value { result ≡ self.ordinal }
        ensures range { IsInRange 1 366 result }
        ensures date { IsDate self }
    {
        self.ordinal
    }

    /// Returns the day of the month, 1 to 31.
    pub fn day(self) -> u8
        ensures value { result ≡ day_of self }
        ensures range { IsInRange 1 31 result }
    {
        self.to_calendar_date().2
    }

    /// Returns the year and the day of the year, 1 to 366.
    pub fn to_ordinal_date(self) -> (i32, u16)
        ensures year { result.0 ≡ self.year }
        ensures ordinal { result.1 ≡ self.ordinal }
        ensures year_range { IsYear result.0 }
        ensures ordinal_range { IsInRange 1 366 result.1 }
    {
        (self.year, self.ordinal)
    }

    /// Returns the year, the month and the day of the month, which is 1 to 31.
    pub fn to_calendar_date(self) -> (i32, Month, u8)
        ensures year { result.0 ≡ self.year }
        ensures month { month_number result.1 ≡ month_of self }
        ensures day { result.2 ≡ day_of self }
        ensures year_range { IsYear result.0 }
        ensures day_range { IsInRange 1 31 result.2 }
        ensures day_of_month { IsDayOfMonth result.0 (month_number result.1) result.2 }
    {
        let is_leap = calendar::is_leap_year(self.year);
        let (month, day) = calendar::month_and_day(is_leap, self.ordinal);
        (self.year, Month::from_number(month), day)
    }

    // A number whose rest by seven is the weekday: a year of 365 days is 52 weeks and a day. A
    // hundred years earlier leap days are a quarter of the years, less three quarters of the
    // centuries, and no day is left over.
    fn place_in_weeks(self) -> u32
        ensures value { result % 7 ≡ weekday_of self }
        ensures range { result < 3_000_000 }
    {
        let years = self.years_from_start() + 100;
        years * 5 / 4 - years / 100 * 3 / 4 + self.ordinal as u32
    }

    /// Returns the weekday.
    pub fn weekday(self) -> Weekday
        ensures { days_from_monday result ≡ weekday_of self }
    {
        Weekday::from_monday(calendar::rest_by_seven(self.place_in_weeks()))
    }

    // The Thursday of the date's week, which is counted from Monday.
    fn thursday(self) -> Date
        ensures { result ≡ thursday_of self }
    {
        let days = self.days_from_start();
        Date::from_days(days - days % 7 + 3)
    }

    /// Returns the year of the week calendar, -999,999 to 999,999, and the week of that year, 1 to
    /// 53 (ISO 8601-1:2019, week calendar).
    ///
    /// Week 1 is the one with the year's first Thursday.
    pub fn iso_year_week(self) -> (i32, u8)
        ensures year { result.0 ≡ iso_year_of self }
        ensures week { result.1 ≡ iso_week_of self }
        ensures year_range { IsYear result.0 }
        ensures week_range { IsInRange 1 53 result.1 }
    {
        let thursday = self.thursday();
        (thursday.year(), ((thursday.ordinal() - 1) / 7 + 1) as u8)
    }

    /// Returns the week of the year, 0 to 53, where week 1 begins on the first Monday.
    pub fn monday_based_week(self) -> u8
        ensures value { result ≡ monday_based_week_of self }
        ensures range { result ≤ 53 }
    {
        let from_monday = calendar::rest_by_seven(self.place_in_weeks());
        calendar::weeks_in(self.ordinal as u32 + 6 - from_monday as u32)
    }

    /// Returns the week of the year, 0 to 53, where week 1 begins on the first Sunday.
    pub fn sunday_based_week(self) -> u8
        ensures value { result ≡ sunday_based_week_of self }
        ensures range { result ≤ 53 }
    {
        let from_sunday = calendar::rest_by_seven(self.place_in_weeks() + 1);
        calendar::weeks_in(self.ordinal as u32 + 6 - from_sunday as u32)
    }
}
