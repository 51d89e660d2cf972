//! The parts of a date and time.
ghost use Rattle.std.specs.Prelude.{◌≡◌, ◌*◌, ◌/◌, ◌<◌, ◌≤◌, ◌^◌, unsigned_abs};
ghost use Rattle.std.specs.Int.{IsInRange};
ghost use Rattle.time_below.specs.Calendar.{IsYear, month_of, day_of, julian_day_of, weekday_of};
ghost use Rattle.time_below.specs.Calendar.{iso_year_of, iso_week_of, monday_based_week_of};
ghost use Rattle.time_below.specs.Calendar.{sunday_based_week_of};
ghost use Rattle.time_below.specs.Month.{month_number};
ghost use Rattle.time_below.specs.TimeOfDay.{IsTimeOfDay, time_of};
ghost use Rattle.time_below.specs.Weekday.{days_from_monday};

use super::DateTime;
use crate::date::Date;
use crate::month::Month;
use crate::time::Time;
use crate::weekday::Weekday;

impl<Z: Copy> DateTime<Z> {
    /// Returns the date.
    pub fn date(self) -> Date
        ensures { result ≡ self.date }
    {
        self.date
    }

    /// Returns the time of day.
    pub fn time(self) -> Time
        ensures { result ≡ self.time }
    {
        self.time
    }

    /// Returns the offset from UTC.
    pub fn offset(self) -> Z
        ensures { result ≡ self.offset }
    {
        self.offset
    }

    /// Returns the year, -999,999 to 999,999.
    pub fn year(self) -> i32
        ensures value { result ≡ self.date.year }
        ensures range { IsYear result }
    {
        self.date.year()
    }

    /// Returns the month.
    pub fn month(self) -> Month
        ensures { month_number result ≡ month_of self.date }
    {
        self.date.month()
    }

    /// Returns the day of the month, 1 to 31.
    pub fn day(self) -> u8
        ensures value { result ≡ day_of self.date }
        ensures range { IsInRange 1 31 result }
    {
        self.date.day()
    }

    /// Returns the day of the year, 1 to 366.
    pub fn ordinal(self) -> u16
        ensures value { result ≡ self.date.ordinal }
        ensures range { IsInRange 1 366 result }
    {
        self.date.ordinal()
    }

    /// Returns the week of the week calendar, 1 to 53. Week 1 is the one with the year's first
    /// Thursday.
    pub fn iso_week(self) -> u8
        ensures value { result ≡ iso_week_of self.date }
        ensures range { IsInRange 1 53 result }
    {
        self.date.iso_week()
    }

    /// Returns the week of the year, 0 to 53, where week 1 begins on the first Sunday.
    pub fn sunday_based_week(self) -> u8
        ensures value { result ≡ sunday_based_week_of self.date }
        ensures range { result ≤ 53 }
    {
        self.date.sunday_based_week()
    }

    /// Returns the week of the year, 0 to 53, where week 1 begins on the first Monday.
    pub fn monday_based_week(self) -> u8
        ensures value { result ≡ monday_based_week_of self.date }
        ensures range { result ≤ 53 }
    {
        self.date.monday_based_week()
    }

    /// Returns the year, the month and the day of the month, which is 1 to 31.
    pub fn to_calendar_date(self) -> (i32, Month, u8)
        ensures year { result.0 ≡ self.date.year }
        ensures month { month_number result.1 ≡ month_of self.date }
        ensures day { result.2 ≡ day_of self.date }
        ensures year_range { IsYear result.0 }
        ensures day_range { IsInRange 1 31 result.2 }
    {
        self.date.to_calendar_date()
    }

    /// Returns the year and the day of the year, 1 to 366.
    pub fn to_ordinal_date(self) -> (i32, u16)
        ensures year { result.0 ≡ self.date.year }
        ensures ordinal { result.1 ≡ self.date.ordinal }
        ensures year_range { IsYear result.0 }
        ensures ordinal_range { IsInRange 1 366 result.1 }
    {
        self.date.to_ordinal_date()
    }

    /// Returns the year of the week calendar, its week 1 to 53, and the weekday.
    pub fn to_iso_week_date(self) -> (i32, u8, Weekday)
        ensures year { result.0 ≡ iso_year_of self.date }
        ensures week { result.1 ≡ iso_week_of self.date }
        ensures weekday { days_from_monday result.2 ≡ weekday_of self.date }
        ensures year_range { IsYear result.0 }
        ensures week_range { IsInRange 1 53 result.1 }
    {
        self.date.to_iso_week_date()
    }

    /// Returns the weekday.
    pub fn weekday(self) -> Weekday
        ensures { days_from_monday result ≡ weekday_of self.date }
    {
        self.date.weekday()
    }

    /// Returns the Julian day number of the date.
    pub fn to_julian_day(self) -> i32
        ensures value { result ≡ julian_day_of self.date }
        ensures range { unsigned_abs result < 2 ^ 29 }
    {
        self.date.to_julian_day()
    }

    /// Returns the hour, 0 to 23.
    pub fn hour(self) -> u8
        ensures value { result ≡ self.time.hour }
        ensures range { result < 24 }
    {
        self.time.hour()
    }

    /// Returns the minute, 0 to 59.
    pub fn minute(self) -> u8
        ensures value { result ≡ self.time.minute }
        ensures range { result < 60 }
    {
        self.time.minute()
    }

    /// Returns the second, 0 to 59.
    pub fn second(self) -> u8
        ensures value { result ≡ self.time.second }
        ensures range { result < 60 }
    {
        self.time.second()
    }

    /// Returns the whole milliseconds of the second, 0 to 999.
    pub fn millisecond(self) -> u16
        ensures value { result ≡ self.time.nanosecond / 1_000_000 }
        ensures range { result < 1_000 }
    {
        self.time.millisecond()
    }

    /// Returns the whole microseconds of the second, 0 to 999,999.
    pub fn microsecond(self) -> u32
        ensures value { result ≡ self.time.nanosecond / 1_000 }
        ensures range { result < 1_000_000 }
    {
        self.time.microsecond()
    }

    /// Returns the nanosecond, 0 to 999,999,999.
    pub fn nanosecond(self) -> u32
        ensures value { result ≡ self.time.nanosecond }
        ensures range { result < 1_000_000_000 }
    {
        self.time.nanosecond()
    }

    /// Returns the hour, the minute and the second.
    pub fn as_hms(self) -> (u8, u8, u8)
        ensures hour { result.0 ≡ self.time.hour }
        ensures minute { result.1 ≡ self.time.minute }
        ensures second { result.2 ≡ self.time.second }
        ensures range { IsTimeOfDay (time_of result.0 result.1 result.2 0) }
    {
        self.time.as_hms()
    }

    /// Returns the hour, the minute, the second and the whole milliseconds of the second.
    pub fn as_hms_milli(self) -> (u8, u8, u8, u16)
        ensures hour { result.0 ≡ self.time.hour }
        ensures minute { result.1 ≡ self.time.minute }
        ensures second { result.2 ≡ self.time.second }
        ensures millisecond { result.3 ≡ self.time.nanosecond / 1_000_000 }
        ensures range { IsTimeOfDay (time_of result.0 result.1 result.2 (result.3 * 1_000_000)) }
    {
        self.time.as_hms_milli()
    }

    /// Returns the hour, the minute, the second and the whole microseconds of the second.
    pub fn as_hms_micro(self) -> (u8, u8, u8, u32)
        ensures hour { result.0 ≡ self.time.hour }
        ensures minute { result.1 ≡ self.time.minute }
        ensures second { result.2 ≡ self.time.second }
        ensures microsecond { result.3 ≡ self.time.nanosecond / 1_000 }
        ensures range { IsTimeOfDay (time_of result.0 result.1 result.2 (result.3 * 1_000)) }
    {
        self.time.as_hms_micro()
    }

    /// Returns the hour, the minute, the second and the nanosecond.
    pub fn as_hms_nano(self) -> (u8, u8, u8, u32)
        ensures hour { result.0 ≡ self.time.hour }
        ensures minute { result.1 ≡ self.time.minute }
        ensures second { result.2 ≡ self.time.second }
        ensures nanosecond { result.3 ≡ self.time.nanosecond }
        ensures range { IsTimeOfDay self.time }
    {
        self.time.as_hms_nano()
    }
}
