//! The components of a value.
ghost use Rattle.std.specs.Prelude.{◌≡◌, ◌≤◌, ◌<◌, Bool, IsTrue, unsigned_abs};
ghost use Rattle.std.specs.Int.{IsInRange};
ghost use Rattle.time_below.specs.Calendar.{IsDate};
ghost use Rattle.time_below.specs.Facts.{Facts, date_facts, the_date, the_time, the_offset};
ghost use Rattle.time_below.specs.Facts.{the_moment};
ghost use Rattle.time_below.specs.Moment.{IsNearMoment, milliseconds};
ghost use Rattle.time_below.specs.Month.{month_number};
ghost use Rattle.time_below.specs.Offset.{IsOffset, is_negative, is_utc};
ghost use Rattle.time_below.specs.TimeOfDay.{IsTimeOfDay, period_of};
ghost use Rattle.time_below.specs.Weekday.{days_from_monday};
ghost use Rattle.time_provide.specs.Laws.{States, Supplies};
ghost use Rattle.time_provide.specs.Real.{AgreesOnDate, AgreesOnTime, AgreesOnOffset};
ghost use Rattle.time_provide.specs.Real.{AgreesOnMoment};

use crate::date_cache::DateCache;
use crate::ranges::{
    Day, Hours, IsoWeekNumber, Minutes, MondayBasedWeek, Nanoseconds, OffsetHours, OffsetMinutes,
    OffsetSeconds, Ordinal, Seconds, SundayBasedWeek, Year,
};
use time_below::{Date, Month, Period, Time, UtcOffset, Weekday, moment};
use time_digits::{ri8, ri32, ru8, ru16};

/// Gives the components of a value, group by group.
///
/// A method may cache in the state what it computed. It may be called where the value supplies its
/// group and the state agrees with the value, and the state agrees afterwards. The group is real: a
/// date of the calendar with its own components, a time of day in its ranges, an offset in its
/// ranges and of one sign, a moment less than 26 hours outside the range of `Timestamp` at most.
pub trait ComponentProvider {
    /// What earlier calls for the same value computed.
    type State: DateCache;

    /// The components of the value.
    ghost facts: { Self → Facts };

    /// The state holds nothing but components of the value.
    ghost agrees: { Self.State → Self → Type 0 };

    ghost SUPPLIES_DATE: { Bool };

    /// Whether the value has a date, which `supplied_date` and the methods from `day` to `iso_year`
    /// return.
    const SUPPLIES_DATE: bool;

    ghost SUPPLIES_TIME: { Bool };

    /// Whether the value has a time of day, which `supplied_time`, `nanosecond` and the methods
    /// from `hour` to `second` return.
    const SUPPLIES_TIME: bool;

    ghost SUPPLIES_OFFSET: { Bool };

    /// Whether the value has an offset from UTC, which `supplied_offset` and the methods from
    /// `offset_is_negative` to `offset_second` return.
    const SUPPLIES_OFFSET: bool;

    ghost SUPPLIES_TIMESTAMP: { Bool };

    /// Whether the value is a moment, which `supplied_moment` and the last two methods return.
    const SUPPLIES_TIMESTAMP: bool;

    /// The date.
    fn supplied_date(&self, state: &mut Self::State) -> Date
        requires supplied { IsTrue SUPPLIES_DATE }
        requires agrees { agrees state.old self.now }
        ensures value { the_date (facts self.now) ≡ date_facts result }
        ensures real { IsDate result }
        ensures agrees { agrees state.new self.now };

    /// The time of day.
    fn supplied_time(&self, state: &mut Self::State) -> Time
        requires supplied { IsTrue SUPPLIES_TIME }
        requires agrees { agrees state.old self.now }
        ensures value { the_time (facts self.now) ≡ result }
        ensures real { IsTimeOfDay result }
        ensures agrees { agrees state.new self.now };

    /// The nanosecond of the second, 0 to 999,999,999. A moment has it at hand, so that nothing is
    /// cached.
    fn nanosecond(&self, state: &mut Self::State) -> Nanoseconds
        requires supplied { IsTrue SUPPLIES_TIME }
        requires agrees { agrees state.old self.now }
        ensures value { result ≡ (the_time (facts self.now)).nanosecond }
        ensures range { result ≤ 999_999_999 }
        ensures agrees { AgreesOnTime (agrees state.new self.now) (facts self.now) };

    /// The offset from UTC.
    fn supplied_offset(&self) -> UtcOffset
        requires supplied { IsTrue SUPPLIES_OFFSET }
        ensures value { the_offset (facts self.now) ≡ result }
        ensures real { IsOffset result };

    /// The seconds since 1970-01-01T00:00:00 UTC, rounded down, and the nanosecond counted forward
    /// from there.
    fn supplied_moment(&self) -> (i64, u32)
        requires supplied { IsTrue SUPPLIES_TIMESTAMP }
        ensures seconds { (the_moment (facts self.now)).seconds ≡ result.0 }
        ensures nanosecond { (the_moment (facts self.now)).nanosecond ≡ result.1 }
        ensures real { IsNearMoment (the_moment (facts self.now)) };

    // The groups that are there are those that the constants name.
    ghost groups: { (value : Self)
        → Supplies SUPPLIES_DATE SUPPLIES_TIME SUPPLIES_OFFSET SUPPLIES_TIMESTAMP (facts value) };

    // What the state caches of the date leaves it in agreement with the value.
    ghost states: { (value : Self) → States Self.State.agrees Self.State.grows
        (λ state. agrees state value) (the_date (facts value)) };

    // A fresh state agrees with every value. Callers with a value of any type search for this law,
    // so it stands alone.
    ghost fresh: { (state : Self.State) (value : Self) → Self.State.is_default state
        → agrees state value };

    /// The day of the month, 1 to 31.
    // Row: a borrowed list of 11 items.
    #[inline(always)]
    final fn day(&self, state: &mut Self::State) -> Day
        requires supplied { IsTrue SUPPLIES_DATE }
        requires agrees { agrees state.old self.now }
        ensures value { result ≡ (the_date (facts self.now)).day }
        ensures range { IsInRange 1 31 result }
        ensures agrees { AgreesOnDate (agrees state.new self.now) (facts self.now) }
    {
        let date = self.supplied_date(state);
        state.day(date)
    }

    /// The month.
    // Row: a borrowed list of 11 items.
    #[inline(always)]
    final fn month(&self, state: &mut Self::State) -> Month
        requires supplied { IsTrue SUPPLIES_DATE }
        requires agrees { agrees state.old self.now }
        ensures value { month_number result ≡ (the_date (facts self.now)).month }
        ensures agrees { AgreesOnDate (agrees state.new self.now) (facts self.now) }
    {
        let date = self.supplied_date(state);
        state.month(date)
    }

    /// The day of the year, 1 to 366.
    final fn ordinal(&self, state: &mut Self::State) -> Ordinal
        requires supplied { IsTrue SUPPLIES_DATE }
        requires agrees { agrees state.old self.now }
        ensures value { result ≡ (the_date (facts self.now)).ordinal }
        ensures range { IsInRange 1 366 result }
        ensures agrees { AgreesOnDate (agrees state.new self.now) (facts self.now) }
    {
        ru16::within(self.supplied_date(state).ordinal())
    }

    /// The day of the week.
    final fn weekday(&self, state: &mut Self::State) -> Weekday
        requires supplied { IsTrue SUPPLIES_DATE }
        requires agrees { agrees state.old self.now }
        ensures value { days_from_monday result ≡ (the_date (facts self.now)).weekday }
        ensures agrees { AgreesOnDate (agrees state.new self.now) (facts self.now) }
    {
        self.supplied_date(state).weekday()
    }

    /// The week of the week calendar, 1 to 53 (ISO 8601-1:2019, week date).
    final fn iso_week_number(&self, state: &mut Self::State) -> IsoWeekNumber
        requires supplied { IsTrue SUPPLIES_DATE }
        requires agrees { agrees state.old self.now }
        ensures value { result ≡ (the_date (facts self.now)).iso_week }
        ensures range { IsInRange 1 53 result }
        ensures agrees { AgreesOnDate (agrees state.new self.now) (facts self.now) }
    {
        let date = self.supplied_date(state);
        state.iso_week(date)
    }

    /// The week of the year, 0 to 53, where week 1 begins on the first Monday.
    final fn monday_based_week(&self, state: &mut Self::State) -> MondayBasedWeek
        requires supplied { IsTrue SUPPLIES_DATE }
        requires agrees { agrees state.old self.now }
        ensures value { result ≡ (the_date (facts self.now)).monday_based_week }
        ensures range { result ≤ 53 }
        ensures agrees { AgreesOnDate (agrees state.new self.now) (facts self.now) }
    {
        ru8::within(self.supplied_date(state).monday_based_week())
    }

    /// The week of the year, 0 to 53, where week 1 begins on the first Sunday.
    final fn sunday_based_week(&self, state: &mut Self::State) -> SundayBasedWeek
        requires supplied { IsTrue SUPPLIES_DATE }
        requires agrees { agrees state.old self.now }
        ensures value { result ≡ (the_date (facts self.now)).sunday_based_week }
        ensures range { result ≤ 53 }
        ensures agrees { AgreesOnDate (agrees state.new self.now) (facts self.now) }
    {
        ru8::within(self.supplied_date(state).sunday_based_week())
    }

    /// The year, -999,999 to 999,999.
    // Row: a borrowed list of 11 items.
    #[inline(always)]
    final fn calendar_year(&self, state: &mut Self::State) -> Year
        requires supplied { IsTrue SUPPLIES_DATE }
        requires agrees { agrees state.old self.now }
        ensures value { result ≡ (the_date (facts self.now)).year }
        ensures range { unsigned_abs result ≤ 999_999 }
        ensures agrees { AgreesOnDate (agrees state.new self.now) (facts self.now) }
    {
        ri32::within(self.supplied_date(state).year())
    }

    /// The year of the week calendar, -999,999 to 999,999.
    final fn iso_year(&self, state: &mut Self::State) -> Year
        requires supplied { IsTrue SUPPLIES_DATE }
        requires agrees { agrees state.old self.now }
        ensures value { result ≡ (the_date (facts self.now)).iso_year }
        ensures range { unsigned_abs result ≤ 999_999 }
        ensures agrees { AgreesOnDate (agrees state.new self.now) (facts self.now) }
    {
        let date = self.supplied_date(state);
        state.iso_year(date)
    }

    /// The hour of the day, 0 to 23.
    // Row: a borrowed list of 11 items.
    #[inline(always)]
    final fn hour(&self, state: &mut Self::State) -> Hours
        requires supplied { IsTrue SUPPLIES_TIME }
        requires agrees { agrees state.old self.now }
        ensures value { result ≡ (the_time (facts self.now)).hour }
        ensures range { result ≤ 23 }
        ensures agrees { AgreesOnTime (agrees state.new self.now) (facts self.now) }
    {
        ru8::within(self.supplied_time(state).as_hms_nano().0)
    }

    /// The minute of the hour, 0 to 59.
    // Row: a borrowed list of 11 items.
    #[inline(always)]
    final fn minute(&self, state: &mut Self::State) -> Minutes
        requires supplied { IsTrue SUPPLIES_TIME }
        requires agrees { agrees state.old self.now }
        ensures value { result ≡ (the_time (facts self.now)).minute }
        ensures range { result ≤ 59 }
        ensures agrees { AgreesOnTime (agrees state.new self.now) (facts self.now) }
    {
        ru8::within(self.supplied_time(state).as_hms_nano().1)
    }

    /// AM or PM: before noon, or from noon on.
    final fn period(&self, state: &mut Self::State) -> Period
        requires supplied { IsTrue SUPPLIES_TIME }
        requires agrees { agrees state.old self.now }
        ensures value { result ≡ period_of (the_time (facts self.now)) }
        ensures agrees { AgreesOnTime (agrees state.new self.now) (facts self.now) }
    {
        if self.supplied_time(state).as_hms_nano().0 < 12 {
            Period::Am
        } else {
            Period::Pm
        }
    }

    /// The second of the minute, 0 to 59.
    // Row: a borrowed list of 11 items.
    #[inline(always)]
    final fn second(&self, state: &mut Self::State) -> Seconds
        requires supplied { IsTrue SUPPLIES_TIME }
        requires agrees { agrees state.old self.now }
        ensures value { result ≡ (the_time (facts self.now)).second }
        ensures range { result ≤ 59 }
        ensures agrees { AgreesOnTime (agrees state.new self.now) (facts self.now) }
    {
        ru8::within(self.supplied_time(state).as_hms_nano().2)
    }

    /// Whether some part of the offset is below zero.
    final fn offset_is_negative(&self, state: &mut Self::State) -> bool
        requires supplied { IsTrue SUPPLIES_OFFSET }
        requires agrees { agrees state.old self.now }
        ensures value { result ≡ is_negative (the_offset (facts self.now)) }
        ensures agrees { AgreesOnOffset (agrees state.new self.now) (facts self.now) }
    {
        self.supplied_offset().is_negative()
    }

    /// Whether all parts of the offset are zero.
    final fn offset_is_utc(&self, state: &mut Self::State) -> bool
        requires supplied { IsTrue SUPPLIES_OFFSET }
        requires agrees { agrees state.old self.now }
        ensures value { result ≡ is_utc (the_offset (facts self.now)) }
        ensures agrees { AgreesOnOffset (agrees state.new self.now) (facts self.now) }
    {
        self.supplied_offset().is_utc()
    }

    /// The hour of the offset from UTC, -25 to 25.
    final fn offset_hour(&self, state: &mut Self::State) -> OffsetHours
        requires supplied { IsTrue SUPPLIES_OFFSET }
        requires agrees { agrees state.old self.now }
        ensures value { result ≡ (the_offset (facts self.now)).hours }
        ensures range { unsigned_abs result ≤ 25 }
        ensures agrees { AgreesOnOffset (agrees state.new self.now) (facts self.now) }
    {
        ri8::within(self.supplied_offset().as_hms().0)
    }

    /// The minute of the offset from UTC, -59 to 59.
    final fn offset_minute(&self, state: &mut Self::State) -> OffsetMinutes
        requires supplied { IsTrue SUPPLIES_OFFSET }
        requires agrees { agrees state.old self.now }
        ensures value { result ≡ (the_offset (facts self.now)).minutes }
        ensures range { unsigned_abs result ≤ 59 }
        ensures agrees { AgreesOnOffset (agrees state.new self.now) (facts self.now) }
    {
        ri8::within(self.supplied_offset().as_hms().1)
    }

    /// The second of the offset from UTC, -59 to 59.
    final fn offset_second(&self, state: &mut Self::State) -> OffsetSeconds
        requires supplied { IsTrue SUPPLIES_OFFSET }
        requires agrees { agrees state.old self.now }
        ensures value { result ≡ (the_offset (facts self.now)).seconds }
        ensures range { unsigned_abs result ≤ 59 }
        ensures agrees { AgreesOnOffset (agrees state.new self.now) (facts self.now) }
    {
        ri8::within(self.supplied_offset().as_hms().2)
    }

    /// The seconds since 1970-01-01T00:00:00 UTC, rounded down, at most 14 digits.
    final fn unix_timestamp_seconds(&self, state: &mut Self::State) -> i64
        requires supplied { IsTrue SUPPLIES_TIMESTAMP }
        requires agrees { agrees state.old self.now }
        ensures value { result ≡ (the_moment (facts self.now)).seconds }
        ensures range { unsigned_abs result < 100_000_000_000_000 }
        ensures agrees { AgreesOnMoment (agrees state.new self.now) (facts self.now) }
    {
        self.supplied_moment().0
    }

    /// The milliseconds since 1970-01-01T00:00:00 UTC, rounded toward zero, at most 17 digits.
    final fn unix_timestamp_milliseconds(&self, state: &mut Self::State) -> i64
        requires supplied { IsTrue SUPPLIES_TIMESTAMP }
        requires agrees { agrees state.old self.now }
        ensures value { result ≡ milliseconds (the_moment (facts self.now)) }
        ensures range { unsigned_abs result < 100_000_000_000_000_000 }
        ensures agrees { AgreesOnMoment (agrees state.new self.now) (facts self.now) }
    {
        let (seconds, nanosecond) = self.supplied_moment();
        moment::milliseconds(seconds, nanosecond)
    }
}
