//! Moments counted in seconds.
ghost use Rattle.std.specs.Prelude.{◌≡◌, ◌↔◌, ◌<◌, ◌^◌, IsOk, IfOk, IfErr, IsSome, IfSome, codes};
ghost use Rattle.std.specs.Prelude.{pos, ◌+ℤ◌, unsigned_abs};
ghost use Rattle.time_below.specs.Moment.{IsMoment, IsTimestampSecond, IsTimestampNanosecond};
ghost use Rattle.time_below.specs.Moment.{utc_date, utc_time, local_at, local_unix_seconds};
ghost use Rattle.time_below.specs.Moment.{milliseconds, nanoseconds as nanoseconds_of};
ghost use Rattle.time_below.specs.Offset.{offset_seconds};
ghost use Rattle.time_below.specs.ComponentRange.{range_refusal, unconditional_range};

mod text;

use crate::component_range::ComponentRange;
use crate::date::Date;
use crate::moment;
use crate::offset_date_time::OffsetDateTime;
use crate::time::{DAY_SECONDS, Time};
use crate::utc_offset::UtcOffset;
use std::marker::Model;

// The seconds from -999999-01-01T00:00:00 to 1970, the last second, and those of all years.
pub(crate) const SECONDS_BEFORE: i64 = 31_619_087_596_800;

const LAST_SECOND: i64 = 31_494_784_780_799;

const ALL_SECONDS: u64 = 63_113_872_377_600;

// The first and the last nanosecond.
const FIRST_NANOSECOND: i128 = -31_619_087_596_800_000_000_000;

const LAST_NANOSECOND: i128 = 31_494_784_780_799_999_999_999;

/// A moment, by the seconds since 1970-01-01T00:00:00 UTC and the nanosecond counted forward from
/// there. It lies in the years -999,999 to 999,999.
#[derive(Clone, Copy, PartialEq, Eq, PartialOrd, Ord, Hash)]
pub struct Timestamp {
    seconds: i64,
    nanosecond: u32,
}

impl Model for Timestamp {
    ghost use Rattle.time_below.specs.Moment.{Moment, IsMoment};

    ghost Value = { Moment };

    ghost view = { λ t. record { seconds = t.seconds; nanosecond = t.nanosecond } };

    ghost invariant = { λ t. IsMoment (record { seconds = t.seconds; nanosecond = t.nanosecond }) };

    ghost inverse = { λ t. record { seconds = t.seconds; nanosecond = t.nanosecond } };
}

impl Timestamp {
    /// The first moment, -999999-01-01 0:00:00.
    pub const MIN: Timestamp = Timestamp {
        seconds: -SECONDS_BEFORE,
        nanosecond: 0,
    };

    /// The last moment, 999999-12-31 23:59:59.999999999.
    pub const MAX: Timestamp = Timestamp {
        seconds: LAST_SECOND,
        nanosecond: 999_999_999,
    };

    /// 1970-01-01 0:00:00.
    pub const UNIX_EPOCH: Timestamp = Timestamp {
        seconds: 0,
        nanosecond: 0,
    };

    /// Returns the moment of a second since 1970-01-01T00:00:00 UTC, -31,619,087,596,800 to
    /// 31,494,784,780,799, and a nanosecond, 0 to 999,999,999, counted forward from there.
    ///
    /// # Errors
    ///
    /// The first part out of its range is refused as `seconds` or `nanosecond`, in this order.
    ///
    /// # Examples
    ///
    /// ```text
    /// // 2026-11-22T15:55:06.12Z
    /// let Ok(moment) = Timestamp::new(1_795_362_906, 120_000_000) else { .. };
    /// ```
    pub fn new(seconds: i64, nanosecond: u32) -> Result<Timestamp, ComponentRange>
        ensures accepted { IsOk result
            ↔ IsMoment (record { seconds = seconds; nanosecond = nanosecond }) }
        ensures value { IfOk result (λ t. t
            ≡ record { seconds = seconds; nanosecond = nanosecond }) }
        ensures seconds { IfErr result (λ e. ¬ (IsTimestampSecond seconds)
            → range_refusal e ≡ unconditional_range (codes "seconds")) }
        ensures nanosecond { IfErr result (λ e. IsTimestampSecond seconds
            → range_refusal e ≡ unconditional_range (codes "nanosecond")) }
    {
        if seconds < -SECONDS_BEFORE || seconds > LAST_SECOND {
            return Err(ComponentRange::unconditional("seconds"));
        }
        if nanosecond > 999_999_999 {
            return Err(ComponentRange::unconditional("nanosecond"));
        }
        Ok(Timestamp {
            seconds,
            nanosecond,
        })
    }

    // The moment of parts that `new` takes.
    pub(crate) fn from_valid_parts(seconds: i64, nanosecond: u32) -> Timestamp
        requires { IsMoment (record { seconds = seconds; nanosecond = nanosecond }) }
        ensures { result ≡ record { seconds = seconds; nanosecond = nanosecond } }
    {
        Timestamp {
            seconds,
            nanosecond,
        }
    }

    /// Returns the moment of nanoseconds since 1970-01-01T00:00:00 UTC,
    /// -31,619,087,596,800,000,000,000 to 31,494,784,780,799,999,999,999.
    ///
    /// # Errors
    ///
    /// Any other number is refused as `nanoseconds`.
    pub fn from_nanoseconds(nanoseconds: i128) -> Result<Timestamp, ComponentRange>
        ensures accepted { IsOk result ↔ IsTimestampNanosecond nanoseconds }
        ensures value { IfOk result (λ t. nanoseconds_of t ≡ nanoseconds) }
        ensures refusal { IfErr result (λ e. range_refusal e
            ≡ unconditional_range (codes "nanoseconds")) }
    {
        if nanoseconds < FIRST_NANOSECOND || nanoseconds > LAST_NANOSECOND {
            return Err(ComponentRange::unconditional("nanoseconds"));
        }
        let (seconds, nanosecond) = moment::split(nanoseconds);
        Ok(Timestamp {
            seconds,
            nanosecond,
        })
    }

    // The seconds since -999999-01-01T00:00:00.
    fn seconds_from_start(self) -> u64
        ensures value { self.seconds +ℤ SECONDS_BEFORE ≡ pos result }
        ensures range { result < ALL_SECONDS }
    {
        (self.seconds + SECONDS_BEFORE) as u64
    }

    /// Returns the date in UTC.
    #[tactic(auto, using(crate::proofs::CalendarLemmas::utc_date_from_start))]
    pub fn date(self) -> Date
        ensures { result ≡ utc_date self.seconds }
    {
        Date::from_days((self.seconds_from_start() / DAY_SECONDS as u64) as u32)
    }

    /// Returns the time of day in UTC.
    #[tactic(auto, using(crate::proofs::CalendarLemmas::second_from_start))]
    pub fn time(self) -> Time
        ensures { result ≡ utc_time self }
    {
        Time::from_seconds(
            (self.seconds_from_start() % DAY_SECONDS as u64) as u32,
            self.nanosecond,
        )
    }

    /// Returns the date and time of the moment by clocks at this offset, with the offset.
    ///
    /// The caller knows that their year is in range:
    /// [`checked_to_offset`](Timestamp::checked_to_offset) tests it.
    pub fn to_offset(self, offset: UtcOffset) -> OffsetDateTime
        requires { IsTimestampSecond (self.seconds +ℤ offset_seconds offset) }
        ensures value { result ≡ local_at self offset }
        ensures moment { local_unix_seconds result ≡ self.seconds }
    {
        match self.checked_to_offset(offset) {
            Some(shown) => shown,
            None => unreachable!(),
        }
    }

    /// Returns the date and time of the moment by clocks at this offset, with the offset, or `None`
    /// where their year is outside -999,999 to 999,999.
    pub fn checked_to_offset(self, offset: UtcOffset) -> Option<OffsetDateTime>
        ensures accepted { IsSome result
            ↔ IsTimestampSecond (self.seconds +ℤ offset_seconds offset) }
        ensures value { IfSome result (λ t. t ≡ local_at self offset) }
        ensures moment { IfSome result (λ t. local_unix_seconds t ≡ self.seconds) }
    {
        moment::checked_at_offset(self.seconds, self.nanosecond, offset)
    }

    /// Returns the whole seconds since 1970-01-01T00:00:00 UTC, rounded down.
    pub fn as_seconds(self) -> i64
        ensures value { result ≡ self.seconds }
        ensures range { IsMoment self }
    {
        self.seconds
    }

    /// Returns the milliseconds since 1970-01-01T00:00:00 UTC, rounded toward zero, at most 17
    /// digits.
    pub fn as_milliseconds(self) -> i64
        ensures value { result ≡ milliseconds self }
        ensures range { unsigned_abs result < 100_000_000_000_000_000 }
    {
        moment::milliseconds(self.seconds, self.nanosecond)
    }

    /// Returns the nanoseconds since 1970-01-01T00:00:00 UTC, at most 23 digits.
    pub fn as_nanoseconds(self) -> i128
        ensures value { result ≡ nanoseconds_of self }
        ensures range { unsigned_abs result < 10 ^ 23 }
    {
        moment::nanoseconds(self.seconds, self.nanosecond)
    }

    /// Returns the whole seconds since 1970-01-01T00:00:00 UTC, rounded down, and the nanosecond 0
    /// to 999,999,999 counted forward from there.
    pub fn as_parts(self) -> (i64, u32)
        ensures seconds { result.0 ≡ self.seconds }
        ensures nanosecond { result.1 ≡ self.nanosecond }
        ensures range { IsMoment self }
    {
        (self.seconds, self.nanosecond)
    }
}
