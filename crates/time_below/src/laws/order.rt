//! Which values are equal, which is the first of two, and what conversions make of a value.
ghost use Rattle.std.specs.Prelude.{◌≡◌, ◌↔◌, IsTrue, Some, Result};
ghost use Rattle.std.specs.declared.cmp.Ordering.TheVariants.{Less};
ghost use Rattle.time_below.specs.Calendar.{IsDate};
ghost use Rattle.time_below.specs.declared.component_range.ComponentRange.{ComponentRange};
ghost use Rattle.time_below.specs.InUtc.{IsInUtcOf, IsMomentOf};
ghost use Rattle.time_below.specs.Moment.{DateAndTime, Moment, OffsetDateAndTime, IsBefore, in_utc};
ghost use Rattle.time_below.specs.Moment.{local_moment, moment_of, utc_date_and_time};
ghost use Rattle.time_below.specs.Shown.{IsMomentShown};
ghost use Rattle.time_below.specs.TimeOfDay.{IsTimeOfDay};

use crate::offset_date_time::OffsetDateTime;
use crate::plain_date_time::PlainDateTime;
use crate::timestamp::Timestamp;
use crate::utc_date_time::UtcDateTime;
use std::convert::TryFrom;
use std::time::SystemTime;

/// Two moments are equal exactly if they have the same second and the same nanosecond, and the
/// first is less exactly if it is before the second.
pub fn timestamp_order(a: Timestamp, b: Timestamp)
    ensures equal { IsTrue (⟦<Timestamp as PartialEq>⟧.eq a b) ↔ (a ≡ b) }
    ensures less { ⟦<Timestamp as Ord>⟧.cmp a b ≡ Less ↔ IsBefore a b }
    ensures partial { ⟦<Timestamp as PartialOrd>⟧.partial_cmp a b
        ≡ Some (⟦<Timestamp as Ord>⟧.cmp a b) }
{}

/// Two dates and times of no place are equal exactly if the dates and the times are.
pub fn plain_date_time_equality(a: PlainDateTime, b: PlainDateTime)
    ensures { IsTrue (⟦<PlainDateTime as PartialEq>⟧.eq a b) ↔ (a ≡ b) }
{}

/// Two dates and times of no place are in the order of the moments that they are in UTC.
pub fn plain_date_time_order()
    ensures { (a b : DateAndTime) → IsDate a.date → IsDate b.date → IsTimeOfDay a.time
        → IsTimeOfDay b.time
        → ⟦<PlainDateTime as Ord>⟧.cmp a b ≡ Less ↔ IsBefore (moment_of a) (moment_of b) }
{}

/// Two dates and times in UTC are equal exactly if the dates and the times are.
pub fn utc_date_time_equality(a: UtcDateTime, b: UtcDateTime)
    ensures { IsTrue (⟦<UtcDateTime as PartialEq>⟧.eq a b) ↔ (a ≡ b) }
{}

/// Two dates and times in UTC are in the order of their moments.
pub fn utc_date_time_order()
    ensures { (a b : DateAndTime) → IsDate a.date → IsDate b.date → IsTimeOfDay a.time
        → IsTimeOfDay b.time
        → ⟦<UtcDateTime as Ord>⟧.cmp a b ≡ Less ↔ IsBefore (moment_of a) (moment_of b) }
{}

/// Two local dates and times are equal exactly if their moments are, and the first is less exactly
/// if its moment is before that of the second.
pub fn offset_date_time_order(a: OffsetDateTime, b: OffsetDateTime)
    ensures equal { IsTrue (⟦<OffsetDateTime as PartialEq>⟧.eq a b)
        ↔ (local_moment a ≡ local_moment b) }
    ensures less { ⟦<OffsetDateTime as Ord>⟧.cmp a b ≡ Less
        ↔ IsBefore (local_moment a) (local_moment b) }
    ensures partial { ⟦<OffsetDateTime as PartialOrd>⟧.partial_cmp a b
        ≡ Some (⟦<OffsetDateTime as Ord>⟧.cmp a b) }
{}

/// What conversions that refuse nothing make of a moment, or of a date and time in UTC.
pub fn conversions_of_moments(moment: Timestamp, shown: UtcDateTime, local: OffsetDateTime)
    ensures moment_of_utc { ⟦<Timestamp as From<UtcDateTime>>⟧.from_gives shown moment
        ↔ (moment ≡ moment_of shown) }
    ensures utc_of_moment { ⟦<UtcDateTime as From<Timestamp>>⟧.from_gives moment shown
        ↔ (shown ≡ utc_date_and_time moment) }
    ensures local_of_utc { ⟦<OffsetDateTime as From<UtcDateTime>>⟧.from_gives shown local
        ↔ (local ≡ in_utc shown) }
    ensures local_of_moment { ⟦<OffsetDateTime as From<Timestamp>>⟧.from_gives moment local
        ↔ (local ≡ in_utc (utc_date_and_time moment)) }
{}

/// What conversions make of a local date and time, whose year in UTC may be out of range.
pub fn conversions_of_local_times()
    ensures moment { (t : OffsetDateAndTime) (made : Result Moment ComponentRange)
        → ⟦<Timestamp as TryFrom<OffsetDateTime>>⟧.try_from_gives t made ↔ IsMomentOf t made }
    ensures utc { (t : OffsetDateAndTime) (made : Result DateAndTime ComponentRange)
        → ⟦<UtcDateTime as TryFrom<OffsetDateTime>>⟧.try_from_gives t made ↔ IsInUtcOf t made }
{}

/// What a conversion makes of a reading of the system's clock.
pub fn conversion_of_clocks(shown: SystemTime)
    ensures { (made : Result Moment ComponentRange)
        → ⟦<Timestamp as TryFrom<SystemTime>>⟧.try_from_gives shown made
        ↔ IsMomentShown shown made }
{}
