//! Offsets from UTC.
ghost use Rattle.std.specs.Prelude.{◌≡◌, ◌↔◌, ◌+◌, ◌*◌, ◌<◌, ◌≤◌, pos, ◌+ℤ◌, ◌*ℤ◌, unsigned_abs};
ghost use Rattle.std.specs.Prelude.{nat_le, IsOk, IfOk, IfErr, codes, if◌then◌else◌};
ghost use Rattle.time_below.specs.Offset.{AreOffsetParts, IsOffset, is_negative, is_positive};
ghost use Rattle.time_below.specs.Offset.{is_utc, settled, signed, signed_like, offset_minutes};
ghost use Rattle.time_below.specs.Offset.{offset_of_seconds, offset_seconds};
ghost use Rattle.time_below.specs.ComponentRange.{range_refusal, unconditional_range};

mod text;

use crate::component_range::ComponentRange;
use std::marker::Model;

/// An offset from UTC, at most 25:59:59 either way (ISO 8601-1:2019, 4.3.13). It is positive east
/// of Greenwich, where local time is ahead of UTC, and its parts never have two signs.
#[derive(Clone, Copy, PartialEq, Eq, PartialOrd, Ord, Hash)]
pub struct UtcOffset {
    hours: i8,
    minutes: i8,
    seconds: i8,
}

impl Model for UtcOffset {
    ghost use Rattle.time_below.specs.Offset.{Offset, IsOffset};

    ghost Value = { Offset };

    ghost view = { λ o. record { hours = o.hours; minutes = o.minutes; seconds = o.seconds } };

    ghost invariant = { λ o. IsOffset (
        record { hours = o.hours; minutes = o.minutes; seconds = o.seconds }
        ) };

    ghost inverse = { λ o. record { hours = o.hours; minutes = o.minutes; seconds = o.seconds } };
}

// The size of a part with the sign of a larger part, or the part itself where that one is 0.
fn signed_like(lead: i8, part: i8) -> i8
    requires { unsigned_abs part ≤ 59 }
    ensures value { result ≡ signed_like lead part }
    ensures range { unsigned_abs result ≤ 59 }
{
    if lead > 0 {
        part.abs()
    } else if lead < 0 {
        -part.abs()
    } else {
        part
    }
}

// A part of this size, with a sign.
fn signed(is_negative: bool, size: u8) -> i8
    requires { size ≤ 59 }
    ensures value { result ≡ signed is_negative size }
    ensures range { unsigned_abs result ≤ 59 }
{
    if is_negative {
        -(size as i8)
    } else {
        size as i8
    }
}

// Sixty to each whole, and the part of the next.
fn sixtieths(whole: i32, part: i8) -> i32
    requires { unsigned_abs whole < 1560 }
    ensures value { result ≡ pos 60 *ℤ whole +ℤ part }
    ensures range { unsigned_abs result ≤ 60 * unsigned_abs whole + unsigned_abs part }
{
    whole * 60 + part as i32
}

impl UtcOffset {
    /// The offset of UTC itself, +00:00:00.
    pub const UTC: UtcOffset = UtcOffset {
        hours: 0,
        minutes: 0,
        seconds: 0,
    };

    /// Returns the offset of hours, -25 to 25, and minutes and seconds, -59 to 59.
    ///
    /// If signs differ, the later parts take the sign of the first part that is not zero.
    ///
    /// # Errors
    ///
    /// The first part out of its range is refused as `hours`, `minutes` or `seconds`, in this
    /// order.
    pub fn from_hms(hours: i8, minutes: i8, seconds: i8) -> Result<UtcOffset, ComponentRange>
        ensures accepted { IsOk result ↔ AreOffsetParts hours minutes seconds }
        ensures value { IfOk result (λ o. o ≡ settled hours minutes seconds) }
        ensures refusal { IfErr result (λ e. range_refusal e ≡ unconditional_range (
            if nat_le (unsigned_abs hours) 25
            then (if nat_le (unsigned_abs minutes) 59 then codes "seconds" else codes "minutes")
            else codes "hours"
            )) }
    {
        if hours.unsigned_abs() > 25 {
            return Err(ComponentRange::unconditional("hours"));
        }
        if minutes.unsigned_abs() > 59 {
            return Err(ComponentRange::unconditional("minutes"));
        }
        if seconds.unsigned_abs() > 59 {
            return Err(ComponentRange::unconditional("seconds"));
        }
        Ok(UtcOffset::from_ranged_hms(hours, minutes, seconds))
    }

    /// Returns the offset of parts that are in the ranges of [`from_hms`](UtcOffset::from_hms), as
    /// the caller knows.
    ///
    /// If signs differ, the later parts take the sign of the first part that is not zero.
    pub fn from_ranged_hms(hours: i8, minutes: i8, seconds: i8) -> UtcOffset
        requires { AreOffsetParts hours minutes seconds }
        ensures { result ≡ settled hours minutes seconds }
    {
        let seconds = signed_like(hours, signed_like(minutes, seconds));
        UtcOffset {
            hours,
            minutes: signed_like(hours, minutes),
            seconds,
        }
    }

    /// Returns the offset of parts that are in the ranges of [`from_hms`](UtcOffset::from_hms) and
    /// have one sign at most, as the caller knows.
    pub fn from_valid_hms(hours: i8, minutes: i8, seconds: i8) -> UtcOffset
        requires { IsOffset (record { hours = hours; minutes = minutes; seconds = seconds }) }
        ensures { result ≡ record { hours = hours; minutes = minutes; seconds = seconds } }
    {
        UtcOffset {
            hours,
            minutes,
            seconds,
        }
    }

    /// Returns the offset of -93,599 to 93,599 seconds, which is 25:59:59 either way.
    ///
    /// # Errors
    ///
    /// Any other number is refused as `seconds`.
    pub fn from_whole_seconds(seconds: i32) -> Result<UtcOffset, ComponentRange>
        ensures accepted { IsOk result ↔ unsigned_abs seconds < 93_600 }
        ensures value { IfOk result (λ o. o ≡ offset_of_seconds seconds) }
        ensures seconds { IfOk result (λ o. offset_seconds o ≡ seconds) }
        ensures refusal { IfErr result
            (λ e. range_refusal e ≡ unconditional_range (codes "seconds")) }
    {
        let size = seconds.unsigned_abs();
        if size > 93_599 {
            return Err(ComponentRange::unconditional("seconds"));
        }
        let is_negative = seconds < 0;
        Ok(UtcOffset {
            hours: signed(is_negative, (size / 3600) as u8),
            minutes: signed(is_negative, (size % 3600 / 60) as u8),
            seconds: signed(is_negative, (size % 60) as u8),
        })
    }

    /// Returns the hours -25 to 25, the minutes -59 to 59 and the seconds -59 to 59.
    pub fn as_hms(self) -> (i8, i8, i8)
        ensures hours { result.0 ≡ self.hours }
        ensures minutes { result.1 ≡ self.minutes }
        ensures seconds { result.2 ≡ self.seconds }
        ensures range { AreOffsetParts result.0 result.1 result.2 }
        ensures offset { IsOffset self }
    {
        (self.hours, self.minutes, self.seconds)
    }

    /// Returns the whole offset in hours, rounded toward zero, -25 to 25.
    pub fn whole_hours(self) -> i8
        ensures value { result ≡ self.hours }
        ensures range { unsigned_abs result ≤ 25 }
    {
        self.hours
    }

    /// Returns the whole offset in minutes, rounded toward zero, -1,559 to 1,559.
    pub fn whole_minutes(self) -> i16
        ensures value { result ≡ offset_minutes self }
        ensures range { unsigned_abs result < 1_560 }
    {
        sixtieths(self.hours as i32, self.minutes) as i16
    }

    /// Returns the minutes past the hour, -59 to 59.
    pub fn minutes_past_hour(self) -> i8
        ensures value { result ≡ self.minutes }
        ensures range { unsigned_abs result ≤ 59 }
    {
        self.minutes
    }

    /// Returns the seconds past the minute, -59 to 59.
    pub fn seconds_past_minute(self) -> i8
        ensures value { result ≡ self.seconds }
        ensures range { unsigned_abs result ≤ 59 }
    {
        self.seconds
    }

    /// Returns whether the offset is zero.
    pub fn is_utc(self) -> bool
        ensures { result ≡ is_utc self }
    {
        // Without branches.
        (self.hours == 0) & (self.minutes == 0) & (self.seconds == 0)
    }

    /// Returns whether clocks at the offset are ahead of UTC.
    pub fn is_positive(self) -> bool
        ensures { result ≡ is_positive self }
    {
        // Without branches, as above.
        (self.hours > 0) | (self.minutes > 0) | (self.seconds > 0)
    }

    /// Returns whether clocks at the offset are behind UTC.
    pub fn is_negative(self) -> bool
        ensures { result ≡ is_negative self }
    {
        // Without branches, as above.
        (self.hours < 0) | (self.minutes < 0) | (self.seconds < 0)
    }

    /// Returns the whole offset in seconds, -93,599 to 93,599.
    pub fn whole_seconds(self) -> i32
        ensures value { result ≡ offset_seconds self }
        ensures range { unsigned_abs result < 93_600 }
    {
        sixtieths(sixtieths(self.hours as i32, self.minutes), self.seconds)
    }
}
