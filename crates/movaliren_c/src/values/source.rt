//! Where the values of moments come from.
ghost use Rattle.std.specs.Prelude.{◌≡◌, Result};
ghost use Rattle.movaliren_c.specs.Utc.{east_value, local_there, local_value, utc_value};
ghost use Rattle.movaliren_c.specs.Value.{moment_value};
ghost use Rattle.movaliren_c.specs.declared.answers.reason.Reason.{Reason};
ghost use Rattle.time_below.specs.Moment.{OffsetDateAndTime};

use crate::answers::reason::Reason;
use crate::values::moment::{Moment, UtcMoment, moment_value, timestamp_value, value_in_utc};
use std::convert::TryFrom;
use time_below::{OffsetDateTime, Timestamp, UtcOffset};

/// What a caller passes for a moment, and the value that it gives.
pub trait Source: Copy {
    /// What is passed for one moment.
    type Item: Copy;

    /// The local date and time of the item with its offset, or the reason why there is none.
    ghost given: { Self → Self.Item → Result OffsetDateAndTime Reason };

    /// The value of the item.
    fn value(self, item: &Self::Item) -> Result<OffsetDateTime, Reason>
        ensures { result ≡ given self item.now };
}

/// Moments by the parts of the date, the time and the offset.
#[derive(Clone, Copy)]
pub struct ByParts;

impl Source for ByParts {
    type Item = Moment;

    ghost given = { λ _ moment. moment_value moment };

    #[inline(always)]
    fn value(self, moment: &Moment) -> Result<OffsetDateTime, Reason> {
        moment_value(moment)
    }
}

/// Moments in UTC.
#[derive(Clone, Copy)]
pub struct InUtc;

impl Source for InUtc {
    type Item = UtcMoment;

    ghost given = { λ _ moment. utc_value moment.seconds moment.nanosecond };

    fn value(self, moment: &UtcMoment) -> Result<OffsetDateTime, Reason> {
        value_in_utc(moment.seconds, moment.nanosecond)
    }
}

/// Moments by the local date and time, at an offset of this many seconds east of UTC.
#[derive(Clone, Copy)]
pub struct AtOffset(pub i64);

impl Source for AtOffset {
    type Item = UtcMoment;

    ghost given = { λ at moment. local_value moment.seconds moment.nanosecond at.0 };

    #[inline(always)]
    fn value(self, moment: &UtcMoment) -> Result<OffsetDateTime, Reason> {
        local_value(moment.seconds, moment.nanosecond, self.0)
    }
}

/// The local date and time this long after 1970, at an offset of this many seconds east of UTC.
#[inline(always)]
#[tactic(auto, unfolding(crate::specs::Utc::local_value))]
pub fn local_value(seconds: i64, nanosecond: u32, east: i64) -> Result<OffsetDateTime, Reason>
    ensures { result ≡ local_value seconds nanosecond east }
{
    let moment = timestamp_value(seconds, nanosecond)?;
    let offset = offset_east(east)?;
    local_there(moment, offset)
}

/// The offset of this many seconds east of UTC, if it is at most 25:59:59 either way.
fn offset_east(east: i64) -> Result<UtcOffset, Reason>
    ensures { result ≡ east_value east }
{
    let Ok(seconds) = i32::try_from(east) else {
        return Err(Reason::OffsetHours);
    };
    match UtcOffset::from_whole_seconds(seconds) {
        Ok(offset) => Ok(offset),
        Err(_) => Err(Reason::OffsetHours),
    }
}

/// The moment at this offset, or the reason why it has no local date there.
fn local_there(moment: Timestamp, offset: UtcOffset) -> Result<OffsetDateTime, Reason>
    ensures { result ≡ local_there moment offset }
{
    moment.checked_to_offset(offset).ok_or(Reason::FormatYear)
}
