//! The moment that a clock shows.
ghost use Rattle.std.specs.Prelude.{◌≡◌, IfOk, pos, ◌≤ℤ◌};
ghost use Rattle.time_below.specs.Moment.{IsMoment, local_unix_seconds, unix_seconds};
ghost use Rattle.time_below.specs.Offset.{utc};
ghost use Rattle.time_below.specs.Shown.{IsMomentShown};

use crate::component_range::ComponentRange;
use crate::offset_date_time::OffsetDateTime;
use crate::timestamp::Timestamp;
use crate::utc_date_time::UtcDateTime;
use std::convert::TryFrom;
use std::io;
use std::time::{Clock, SystemTime};

/// The moment of a reading of the system's clock, which is from 1970 on. A moment past the year
/// 999,999 is refused as the component `year`.
impl TryFrom<SystemTime> for Timestamp {
    type Error = ComponentRange;

    ghost try_from_gives = { IsMomentShown };

    fn try_from(shown: SystemTime) -> Result<Timestamp, ComponentRange> {
        match shown.duration_since(SystemTime::UNIX_EPOCH) {
            Ok(passed) => match Timestamp::from_nanoseconds(passed.as_nanos() as i128) {
                Ok(moment) => Ok(moment),
                Err(_) => Err(ComponentRange::unconditional("year")),
            },
            Err(_) => unreachable!(),
        }
    }
}

impl Timestamp {
    /// Returns the moment that the clock shows, which is from 1970 on.
    ///
    /// # Errors
    ///
    /// Returns the error of a clock that cannot be read, as one that is set before 1970, and
    /// `InvalidData` for one past the year 999,999.
    pub fn now(clock: &impl Clock) -> io::Result<Timestamp>
        ensures since_1970 { IfOk result (λ m. pos 0 ≤ℤ m.seconds) }
        ensures range { IfOk result (λ m. IsMoment m) }
    {
        match Timestamp::try_from(SystemTime::now(clock)?) {
            Ok(moment) => Ok(moment),
            Err(_) => Err(io::Error::new(
                io::ErrorKind::InvalidData,
                "the clock is past the year 999999",
            )),
        }
    }
}

impl UtcDateTime {
    /// Returns the date and time in UTC of [`Timestamp::now`].
    pub fn now(clock: &impl Clock) -> io::Result<UtcDateTime>
        ensures { IfOk result (λ t. pos 0 ≤ℤ unix_seconds t) }
    {
        Ok(UtcDateTime::from(Timestamp::now(clock)?))
    }
}

impl OffsetDateTime {
    /// Returns the date and time of [`Timestamp::now`], in UTC.
    pub fn now_utc(clock: &impl Clock) -> io::Result<OffsetDateTime>
        ensures since_1970 { IfOk result (λ t. pos 0 ≤ℤ local_unix_seconds t) }
        ensures offset { IfOk result (λ t. t.offset ≡ utc) }
    {
        Ok(OffsetDateTime::from(UtcDateTime::now(clock)?))
    }
}
