//! Types of moments.
ghost use Rattle.std.specs.Prelude.{◌≡◌, ◌↔◌, ⊤, IfSome, IsSome};
ghost use Rattle.time_below.specs.Moment.{IsTimestampSecond, OffsetDateAndTime, local_unix_seconds};
ghost use Rattle.time_below.specs.Moment.{utc_date_and_time};
ghost use Rattle.time_serde.specs.Moments.{in_utc, instant_of};

use time_below::{OffsetDateTime, Timestamp, UtcDateTime, UtcOffset};

/// A type whose values are moments, each with a date, a time of day and an offset from UTC.
pub trait Moment: Copy {
    /// The date, the time of day and the offset.
    ghost local: { Self → OffsetDateAndTime };

    /// The value of the type at the moment of a local date and time.
    ghost of_local: { OffsetDateAndTime → Self };

    /// The type has that value.
    ghost has_moment: { OffsetDateAndTime → Type 0 };

    /// The date and the time of day, with their offset from UTC.
    fn to_local(&self) -> OffsetDateTime
        ensures { result ≡ local self.now };

    /// The value at this moment, if the type has it.
    fn from_local(moment: OffsetDateTime) -> Option<Self>
        ensures succeeds { IsSome result ↔ has_moment moment }
        ensures value { IfSome result (λ m. m ≡ of_local moment) };
}

/// The offset is kept.
impl Moment for OffsetDateTime {
    ghost local = { λ t. t };

    ghost of_local = { λ t. t };

    ghost has_moment = { λ _. ⊤ };

    fn to_local(&self) -> OffsetDateTime {
        *self
    }

    fn from_local(moment: OffsetDateTime) -> Option<OffsetDateTime> {
        Some(moment)
    }
}

/// The offset is that of UTC. A moment of a year outside -999,999 to 999,999 in UTC has no value.
impl Moment for UtcDateTime {
    ghost local = { in_utc };

    ghost of_local = { λ t. utc_date_and_time (instant_of t) };

    ghost has_moment = { λ t. IsTimestampSecond (local_unix_seconds t) };

    fn to_local(&self) -> OffsetDateTime {
        OffsetDateTime::new_in_offset(self.date(), self.time(), UtcOffset::from_valid_hms(0, 0, 0))
    }

    fn from_local(moment: OffsetDateTime) -> Option<UtcDateTime> {
        match Timestamp::from_local(moment) {
            Some(instant) => Some(UtcDateTime::new(instant.date(), instant.time())),
            None => None,
        }
    }
}

/// The offset is that of UTC. A moment of a year outside -999,999 to 999,999 in UTC has no value.
impl Moment for Timestamp {
    ghost local = { λ m. in_utc (utc_date_and_time m) };

    ghost of_local = { instant_of };

    ghost has_moment = { λ t. IsTimestampSecond (local_unix_seconds t) };

    fn to_local(&self) -> OffsetDateTime {
        UtcDateTime::new(self.date(), self.time()).to_local()
    }

    fn from_local(moment: OffsetDateTime) -> Option<Timestamp> {
        let (_, _, _, nanosecond) = moment.time().as_hms_nano();
        match Timestamp::new(moment.unix_timestamp(), nanosecond) {
            Ok(instant) => Some(instant),
            Err(_) => None,
        }
    }
}
