//! Values that are read by RFC 3339 and RFC 2822.
ghost use Rattle.std.specs.Prelude.{◌≡◌};
ghost use Rattle.time.specs.Spelled.{SpellsValue};
ghost use Rattle.time_below.specs.Moment.{IsTimestampSecond, OffsetDateAndTime, local_moment};
ghost use Rattle.time_below.specs.Moment.{local_unix_seconds, utc_date_and_time};
ghost use Rattle.time_known.specs.Rfc2822Grammar.{Rfc2822Spells};
ghost use Rattle.time_known.specs.Rfc3339Grammar.{Rfc3339Spells};

use crate::parse_value::Parsable;
use std::convert::TryFrom;
use time_below::{Date, OffsetDateTime, PlainDateTime, Time, Timestamp, UtcDateTime, UtcOffset};
use time_known::{Rfc2822, Rfc3339};
use time_read::{NotRead, rfc2822, rfc3339};

/// A type that has a value of each date and time with an offset. A text of RFC 3339 or RFC 2822
/// spells such a date and time.
pub trait Spelled: Sized {
    /// The value.
    ghost value_of: { OffsetDateAndTime → Self };

    /// The value of a date and time whose year in UTC is in range, as in each text of both formats.
    fn of_spelled(spelled: OffsetDateTime) -> Self
        requires { IsTimestampSecond (local_unix_seconds spelled) }
        ensures { result ≡ value_of spelled };
}

impl Spelled for OffsetDateTime {
    ghost value_of = { λ spelled. spelled };

    fn of_spelled(spelled: OffsetDateTime) -> OffsetDateTime {
        spelled
    }
}

/// The moment that is spelled, in UTC.
impl Spelled for UtcDateTime {
    ghost value_of = { λ spelled. utc_date_and_time (local_moment spelled) };

    fn of_spelled(spelled: OffsetDateTime) -> UtcDateTime {
        spelled.to_utc()
    }
}

/// The moment that is spelled.
impl Spelled for Timestamp {
    ghost value_of = { local_moment };

    fn of_spelled(spelled: OffsetDateTime) -> Timestamp {
        match Timestamp::try_from(spelled) {
            Ok(moment) => moment,
            Err(_) => unreachable!(),
        }
    }
}

/// The local date and time, without their offset.
impl Spelled for PlainDateTime {
    ghost value_of = { λ spelled. record { date = spelled.date; time = spelled.time; offset = tt } };

    fn of_spelled(spelled: OffsetDateTime) -> PlainDateTime {
        PlainDateTime::new(spelled.date(), spelled.time())
    }
}

/// The local date.
impl Spelled for Date {
    ghost value_of = { λ spelled. spelled.date };

    fn of_spelled(spelled: OffsetDateTime) -> Date {
        spelled.date()
    }
}

/// The local time of day.
impl Spelled for Time {
    ghost value_of = { λ spelled. spelled.time };

    fn of_spelled(spelled: OffsetDateTime) -> Time {
        spelled.time()
    }
}

/// The offset.
impl Spelled for UtcOffset {
    ghost value_of = { λ spelled. spelled.offset };

    fn of_spelled(spelled: OffsetDateTime) -> UtcOffset {
        spelled.offset()
    }
}

impl<V: Spelled> Parsable<V> for Rfc3339 {
    type Error = NotRead;

    ghost reads = { λ _ value text. SpellsValue Rfc3339Spells V.value_of value text };

    #[tactic(auto, using(crate::proofs::SpelledLemmas::rfc3339_in_range))]
    fn read_value(&self, text: &[u8]) -> Result<V, NotRead> {
        match rfc3339::read(text) {
            Ok(spelled) => Ok(V::of_spelled(spelled)),
            Err(fault) => Err(fault),
        }
    }
}

impl<V: Spelled> Parsable<V> for Rfc2822 {
    type Error = NotRead;

    ghost reads = { λ _ value text. SpellsValue Rfc2822Spells V.value_of value text };

    #[tactic(auto, using(crate::proofs::SpelledLemmas::rfc2822_in_range))]
    fn read_value(&self, text: &[u8]) -> Result<V, NotRead> {
        match rfc2822::read(text) {
            Ok(spelled) => Ok(V::of_spelled(spelled)),
            Err(fault) => Err(fault),
        }
    }
}
