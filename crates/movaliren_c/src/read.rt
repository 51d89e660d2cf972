//! Texts read back as moments: RFC 3339, and what the other readers share.
ghost use Rattle.movaliren_c.specs.Reading.{IsByParts, IsInUtc, IsRead, Leaves, Rfc3339Reads};
ghost use Rattle.time_below.specs.Moment.{OffsetDateAndTime};
ghost use Rattle.time_known.specs.Rfc3339Grammar.{Rfc3339Spells};
ghost use Rattle.time_read.specs.Lenient.{Rfc3339Means};

mod iso8601;
pub mod items;
mod mail;
pub mod place;

use crate::answers::reason::{Reason, answer_number};
use crate::values::moment::{Moment, UtcMoment, parts_of};
use place::{ReadError, place_of};
use time_below::OffsetDateTime;
use time_read::{NotRead, rfc3339};

/// What a value that was read is kept as.
pub trait OfValue: Copy {
    /// Whether this is the value.
    ghost Holds: { Self → OffsetDateAndTime → Type 0 };

    /// The value.
    fn of_value(value: OffsetDateTime) -> Self
        ensures { Holds result value };
}

impl OfValue for Moment {
    ghost Holds = { IsByParts };

    #[tactic(auto, using(crate::proofs::ReadLemmas::value_of_parts))]
    fn of_value(value: OffsetDateTime) -> Moment {
        let _date_in_range = value.date().ordinal();
        let _time_in_range = value.time().as_hms_nano();
        let _offset_in_range = value.offset().as_hms();
        let (_, month, day) = value.date().to_calendar_date();
        parts_of(value, u8::from(month), day)
    }
}

impl OfValue for UtcMoment {
    ghost Holds = { IsInUtc };

    fn of_value(value: OffsetDateTime) -> UtcMoment {
        UtcMoment {
            seconds: value.unix_timestamp(),
            nanosecond: value.time().as_hms_nano().3,
        }
    }
}

/// Keeps the value, or the position where the text is none.
fn keep<M: OfValue>(
    reading: Result<OffsetDateTime, NotRead>,
    moment: &mut M,
    place: &mut ReadError,
) -> isize
    ensures { Leaves M.Holds reading result moment.old moment.new place.old place.new }
{
    match reading {
        Ok(value) => {
            *moment = M::of_value(value);
            answer_number(Ok(0))
        }
        Err(error) => {
            *place = place_of(error);
            answer_number(Err(Reason::NotRead))
        }
    }
}

/// The value that a text of RFC 3339 spells.
fn strictly(text: &[u8]) -> Result<OffsetDateTime, NotRead>
    ensures { Rfc3339Reads Rfc3339Spells text.now result }
{
    rfc3339::read(text)
}

/// The value that a text means, which another program may have written.
fn leniently(text: &[u8]) -> Result<OffsetDateTime, NotRead>
    ensures { Rfc3339Reads Rfc3339Means text.now result }
{
    rfc3339::read_lenient(text)
}

/// Reads a text of RFC 3339 as a moment by its parts.
#[unsafe(no_mangle)]
pub extern "C" fn movaliren_read_rfc3339(
    text: &[u8],
    moment: &mut Moment,
    error: &mut ReadError,
) -> isize
    ensures { IsRead (Rfc3339Reads Rfc3339Spells) IsByParts text.now result
        moment.old moment.new error.old error.new }
{
    keep(strictly(text), moment, error)
}

/// Reads a text of RFC 3339, also one of another program, as a moment by its parts.
#[unsafe(no_mangle)]
pub extern "C" fn movaliren_read_rfc3339_lenient(
    text: &[u8],
    moment: &mut Moment,
    error: &mut ReadError,
) -> isize
    ensures { IsRead (Rfc3339Reads Rfc3339Means) IsByParts text.now result
        moment.old moment.new error.old error.new }
{
    keep(leniently(text), moment, error)
}

/// Reads a text of RFC 3339 as a moment in UTC.
#[unsafe(no_mangle)]
pub extern "C" fn movaliren_read_rfc3339_utc(
    text: &[u8],
    moment: &mut UtcMoment,
    error: &mut ReadError,
) -> isize
    ensures { IsRead (Rfc3339Reads Rfc3339Spells) IsInUtc text.now result
        moment.old moment.new error.old error.new }
{
    keep(strictly(text), moment, error)
}

/// Reads a text of RFC 3339, also one of another program, as a moment in UTC.
#[unsafe(no_mangle)]
pub extern "C" fn movaliren_read_rfc3339_lenient_utc(
    text: &[u8],
    moment: &mut UtcMoment,
    error: &mut ReadError,
) -> isize
    ensures { IsRead (Rfc3339Reads Rfc3339Means) IsInUtc text.now result
        moment.old moment.new error.old error.new }
{
    keep(leniently(text), moment, error)
}
