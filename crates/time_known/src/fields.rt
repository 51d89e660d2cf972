//! The fields of a date, a time of day and an offset, from which the texts of moments are written.
ghost use Rattle.std.specs.Prelude.{◌≡◌, ℕ, List, IfOk, IfErr, OnOk, IsTrue, unsigned_abs};
ghost use Rattle.time_below.specs.Facts.{the_date, the_time, the_offset};
ghost use Rattle.time_below.specs.Offset.{IsOffset};
ghost use Rattle.time_fmt.specs.Ends.{refusal_of};
ghost use Rattle.time_fmt.specs.Outcome.{done, refused};
ghost use Rattle.time_provide.specs.Real.{AgreesOnTime, AreReal};
ghost use Rattle.time_known.specs.Accepted.{checked_text};
ghost use Rattle.time_known.specs.Fields.{fields, shown};
ghost use Rattle.time_known.specs.Groups.{AreAllSupplied, at_groups};

use crate::accepted::accepted_year;
use crate::days::CalendarDay;
use time_below::{Time, UtcOffset};
use time_digits::ru16;
use time_fmt::Refused;
use time_provide::ComponentProvider;

/// The fields of a date of the years 0 to 9,999, of a time of day and of an offset.
#[derive(Clone, Copy)]
pub struct Fields {
    /// The year.
    pub year: ru16<0, 9_999>,
    /// The month and the day.
    pub date: CalendarDay,
    /// The time of day.
    pub time: Time,
    /// The offset.
    pub offset: UtcOffset,
}

/// Returns the fields of a value whose year is from the first to 9,999, and whose offset has at
/// most this many hours and no seconds.
///
/// Else returns the first of these that has no place.
#[inline(always)]
pub fn accepted_fields<V: ComponentProvider>(
    first: u16,
    greatest_hour: u8,
    value: &V,
    state: &mut V::State,
) -> Result<Fields, Refused>
    requires supplied { AreAllSupplied V.SUPPLIES_DATE V.SUPPLIES_TIME V.SUPPLIES_OFFSET }
    requires agrees { V.agrees state.old value.now }
    ensures accepted { IfOk result (λ _. (text : List ℕ)
        → checked_text first greatest_hour (the_date (V.facts value.now)).year
        (unsigned_abs (the_offset (V.facts value.now)).hours)
        (unsigned_abs (the_offset (V.facts value.now)).seconds) text ≡ done text) }
    ensures fields { IfOk result (λ f. shown f ≡ at_groups fields (V.facts value.now)) }
    ensures refused { IfErr result (λ reason. (text : List ℕ)
        → checked_text first greatest_hour (the_date (V.facts value.now)).year
        (unsigned_abs (the_offset (V.facts value.now)).hours)
        (unsigned_abs (the_offset (V.facts value.now)).seconds) text
        ≡ refused (refusal_of reason)) }
    ensures real { OnOk result (AreReal (V.facts value.now)) }
    ensures offset { IsOffset (the_offset (V.facts value.now)) }
    ensures agrees { V.agrees state.new value.now }
{
    let number = value.calendar_year(state);
    let offset = offset_of(value);
    let year = accepted_year(first, greatest_hour, number.get(), offset)?;
    Ok(Fields {
        year,
        date: CalendarDay::in_year(number, value.ordinal(state)),
        time: time_of(value, state),
        offset,
    })
}

// The value's time of day.
pub(crate) fn time_of<V: ComponentProvider>(value: &V, state: &mut V::State) -> Time
    requires supplied { IsTrue V.SUPPLIES_TIME }
    requires agrees { V.agrees state.old value.now }
    ensures time { result ≡ the_time (V.facts value.now) }
    ensures agrees { AgreesOnTime (V.agrees state.new value.now) (V.facts value.now) }
{
    value.supplied_time(state)
}

// The value's offset.
pub(crate) fn offset_of<V: ComponentProvider>(value: &V) -> UtcOffset
    requires supplied { IsTrue V.SUPPLIES_OFFSET }
    ensures offset { result ≡ the_offset (V.facts value.now) }
    ensures real { IsOffset (the_offset (V.facts value.now)) }
{
    value.supplied_offset()
}
