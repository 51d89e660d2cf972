//! The values that supply components, by their groups, and what is said of all of them.
ghost use Rattle.std.proofs.Common.{rules};
ghost use Rattle.std.specs.Prelude.{◌≡◌, ◌↔◌, true, false, pos};
ghost use Rattle.time_below.specs.Calendar.{OrdinalDate};
ghost use Rattle.time_below.specs.Facts.{date_facts, facts_of_date, facts_of_time};
ghost use Rattle.time_below.specs.Facts.{facts_of_plain_date_time, facts_of_offset};
ghost use Rattle.time_below.specs.Facts.{facts_of_utc_date_time, facts_of_offset_date_time};
ghost use Rattle.time_below.specs.Facts.{facts_of_timestamp};
ghost use Rattle.time_below.specs.Moment.{Moment, DateAndTime, OffsetDateAndTime};
ghost use Rattle.time_below.specs.Offset.{Offset, utc};
ghost use Rattle.time_below.specs.TimeOfDay.{TimeOfDay};
ghost use Rattle.time_provide.specs.Agreement.{Agrees, AgreesWithMoment};
ghost use Rattle.time_provide.specs.Real.{midnight};

use crate::component_provider::ComponentProvider;
use crate::date_state::DateState;
use crate::ranges::Nanoseconds;
use crate::timestamp_state::TimestampState;
use time_below::{Date, OffsetDateTime, PlainDateTime, Time, Timestamp, UtcDateTime, UtcOffset};
use time_digits::ru32;

// No caller may ask for a group that is not supplied: the answer is a constant.
fn no_date() -> Date
    ensures { result ≡ record { year = pos 0; ordinal = 1 } }
{
    match Date::from_ordinal_date(0, 1) {
        Ok(date) => date,
        Err(_) => unreachable!(),
    }
}

fn no_time() -> Time
    ensures { result ≡ midnight }
{
    Time::from_valid_hms_nano(0, 0, 0, 0)
}

// The offset of UTC itself.
fn no_offset() -> UtcOffset
    ensures { result ≡ utc }
{
    UtcOffset::from_valid_hms(0, 0, 0)
}

/// A date caches its costly components.
impl ComponentProvider for Date {
    type State = DateState;

    ghost facts = { facts_of_date };

    ghost agrees = { λ state date. Agrees state (date_facts date) };

    ghost SUPPLIES_DATE = { true };

    const SUPPLIES_DATE: bool = true;

    ghost SUPPLIES_TIME = { false };

    const SUPPLIES_TIME: bool = false;

    ghost SUPPLIES_OFFSET = { false };

    const SUPPLIES_OFFSET: bool = false;

    ghost SUPPLIES_TIMESTAMP = { false };

    const SUPPLIES_TIMESTAMP: bool = false;

    fn supplied_date(&self, _state: &mut DateState) -> Date {
        let _in_range = (*self).ordinal();
        *self
    }

    fn supplied_time(&self, state: &mut DateState) -> Time
        ensures value { result ≡ midnight }
    {
        no_time()
    }

    fn nanosecond(&self, state: &mut DateState) -> Nanoseconds
        ensures value { result ≡ 0 }
    {
        ru32::within(0)
    }

    fn supplied_offset(&self) -> UtcOffset
        ensures { result ≡ utc }
    {
        no_offset()
    }

    fn supplied_moment(&self) -> (i64, u32)
        ensures { result ≡ (pos 0, 0) }
    {
        (0, 0)
    }

    ghost groups = { λ value. Prim.search rules };

    ghost states = { λ value. Prim.search rules };

    ghost fresh = { λ state value is_fresh. Prim.search rules };
}

/// A time of day caches nothing.
impl ComponentProvider for Time {
    type State = ();

    ghost facts = { facts_of_time };

    ghost agrees = { λ _ _. Unit {0} };

    ghost SUPPLIES_DATE = { false };

    const SUPPLIES_DATE: bool = false;

    ghost SUPPLIES_TIME = { true };

    const SUPPLIES_TIME: bool = true;

    ghost SUPPLIES_OFFSET = { false };

    const SUPPLIES_OFFSET: bool = false;

    ghost SUPPLIES_TIMESTAMP = { false };

    const SUPPLIES_TIMESTAMP: bool = false;

    fn supplied_date(&self, _state: &mut ()) -> Date
        ensures { result ≡ record { year = pos 0; ordinal = 1 } }
    {
        no_date()
    }

    fn supplied_time(&self, _state: &mut ()) -> Time {
        let _in_range = (*self).as_hms_nano();
        *self
    }

    fn nanosecond(&self, _state: &mut ()) -> Nanoseconds {
        ru32::within(self.as_hms_nano().3)
    }

    fn supplied_offset(&self) -> UtcOffset
        ensures { result ≡ utc }
    {
        no_offset()
    }

    fn supplied_moment(&self) -> (i64, u32)
        ensures { result ≡ (pos 0, 0) }
    {
        (0, 0)
    }

    ghost groups = { λ value. Prim.search rules };

    ghost states = { λ value. Prim.search rules };

    ghost fresh = { λ state value is_fresh. Prim.search rules };
}

/// An offset caches nothing.
impl ComponentProvider for UtcOffset {
    type State = ();

    ghost facts = { facts_of_offset };

    ghost agrees = { λ _ _. Unit {0} };

    ghost SUPPLIES_DATE = { false };

    const SUPPLIES_DATE: bool = false;

    ghost SUPPLIES_TIME = { false };

    const SUPPLIES_TIME: bool = false;

    ghost SUPPLIES_OFFSET = { true };

    const SUPPLIES_OFFSET: bool = true;

    ghost SUPPLIES_TIMESTAMP = { false };

    const SUPPLIES_TIMESTAMP: bool = false;

    fn supplied_date(&self, _state: &mut ()) -> Date
        ensures { result ≡ record { year = pos 0; ordinal = 1 } }
    {
        no_date()
    }

    fn supplied_time(&self, _state: &mut ()) -> Time
        ensures { result ≡ midnight }
    {
        no_time()
    }

    fn nanosecond(&self, _state: &mut ()) -> Nanoseconds
        ensures { result ≡ 0 }
    {
        ru32::within(0)
    }

    fn supplied_offset(&self) -> UtcOffset {
        let _in_range = (*self).as_hms();
        *self
    }

    fn supplied_moment(&self) -> (i64, u32)
        ensures { result ≡ (pos 0, 0) }
    {
        (0, 0)
    }

    ghost groups = { λ value. Prim.search rules };

    ghost states = { λ value. Prim.search rules };

    ghost fresh = { λ state value is_fresh. Prim.search rules };
}

/// A date with a time of day caches what its date caches.
impl ComponentProvider for PlainDateTime {
    type State = DateState;

    ghost facts = { facts_of_plain_date_time };

    ghost agrees = { λ state value. Agrees state (date_facts value.date) };

    ghost SUPPLIES_DATE = { true };

    const SUPPLIES_DATE: bool = true;

    ghost SUPPLIES_TIME = { true };

    const SUPPLIES_TIME: bool = true;

    ghost SUPPLIES_OFFSET = { false };

    const SUPPLIES_OFFSET: bool = false;

    ghost SUPPLIES_TIMESTAMP = { false };

    const SUPPLIES_TIMESTAMP: bool = false;

    fn supplied_date(&self, _state: &mut DateState) -> Date {
        let date = self.date();
        let _in_range = date.ordinal();
        date
    }

    fn supplied_time(&self, _state: &mut DateState) -> Time {
        let time = self.time();
        let _in_range = time.as_hms_nano();
        time
    }

    fn nanosecond(&self, _state: &mut DateState) -> Nanoseconds {
        ru32::within(self.time().as_hms_nano().3)
    }

    fn supplied_offset(&self) -> UtcOffset
        ensures { result ≡ utc }
    {
        no_offset()
    }

    fn supplied_moment(&self) -> (i64, u32)
        ensures { result ≡ (pos 0, 0) }
    {
        (0, 0)
    }

    ghost groups = { λ value. Prim.search rules };

    ghost states = { λ value. Prim.search rules };

    ghost fresh = { λ state value is_fresh. Prim.search rules };
}

/// A date and a time in UTC supply all groups.
impl ComponentProvider for UtcDateTime {
    type State = DateState;

    ghost facts = { facts_of_utc_date_time };

    ghost agrees = { λ state value. Agrees state (date_facts value.date) };

    ghost SUPPLIES_DATE = { true };

    const SUPPLIES_DATE: bool = true;

    ghost SUPPLIES_TIME = { true };

    const SUPPLIES_TIME: bool = true;

    ghost SUPPLIES_OFFSET = { true };

    const SUPPLIES_OFFSET: bool = true;

    ghost SUPPLIES_TIMESTAMP = { true };

    const SUPPLIES_TIMESTAMP: bool = true;

    fn supplied_date(&self, _state: &mut DateState) -> Date {
        let date = self.date();
        let _in_range = date.ordinal();
        date
    }

    fn supplied_time(&self, _state: &mut DateState) -> Time {
        let time = self.time();
        let _in_range = time.as_hms_nano();
        time
    }

    fn nanosecond(&self, _state: &mut DateState) -> Nanoseconds {
        ru32::within(self.time().as_hms_nano().3)
    }

    fn supplied_offset(&self) -> UtcOffset {
        no_offset()
    }

    fn supplied_moment(&self) -> (i64, u32) {
        (self.unix_timestamp(), self.time().as_hms_nano().3)
    }

    ghost groups = { λ value. Prim.search rules };

    ghost states = { λ value. Prim.search rules };

    ghost fresh = { λ state value is_fresh. Prim.search rules };
}

/// A local date and time with their offset supply all groups.
impl ComponentProvider for OffsetDateTime {
    type State = DateState;

    ghost facts = { facts_of_offset_date_time };

    ghost agrees = { λ state value. Agrees state (date_facts value.date) };

    ghost SUPPLIES_DATE = { true };

    const SUPPLIES_DATE: bool = true;

    ghost SUPPLIES_TIME = { true };

    const SUPPLIES_TIME: bool = true;

    ghost SUPPLIES_OFFSET = { true };

    const SUPPLIES_OFFSET: bool = true;

    ghost SUPPLIES_TIMESTAMP = { true };

    const SUPPLIES_TIMESTAMP: bool = true;

    fn supplied_date(&self, _state: &mut DateState) -> Date {
        let date = self.date();
        let _in_range = date.ordinal();
        date
    }

    fn supplied_time(&self, _state: &mut DateState) -> Time {
        let time = self.time();
        let _in_range = time.as_hms_nano();
        time
    }

    fn nanosecond(&self, _state: &mut DateState) -> Nanoseconds {
        ru32::within(self.time().as_hms_nano().3)
    }

    fn supplied_offset(&self) -> UtcOffset {
        let offset = self.offset();
        let _in_range = offset.as_hms();
        offset
    }

    fn supplied_moment(&self) -> (i64, u32) {
        (self.unix_timestamp(), self.time().as_hms_nano().3)
    }

    ghost groups = { λ value. Prim.search rules };

    ghost states = { λ value. Prim.search rules };

    ghost fresh = { λ state value is_fresh. Prim.search rules };
}

/// A moment supplies all groups in UTC, and caches its date and its time.
impl ComponentProvider for Timestamp {
    type State = TimestampState;

    ghost facts = { facts_of_timestamp };

    ghost agrees = { AgreesWithMoment };

    ghost SUPPLIES_DATE = { true };

    const SUPPLIES_DATE: bool = true;

    ghost SUPPLIES_TIME = { true };

    const SUPPLIES_TIME: bool = true;

    ghost SUPPLIES_OFFSET = { true };

    const SUPPLIES_OFFSET: bool = true;

    ghost SUPPLIES_TIMESTAMP = { true };

    const SUPPLIES_TIMESTAMP: bool = true;

    fn supplied_date(&self, state: &mut TimestampState) -> Date {
        let date = state.date(*self);
        let _in_range = date.ordinal();
        date
    }

    fn supplied_time(&self, state: &mut TimestampState) -> Time {
        let time = state.time(*self);
        let _in_range = time.as_hms_nano();
        time
    }

    fn nanosecond(&self, _state: &mut TimestampState) -> Nanoseconds {
        ru32::within(self.as_parts().1)
    }

    fn supplied_offset(&self) -> UtcOffset {
        no_offset()
    }

    fn supplied_moment(&self) -> (i64, u32) {
        let _in_range = self.as_seconds();
        self.as_parts()
    }

    ghost groups = { λ value. Prim.search rules };

    ghost states = { λ value. Prim.search rules };

    ghost fresh = { λ state value is_fresh. Prim.search rules };
}

/// The components that a value supplies are those of the definition for its type.
pub fn values_supply_their_components()
    ensures date { ⟦<Date as ComponentProvider>⟧.facts ≡ facts_of_date }
    ensures time { ⟦<Time as ComponentProvider>⟧.facts ≡ facts_of_time }
    ensures plain_date_time { ⟦<PlainDateTime as ComponentProvider>⟧.facts
        ≡ facts_of_plain_date_time }
    ensures offset { ⟦<UtcOffset as ComponentProvider>⟧.facts ≡ facts_of_offset }
    ensures utc_date_time { ⟦<UtcDateTime as ComponentProvider>⟧.facts ≡ facts_of_utc_date_time }
    ensures offset_date_time { ⟦<OffsetDateTime as ComponentProvider>⟧.facts
        ≡ facts_of_offset_date_time }
    ensures timestamp { ⟦<Timestamp as ComponentProvider>⟧.facts ≡ facts_of_timestamp }
{}

/// The state of a value that has a date agrees with it exactly if each entry is that component of
/// the date, and that of a moment if its entries are those of the moment in UTC. A time of day and
/// an offset cache nothing, so their states agree with every value.
pub fn states_agree_with_their_values(state: DateState, of_moment: TimestampState)
    ensures date { (v : OrdinalDate)
        → ⟦<Date as ComponentProvider>⟧.agrees state v ↔ Agrees state (date_facts v) }
    ensures time { (v : TimeOfDay) → ⟦<Time as ComponentProvider>⟧.agrees tt v }
    ensures plain_date_time { (v : DateAndTime)
        → ⟦<PlainDateTime as ComponentProvider>⟧.agrees state v ↔ Agrees state (date_facts v.date) }
    ensures offset { (v : Offset) → ⟦<UtcOffset as ComponentProvider>⟧.agrees tt v }
    ensures utc_date_time { (v : DateAndTime)
        → ⟦<UtcDateTime as ComponentProvider>⟧.agrees state v ↔ Agrees state (date_facts v.date) }
    ensures offset_date_time { (v : OffsetDateAndTime)
        → ⟦<OffsetDateTime as ComponentProvider>⟧.agrees state v
        ↔ Agrees state (date_facts v.date) }
    ensures timestamp { (v : Moment)
        → ⟦<Timestamp as ComponentProvider>⟧.agrees of_moment v ↔ AgreesWithMoment of_moment v }
{}
