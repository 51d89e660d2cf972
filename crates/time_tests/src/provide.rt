//! Which entries a state holds after a method: no clause of the trait says so of any type.
ghost use Rattle.std.specs.Prelude.{IsTrue};

use crate::asserted::assert_same;
use crate::values::{timestamp, wednesday};
use std::alloc::Global;
use std::default::Default;
use std::fmt::Debug;
use std::process::Abort;
use time_below::{PlainDateTime, UtcDateTime};
use time_provide::ComponentProvider;

/// How `Debug` shows the entries that a state holds, of a date and of a moment.
const ENTRIES: &[&str] = &[
    "day: Some",
    "month: Some",
    "iso_week: Some",
    "iso_year: Some",
    "date: Some",
    "time: Some",
];

const NOTHING: &str = "";

const MONTH: &str = "month: Some";

const DAY: &str = "day: Some, month: Some";

const WEEK: &str = "iso_week: Some, iso_year: Some";

/// Fails unless the state holds what a method fills and what a moment holds beside it, and nothing
/// else.
fn assert_holds(
    rt: &impl Abort,
    alloc: Global,
    state: &impl Debug,
    (filled, beside): (&str, &str),
) {
    let Ok(text) = format!(in alloc; "{state:?}") else {
        panic!(rt; "no memory");
    };
    for &entry in ENTRIES {
        let is_wanted = filled.contains(entry) || beside.contains(entry);
        assert_same(rt, text.contains(entry), is_wanted);
    }
}

/// Compares what a fresh state holds after each of these methods.
macro_rules! after {
    ($rt:ident $alloc:ident $value:ident $beside:ident; $($method:ident $filled:ident,)+) => {$({
        let mut state = V::State::default();
        let _component = $value.$method(&mut state);
        assert_holds($rt, $alloc, &state, ($filled, $beside));
    })+};
}

fn assert_date<V: ComponentProvider>(rt: &impl Abort, alloc: Global, value: &V, beside: &str)
where
    V::State: Debug + Drop,
    requires { IsTrue V.SUPPLIES_DATE }
{
    after! { rt alloc value beside;
        day DAY, month MONTH, ordinal NOTHING, weekday NOTHING, iso_week_number WEEK,
        monday_based_week NOTHING, sunday_based_week NOTHING, calendar_year NOTHING, iso_year WEEK,
    }
}

fn assert_time<V: ComponentProvider>(rt: &impl Abort, alloc: Global, value: &V, beside: &str)
where
    V::State: Debug + Drop,
    requires { IsTrue V.SUPPLIES_TIME }
{
    after! { rt alloc value beside; hour NOTHING, minute NOTHING, period NOTHING, second NOTHING, }
    let beside = NOTHING;
    after! { rt alloc value beside; nanosecond NOTHING, }
}

fn assert_offset<V: ComponentProvider>(rt: &impl Abort, alloc: Global, value: &V)
where
    V::State: Debug + Drop,
    requires { IsTrue V.SUPPLIES_OFFSET }
{
    let beside = NOTHING;
    after! { rt alloc value beside;
        offset_is_negative NOTHING, offset_is_utc NOTHING, offset_hour NOTHING,
        offset_minute NOTHING, offset_second NOTHING,
    }
}

fn assert_stamp<V: ComponentProvider>(rt: &impl Abort, alloc: Global, value: &V)
where
    V::State: Debug + Drop,
    requires { IsTrue V.SUPPLIES_TIMESTAMP }
{
    let beside = NOTHING;
    after! { rt alloc value beside;
        unix_timestamp_seconds NOTHING, unix_timestamp_milliseconds NOTHING,
    }
}

#[test]
fn a_state_of_a_date_holds_what_a_method_computes(rt: HostRuntime) {
    let (alloc, moment) = (rt.alloc(), wednesday(&rt));
    let (date, time) = (moment.date(), moment.time());
    assert_date(&rt, alloc, &date, NOTHING);
    assert_date(&rt, alloc, &PlainDateTime::new(date, time), NOTHING);
    assert_date(&rt, alloc, &UtcDateTime::new(date, time), NOTHING);
    assert_date(&rt, alloc, &moment, NOTHING);
}

#[test]
fn times_offsets_and_moments_by_their_parts_hold_nothing_of_theirs(rt: HostRuntime) {
    let (alloc, moment) = (rt.alloc(), wednesday(&rt));
    assert_time(&rt, alloc, &moment.time(), NOTHING);
    assert_offset(&rt, alloc, &moment.offset());
    assert_time(&rt, alloc, &moment, NOTHING);
    assert_offset(&rt, alloc, &moment);
    assert_stamp(&rt, alloc, &moment);
}

#[test]
fn a_state_of_a_timestamp_also_holds_its_date_or_its_time(rt: HostRuntime) {
    let (alloc, moment) = (rt.alloc(), timestamp(&rt, 879_350_106, 120_000_000));
    assert_date(&rt, alloc, &moment, "date: Some");
    assert_time(&rt, alloc, &moment, "time: Some");
    assert_offset(&rt, alloc, &moment);
    assert_stamp(&rt, alloc, &moment);
}
