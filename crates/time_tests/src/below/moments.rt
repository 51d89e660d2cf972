//! Conversions of moments, their order and hashes, the clock, and another part of a date and time.
use super::refusal_of;
use crate::asserted::{assert_same, assert_that};
use crate::values::{moment, timestamp};
use std::convert::TryFrom;
use std::hash::{DefaultHasher, Hash, Hasher};
use std::io;
use std::time::{Clock, Duration};
use time_below::{Month, OffsetDateTime, Timestamp, UtcDateTime};

/// 2026-11-22 9:55:06.12 +05:30, by GNU `date`.
const SECONDS: i64 = 1_795_321_506;

const NANOSECONDS: i128 = 1_795_321_506_120_000_000;

#[test]
fn a_moment_is_one_in_each_type(rt: HostRuntime) {
    let local = moment(&rt, (2026, 11, 22), (9, 55, 6, 120_000_000), (5, 30, 0));
    let stamp = timestamp(&rt, SECONDS, 120_000_000);
    let utc = UtcDateTime::from(stamp);
    assert_same(&rt, utc.as_hms_nano(), (4, 25, 6, 120_000_000));
    assert_same(&rt, Timestamp::from(utc), stamp);
    assert_that(&rt, Timestamp::try_from(local) == Ok(stamp));
    assert_that(&rt, UtcDateTime::try_from(local) == Ok(utc));
    assert_that(
        &rt,
        OffsetDateTime::from(utc) == local && OffsetDateTime::from(stamp) == local,
    );
    assert_same(&rt, local.unix_timestamp_nanos(), NANOSECONDS);
    assert_same(&rt, stamp.checked_to_offset(local.offset()), Some(local));
}

#[test]
fn a_local_time_past_the_last_year_in_utc_is_no_moment(rt: HostRuntime) {
    let last = moment(&rt, (999_999, 12, 31), (23, 59, 59, 0), (-25, -59, -59));
    assert_same(&rt, last.unix_timestamp(), 31_494_784_874_398);
    assert_same(
        &rt,
        refusal_of(&UtcDateTime::try_from(last)),
        ("year", false),
    );
    assert_same(&rt, refusal_of(&Timestamp::try_from(last)), ("year", false));
}

fn hash_of<T: Hash>(value: &T) -> u64 {
    let mut state = DefaultHasher::new();
    value.hash(&mut state);
    state.finish()
}

#[test]
fn local_times_compare_by_their_moments(rt: HostRuntime) {
    let day = (2026, 11, 22);
    let here = moment(&rt, day, (9, 55, 6, 0), (5, 30, 0));
    let there = moment(&rt, day, (4, 25, 6, 0), (0, 0, 0));
    assert_that(&rt, here == there && hash_of(&here) == hash_of(&there));
    let earlier = moment(&rt, day, (10, 0, 0, 0), (6, 0, 0));
    assert_that(&rt, earlier < here && earlier != here && here > earlier);
    assert_that(&rt, hash_of(&earlier) != hash_of(&here));
}

/// A clock that shows so long after 1970.
#[derive(Drop)]
struct Stopped(Duration);

impl Clock for Stopped {
    fn monotonic(&self) -> io::Result<Duration> {
        Ok(self.0)
    }

    fn since_1970(&self) -> io::Result<Duration> {
        Ok(self.0)
    }
}

#[test]
fn now_is_what_the_clock_shows(rt: HostRuntime) {
    let clock = Stopped(Duration::new(SECONDS as u64, 120_000_000));
    let (Ok(local), Ok(stamp), Ok(utc)) = (
        OffsetDateTime::now_utc(&clock),
        Timestamp::now(&clock),
        UtcDateTime::now(&clock),
    ) else {
        panic!(rt; "no moment");
    };
    assert_same(&rt, local.unix_timestamp_nanos(), NANOSECONDS);
    assert_same(&rt, stamp.as_nanoseconds(), NANOSECONDS);
    assert_same(&rt, utc, UtcDateTime::from(stamp));
    let late = Stopped(Duration::new(31_494_784_780_800, 0));
    let Err(refusal) = Timestamp::now(&late) else {
        panic!(rt; "a moment");
    };
    assert_that(&rt, refusal.kind() == io::ErrorKind::InvalidData);
}

#[test]
fn one_part_of_a_date_and_time_is_replaced(rt: HostRuntime) {
    let local = moment(&rt, (2026, 11, 22), (9, 55, 6, 120_000_000), (5, 30, 0));
    let Ok(same_day) = local.replace_day(29) else {
        panic!(rt; "no day");
    };
    let Ok(in_2024) = same_day.replace_year(2024) else {
        panic!(rt; "no year");
    };
    let Ok(leap_day) = in_2024.replace_month(Month::February) else {
        panic!(rt; "no month");
    };
    assert_same(
        &rt,
        leap_day.to_calendar_date(),
        (2024, Month::February, 29),
    );
    assert_same(&rt, refusal_of(&leap_day.replace_year(2023)), ("day", true));
    assert_that(&rt, leap_day.replace_ordinal(60) == Ok(leap_day));
    assert_that(&rt, leap_day.replace_second(6) == Ok(leap_day));
    assert_same(&rt, refusal_of(&leap_day.replace_hour(24)), ("hour", false));
    assert_same(&rt, local.truncate_to_day().as_hms_nano(), (0, 0, 0, 0));
    assert_same(&rt, local.truncate_to_second().as_hms_nano(), (9, 55, 6, 0));
}
