//! Each conversion of `time_jiff` there and back, by the moment that GNU `date -u -d @1795341306`
//! shows as `Sun Nov 22 09:55:06 UTC 2026`, its refusals, and the clock of a zone.
use crate::asserted::{assert_same, assert_that, offset, timestamp};
use jiff::error::Bound;
use jiff::tz::{Offset, TimeZone};
use jiff::{Error, Timestamp as Instant, civil};
use std::io;
use std::process::Abort;
use std::time::{Clock, Duration};
use time_below::{Month, OffsetDateTime, PlainDateTime, UtcOffset};
use time_jiff::{LocalOffset, NowLocal, ZoneClock};

#[test]
fn a_moment_a_date_and_a_time_go_round(rt: HostRuntime) {
    let theirs = Instant::new(1_795_341_306, 120_000_000).expect(&rt, "no moment");
    let ours = time_jiff::timestamp(theirs);
    assert_same(&rt, ours.as_parts(), (1_795_341_306, 120_000_000));
    assert_that(
        &rt,
        time_jiff::jiff_timestamp(ours).is_ok_and(|same| same == theirs),
    );
    let their_date = civil::Date::new(2026, 11, 22).expect(&rt, "no date");
    let date = time_jiff::date(their_date);
    assert_same(&rt, date.to_calendar_date(), (2026, Month::November, 22));
    assert_that(
        &rt,
        time_jiff::jiff_date(date).is_ok_and(|same| same == their_date),
    );
    let their_time = civil::Time::new(9, 55, 6, 120_000_000).expect(&rt, "no time");
    let time = time_jiff::time(their_time);
    assert_same(&rt, time.as_hms_nano(), (9, 55, 6, 120_000_000));
    assert_that(&rt, time_jiff::jiff_time(time) == their_time);
    let theirs = civil::DateTime::from_parts(their_date, their_time);
    let both = time_jiff::plain_date_time(theirs);
    assert_same(&rt, both, PlainDateTime::new(date, time));
    assert_that(
        &rt,
        time_jiff::jiff_date_time(both).is_ok_and(|same| same == theirs),
    );
}

#[test]
fn an_offset_and_a_zoned_moment_go_round(rt: HostRuntime) {
    let theirs = Offset::from_seconds(-23_400).expect(&rt, "no offset");
    let ours = time_jiff::offset(theirs);
    assert_same(&rt, ours.as_hms(), (-6, -30, 0));
    assert_same(&rt, time_jiff::jiff_offset(ours).seconds(), -23_400);
    let instant = Instant::from_second(1_795_341_306).expect(&rt, "no moment");
    let shown = time_jiff::offset_date_time(&instant.to_zoned(TimeZone::fixed(theirs)));
    assert_same(&rt, shown.unix_timestamp(), 1_795_341_306);
    assert_same(&rt, (shown.as_hms(), shown.offset()), ((3, 25, 6), ours));
    let back = time_jiff::jiff_zoned(shown).expect(&rt, "it is refused");
    assert_that(
        &rt,
        back.timestamp() == instant && back.offset().seconds() == -23_400,
    );
}

/// The ends of jiff's moments: `date -u` shows -9999-01-02 01:59:59 and 9999-12-30 22:00:00.
#[test]
fn what_is_outside_jiff_is_refused_by_its_range(rt: HostRuntime) {
    let seconds = Error::Range(Bound::UnixEpochSeconds);
    let year = Error::Range(Bound::Year);
    let early = timestamp(&rt, -377_705_023_202, 999_999_999);
    assert_that(
        &rt,
        time_jiff::jiff_timestamp(early).is_err_and(|e| e == seconds),
    );
    let late = timestamp(&rt, 253_402_207_201, 0);
    assert_that(
        &rt,
        time_jiff::jiff_timestamp(late).is_err_and(|e| e == seconds),
    );
    let shown = OffsetDateTime::from(late);
    assert_that(
        &rt,
        time_jiff::jiff_zoned(shown).is_err_and(|e| e == seconds),
    );
    let none = UtcOffset::local_offset_at(shown, &TimeZone::UTC);
    assert_that(&rt, none.is_err_and(|e| e == seconds));
    let Ok(far) = shown.replace_year(10_000) else {
        panic!(rt; "no year");
    };
    assert_that(
        &rt,
        time_jiff::jiff_date(far.date()).is_err_and(|e| e == year),
    );
    let far = PlainDateTime::new(far.date(), far.time());
    assert_that(
        &rt,
        time_jiff::jiff_date_time(far).is_err_and(|e| e == year),
    );
}

fn berlin(rt: &impl Abort) -> TimeZone<'static> {
    TimeZone::posix("CET-1CEST,M3.5.0,M10.5.0/3").expect(rt, "no zone")
}

/// Seconds since 1970, and the hours that the clock of Berlin is ahead of UTC, as GNU `date` shows
/// by the same rule: around changes, back in a span that was left, and outside of the moments of
/// jiff.
const SECONDS: &[(i64, i8)] = &[
    (1_774_745_999, 1),
    (1_774_746_000, 2),
    (1_792_889_999, 2),
    (1_792_890_000, 1),
    (1_774_746_000, 2),
    (-400_000_000_000, 1),
    (260_000_000_000, 1),
];

#[test]
fn a_clock_has_the_offset_of_its_zone_at_each_moment(rt: HostRuntime) {
    let zone = berlin(&rt);
    let mut clock = ZoneClock::new(zone.to_plain());
    for &(seconds, hours) in SECONDS {
        let ahead = clock.offset_at(&timestamp(&rt, seconds, 0));
        assert_same(&rt, ahead, offset(&rt, hours, 0, 0));
    }
}

/// A clock that stands so long after 1970.
#[derive(Drop)]
struct Standing(Duration);

impl Clock for Standing {
    fn monotonic(&self) -> io::Result<Duration> {
        Ok(Duration::from_secs(0))
    }

    fn since_1970(&self) -> io::Result<Duration> {
        Ok(self.0)
    }
}

#[test]
fn now_is_shown_with_the_offset_of_its_zone(rt: HostRuntime) {
    let (zone, clock) = (
        berlin(&rt),
        Standing(Duration::new(1_774_746_000, 120_000_000)),
    );
    let now = OffsetDateTime::now_local(&clock, &zone).expect(&rt, "no moment");
    assert_same(&rt, now.unix_timestamp_nanos(), 1_774_746_000_120_000_000);
    assert_same(&rt, (now.hour(), now.offset().as_hms()), (3, (2, 0, 0)));
    let current = UtcOffset::current_local_offset(&clock, &zone).expect(&rt, "no offset");
    let at = UtcOffset::local_offset_at(now, &zone).expect(&rt, "no offset");
    assert_that(&rt, current == now.offset() && at == current);
    let late = Standing(Duration::from_secs(253_402_207_201));
    let none = OffsetDateTime::now_local(&late, &TimeZone::UTC);
    assert_that(&rt, none.is_err_and(|error| error.is_range()));
    let none = UtcOffset::current_local_offset(&late, &TimeZone::UTC);
    assert_that(&rt, none.is_err_and(|error| error.is_range()));
}
