//! The clock of a zone.
ghost use Rattle.std.specs.Prelude.{◌≡◌, ◌≤ℤ◌, ◌+ℤ◌, pos, neg_ℤ};
ghost use Rattle.jiff_tz.specs.Zone.{next_at, offset_at, previous_at};
ghost use Rattle.time_below.specs.Offset.{offset_seconds};
ghost use Rattle.time_jiff.specs.Clock.{HasOffset, IsNearest, IsSpan, nanosecond_of, since, until};

use jiff::tz::Offset as ZoneOffset;
use jiff_core::Timestamp as Instant;
use jiff_tz::TimeZone;
use time_below::{Timestamp, UtcOffset};

/// The first second for which zones are asked, -9999-01-02T01:59:59Z. Moments before it have its
/// offset.
const FIRST: i64 = -377_705_023_201;

/// The last second for which zones are asked, 9999-12-30T22:00:00Z. Moments after it have its
/// offset.
const LAST: i64 = 253_402_207_200;

/// The nearest second for which zones are asked.
fn nearest(second: i64) -> i64
    ensures nearest { IsNearest second result }
    ensures first { neg_ℤ (pos 377_705_023_201) ≤ℤ result }
    ensures last { result ≤ℤ pos 253_402_207_200 }
{
    if second < FIRST {
        FIRST
    } else if second > LAST {
        LAST
    } else {
        second
    }
}

/// The instant so many nanoseconds after a second begins.
fn instant(second: i64, nanosecond: u8) -> Instant
    requires first { neg_ℤ (pos 377_705_023_201) ≤ℤ second }
    requires last { second ≤ℤ pos 253_402_207_200 }
    ensures { result.nanosecond ≡ nanosecond_of second +ℤ pos nanosecond }
{
    match Instant::from_nanosecond(1_000_000_000 * second as i128 + nanosecond as i128) {
        Ok(instant) => instant,
        Err(_) => unreachable!(),
    }
}

/// The second of the last change up to this second, and the first of all where there is none.
fn first_second(zone: TimeZone<'_>, asked: i64) -> i64
    requires first { neg_ℤ (pos 377_705_023_201) ≤ℤ asked }
    requires last { asked ≤ℤ pos 253_402_207_200 }
    ensures { result ≡ since (previous_at zone.entry (nanosecond_of asked +ℤ pos 1)) }
{
    match zone.previous_transition(instant(asked, 1)) {
        Some(change) => change.timestamp.floor_second(),
        None => i64::MIN,
    }
}

/// The second before the first change after this second, and the last of all where there is none.
fn last_second(zone: TimeZone<'_>, asked: i64) -> i64
    requires first { neg_ℤ (pos 377_705_023_201) ≤ℤ asked }
    requires last { asked ≤ℤ pos 253_402_207_200 }
    ensures { result ≡ until (next_at zone.entry (nanosecond_of asked)) }
{
    match zone.next_transition(instant(asked, 0)) {
        Some(change) => change.timestamp.floor_second() - 1,
        None => i64::MAX,
    }
}

/// The offset of the zone at this second.
fn offset_of(zone: TimeZone<'_>, asked: i64) -> UtcOffset
    requires first { neg_ℤ (pos 377_705_023_201) ≤ℤ asked }
    requires last { asked ≤ℤ pos 253_402_207_200 }
    ensures { offset_seconds result ≡ offset_at zone.entry (nanosecond_of asked) }
{
    crate::offset(ZoneOffset::from_plain(zone.to_offset(instant(asked, 0))))
}

/// The clock of a zone, which caches the offset that it has from one change to the next.
#[derive(Drop)]
pub struct ZoneClock<'a> {
    /// The zone that is asked.
    pub zone: TimeZone<'a>,
    /// The second for which the zone was asked.
    asked: i64,
    /// The offset is that of the seconds from the first to the last, both counted in.
    first: i64,
    last: i64,
    offset: UtcOffset,
    ghost span: { IsSpan zone asked first last offset },
}

impl<'a> ZoneClock<'a> {
    /// Returns the clock of the zone, as it is in 1970.
    pub fn new(zone: TimeZone<'a>) -> ZoneClock<'a>
        ensures { result.zone ≡ zone.entry }
    {
        ZoneClock::at(zone, 0)
    }

    /// The clock of the zone, as it is at this second.
    fn at(zone: TimeZone<'a>, second: i64) -> ZoneClock<'a>
        ensures zone { result.zone ≡ zone.entry }
        ensures asked { IsNearest second result.asked }
    {
        let asked = nearest(second);
        ZoneClock {
            zone,
            asked,
            first: first_second(zone, asked),
            last: last_second(zone, asked),
            offset: offset_of(zone, asked),
        }
    }

    /// Asks the zone at this second. This is a call, so that a moment without a change has no
    /// memory for the answer.
    #[inline(never)]
    fn ask(&mut self, second: i64)
        ensures zone { self.new.zone ≡ self.old.zone }
        ensures asked { IsNearest second self.new.asked }
    {
        *self = ZoneClock::at(self.zone, second);
    }

    /// Returns the offset of the clock at the moment: one that the zone has at a second from which
    /// to the moment it reports no change.
    pub fn offset_at(&mut self, moment: &Timestamp) -> UtcOffset
        ensures zone { self.new.zone ≡ self.old.zone }
        ensures offset { HasOffset self.old.zone moment.now.seconds result }
    {
        let second = moment.as_seconds();
        if self.first <= second && second <= self.last {
            return self.offset;
        }
        self.ask(second);
        self.offset
    }
}
