//! Lines of a log with their times. The forms are those of `env_logger`, whose documentation shows
//! `[2018-11-03T06:09:06Z INFO  default] starting up`, and of `log`. Moments are those of GNU
//! `date -d @SECONDS`.
use crate::asserted::assert_that;
use jiff::tz::TimeZone;
use log::{Level, Log, Metadata, debug, error, info, warn};
use log_time::Decimals::{Microseconds, Milliseconds};
use log_time::{LogTime, Timed, ZoneTimes};
use std::alloc::{AllocError, Global};
use std::cell::Cell;
use std::fmt::{self, Display, Formatter};
use std::io::{self, Write};
use std::process::Abort;
use std::time::{Clock, Duration};

/// A clock that shows what a test sets, and cannot be read where that is nothing.
#[derive(Clone, Copy)]
struct CellClock<'a>(&'a Cell<Option<Duration>>);

impl Clock for CellClock<'_> {
    fn monotonic(&self) -> io::Result<Duration> {
        Ok(Duration::from_secs(0))
    }

    fn since_1970(&self) -> io::Result<Duration> {
        match self.0.get() {
            Some(passed) => Ok(passed),
            None => Err(io::Error::from(AllocError)),
        }
    }
}

/// 2026-11-22T09:55:06.120456789Z.
fn now() -> Cell<Option<Duration>> {
    Cell::new(Some(Duration::new(1_795_341_306, 120_456_789)))
}

/// A sink whose times are in UTC, to the millisecond.
fn in_milliseconds<'a, W: Write>(
    now: &'a Cell<Option<Duration>>,
    out: W,
) -> Timed<CellClock<'a>, LogTime, W> {
    Timed::new(CellClock(now), LogTime::utc(Milliseconds), out)
}

/// The time of the sink is to the microsecond, in UTC.
#[test]
fn the_time_stands_within_the_brackets(rt: HostRuntime) {
    let now = now();
    let times = LogTime::utc(Microseconds);
    let sink = Timed::new(CellClock(&now), times, Vec::new(rt.alloc()));
    info!(sink; target: "app", "started");
    let wanted = b"[2026-11-22T09:55:06.120456Z INFO  app] started\n";
    assert_that(&rt, sink.into_inner().as_slice() == wanted.as_slice());
}

/// Amsterdam was 19 minutes and 32 seconds ahead until 1937. RFC 3339 has no text for that offset.
#[test]
fn a_time_at_an_offset_with_seconds_is_a_dash(rt: HostRuntime) {
    let zone = TimeZone::posix("AMT-0:19:32").expect(&rt, "no zone");
    let now = now();
    let times = ZoneTimes::new(zone.to_plain(), Milliseconds);
    let sink = Timed::new(CellClock(&now), times, Vec::new(rt.alloc()));
    info!(sink; target: "app", "started");
    let wanted = b"[- INFO  app] started\n";
    assert_that(&rt, sink.into_inner().as_slice() == wanted.as_slice());
}

/// The clock of Berlin goes back at the second of these moments.
#[test]
fn the_time_follows_the_clock_of_a_zone(rt: HostRuntime) {
    let zone = TimeZone::posix("CET-1CEST,M3.5.0,M10.5.0/3").expect(&rt, "no zone");
    let now = Cell::new(Some(Duration::new(1_792_889_999, 0)));
    let times = ZoneTimes::new(zone.to_plain(), Milliseconds);
    let sink = Timed::new(CellClock(&now), times, Vec::new(rt.alloc()));
    info!(sink; target: "app", "up");
    now.set(Some(Duration::new(1_792_890_000, 0)));
    warn!(sink; target: "app", "up");
    let wanted = b"[2026-10-25T02:59:59.000+02:00 INFO  app] up\n\
        [2026-10-25T02:00:00.000+01:00 WARN  app] up\n";
    assert_that(&rt, sink.into_inner().as_slice() == wanted.as_slice());
}

/// A clock that cannot be read, and one that shows the last second and the year after it.
#[test]
fn a_time_with_no_text_is_a_dash_and_a_sink_takes_each_level(rt: HostRuntime) {
    let now = Cell::new(None);
    let sink = in_milliseconds(&now, Vec::new(rt.alloc()));
    assert_that(&rt, sink.enabled(&Metadata::new(Level::Trace, "app")));
    info!(sink; target: "app", "up");
    now.set(Some(Duration::new(253_402_300_799, 0)));
    error!(sink; target: "app", rows = 3; "up");
    now.set(Some(Duration::new(u64::MAX, 0)));
    debug!(sink; target: "", "up");
    let wanted =
        b"[- INFO  app] up\n[9999-12-31T23:59:59.000Z ERROR app] up rows=3\n[- DEBUG] up\n";
    assert_that(&rt, sink.into_inner().as_slice() == wanted.as_slice());
}

/// Counts the writes to it and its flushes, and takes so many bytes.
#[derive(Drop)]
struct Counted<'a> {
    bytes: Vec<u8>,
    writes: &'a Cell<u32>,
    room: &'a Cell<usize>,
}

impl Write for Counted<'_> {
    fn write(&mut self, buf: &[u8]) -> io::Result<usize> {
        self.writes.set(self.writes.get().saturating_add(1));
        let room = self.room.get();
        if room == 0 {
            return Err(io::Error::from(AllocError));
        }
        let count = room.min(buf.len());
        self.room.set(room - count);
        self.bytes.write(&buf[..count])
    }

    fn flush(&mut self) -> io::Result<()> {
        self.writes.set(self.writes.get().saturating_add(1));
        Ok(())
    }
}

impl<'a> Counted<'a> {
    /// A writer that has taken nothing.
    fn new(alloc: Global, writes: &'a Cell<u32>, room: &'a Cell<usize>) -> Counted<'a> {
        Counted {
            bytes: Vec::new(alloc),
            writes,
            room,
        }
    }
}

/// So many letters, which may make room while they are shown.
#[derive(Clone, Copy)]
struct Letters<'a> {
    count: usize,
    opened: Option<&'a Cell<usize>>,
}

impl Display for Letters<'_> {
    fn fmt<W: fmt::Write>(&self, f: &mut Formatter<W>) -> fmt::Result {
        if let Some(room) = self.opened {
            room.set(1_000);
        }
        for _ in 0..self.count {
            f.write_str("x")?;
        }
        Ok(())
    }
}

/// How many writes the line of a message of so many letters takes, and a flush, and how many bytes
/// the line has.
fn writes_of(alloc: Global, count: usize) -> (u32, usize) {
    let (now, writes, room) = (now(), Cell::new(0), Cell::new(10_000));
    let sink = in_milliseconds(&now, Counted::new(alloc, &writes, &room));
    let opened = None;
    info!(sink; target: "app", "{}", Letters { count, opened });
    sink.flush();
    let length = sink.into_inner().bytes.len();
    (writes.get(), length)
}

/// What stands before the message has 37 bytes, and the end of the line one.
#[test]
fn a_line_of_up_to_1024_bytes_takes_one_write(rt: HostRuntime) {
    assert_that(&rt, writes_of(rt.alloc(), 7) == (2, 45));
    assert_that(&rt, writes_of(rt.alloc(), 986) == (2, 1_024));
    let (writes, length) = writes_of(rt.alloc(), 3_000);
    assert_that(&rt, writes > 2 && length == 3_038);
}

/// The writer takes 20 bytes of a line of so many letters, then none, and then all. While the line
/// cannot be ended, the next record is not shown.
fn assert_torn(rt: &impl Abort, alloc: Global, count: usize) {
    let (now, writes, room) = (now(), Cell::new(0), Cell::new(20));
    let sink = in_milliseconds(&now, Counted::new(alloc, &writes, &room));
    let opened = None;
    info!(sink; target: "app", "{}", Letters { count, opened });
    let opened = Some(&room);
    info!(sink; target: "app", "{}", Letters { count: 5, opened });
    assert_that(rt, room.get() == 0);
    room.set(1_000);
    info!(sink; target: "app", "second");
    let wanted = b"[2026-11-22T09:55:06\n\
        [2026-11-22T09:55:06.120Z INFO  app] second\n";
    assert_that(rt, sink.into_inner().bytes.as_slice() == wanted.as_slice());
}

#[test]
fn a_torn_line_ends_before_the_next_record(rt: HostRuntime) {
    assert_torn(&rt, rt.alloc(), 5);
    assert_torn(&rt, rt.alloc(), 1_500);
}

/// A value that logs while it is shown.
#[derive_where(Clone, Copy)]
struct Logging<'a, L>(&'a L);

impl<L: Log> Display for Logging<'_, L> {
    fn fmt<W: fmt::Write>(&self, f: &mut Formatter<W>) -> fmt::Result {
        info!(self.0; target: "app", "within");
        f.write_str("shown")
    }
}

#[test]
fn a_record_within_a_record_is_dropped(rt: HostRuntime) {
    let now = now();
    let sink = in_milliseconds(&now, Vec::new(rt.alloc()));
    info!(sink; target: "app", "{}", Logging(&sink));
    let wanted = b"[2026-11-22T09:55:06.120Z INFO  app] shown\n";
    assert_that(&rt, sink.into_inner().as_slice() == wanted.as_slice());
}
