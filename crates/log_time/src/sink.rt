//! The sink.
ghost use Rattle.std.specs.Prelude.{◌≡◌, [], Some, true};

use crate::line::TimedLine;
use crate::times::Times;
use arrayvec::ArrayString;
use log::kv::Source;
use log::span::Spans;
use log::{Log, Metadata, Record};
use std::cell::RefCell;
use std::fmt::{self, Display};
use std::io::{self, Write};
use std::rt::Clock;
use time_below::Timestamp;

/// The most bytes of a line, with its end, that takes one write.
const LINE: usize = 1_024;

/// Writes each record to `W` with the time that the clock `C` shows, for one thread. The times are
/// those of `T`.
///
/// The lines are those of `env_logger`, as `[2026-11-22T09:55:06.120Z INFO  app] started`. One of
/// up to 1,024 bytes takes one write. A longer one takes more, and its record is shown twice. A
/// record whose time has no text has `-` in its place: one whose moment is outside the years 0 to
/// 9,999, or is not known, since the clock cannot be read. A record that is logged while another is
/// being written is dropped.
#[derive(Drop)]
pub struct Timed<C, T, W> {
    clock: C,
    lines: RefCell<Lines<T, W>>,
}

/// The times of the lines, and where the lines go.
#[derive(Drop)]
struct Lines<T, W> {
    times: T,
    writer: W,
    /// The line that is being written, if it has room.
    line: ArrayString<LINE>,
    /// Whether the last line stopped part way.
    torn: bool,
}

impl<C: Clock, T: Times, W: Write> Timed<C, T, W> {
    ghost use Rattle.log_time.specs.Timed.{clock_of};

    /// Returns a sink over `out`.
    pub fn new(clock: C, times: T, out: W) -> Timed<C, T, W>
        ensures { clock_of result ≡ clock }
    {
        Timed {
            clock,
            lines: RefCell::new(Lines {
                times,
                writer: out,
                line: ArrayString::new(),
                torn: false,
            }),
        }
    }

    /// Returns the writer.
    pub fn into_inner(self) -> W
    where
        C: Drop,
        T: Drop,
    {
        let Timed { clock: _, lines } = self;
        let Lines {
            times: _,
            writer,
            line: _,
            torn: _,
        } = lines.into_inner();
        writer
    }
}

impl<C: Clock, T: Times, W: Write> Log for Timed<C, T, W> {
    ghost enables = { λ _ _ _. Some true };

    ghost target_of = { λ _. Some [] };

    fn enabled(&self, _metadata: &Metadata<'_>) -> bool {
        true
    }

    fn log<D: Display, K: Source, S: Spans>(&self, record: &Record<'_, D, K, S>) {
        if let Ok(mut lines) = self.lines.try_borrow_mut() {
            lines.put(Timestamp::now(&self.clock), record);
        }
    }

    fn flush(&self) {
        if let Ok(mut lines) = self.lines.try_borrow_mut() {
            let _ = lines.writer.flush();
        }
    }

    fn target(&self) -> &str {
        ""
    }
}

impl<T: Times, W: Write> Lines<T, W> {
    /// Writes a record with the text of a moment, if that is known.
    fn put<D: Display, K: Source, S: Spans>(
        &mut self,
        moment: io::Result<Timestamp>,
        record: &Record<'_, D, K, S>,
    ) {
        let text = match moment {
            Ok(moment) => self.times.time_text(moment),
            Err(_) => None,
        };
        let time = match &text {
            Some(text) => Some(text.as_str()),
            None => None,
        };
        self.write_line(TimedLine::new(time, record));
    }

    /// Writes a line. One that stopped part way is ended first, so that no two records share a
    /// line. While that fails, the record is dropped.
    fn write_line<D: Display + Copy + Drop>(&mut self, line: D) {
        if self.torn && self.writer.write_all(b"\n").is_err() {
            return;
        }
        self.line.clear();
        let written = match fmt::Write::writeln(&mut self.line, line) {
            Ok(()) => self.writer.write_all(self.line.as_str().as_bytes()),
            Err(_) => self.writer.writeln(line),
        };
        self.torn = written.is_err();
    }
}
