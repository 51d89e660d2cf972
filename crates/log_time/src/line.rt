//! The line of a record, with its time.
ghost use Rattle.std.specs.Prelude.{◌≡◌, IfSome, IsOk};
ghost use Rattle.std.specs.Fmt.{HasWritten, IsPlainFormatter, WritesOnOk};
ghost use Rattle.log.specs.Line.{pairs_text, padded_level};
ghost use Rattle.log_time.specs.TimedLine.{WritesPair, timed_header, timed_line};

use log::kv::{self, Source, Value, VisitSource};
use log::span::Spans;
use log::{Level, Record};
use std::fmt::{self, Display, Formatter};

/// Shows a record as `[time INFO  target] span{key=value}: message key=value`, with no line break.
#[derive_where(Clone, Copy)]
pub struct TimedLine<'a, 'r, D, K, S> {
    time: &'a str,
    record: &'a Record<'r, D, K, S>,
}

impl<'a, 'r, D, K, S> TimedLine<'a, 'r, D, K, S> {
    ghost use Rattle.log_time.specs.TimedLine.{line_record, line_time, time_or_dash};

    /// Returns the line of a record with this time, or with `-` where there is none, as in RFC
    /// 5424, section 6.2.3.
    pub fn new(time: Option<&'a str>, record: &'a Record<'r, D, K, S>) -> TimedLine<'a, 'r, D, K, S>
        ensures time { line_time result ≡ time_or_dash time.entry }
        ensures record { line_record result ≡ «record».now }
    {
        let time = match time {
            Some(time) => time,
            None => "-",
        };
        TimedLine { time, record }
    }
}

impl<'a, 'r, D: Display, K: Source, S: Spans> Display for TimedLine<'a, 'r, D, K, S> {
    ghost use Rattle.log_time.specs.TimedLine.{line_record, line_time};

    ghost output = { λ line. timed_line D.output K.pairs S.scopes
        (line_time line) (line_record line) };

    fn fmt<W: fmt::Write>(&self, f: &mut Formatter<W>) -> fmt::Result {
        let record = self.record;
        write_header(f, self.time, record.level(), record.target())?;
        record.spans().visit(f)?;
        f.write(record.args())?;
        write_pairs(f, record.key_values())?;
        Ok(())
    }
}

/// Writes what stands before the spans.
fn write_header<W: fmt::Write>(
    f: &mut Formatter<W>,
    time: &str,
    level: Level,
    target: &str,
) -> fmt::Result
    ensures { WritesOnOk W.write_str_gives f.old result
        (timed_header time.now level target.now) f.new }
{
    let level = padded(level);
    if target.is_empty() {
        write!(f, "[{time} {level}] ")
    } else {
        write!(f, "[{time} {level} {target}] ")
    }
}

/// The name of a level, and spaces up to five bytes.
fn padded(level: Level) -> &'static str
    ensures { result.now ≡ padded_level level }
{
    match level {
        Level::Warn => "WARN ",
        Level::Info => "INFO ",
        _ => level.as_str(),
    }
}

/// Writes each pair after a space.
fn write_pairs<W: fmt::Write, K: Source>(f: &mut Formatter<W>, source: &K) -> Result<(), kv::Error>
    ensures { IfSome (K.pairs source.now) (λ ps. IsOk result → IsPlainFormatter f.old
        → HasWritten W.write_str_gives f.old (pairs_text ps) f.new) }
{
    let mut pairs = Pairs { f };
    source.visit(&mut pairs)?;
    Ok(())
}

/// What writes pairs.
struct Pairs<'f, W> {
    f: &'f mut Formatter<W>,
}

impl<'f, W> Drop for Pairs<'f, W> {
    fn drop(self)
        ensures { self.exit.0.now ≡ self.entry.f.now }
    {
        let Self { f: _ } = self;
    }
}

impl<'f, W: fmt::Write> VisitSource for Pairs<'f, W> {
    ghost visit_pair_gives = { WritesPair W.write_str_gives };

    fn visit_pair<D: Display>(&mut self, key: &str, value: Value<'_, D>) -> Result<(), kv::Error> {
        write!(self.f, " {key}={value}")?;
        Ok(())
    }
}
