//! The texts of worked rows, and runs in which a read or a write fails.
ghost use Rattle.std.specs.Prelude.{IfOk};
ghost use Rattle.time_show.specs.Answer.{AreAnswers};
ghost use Rattle.time_show.specs.Lines.{lines_of};

use crate::{ShowError, run, status};
use std::alloc::{AllocError, Global};
use std::io::{self, ErrorKind, Read, Write};
use std::test::Fail;

/// Rows of a line and its answer.
macro_rules! rows {
    ($($line:literal $answer:literal,)+) => {
        &[$(($line, $answer)),+]
    };
}

/// The last line has no line feed.
const ROWS: &[(&[u8], &[u8])] = rows! {
    b"time 9 55 6 120000000\n" b"ok 11 18 09:55:06.12\n",
    b"time 0 0 0 0\n" b"ok 10 18 00:00:00.0\n",
    b"time 24 0 0 0\n" b"refused 0 hour\n",
    b"time 1 2\n" b"bad line\n",
    b"rfc3339 1997 11 12 9 55 6 0 -6 0 0\n" b"ok 25 35 1997-11-12T09:55:06-06:00\n",
    b"rfc2822 1997 11 12 9 55 6 0 -6 0 0\n" b"ok 31 31 Wed, 12 Nov 1997 09:55:06 -0600\n",
    b"rfc2822 1899 12 31 0 0 0 0 0 0 0\n" b"refused 0 year\n",
    b"iso 1997 11 12 9 55 6 0 -6 0 0\n" b"ok 35 35 1997-11-12T09:55:06.000000000-06:00\n",
    b"iso 2000 1 1 0 0 0 0 1 0 1\n" b"refused 29 offset_second\n",
    b"iso-comma 1997 11 12 9 55 6 0 -6 0 0\n" b"ok 35 35 1997-11-12T09:55:06,000000000-06:00\n",
    b"stamp 1997 11 12 15 55 6 0\n" b"ok 30 35 1997-11-12T15:55:06.000000000Z\n",
    b"stamp 1969 12 31 23 59 59 999999999\n" b"ok 30 35 1969-12-31T23:59:59.999999999Z\n",
    b"stamp 1970 1 1 0 0 0 0\n" b"ok 30 35 1970-01-01T00:00:00.000000000Z\n",
    b"stamp 10000 1 1 0 0 0 0\n" b"refused 0 year\n",
    b"stamp -1 12 31 0 0 0 0\n" b"refused 0 year\n",
    b"\n" b"bad line\n",
    b"time  9 55 6 0\n" b"bad line\n",
    b"time +9 55 6 0\n" b"bad line\n",
    b"TIME 9 55 6 0\n" b"bad line\n",
    b"time 9 55 6 1000000000\n" b"bad line\n",
    b"time 9 55 6 0\r\n" b"bad line\n",
    b"\xff\n" b"bad line\n",
    b"aaaaaaaaaaaaaaaaaaaaaaaaaaaaaaaaaaaaaaaaaaaaaaaaaaaaaaaaaaaaaaaaaaaaaaaaaaaaaaaaaaaaaaaaaaaaaaaa\
      aaaaaaaaaaaaaaaaaaaaaaaaaaaaaaaaa\n" b"bad line\n",
    b"time 9 55 6 999999999\n" b"ok 18 18 09:55:06.999999999\n",
    b"time -0 0 0 0\n" b"ok 10 18 00:00:00.0\n",
    b"time -1 60 0 0\n" b"refused 0 hour\n",
    b"rfc3339 1000000 13 1 0 0 0 0 0 0 0\n" b"refused 0 year\n",
    b"rfc3339 2000 13 32 0 0 0 0 0 0 0\n" b"refused 0 month\n",
    b"rfc3339 2000 2 30 24 0 0 0 0 0 0\n" b"refused 0 day\n",
    b"rfc3339 2000 1 1 0 0 0 0 26 0 0\n" b"refused 0 hours\n",
    b"rfc3339 2000 1 1 0 0 0 0 24 0 0\n" b"refused 0 offset_hour\n",
    b"rfc3339 2000 1 1 0 0 0 0 1 -30 0" b"ok 25 35 2000-01-01T00:00:00+01:30\n",
};

/// The first lines, so many, and their answers.
fn first_rows(alloc: Global, count: usize) -> Result<(Vec<u8>, Vec<u8>), AllocError> {
    let (mut input, mut answers) = (Vec::new(alloc), Vec::new(alloc));
    for &(line, answer) in ROWS.iter().take(count) {
        input.extend_from_slice(line)?;
        answers.extend_from_slice(answer)?;
    }
    Ok((input, answers))
}

/// The theorem of `run`, at a reader and a writer that show their bytes.
fn answers_to(alloc: Global, input: &[u8]) -> Result<Vec<u8>, ShowError>
    ensures { IfOk result (λ output. AreAnswers (lines_of input.now) output.items) }
{
    let mut rest = input;
    let mut output = Vec::new(alloc);
    run(alloc, &mut rest, &mut output)?;
    Ok(output)
}

#[test]
fn each_line_has_its_answer(rt: HostRuntime) -> Result<(), Fail> {
    for &(line, answer) in ROWS {
        assert!(rt; answers_to(rt.alloc(), line)?.as_slice() == answer);
    }
    let (input, answers) = first_rows(rt.alloc(), ROWS.len())?;
    assert!(rt; answers_to(rt.alloc(), input.as_slice())?.as_slice() == answers.as_slice());
    Ok(())
}

/// Gives a byte at a call, and fails at one call.
#[derive(Drop)]
struct Source<'a> {
    bytes: &'a [u8],
    calls: usize,
    fails_at: usize,
}

impl Read for Source<'_> {
    fn read(&mut self, buf: &mut [u8]) -> io::Result<usize> {
        self.calls = self.calls.saturating_add(1);
        if self.calls == self.fails_at {
            return Err(io::Error::from(ErrorKind::Interrupted));
        }
        let count = buf.len().min(1);
        self.bytes.read(&mut buf[..count])
    }
}

#[test]
fn a_failed_read_ends_the_run(rt: HostRuntime) -> Result<(), Fail> {
    let (input, _) = first_rows(rt.alloc(), ROWS.len())?;
    for read in 0..=input.len() {
        let mut source = Source {
            bytes: input.as_slice(),
            calls: 0,
            fails_at: read.saturating_add(1),
        };
        let mut output = Vec::new(rt.alloc());
        let outcome = run(rt.alloc(), &mut source, &mut output);
        assert!(rt; outcome == Err(ShowError::Read) && status(&outcome) == 1);
        let ends = input.iter().take(read).filter(|byte| **byte == b'\n');
        let (_, answers) = first_rows(rt.alloc(), ends.count())?;
        assert!(rt; output.as_slice() == answers.as_slice());
    }
    Ok(())
}

/// Takes a byte at a call, and fails at one call: by an error, or in that it takes none.
#[derive(Drop)]
struct Sink {
    bytes: Vec<u8>,
    calls: usize,
    fails_at: usize,
    takes_none: bool,
}

impl Write for Sink {
    fn write(&mut self, buf: &[u8]) -> io::Result<usize> {
        self.calls = self.calls.saturating_add(1);
        if self.calls == self.fails_at && self.takes_none {
            return Ok(0);
        }
        if self.calls == self.fails_at {
            return Err(io::Error::from(ErrorKind::Interrupted));
        }
        let count = buf.len().min(1);
        self.bytes.write(&buf[..count])
    }

    fn flush(&mut self) -> io::Result<()> {
        Ok(())
    }
}

#[test]
fn a_failed_write_ends_the_run(rt: HostRuntime) -> Result<(), Fail> {
    let (input, answers) = first_rows(rt.alloc(), ROWS.len())?;
    for written in 0..answers.len() {
        for takes_none in [false, true] {
            let mut sink = Sink {
                bytes: Vec::new(rt.alloc()),
                calls: 0,
                fails_at: written.saturating_add(1),
                takes_none,
            };
            let outcome = run(rt.alloc(), &mut input.as_slice(), &mut sink);
            assert!(rt; outcome == Err(ShowError::Write) && status(&outcome) == 1);
            assert!(rt; sink.bytes.len() == written);
            assert!(rt; answers.as_slice().starts_with(sink.bytes.as_slice()));
        }
    }
    Ok(())
}
