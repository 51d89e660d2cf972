//! Runs over a source and a sink in memory, which give and take few bytes and may fail once.
ghost use Rattle.std.specs.Prelude.{None};

use crate::asserted::assert_that;
use line_streams::{Exchange, FilterError, LineJob, run};
use std::alloc::{AllocError, Global};
use std::process::Abort;
use std::test::Fail;

/// Puts an angle before each line.
#[derive(Drop)]
struct Quote {
    /// How many lines were too long for that.
    long: usize,
}

impl LineJob for Quote {
    ghost becomes = { λ _ line text. Unit {0} };

    ghost is_ready = { λ _. Unit {0} };

    fn prepare(&mut self) -> Result<(), FilterError> {
        Ok(())
    }

    fn append(&mut self, output: &mut Vec<u8>, line: &[u8]) -> Result<(), AllocError> {
        output.push(b'>')?;
        output.extend_from_slice(line)
    }

    fn pass_long(&mut self, _longest: usize) {
        self.long = self.long.saturating_add(1);
    }
}

/// A source of some bytes, so many at a read, and a sink. A call fails that has this number.
#[derive(Drop)]
struct Memory<'a> {
    source: &'a [u8],
    step: usize,
    sink: Vec<u8>,
    reads: usize,
    writes: usize,
    failing_read: usize,
    failing_write: usize,
    /// How many lines had ended, less those in the sink, at the read where most waited.
    waiting: usize,
    /// How many bytes were read, less those in the sink, at the read where most were held.
    held: usize,
}

fn lines_in(text: &[u8]) -> usize {
    text.iter().filter(|byte| **byte == b'\n').count()
}

impl<'a> Memory<'a> {
    fn new(alloc: Global, source: &'a [u8], step: usize) -> Memory<'a> {
        Memory {
            source,
            step,
            sink: Vec::new(alloc),
            reads: 0,
            writes: 0,
            failing_read: 0,
            failing_write: 0,
            waiting: 0,
            held: 0,
        }
    }
}

impl Exchange for Memory<'_> {
    ghost got = { λ _. None };

    ghost put = { λ _. None };

    ghost has_ended = { λ _. Unit {0} };

    fn read<J: LineJob>(
        &mut self,
        _job: &J,
        _longest: usize,
        block: &mut [u8],
    ) -> Result<usize, FilterError> {
        let done = self.reads.saturating_mul(self.step).min(self.source.len());
        let waiting = lines_in(&self.source[..done]).saturating_sub(lines_in(self.sink.as_slice()));
        self.waiting = self.waiting.max(waiting);
        self.held = self.held.max(done.saturating_sub(self.sink.len()));
        self.reads = self.reads.saturating_add(1);
        if self.reads == self.failing_read {
            return Err(FilterError::Read);
        }
        let left = &self.source[done..];
        let count = self.step.min(left.len()).min(block.len());
        block[..count].copy_from_slice(&left[..count]);
        Ok(count)
    }

    fn write_all(&mut self, bytes: &[u8]) -> Result<(), FilterError> {
        self.writes = self.writes.saturating_add(1);
        if self.writes == self.failing_write {
            return Err(FilterError::Write);
        }
        self.sink.extend_from_slice(bytes)?;
        Ok(())
    }
}

/// Three lines, of which the second has a NUL byte and one that is no text, and a last one without
/// a line feed.
const TEXT: &[u8] = b"one\n\0\xFF\n\nlast";

const QUOTED: &[u8] = b">one\n>\0\xFF\n>\n>last";

/// Runs over a text whose lines are held however long, and compares the outcome and what was
/// written.
fn assert_run(
    rt: &impl Abort,
    memory: &mut Memory<'_>,
    alloc: Global,
    outcome: Result<(), FilterError>,
    written: &[u8],
) {
    let ended = run(alloc, &mut Quote { long: 0 }, usize::MAX, memory);
    assert_that(rt, ended == outcome);
    assert_that(rt, memory.sink.as_slice() == written);
    assert_that(rt, memory.waiting == 0);
}

#[test]
fn each_line_is_out_before_the_next_read(rt: HostRuntime) {
    for step in 1..TEXT.len() + 2 {
        let mut memory = Memory::new(rt.alloc(), TEXT, step);
        assert_run(&rt, &mut memory, rt.alloc(), Ok(()), QUOTED);
    }
}

/// Which call fails, whether it is a read, and what was written before, at five bytes a read.
const FAILURES: &[(usize, bool, &[u8])] = &[
    (1, true, b""),
    (2, true, b">one\n"),
    (3, true, b">one\n>\0\xFF\n>\n"),
    (4, true, b">one\n>\0\xFF\n>\n"),
    (1, false, b""),
    (2, false, b">one\n"),
    (3, false, b">one\n>\0\xFF\n>\n"),
];

#[test]
fn a_run_ends_at_a_call_that_fails(rt: HostRuntime) {
    for (call, is_read, written) in FAILURES {
        let mut memory = Memory::new(rt.alloc(), TEXT, 5);
        let outcome = if *is_read {
            memory.failing_read = *call;
            FilterError::Read
        } else {
            memory.failing_write = *call;
            FilterError::Write
        };
        assert_run(&rt, &mut memory, rt.alloc(), Err(outcome), written);
    }
}

#[test]
fn a_line_may_be_longer_than_a_read(rt: HostRuntime) -> Result<(), Fail> {
    let mut quoted = vec![in rt.alloc(); b'>'; 200_000]?;
    quoted.push(b'\n')?;
    let text = &quoted.as_slice()[1..];
    for step in [1_000, 65_536] {
        let mut memory = Memory::new(rt.alloc(), text, step);
        assert_run(&rt, &mut memory, rt.alloc(), Ok(()), quoted.as_slice());
    }
    Ok(())
}

/// Runs over a text of which so many lines are longer than a number of bytes, and compares what was
/// written.
fn assert_passes(
    rt: &impl Abort,
    memory: &mut Memory<'_>,
    alloc: Global,
    (longest, long): (usize, usize),
    written: &[u8],
) {
    let mut job = Quote { long: 0 };
    let ended = run(alloc, &mut job, longest, memory);
    assert_that(rt, ended == Ok(()));
    assert_that(rt, memory.sink.as_slice() == written);
    assert_that(rt, job.long == long);
    assert_that(rt, memory.waiting == 0);
    assert_that(rt, memory.held <= longest);
}

/// Lines of 4, 8, 9, 21 and 1 bytes, and a last one of 10 without a line feed.
const LONG: &[u8] = b"one\n8 bytes\n9 bytes.\ntwenty-one bytes....\n\n10 bytes..";

const LONG_PASSED: &[u8] = b">one\n>8 bytes\n9 bytes.\ntwenty-one bytes....\n>\n10 bytes..";

#[test]
fn a_line_that_is_too_long_passes(rt: HostRuntime) {
    for step in 1..LONG.len() + 2 {
        let mut memory = Memory::new(rt.alloc(), LONG, step);
        assert_passes(&rt, &mut memory, rt.alloc(), (8, 3), LONG_PASSED);
    }
}

#[test]
fn a_stream_without_a_line_feed_is_not_held(rt: HostRuntime) -> Result<(), Fail> {
    let text = vec![in rt.alloc(); b'x'; 200_000]?;
    for step in [10_000, 65_536] {
        let mut memory = Memory::new(rt.alloc(), text.as_slice(), step);
        assert_passes(&rt, &mut memory, rt.alloc(), (25_000, 1), text.as_slice());
    }
    Ok(())
}

/// Runs where a write fails that has this number, by three bytes a read.
fn assert_write_fails(rt: &impl Abort, alloc: Global, call: usize) {
    let mut memory = Memory::new(alloc, LONG, 3);
    memory.failing_write = call;
    let ended = run(alloc, &mut Quote { long: 0 }, 8, &mut memory);
    assert_that(rt, ended == Err(FilterError::Write));
    assert_that(rt, LONG_PASSED.starts_with(memory.sink.as_slice()));
}

#[test]
fn a_run_over_long_lines_ends_at_a_write_that_fails(rt: HostRuntime) {
    for call in 1..10 {
        assert_write_fails(&rt, rt.alloc(), call);
    }
}
