//! Files one after another as one source of lines, and standard output.
ghost use Rattle.std.specs.Prelude.{◌≡◌, ◌==◌, ◌≤◌, length, not, false, None, IfOk};

use line_streams::{Exchange, FilterError, LineJob};
use std::fs::File;
use std::io::{self, Read, Stdin, Stdout, Write};

/// Where lines come from.
#[derive(Drop)]
pub enum Source {
    Standard(Stdin),
    File(File),
}

impl Source {
    /// The file of this name, where `-` is standard input.
    pub fn open(rt: &HostRuntime, name: &str) -> io::Result<Source> {
        if name == "-" {
            return Ok(Source::Standard(rt.stdin()));
        }
        Ok(Source::File(File::open(rt, name)?))
    }

    fn read(&mut self, block: &mut [u8]) -> io::Result<usize>
        ensures { IfOk result (λ n. n ≤ length block.new) }
    {
        match self {
            Source::Standard(input) => input.read(block),
            Source::File(input) => input.read(block),
        }
    }
}

/// A source, standard output, and what must be known where another source follows. Nothing is known
/// of what they give and take.
#[derive(Drop)]
pub struct Streams {
    pub input: Source,
    pub output: Stdout,
    /// What was last written is no end of a line.
    pub is_inside_line: bool,
    /// A line feed is written before anything else, since the source before ended inside a line.
    pub needs_line_feed: bool,
    /// Why the last read or write failed.
    pub fault: Option<io::Error>,
}

impl Streams {
    /// Standard input and standard output.
    pub fn new(rt: &HostRuntime) -> Streams
        ensures outside { result.is_inside_line ≡ false }
        ensures begun { result.needs_line_feed ≡ false }
        ensures fault { result.fault ≡ None }
    {
        Streams {
            input: Source::Standard(rt.stdin()),
            output: rt.stdout(),
            is_inside_line: false,
            needs_line_feed: false,
            fault: None,
        }
    }

    /// Goes on with another source, whose lines begin anew.
    pub fn go_on(&mut self, input: Source)
        ensures input { self.new.input ≡ input }
        ensures output { self.new.output ≡ self.old.output }
        ensures feed { self.new.needs_line_feed ≡ self.old.is_inside_line }
        ensures inside { self.new.is_inside_line ≡ self.old.is_inside_line }
    {
        self.input = input;
        self.needs_line_feed = self.is_inside_line;
    }

    /// Writes all the bytes.
    fn put(&mut self, bytes: &[u8]) -> Result<(), FilterError> {
        match Write::write_all(&mut self.output, bytes) {
            Ok(()) => Ok(()),
            Err(error) => {
                let outcome = FilterError::of_write(&error);
                self.fault = Some(error);
                Err(outcome)
            }
        }
    }

    /// Notes that what is written ends with this byte. Says whether a line feed comes before it.
    fn end_with(&mut self, last: u8) -> bool
        ensures feed { result ≡ self.old.needs_line_feed }
        ensures fed { self.new.needs_line_feed ≡ false }
        ensures inside { self.new.is_inside_line ≡ not (last == 10) }
    {
        let needs_line_feed = self.needs_line_feed;
        self.needs_line_feed = false;
        self.is_inside_line = last != b'\n';
        needs_line_feed
    }
}

impl Exchange for Streams {
    ghost got = { λ _. None };

    ghost put = { λ _. None };

    ghost has_ended = { λ _. Unit {0} };

    fn read<J: LineJob>(
        &mut self,
        _job: &J,
        _longest: usize,
        block: &mut [u8],
    ) -> Result<usize, FilterError> {
        match self.input.read(block) {
            Ok(count) => Ok(count),
            Err(error) => {
                self.fault = Some(error);
                Err(FilterError::Read)
            }
        }
    }

    fn write_all(&mut self, bytes: &[u8]) -> Result<(), FilterError> {
        let Some(last) = bytes.last() else {
            return Ok(());
        };
        if self.end_with(*last) {
            self.put(b"\n")?;
        }
        self.put(bytes)
    }
}
