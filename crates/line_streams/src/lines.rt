//! What is done with each line.
ghost use Rattle.std.specs.Prelude.{◌≡◌, ◌==◌, ◌≤◌, ℕ, List, ◌∷◌, ◌++◌, length, position, OnOk};
ghost use Rattle.std.specs.Prelude.{IfOk, drop};
ghost use Rattle.line_streams.specs.Lines.{unended_of};
ghost use Rattle.line_streams.specs.Filter.{ended_lines_of, within, Adds, Become, Stays};

use crate::exchange::FilterError;
use memchr::memchr;
use std::alloc::AllocError;

/// What is done with each line.
pub trait LineJob {
    /// What a line may become. It has its line feed, except perhaps for the last one.
    ghost becomes: { Self → List ℕ → List ℕ → Type 0 };

    /// What is so once it is prepared.
    ghost is_ready: { Self → Type 0 };

    /// Is called when lines have come, before they are taken.
    fn prepare(&mut self) -> Result<(), FilterError>
        ensures stays { Stays (becomes self.old) (becomes self.new) }
        ensures ready { OnOk result (is_ready self.new) };

    /// Appends what the line becomes.
    fn append(&mut self, output: &mut Vec<u8>, line: &[u8]) -> Result<(), AllocError>
        requires ready { is_ready self.old }
        ensures stays { Stays (becomes self.old) (becomes self.new) }
        ensures ready { OnOk result (is_ready self.new) }
        ensures appended { OnOk result
            (Adds (becomes self.old line.now) output.old.items output.new.items) };

    /// Is called for each line of more than `longest` bytes, its line feed among them, which passes
    /// as it is.
    fn pass_long(&mut self, longest: usize)
        ensures stays { Stays (becomes self.old) (becomes self.new) }
        ensures ready { is_ready self.old → is_ready self.new };
}

/// Returns the first position of a line feed, by a search that looks at many bytes at a time.
pub fn place_of_end(bytes: &[u8]) -> Option<usize>
    ensures { result ≡ position (λ b. b == 10) bytes.now }
{
    memchr(b'\n', bytes)
}

/// Appends a line of more than `longest` bytes as it is.
#[cold]
fn append_long<J: LineJob>(
    job: &mut J,
    longest: usize,
    output: &mut Vec<u8>,
    line: &[u8],
) -> Result<(), AllocError>
    ensures stays { Stays (J.becomes job.old) (J.becomes job.new) }
    ensures ready { J.is_ready job.old → J.is_ready job.new }
    ensures appended { OnOk result (output.new.items ≡ output.old.items ++ line.now) }
{
    job.pass_long(longest);
    output.extend_from_slice(line)
}

/// Appends what the line becomes, or the line itself if it has more than `longest` bytes.
fn append_line<J: LineJob>(
    job: &mut J,
    longest: usize,
    output: &mut Vec<u8>,
    line: &[u8],
) -> Result<(), AllocError>
    requires ready { J.is_ready job.old }
    ensures stays { Stays (J.becomes job.old) (J.becomes job.new) }
    ensures ready { OnOk result (J.is_ready job.new) }
    ensures appended { OnOk result
        (Adds (within longest (J.becomes job.old) line.now) output.old.items output.new.items) }
{
    if line.len() > longest {
        return append_long(job, longest, output, line);
    }
    job.append(output, line)
}

/// Appends what a first line becomes, and what each line of the text that has its line feed
/// becomes. Returns how many bytes of the text these lines have.
pub(crate) fn append_lines<J: LineJob>(
    job: &mut J,
    longest: usize,
    output: &mut Vec<u8>,
    first: &[u8],
    text: &[u8],
) -> Result<usize, AllocError>
    requires ready { J.is_ready job.old }
    ensures stays { Stays (J.becomes job.old) (J.becomes job.new) }
    ensures inside { IfOk result (λ count. count ≤ length text.now) }
    ensures rest { IfOk result (λ count. drop count text.now ≡ unended_of text.now) }
    ensures appended { OnOk result (Adds
        (Become (within longest (J.becomes job.old)) (first.now ∷ ended_lines_of text.now))
        output.old.items output.new.items) }
{
    let mut line = first;
    let mut rest = text;
    loop {
        append_line(job, longest, output, line)?;
        let Some(end) = place_of_end(rest) else {
            return Ok(text.len() - rest.len());
        };
        line = &rest[..end + 1];
        rest = &rest[end + 1..];
    }
}
