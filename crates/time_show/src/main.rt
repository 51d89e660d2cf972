//! Answers the lines of standard input, each by one line.
//!
//! A line requests a value in a format by a command, as `time 9 55 6 120000000`. The answer is
//! `ok COUNT WIDTH TEXT`, with the number of bytes of the text and the most that it could have,
//! `refused WRITTEN NAME`, with the number of bytes before the refusal, or `bad line`. The exit
//! status is 0 at the end of the input, and 1 after a read or a write that failed.
#![tactic(auto)]

ghost use Rattle.std.specs.Prelude.{is_ok, if◌then◌else◌, ◌≡◌, OnOk};
ghost use Rattle.std.specs.Io.KnownBytes.{IsAtEnd};
ghost use Rattle.time_show.specs.Run.{AnswersLine, GoesOn, Ran};

mod fields;
mod line_buffer;
mod output;
mod reply;
#[cfg(test)]
mod tests;
mod value;

use line_buffer::LineBuffer;
use output::append_reply;
use reply::reply_to;
use std::alloc::Global;
use std::io::{Read, Write};
use std::process::ExitCode;

/// The most bytes that one read gives.
const BLOCK_SIZE: usize = 8192;

/// Why a run ended before the end of its input.
#[derive(Clone, Copy, Debug, PartialEq, Eq)]
pub enum ShowError {
    /// A read failed.
    Read,
    /// A write failed, or took no byte.
    Write,
}

/// Answers the line, whose text is put into the vector.
fn answer_line<W: Write>(
    text: &mut Vec<u8>,
    line: &LineBuffer,
    output: &mut W,
) -> Result<(), ShowError>
    ensures { AnswersLine result line.now (W.contents output.old) (W.contents output.new) }
{
    append_reply(output, reply_to(text, line))
}

/// Takes the next bytes of the input, and answers each line that they end.
fn feed<W: Write>(
    text: &mut Vec<u8>,
    line: &mut LineBuffer,
    bytes: &[u8],
    output: &mut W,
) -> Result<(), ShowError>
    ensures { GoesOn result bytes.now line.old line.new
        (W.contents output.old) (W.contents output.new) }
{
    for byte in bytes {
        if *byte == b'\n' {
            answer_line(text, line, output)?;
            line.clear();
        } else {
            line.push(*byte);
        }
    }
    Ok(())
}

/// Answers each line of the input, one after another.
///
/// `Ok` means that the input was read to its end and all its lines were answered. A failed read
/// means that the whole lines so far were answered. A failed write means that some first lines
/// were, with a beginning of the answer to the next, which has its line feed unless the input has
/// ended.
///
/// No clause says that reads go on as long as they succeed, nor how much memory is allocated; tests
/// do. The body allocates the text of one answer at a time, and answers a failed allocation by
/// `refused 0 out-of-memory`.
pub fn run<R: Read, W: Write>(alloc: Global, input: &mut R, output: &mut W) -> Result<(), ShowError>
    ensures end { OnOk result (IsAtEnd (R.remaining input.new)) }
    ensures ran { Ran result
        (R.remaining input.old) (R.remaining input.new)
        (W.contents output.old) (W.contents output.new) }
{
    let mut text = Vec::new(alloc);
    let mut line = LineBuffer::new();
    let mut block = [0u8; BLOCK_SIZE];
    for _ in 0..u64::MAX {
        let Ok(count) = input.read(&mut block) else {
            return Err(ShowError::Read);
        };
        if count == 0 {
            // A last line without its line feed is answered as if it had one.
            if !line.is_empty() {
                answer_line(&mut text, &line, output)?;
            }
            return Ok(());
        }
        feed(&mut text, &mut line, &block[..count], output)?;
    }
    Err(ShowError::Read)
}

/// The exit status of a run: 0 for one that came to the end of its input, else 1.
pub fn status(outcome: &Result<(), ShowError>) -> u8
    ensures { result ≡ (if is_ok outcome.now then 0 else 1) }
{
    match outcome {
        Ok(()) => 0,
        Err(_) => 1,
    }
}

/// Answers the lines of the input, and returns the exit status: 0 at the end of the input alone.
fn show<R: Read, W: Write>(alloc: Global, input: &mut R, output: &mut W) -> u8
    ensures { result ≡ 0 → IsAtEnd (R.remaining input.new) }
{
    let outcome = run(alloc, input, output);
    status(&outcome)
}

fn main(rt: HostRuntime) -> ExitCode {
    ExitCode::from(show(rt.alloc(), &mut rt.stdin(), &mut rt.stdout()))
}
