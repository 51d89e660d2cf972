//! A run over all lines of a source.
ghost use Rattle.std.specs.Prelude.{◌≡◌, ◌<◌, ◌≤◌, ℕ, List, [], ◌++◌, length, IfOk, IfSome, OnErr, OnOk};
ghost use Rattle.std.specs.Prelude.{true};
ghost use Rattle.line_streams.specs.Lines.{EndsAt, IsOneLine, last_line_of, unended_of};
ghost use Rattle.line_streams.specs.Filter.{ended_lines_of, within, Adds, Become, Stays};
ghost use Rattle.line_streams.specs.Prompt.{BreaksOff, Grows, GrowsInPart, HasBegun, HasFiltered};
ghost use Rattle.line_streams.specs.Prompt.{IsFresh, IsPassed, PassesOn, Waits, Writes};

use crate::exchange::{Exchange, FilterError};
use crate::lines::{LineJob, append_lines, place_of_end};
use std::alloc::{AllocError, Global};

/// Ends the line that waits with the first bytes of the block, and appends what the lines become.
fn append_block<J: LineJob>(
    job: &mut J,
    longest: usize,
    pending: &mut Vec<u8>,
    texts: &mut Vec<u8>,
    block: &[u8],
    end: usize,
) -> Result<(), AllocError>
    requires ready { J.is_ready job.old }
    requires held { IsOneLine pending.old.items }
    requires found { EndsAt block.now end }
    ensures stays { Stays (J.becomes job.old) (J.becomes job.new) }
    ensures waits { OnOk result
        (pending.new.items ≡ unended_of (pending.old.items ++ block.now)) }
    ensures appended { OnOk result (Adds
        (Become (within longest (J.becomes job.old))
        (ended_lines_of (pending.old.items ++ block.now)))
        texts.old.items texts.new.items) }
{
    let rest = &block[end + 1..];
    pending.extend_from_slice(&block[..end + 1])?;
    let whole = append_lines(job, longest, texts, pending.as_slice(), rest)?;
    pending.clear();
    pending.extend_from_slice(&rest[whole..])?;
    Ok(())
}

/// Takes a block of the input: when it is done, what each line that it ends becomes was written.
fn take_block<J: LineJob, S: Exchange>(
    job: &mut J,
    longest: usize,
    pending: &mut Vec<u8>,
    texts: &mut Vec<u8>,
    block: &[u8],
    exchange: &mut S,
) -> Result<(), FilterError>
    requires held { IsOneLine pending.old.items }
    ensures stays { Stays (J.becomes job.old) (J.becomes job.new) }
    ensures got { S.got exchange.new ≡ S.got exchange.old }
    ensures waits { OnOk result
        (pending.new.items ≡ unended_of (pending.old.items ++ block.now)) }
    ensures written { OnOk result (Writes (within longest (J.becomes job.old))
        (ended_lines_of (pending.old.items ++ block.now))
        (S.put exchange.old) (S.put exchange.new)) }
    ensures cut { OnErr result (BreaksOff (within longest (J.becomes job.old))
        (ended_lines_of (pending.old.items ++ block.now))
        (S.put exchange.old) (S.put exchange.new)) }
{
    let Some(end) = place_of_end(block) else {
        pending.extend_from_slice(block)?;
        return Ok(());
    };
    job.prepare()?;
    texts.clear();
    append_block(job, longest, pending, texts, block, end)?;
    exchange.write_all(texts.as_slice())?;
    Ok(())
}

/// Writes the bytes of the block that belong to a line that passes, if one does. Returns the
/// position at which the next line begins, or `None` if the line goes on behind the block.
fn pass_on<S: Exchange>(
    is_passing: bool,
    block: &[u8],
    exchange: &mut S,
) -> Result<Option<usize>, FilterError>
    ensures got { S.got exchange.new ≡ S.got exchange.old }
    ensures inside { IfOk result (λ start. IfSome start (λ from. from ≤ length block.now)) }
    ensures passed { IfOk result (λ start.
        PassesOn is_passing block.now start (S.put exchange.old) (S.put exchange.new)) }
    ensures cut { OnErr result ((is_passing ≡ true) × (piece : List ℕ) × IsPassed block.now piece
        × GrowsInPart (S.put exchange.old) (S.put exchange.new) piece) }
{
    if !is_passing {
        return Ok(Some(0));
    }
    let Some(end) = place_of_end(block) else {
        exchange.write_all(block)?;
        return Ok(None);
    };
    exchange.write_all(&block[..end + 1])?;
    Ok(Some(end + 1))
}

/// Writes what waits of a line, if that is more than `longest` bytes, and returns whether it is.
fn pass_early<J: LineJob, S: Exchange>(
    job: &mut J,
    longest: usize,
    pending: &mut Vec<u8>,
    exchange: &mut S,
) -> Result<bool, FilterError>
    ensures stays { Stays (J.becomes job.old) (J.becomes job.new) }
    ensures got { S.got exchange.new ≡ S.got exchange.old }
    ensures early { IfOk result (λ passes. (early : List ℕ)
        × Grows (S.put exchange.old) (S.put exchange.new) early
        × Waits longest passes pending.old.items early pending.new.items) }
    ensures cut { OnErr result ((longest < length pending.old.items)
        × GrowsInPart (S.put exchange.old) (S.put exchange.new) pending.old.items) }
{
    if pending.len() <= longest {
        return Ok(false);
    }
    job.pass_long(longest);
    exchange.write_all(pending.as_slice())?;
    pending.clear();
    Ok(true)
}

/// Writes what the last line becomes, if there is one.
fn take_last<J: LineJob, S: Exchange>(
    job: &mut J,
    longest: usize,
    pending: &Vec<u8>,
    texts: &mut Vec<u8>,
    exchange: &mut S,
) -> Result<(), FilterError>
    ensures got { S.got exchange.new ≡ S.got exchange.old }
    ensures ended { S.has_ended exchange.old → S.has_ended exchange.new }
    ensures written { OnOk result (Writes (within longest (J.becomes job.old))
        (last_line_of pending.now.items) (S.put exchange.old) (S.put exchange.new)) }
    ensures cut { OnErr result (BreaksOff (within longest (J.becomes job.old))
        (last_line_of pending.now.items) (S.put exchange.old) (S.put exchange.new)) }
{
    if pending.is_empty() {
        return Ok(());
    }
    job.prepare()?;
    texts.clear();
    append_lines(job, longest, texts, pending.as_slice(), &[])?;
    exchange.write_all(texts.as_slice())?;
    Ok(())
}

/// How many bytes are read at a time.
const BLOCK_SIZE: usize = 65_536;

/// Writes what each line of the input becomes, to the end of the input. A line of more than
/// `longest` bytes, its line feed among them, passes as it is. When a read is made, no line that
/// has ended waits for its text, and at most `longest` bytes of another line wait. After an error
/// what some first lines become was written, that of the last one of them perhaps in part.
pub fn run<J: LineJob, S: Exchange>(
    alloc: Global,
    job: &mut J,
    longest: usize,
    exchange: &mut S,
) -> Result<(), FilterError>
    requires fresh { IsFresh (S.got exchange.old) (S.put exchange.old) }
    ensures ended { OnOk result (S.has_ended exchange.new) }
    ensures ok { OnOk result (HasFiltered (within longest (J.becomes job.old))
        (S.got exchange.new) (S.put exchange.new)) }
    ensures err { OnErr result (HasBegun (within longest (J.becomes job.old))
        (S.got exchange.new) (S.put exchange.new)) }
{
    let mut pending = Vec::new(alloc);
    let mut is_passing = false;
    let mut texts = Vec::new(alloc);
    let mut block = [0u8; BLOCK_SIZE];
    for _ in 0..u64::MAX {
        let count = exchange.read(job, longest, &mut block)?;
        if count == 0 {
            take_last(job, longest, &pending, &mut texts, exchange)?;
            return Ok(());
        }
        let read = &block[..count];
        let Some(from) = pass_on(is_passing, read, exchange)? else {
            continue;
        };
        take_block(
            job,
            longest,
            &mut pending,
            &mut texts,
            &read[from..],
            exchange,
        )?;
        is_passing = pass_early(job, longest, &mut pending, exchange)?;
    }
    Err(FilterError::Read)
}
