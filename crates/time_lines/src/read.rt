//! Texts in lines, read and replaced by what is shown of their moments.
ghost use Rattle.std.specs.Prelude.{◌≡◌, ◌+◌, ◌≤◌, length, take, drop, IfSome, IfNone, OnOk};
ghost use Rattle.line_streams.specs.Filter.{Adds};
ghost use Rattle.time_lines.specs.Read.{IsFirstText, NoText, NothingBefore, ReadBecomes};
ghost use Rattle.time_lines.specs.Number.{decimals_of};
ghost use Rattle.time_lines.specs.Read.{ReadsFirstOf, ReadsRfc3339, SameReads, offset_length};
ghost use Rattle.time_lines.specs.Read.{tail_length};
ghost use Rattle.time_lines.specs.Shown.{IsReplaced, SameShown};
ghost use Rattle.time_read.specs.Lenient.{Rfc3339Means};

use crate::front::{Front, Reads, moment_of_value};
use crate::number::decimals_of;
use crate::passed::{Passed, Why, why_stays};
use crate::runs::digit_count;
use crate::shown::Shows;
use crate::unix::append_replaced;
use line_streams::{FilterError, LineJob};
use std::alloc::AllocError;
use time_below::OffsetDateTime;
use time_read::rfc3339::read_lenient;

/// Replaces the first text of each line that a reader reads by what is shown of its moment.
/// `Rfc3339Texts` reads those of RFC 3339, and `Described` those of descriptions. A line without
/// one passes as it is, and is counted; so does one of whose moment nothing is shown.
#[derive(Drop)]
pub struct ReadJob<S: Shows + Drop, R: Reads + Drop> {
    pub shown: S,
    pub reader: R,
    pub passed: Passed,
    /// The beginning of the first line that passed, or of what follows the text in it that was
    /// read.
    pub example: Vec<u8>,
}

/// How many bytes an offset has that the text begins with.
fn offset_length(text: &[u8]) -> usize
    ensures value { result ≡ offset_length text.now }
    ensures small { result ≤ 6 }
{
    match text {
        [] => 0,
        [b'Z' | b'z', ..] => 1,
        _ => 6,
    }
}

/// How many bytes decimals, if there are any, and an offset have that the text begins with.
#[inline(always)]
fn tail_length(text: &[u8]) -> usize
    ensures value { result ≡ tail_length text.now }
    ensures small { result ≤ length text.now + 6 }
{
    match text {
        [b'.', rest @ ..] => {
            let count = digit_count(rest);
            1 + count + offset_length(&rest[count..])
        }
        _ => offset_length(text),
    }
}

/// A text of RFC 3339 at the front of another one.
#[derive(Drop)]
struct TextHere {
    /// How many bytes it has.
    count: usize,
    /// How many decimals it has.
    decimals: usize,
    value: OffsetDateTime,
}

/// The text of RFC 3339 that this text begins with, if it does.
#[inline(always)]
fn text_here(text: &[u8]) -> Option<TextHere>
    ensures inside { IfSome result (λ r. r.count ≤ length text.now) }
    ensures means { IfSome result (λ r. Rfc3339Means r.value (take r.count text.now)) }
    ensures decimals { IfSome result (λ r. r.decimals ≡ length (decimals_of (drop 19 text.now))) }
    ensures none { IfNone result (NoText text.now) }
{
    if text.len() < 20 {
        return None;
    }
    if !text[0].is_ascii_digit() {
        return None;
    }
    let count = 19 + tail_length(&text[19..]);
    if count > text.len() {
        return None;
    }
    match read_lenient(&text[..count]) {
        Ok(value) => Some(TextHere {
            count,
            decimals: decimals_of(&text[19..]).len(),
            value,
        }),
        Err(_) => None,
    }
}

/// Reads the texts of RFC 3339 that `read_lenient` of `time_read` reads.
#[derive(Clone, Copy, Drop)]
pub struct Rfc3339Texts;

impl Reads for Rfc3339Texts {
    ghost reads = { λ _. ReadsRfc3339 };

    #[inline(always)]
    fn read_front(&mut self, text: &[u8]) -> Option<Front> {
        let here = text_here(text)?;
        Some(Front {
            count: here.count,
            decimals: here.decimals.min(9),
            moment: moment_of_value(here.value),
            lacks: Why::NoMoment,
        })
    }
}

/// Reads what the first of two readers reads, or else what the second one does.
#[derive(Drop)]
pub struct FirstOf<A: Reads + Drop, B: Reads + Drop>(pub A, pub B);

impl<A: Reads + Drop, B: Reads + Drop> Reads for FirstOf<A, B> {
    ghost reads = { λ r. ReadsFirstOf (A.reads r.0) (B.reads r.1) };

    #[inline(always)]
    #[tactic(auto, using(crate::proofs::ReadLemmas::first_of_stays))]
    fn read_front(&mut self, text: &[u8]) -> Option<Front> {
        match self.0.read_front(text) {
            Some(front) => Some(front),
            None => self.1.read_front(text),
        }
    }
}

/// A text in a line that was read, and its place.
#[derive(Drop)]
struct FoundText {
    at: usize,
    front: Front,
}

/// The first text of the line that is read, if it has one. Most texts begin their lines.
#[inline(always)]
fn first_text<R: Reads>(reader: &mut R, line: &[u8]) -> Option<FoundText>
    ensures same { SameReads (R.reads reader.old) (R.reads reader.new) }
    ensures some { IfSome result (λ r. IsFirstText (R.reads reader.old) line.now r.at r.front) }
    ensures at { IfSome result (λ r. r.at ≤ length line.now) }
    ensures count { IfSome result (λ r. r.front.count ≤ length (drop r.at line.now)) }
    ensures none { IfNone result (NothingBefore (R.reads reader.old) line.now (length line.now)) }
{
    if let Some(front) = reader.read_front(line) {
        return Some(FoundText { at: 0, front });
    }
    for at in 1..line.len() {
        if let Some(front) = reader.read_front(&line[at..]) {
            return Some(FoundText { at, front });
        }
    }
    None
}

/// Appends the line with what is shown of the moment of a text of it in place of the text. Says
/// whether a text took its place.
#[inline(always)]
fn append_found<S: Shows>(
    shown: &mut S,
    output: &mut Vec<u8>,
    line: &[u8],
    found: &FoundText,
) -> Result<bool, AllocError>
    requires at { found.now.at ≤ length line.now }
    requires count { found.now.front.count ≤ length (drop found.now.at line.now) }
    ensures same { SameShown (S.shows shown.old) (S.shows shown.new) }
    ensures appended { OnOk result (Adds (IsReplaced (S.shows shown.old found.now.front.decimals)
        found.now.front.moment
        (take found.now.at line.now)
        (drop found.now.front.count (drop found.now.at line.now)) line.now)
        output.old.items output.new.items) }
{
    let rest = &line[found.at..];
    let after = &rest[found.front.count..];
    append_replaced(
        shown,
        output,
        &line[..found.at],
        &[],
        rest,
        after,
        found.front.moment,
        found.front.decimals,
    )
}

/// How many bytes of a line are kept as an example.
const EXAMPLE_BYTES: usize = 1_024;

/// Counts a line that passed as it was, if there is a reason, and keeps the beginning of a text of
/// the first such line.
fn note(
    passed: &mut Passed,
    example: &mut Vec<u8>,
    stays: Option<Why>,
    text: &[u8],
) -> Result<(), AllocError> {
    if stays.is_some() && passed.first.is_none() {
        example.extend_from_slice(&text[..text.len().min(EXAMPLE_BYTES)])?;
    }
    passed.pass_if(stays);
    Ok(())
}

impl<S: Shows + Drop, R: Reads + Drop> LineJob for ReadJob<S, R> {
    ghost becomes = { λ job. ReadBecomes (R.reads job.reader) (S.shows job.shown) };

    ghost is_ready = { λ _. Unit {0} };

    fn prepare(&mut self) -> Result<(), FilterError> {
        Ok(())
    }

    fn append(&mut self, output: &mut Vec<u8>, line: &[u8]) -> Result<(), AllocError> {
        self.passed.begin_line();
        let Some(found) = first_text(&mut self.reader, line) else {
            let stays = Some(Why::NoTime);
            note(&mut self.passed, &mut self.example, stays, line)?;
            output.extend_from_slice(line)?;
            return Ok(());
        };
        let is_shown = append_found(&mut self.shown, output, line, &found)?;
        let front = found.front;
        let stays = why_stays(is_shown, front.moment.is_some(), front.lacks);
        let behind = &line[found.at..][front.count..];
        note(&mut self.passed, &mut self.example, stays, behind)?;
        Ok(())
    }

    fn pass_long(&mut self, longest: usize) {
        self.passed.pass_long(longest);
    }
}
