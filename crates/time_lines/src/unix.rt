//! Unix time in lines, replaced by its text.
ghost use Rattle.std.specs.Prelude.{◌≡◌, ◌≤◌, ◌+◌, ◌-◌, ◌++◌, ◌&&◌, true, false, length, drop};
ghost use Rattle.std.specs.Prelude.{Some, IfNone, IfOk, IfSome, OnOk, if◌then◌else◌};
ghost use Rattle.line_streams.specs.Filter.{Adds};
ghost use Rattle.std.specs.Char.{is_ascii_digit};
ghost use Rattle.std.specs.List.{list_all};
ghost use Rattle.time_below.specs.Moment.{IsMoment};
ghost use Rattle.time_lines.specs.Json.{has_exponent};
ghost use Rattle.time_lines.specs.Number.{digit_count, named_moment, number_at};
ghost use Rattle.time_lines.specs.Shown.{IsReplaced, SameShown};
ghost use Rattle.time_lines.specs.Unix.{FromBecomes, HasText, LooksFrom, PieceBecomes, RestBecomes};
ghost use Rattle.time_lines.specs.Unix.{IsFoundNumber, UnixBecomes, between, is_quoted};
ghost use Rattle.time_lines.specs.Unix.{decimals_at, moment_of_time};

use crate::json::{has_exponent, is_value_at, quotes_if};
use crate::number::{
    Numbers, Unit, decimals_length, decimals_of, decimals_shown, has_minus, moment_of,
    number_start, unit_for, unit_of,
};
use crate::passed::{Passed, Why, why_stays};
use crate::shown::Shows;
use line_streams::{FilterError, LineJob};
use memchr::memmem::Finder;
use std::alloc::AllocError;
use time_below::Timestamp;

/// Replaces the first time of each line, or each one, which is Unix time, by what is shown of its
/// moment. A line without one passes as it is, and is counted; so does one of whose times nothing
/// is shown.
#[derive(Drop)]
pub struct UnixJob<'a, S: Shows + Drop> {
    pub shown: S,
    pub numbers: Numbers,
    /// The text after whose first occurrence times are looked for, if one is asked for.
    pub after: Option<Finder<'a>>,
    pub passed: Passed,
}

/// Appends the bytes, by a copy if there are any.
#[inline(always)]
fn append_bytes(output: &mut Vec<u8>, bytes: &[u8]) -> Result<(), AllocError>
    ensures { OnOk result (output.new.items ≡ output.old.items ++ bytes.now) }
{
    if bytes.is_empty() {
        return Ok(());
    }
    output.extend_from_slice(bytes)?;
    Ok(())
}

/// Where a number with this sign begins whose first digit is here.
fn first_place(is_negative: bool, start: usize) -> usize
    requires { is_negative ≡ true → 1 ≤ start }
    ensures { result ≡ (if is_negative then start - 1 else start) }
{
    if is_negative { start - 1 } else { start }
}

/// Appends some bytes, what is shown of the moment with the marks on both sides, and what follows
/// it. Where there is no moment, or nothing is shown of it, its own text is appended in place of
/// these. Says whether a text took that place.
#[inline(always)]
pub(crate) fn append_replaced<S: Shows>(
    shown: &mut S,
    output: &mut Vec<u8>,
    before: &[u8],
    marks: &[u8],
    own: &[u8],
    after: &[u8],
    moment: Option<Timestamp>,
    decimals: usize,
) -> Result<bool, AllocError>
    ensures same { SameShown (S.shows shown.old) (S.shows shown.new) }
    ensures appended { OnOk result (Adds
        (IsReplaced (S.shows shown.old decimals) moment (before.now ++ marks.now) (marks.now ++ after.now)
        (before.now ++ own.now))
        output.old.items output.new.items) }
{
    append_bytes(output, before)?;
    let Some(moment) = moment else {
        output.extend_from_slice(own)?;
        return Ok(false);
    };
    let length = output.as_slice().len();
    append_bytes(output, marks)?;
    if shown.append(output, &moment, decimals)? {
        append_bytes(output, marks)?;
        append_bytes(output, after)?;
        return Ok(true);
    }
    output.truncate(length);
    output.extend_from_slice(own)?;
    Ok(false)
}

/// What came of a piece of a line: where it ends, and why its number stayed, if it did.
#[derive(Clone, Copy)]
struct Piece {
    end: usize,
    stays: Option<Why>,
}

/// A number of a line that is a time.
#[derive(Drop)]
struct FoundNumber {
    /// Where it begins, with its sign.
    first: usize,
    /// Where it ends.
    end: usize,
    /// It is a value of JSON, whose text is put in quotes.
    is_value: bool,
    /// How many decimals of a second it has.
    decimals: usize,
    /// Its moment, unless it has none or is a value with an exponent.
    moment: Option<Timestamp>,
}

/// Whether the number whose digits begin here is a value of JSON, whose text is put in quotes.
fn is_quoted(numbers: &Numbers, line: &[u8], start: usize) -> bool
    requires { start ≤ length line.now }
    ensures { result ≡ is_quoted numbers.now line.now start }
{
    numbers.is_json && is_value_at(line, start)
}

/// Whether a value of JSON goes on with an exponent.
fn is_value_with_exponent(is_value: bool, rest: &[u8]) -> bool
    ensures { result ≡ (is_value && has_exponent rest.now) }
{
    is_value && has_exponent(rest)
}

/// The moment that a number of these digits and decimals names, unless it stays as it is.
#[inline(always)]
fn moment_unless(
    stays: bool,
    asked: Option<Unit>,
    is_negative: bool,
    digits: &[u8],
    decimals: &[u8],
) -> Option<Timestamp>
    requires digits { list_all is_ascii_digit digits.now ≡ true }
    requires decimals { list_all is_ascii_digit decimals.now ≡ true }
    ensures some { IfSome result (λ m. (length digits.now ≤ 19) × IsMoment m
        × (m ≡ named_moment asked is_negative digits.now decimals.now) × (stays ≡ false)) }
    ensures none { IfNone result (length digits.now ≤ 19 → stays ≡ false
        → ¬ IsMoment (named_moment asked is_negative digits.now decimals.now)) }
{
    if stays {
        return None;
    }
    moment_of(asked, is_negative, digits, decimals)
}

/// The number that has so many digits from here on.
#[inline(always)]
fn found_number(numbers: &Numbers, line: &[u8], start: usize, count: usize) -> FoundNumber
    requires inside { start ≤ length line.now }
    requires digits { count ≤ length line.now - start }
    requires count { count ≡ digit_count (drop start line.now) }
    ensures first { result.first ≡ (number_at line.now start).first }
    ensures end { result.end ≡ (number_at line.now start).end }
    ensures value { result.is_value ≡ is_quoted numbers.now line.now start }
    ensures decimals { result.decimals ≡ decimals_at numbers.now line.now start }
    ensures some { IfSome result.moment (λ m. (m ≡ moment_of_time numbers.now line.now start)
        × HasText numbers.now line.now start) }
    ensures none { IfNone result.moment (¬ HasText numbers.now line.now start) }
    ensures order { result.first ≤ result.end }
    ensures inside { result.end ≤ length line.now }
{
    let digits_end = start + count;
    let decimals = decimals_of(&line[digits_end..]);
    let end = digits_end + decimals_length(decimals);
    let is_negative = has_minus(line, start);
    let is_value = is_quoted(numbers, line, start);
    let stays = is_value_with_exponent(is_value, &line[end..]);
    let digits = &line[start..digits_end];
    let moment = moment_unless(stays, numbers.unit, is_negative, digits, decimals);
    FoundNumber {
        first: first_place(is_negative, start),
        end,
        is_value,
        decimals: decimals_shown(unit_for(numbers.unit, count), decimals.len()),
        moment,
    }
}

/// The same. Most numbers begin their lines and have ten digits, and the copy for these alone is
/// the shorter one.
#[inline(always)]
fn found_number_by_case(numbers: &Numbers, line: &[u8], start: usize, count: usize) -> FoundNumber
    requires inside { start ≤ length line.now }
    requires digits { count ≤ length line.now - start }
    requires count { count ≡ digit_count (drop start line.now) }
    ensures { IsFoundNumber numbers.now line.now start result }
{
    if start == 0 && count == 10 {
        found_number(numbers, line, 0, 10)
    } else {
        found_number(numbers, line, start, count)
    }
}

/// The bytes from one position to another, and none where the second one comes before the first.
fn between(line: &[u8], at: usize, to: usize) -> &[u8]
    requires { to ≤ length line.now }
    ensures { result.now ≡ between at to line.now }
{
    if at <= to { &line[at..to] } else { &[] }
}

/// Appends what becomes of a line from a position to the end of its number, which has so many
/// digits from a second position on.
#[inline(always)]
fn append_piece<S: Shows>(
    shown: &mut S,
    numbers: &Numbers,
    output: &mut Vec<u8>,
    line: &[u8],
    at: usize,
    start: usize,
    count: usize,
) -> Result<Piece, AllocError>
    requires inside { start ≤ length line.now }
    requires digits { count ≤ length line.now - start }
    requires count { count ≡ digit_count (drop start line.now) }
    ensures same { SameShown (S.shows shown.old) (S.shows shown.new) }
    ensures end { IfOk result (λ piece. piece.end ≡ (number_at line.now start).end) }
    ensures inside { IfOk result (λ piece. piece.end ≤ length line.now) }
    ensures appended { OnOk result (Adds
        (PieceBecomes (S.shows shown.old) numbers.now line.now at start)
        output.old.items output.new.items) }
{
    let found = found_number_by_case(numbers, line, start, count);
    let before = between(line, at, found.first);
    let own = &line[found.first..found.end];
    let marks = quotes_if(found.is_value);
    let has_moment = found.moment.is_some();
    let is_shown = append_replaced(
        shown,
        output,
        before,
        marks,
        own,
        &[],
        found.moment,
        found.decimals,
    )?;
    Ok(Piece {
        end: found.end,
        stays: why_stays(is_shown, has_moment, Why::NoMoment),
    })
}

/// Appends what becomes of a line from a position on, where at most so many numbers are replaced.
/// Says whether a text took the place of one.
fn append_rest<S: Shows>(
    shown: &mut S,
    numbers: &Numbers,
    output: &mut Vec<u8>,
    line: &[u8],
    from: usize,
    most: usize,
) -> Result<bool, AllocError>
    requires from { from ≤ length line.now }
    ensures same { SameShown (S.shows shown.old) (S.shows shown.new) }
    ensures appended { OnOk result (Adds
        (RestBecomes (S.shows shown.old) numbers.now most line.now from from)
        output.old.items output.new.items) }
{
    let mut at = from;
    let mut is_any_shown = false;
    for round in 0..most {
        let Some((start, count)) = number_start(line, numbers, at) else {
            output.extend_from_slice(&line[at..])?;
            return Ok(is_any_shown);
        };
        let piece = append_piece(shown, numbers, output, line, at, start, count)?;
        is_any_shown = is_any_shown || piece.stays.is_none();
        at = piece.end;
    }
    output.extend_from_slice(&line[at..])?;
    Ok(is_any_shown)
}

/// Appends what becomes of a line after its first number, which came out so: what follows it, or
/// what becomes of that where each number is replaced. Says why the line passed as it was, if it
/// did.
fn append_behind<S: Shows>(
    shown: &mut S,
    numbers: &Numbers,
    output: &mut Vec<u8>,
    line: &[u8],
    first: &Piece,
) -> Result<Option<Why>, AllocError>
    requires inside { first.now.end ≤ length line.now }
    ensures same { SameShown (S.shows shown.old) (S.shows shown.new) }
    ensures appended { OnOk result (Adds
        (RestBecomes (S.shows shown.old) numbers.now
        (if numbers.now.is_all then length line.now - 1 else 0)
        line.now first.now.end first.now.end)
        output.old.items output.new.items) }
{
    if !numbers.is_all {
        output.extend_from_slice(&line[first.end..])?;
        return Ok(first.stays);
    }
    let most = line.len().saturating_sub(1);
    let is_any_shown = append_rest(shown, numbers, output, line, first.end, most)?;
    Ok(if is_any_shown { None } else { first.stays })
}

/// Why a line has no time from this position on. It is looked up for the first such line alone.
#[cold]
fn why_none(numbers: &Numbers, line: &[u8], from: usize) -> Why
    requires { from ≤ length line.now }
{
    let any = Numbers {
        unit: Some(Unit::Seconds),
        window: None,
        ..*numbers
    };
    match number_start(line, &any, from) {
        Some((_, count)) if unit_of(numbers.unit, count).is_none() => Why::NoUnit(count),
        Some(_) => Why::OtherYears,
        None => Why::NoTime,
    }
}

/// Appends a line that has no time from this position on, and counts that it passed.
fn append_timeless(
    numbers: &Numbers,
    passed: &mut Passed,
    output: &mut Vec<u8>,
    line: &[u8],
    from: usize,
) -> Result<(), AllocError>
    requires { from ≤ length line.now }
    ensures { OnOk result (output.new.items ≡ output.old.items ++ line.now) }
{
    output.extend_from_slice(line)?;
    let why = if passed.first.is_none() {
        why_none(numbers, line, from)
    } else {
        Why::NoTime
    };
    passed.pass(why);
    Ok(())
}

/// Appends what a line becomes whose times are looked for from this position on, and counts a line
/// that passed.
fn append_from<S: Shows>(
    shown: &mut S,
    numbers: &Numbers,
    passed: &mut Passed,
    output: &mut Vec<u8>,
    line: &[u8],
    from: usize,
) -> Result<(), AllocError>
    requires from { from ≤ length line.now }
    ensures same { SameShown (S.shows shown.old) (S.shows shown.new) }
    ensures appended { OnOk result (Adds
        (FromBecomes (S.shows shown.old) numbers.now (Some from) line.now)
        output.old.items output.new.items) }
{
    let Some((start, count)) = number_start(line, numbers, from) else {
        return append_timeless(numbers, passed, output, line, from);
    };
    let first = append_piece(shown, numbers, output, line, 0, start, count)?;
    let stays = append_behind(shown, numbers, output, line, &first)?;
    passed.pass_if(stays);
    Ok(())
}

/// From which position on times of the line are looked for, if the text after which they stand is
/// in it.
fn from_place(after: &Option<Finder<'_>>, line: &[u8]) -> Option<usize>
    ensures from { LooksFrom after.now line.now result }
    ensures inside { IfSome result (λ from. from ≤ length line.now) }
{
    let Some(text) = after else {
        return Some(0);
    };
    let at = text.find(line)?;
    Some(at + text.needle().len())
}

/// Appends what a line becomes by all that may be asked for, and counts a line that passed.
#[inline(never)]
fn append_asked<S: Shows>(
    shown: &mut S,
    numbers: &Numbers,
    after: &Option<Finder<'_>>,
    passed: &mut Passed,
    output: &mut Vec<u8>,
    line: &[u8],
) -> Result<(), AllocError>
    ensures same { SameShown (S.shows shown.old) (S.shows shown.new) }
    ensures appended { OnOk result (Adds
        (UnixBecomes (S.shows shown.old) numbers.now after.now line.now)
        output.old.items output.new.items) }
{
    let Some(from) = from_place(after, line) else {
        output.extend_from_slice(line)?;
        passed.pass(Why::NoPlace);
        return Ok(());
    };
    append_from(shown, numbers, passed, output, line, from)
}

/// The same where the first time of each line is replaced, and no JSON is read.
#[inline(always)]
fn append_usual<S: Shows>(
    shown: &mut S,
    numbers: &Numbers,
    passed: &mut Passed,
    output: &mut Vec<u8>,
    line: &[u8],
) -> Result<(), AllocError>
    requires first { numbers.now.is_all ≡ false }
    requires text { numbers.now.is_json ≡ false }
    ensures same { SameShown (S.shows shown.old) (S.shows shown.new) }
    ensures appended { OnOk result (Adds
        (FromBecomes (S.shows shown.old) numbers.now (Some 0) line.now)
        output.old.items output.new.items) }
{
    let usual = Numbers {
        is_json: false,
        ..*numbers
    };
    let Some((start, count)) = number_start(line, &usual, 0) else {
        return append_timeless(numbers, passed, output, line, 0);
    };
    let first = append_piece(shown, &usual, output, line, 0, start, count)?;
    passed.pass_if(first.stays);
    output.extend_from_slice(&line[first.end..])?;
    Ok(())
}

impl<S: Shows + Drop> LineJob for UnixJob<'_, S> {
    ghost becomes = { λ job. UnixBecomes (S.shows job.shown) job.numbers job.after };

    ghost is_ready = { λ _. Unit {0} };

    fn prepare(&mut self) -> Result<(), FilterError> {
        Ok(())
    }

    #[inline(always)]
    fn append(&mut self, output: &mut Vec<u8>, line: &[u8]) -> Result<(), AllocError> {
        let numbers = &self.numbers;
        let passed = &mut self.passed;
        passed.begin_line();
        if self.after.is_some() | numbers.is_all | numbers.is_json {
            append_asked(&mut self.shown, numbers, &self.after, passed, output, line)
        } else {
            append_usual(&mut self.shown, numbers, passed, output, line)
        }
    }

    fn pass_long(&mut self, longest: usize) {
        self.passed.pass_long(longest);
    }
}
