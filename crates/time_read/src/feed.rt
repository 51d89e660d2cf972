//! The fields of a text of mail or of a feed.
ghost use Rattle.std.specs.Prelude.{◌≡◌, ◌<◌, ◌≤◌, ◌↔◌, IsTrue, IfOk, IfErr, IfSome, length, take};
ghost use Rattle.std.specs.Int.{IsInRange};
ghost use Rattle.time_known.specs.Rfc2822Grammar.{month_names};
ghost use Rattle.time_known.specs.Rules.{◌▹◌, Name};
ghost use Rattle.time_read.specs.Front.{Front};
ghost use Rattle.time_read.specs.MailLenient.{AnyCase, MeansDay, MeansSecond, MeansWeekday};
ghost use Rattle.time_read.specs.MailLenient.{MeansYear, full_year};
ghost use Rattle.time_read.specs.Names.{list_of};
ghost use Rattle.time_read.specs.Shapes.{Two};
ghost use Rattle.time_read.specs.Space.{IsGap};

use crate::decimals::first_digits;
use crate::digits::{after, two_within};
use crate::fault::{Expected, MailPart, Unexpected};
use crate::letters::{Names, count, letters};
use crate::space::{gap, mark, space};

// Whether a text begins with the name at a place, in either case.
fn is_name(text: &[u8], names: Names, place: u8) -> bool
    requires place { place < length (list_of names) }
    requires long { 3 ≤ length text.now }
    ensures { IsTrue result ↔ AnyCase (Name (list_of names) place) (take 3 text.now) }
{
    let (one, two, three) = letters(names, place);
    text[..3].eq_ignore_ascii_case(&[one, two, three])
}

// Reads one of these names in either case, or nothing: its place from 0.
fn some_name(text: &[u8], names: Names) -> Option<(u8, &[u8])>
    ensures read { IfSome result (λ r.
        Front (AnyCase (Name (list_of names) r.0)) text.now r.1.now) }
    ensures range { IfSome result (λ r. r.0 < length (list_of names)) }
    ensures shorter { IfSome result (λ r. length r.1.now ≤ length text.now) }
{
    if text.len() < 3 {
        return None;
    }
    let mut place = 0;
    while place < count(names) {
        if is_name(text, names, place) {
            return Some((place, &text[3..]));
        }
        place += 1;
    }
    None
}

// Whether a text begins with a digit.
fn begins_with_digit(text: &[u8]) -> bool {
    match text {
        [first, ..] => first.is_ascii_digit(),
        [] => false,
    }
}

// Reads the name of a weekday and a comma, or nothing before a day: its days from Monday.
pub(crate) fn weekday(text: &[u8]) -> Result<(Option<u8>, &[u8]), Unexpected>
    ensures read { IfOk result (λ r. Front (MeansWeekday r.0) text.now r.1.now) }
    ensures range { IfOk result (λ r. IfSome r.0 (λ w. w < 7)) }
    ensures shorter { IfOk result (λ r. length r.1.now ≤ length text.now) }
    ensures left { IfErr result (λ e. e.left ≤ length text.now) }
{
    if begins_with_digit(text) {
        return Ok((None, text));
    }
    let Some((weekday, rest)) = some_name(text, Names::Weekday) else {
        return Err(Unexpected {
            left: text.len(),
            expected: Expected::Mail(MailPart::WeekdayOrDay),
        });
    };
    let rest = ok!(mark(rest, b','));
    Ok((Some(weekday), rest))
}

// Reads a day of one digit or two.
fn day(text: &[u8]) -> Result<(u8, &[u8]), Unexpected>
    ensures read { IfOk result (λ r. Front (MeansDay r.0) text.now r.1.now) }
    ensures range { IfOk result (λ r. IsInRange 1 31 r.0) }
    ensures shorter { IfOk result (λ r. length r.1.now ≤ length text.now) }
    ensures left { IfErr result (λ e. e.left ≤ length text.now) }
{
    let (number, count) = first_digits(text);
    if count < 1 || 2 < count || number < 1 || 31 < number {
        return Err(Unexpected {
            left: text.len(),
            expected: Expected::Mail(MailPart::Day),
        });
    }
    Ok((number as u8, &text[count..]))
}

// Reads the name of a month: its place from 0.
fn month(text: &[u8]) -> Result<(u8, &[u8]), Unexpected>
    ensures read { IfOk result (λ r. Front (AnyCase (Name month_names r.0)) text.now r.1.now) }
    ensures range { IfOk result (λ r. r.0 < 12) }
    ensures shorter { IfOk result (λ r. length r.1.now ≤ length text.now) }
    ensures left { IfErr result (λ e. e.left ≤ length text.now) }
{
    match some_name(text, Names::Month) {
        Some(read) => Ok(read),
        None => Err(Unexpected {
            left: text.len(),
            expected: Expected::Mail(MailPart::Month),
        }),
    }
}

// The year that some digits mean, by how many they are.
fn full_year(count: usize, number: u32) -> u32
    requires { number < 10_000 }
    ensures { result ≡ full_year count number }
{
    match (count, number) {
        (2, 0..50) => 2000 + number,
        (2 | 3, _) => 1900 + number,
        _ => number,
    }
}

// Reads a year of two to four digits, from 1900 on.
fn year(text: &[u8]) -> Result<(u16, &[u8]), Unexpected>
    ensures read { IfOk result (λ r. Front (MeansYear r.0) text.now r.1.now) }
    ensures range { IfOk result (λ r. r.0 < 10_000) }
    ensures shorter { IfOk result (λ r. length r.1.now ≤ length text.now) }
    ensures left { IfErr result (λ e. e.left ≤ length text.now) }
{
    let (number, count) = first_digits(text);
    let fault = Unexpected {
        left: text.len(),
        expected: Expected::Mail(MailPart::Year),
    };
    if count < 2 || 4 < count || 10_000 <= number {
        return Err(fault);
    }
    let year = full_year(count, number);
    if year < 1900 || 10_000 <= year {
        return Err(fault);
    }
    Ok((year as u16, &text[count..]))
}

// Reads a day, the name of a month, as its place from 0, and a year, with gaps between them.
pub(crate) fn day_month_year(text: &[u8]) -> Result<(u8, u8, u16, &[u8]), Unexpected>
    ensures read { IfOk result (λ r. Front (MeansDay r.0 ▹ IsGap
        ▹ AnyCase (Name month_names r.1) ▹ IsGap ▹ MeansYear r.2) text.now r.3.now) }
    ensures day { IfOk result (λ r. IsInRange 1 31 r.0) }
    ensures month { IfOk result (λ r. r.1 < 12) }
    ensures year { IfOk result (λ r. r.2 < 10_000) }
    ensures shorter { IfOk result (λ r. length r.3.now ≤ length text.now) }
    ensures left { IfErr result (λ e. e.left ≤ length text.now) }
{
    let (day, rest) = ok!(day(text));
    let rest = ok!(gap(rest));
    let (place, rest) = ok!(month(rest));
    let rest = ok!(gap(rest));
    let (year, rest) = ok!(year(rest));
    Ok((day, place, year, rest))
}

// Reads two digits of a number up to the greatest.
pub(crate) fn two(text: &[u8], greatest: u8, expected: MailPart) -> Result<(u8, &[u8]), Unexpected>
    requires { greatest < 100 }
    ensures read { IfOk result (λ r. Front (Two 0 greatest r.0) text.now r.1.now) }
    ensures range { IfOk result (λ r. r.0 ≤ greatest) }
    ensures shorter { IfOk result (λ r. length r.1.now ≤ length text.now) }
    ensures left { IfErr result (λ e. e.left ≤ length text.now) }
{
    match two_within(text, 0, greatest) {
        Some(read) => Ok(read),
        None => Err(Unexpected {
            left: text.len(),
            expected: Expected::Mail(expected),
        }),
    }
}

// Reads a second after a colon, or nothing where there is no colon. Second 60 means 59.
pub(crate) fn second(text: &[u8]) -> Result<(u8, &[u8]), Unexpected>
    ensures read { IfOk result (λ r. Front (MeansSecond r.0) text.now r.1.now) }
    ensures range { IfOk result (λ r. r.0 < 60) }
    ensures shorter { IfOk result (λ r. length r.1.now ≤ length text.now) }
    ensures left { IfErr result (λ e. e.left ≤ length text.now) }
{
    let behind_space = ok!(space(text));
    if after(behind_space, b':').is_none() {
        return Ok((0, text));
    }
    let rest = ok!(mark(text, b':'));
    let (second, rest) = ok!(two(rest, 60, MailPart::Second));
    Ok((second.min(59), rest))
}
