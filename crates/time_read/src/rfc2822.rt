//! RFC 2822.
ghost use Rattle.std.specs.Prelude.{◌≡◌, ◌<◌, ◌≤◌, IfSome, IfOk, IfErr, OnOk, false, length};
ghost use Rattle.time_below.specs.Calendar.{weekday_of};
ghost use Rattle.time_below.specs.Moment.{OffsetDateAndTime};
ghost use Rattle.time_below.specs.TimeOfDay.{time_of};
ghost use Rattle.time_known.specs.Rfc2822Grammar.{Rfc2822Spells};
ghost use Rattle.time_known.specs.Rules.{◌▹◌};
ghost use Rattle.time_read.specs.Front.{Front};
ghost use Rattle.time_read.specs.MailLenient.{MailMeans, MeansClock, MeansDate, MeansZone};
ghost use Rattle.time_read.specs.Shapes.{IsDay, date_of_day};
ghost use Rattle.time_read.specs.Space.{IsGap, IsSpace};

use crate::days::{Day, date_of, days_of_month};
use crate::fault::{Expected, MailPart, NotRead, Unexpected};
use crate::feed::{day_month_year, second, two, weekday};
use crate::mail::{text_of, value_of};
use crate::offset::signed_offset;
use crate::places::place_of_fault;
use crate::space::{gap, mark, space};
use crate::written::difference_from;
use crate::zones::zone;
use time_below::{Date, OffsetDateTime, Time, UtcOffset};

// The position of the seconds in a text.
const SECONDS: usize = 23;

// The fault of a text of a value that is written otherwise.
fn otherwise(value: &OffsetDateTime, text: &[u8]) -> Unexpected
    ensures { result.left ≤ length text.now }
{
    let no_year = Unexpected {
        left: text.len(),
        expected: Expected::Mail(MailPart::Year),
    };
    match text_of(value) {
        Some(own) => difference_from(&own, text).unwrap_or(no_year),
        None => no_year,
    }
}

// The fault of a text that is not written here: that of a text of mail, or the first byte at which
// the value of such a text is written otherwise.
#[cold]
#[inline(never)]
fn fault_of(text: &[u8]) -> NotRead
    ensures { result.at ≤ length text.now }
{
    match read_lenient(text) {
        Ok(value) => place_of_fault(text, otherwise(&value, text), SECONDS),
        Err(fault) => fault,
    }
}

/// Returns the value that a text of RFC 2822, section 3.3, spells: 31 bytes, with the weekday of
/// the date, single spaces, a year from 1900, an offset by its hours 00 to 25 and its minutes, no
/// second 60 and no offset `-0000`. Any other text is refused.
///
/// The value of a text is written and compared. A refused text has the fault of a text of mail, or
/// the first byte at which the value that it means is written otherwise.
pub fn read(text: &[u8]) -> Result<OffsetDateTime, NotRead>
    ensures read { IfOk result (λ v. Rfc2822Spells v text.now) }
    ensures refused { IfErr result (λ _. (v : OffsetDateAndTime) → ¬ Rfc2822Spells v text.now) }
    ensures within { IfErr result (λ e. e.at ≤ length text.now) }
{
    match value_of(text) {
        Some(value) => Ok(value),
        None => Err(fault_of(text)),
    }
}

// Whether a weekday is named that is not the date's.
fn is_other_weekday(weekday: Option<u8>, date: Date) -> bool
    ensures { result ≡ false → IfSome weekday (λ w. w ≡ weekday_of date) }
{
    match weekday {
        Some(weekday) => date.weekday().number_days_from_monday() != weekday,
        None => false,
    }
}

// Reads a date of mail.
fn lenient_date(text: &[u8]) -> Result<(Day, &[u8]), Unexpected>
    ensures read { IfOk result (λ r. Front (MeansDate (date_of_day r.0)) text.now r.1.now) }
    ensures day { IfOk result (λ r. IsDay r.0) }
    ensures shorter { IfOk result (λ r. length r.1.now ≤ length text.now) }
    ensures left { IfErr result (λ e. e.left ≤ length text.now) }
{
    let (weekday, from_day) = ok!(weekday(text));
    let (day, place, year, rest) = ok!(day_month_year(from_day));
    let month = place + 1;
    if days_of_month(year, month) < day {
        return Err(Unexpected {
            left: from_day.len(),
            expected: Expected::Mail(MailPart::DayOfMonth),
        });
    }
    let found = Day { year, month, day };
    let date = date_of(found);
    if is_other_weekday(weekday, date) {
        return Err(Unexpected {
            left: text.len(),
            expected: Expected::Mail(MailPart::Weekday(date.weekday())),
        });
    }
    Ok((found, rest))
}

// Reads an hour, a minute and a second, if there is one.
fn lenient_clock(text: &[u8]) -> Result<(u8, u8, u8, &[u8]), Unexpected>
    ensures read { IfOk result (λ r.
        Front (MeansClock (time_of r.0 r.1 r.2 0)) text.now r.3.now) }
    ensures hour { IfOk result (λ r. r.0 < 24) }
    ensures minute { IfOk result (λ r. r.1 < 60) }
    ensures second { IfOk result (λ r. r.2 < 60) }
    ensures shorter { IfOk result (λ r. length r.3.now ≤ length text.now) }
    ensures left { IfErr result (λ e. e.left ≤ length text.now) }
{
    let (hour, rest) = ok!(two(text, 23, MailPart::Hour));
    let rest = ok!(mark(rest, b':'));
    let (minute, rest) = ok!(two(rest, 59, MailPart::Minute));
    let (second, rest) = ok!(second(rest));
    Ok((hour, minute, second, rest))
}

// Reads white space and comments to the end of the text.
fn lenient_end(text: &[u8]) -> Result<(), Unexpected>
    ensures read { OnOk result (IsSpace text.now) }
    ensures left { IfErr result (λ e. e.left ≤ length text.now) }
{
    let rest = ok!(space(text));
    if !rest.is_empty() {
        return Err(Unexpected {
            left: rest.len(),
            expected: Expected::End,
        });
    }
    Ok(())
}

// Reads a gap and a zone, to the end of the text.
fn lenient_zone(text: &[u8]) -> Result<UtcOffset, Unexpected>
    ensures read { IfOk result (λ o. (IsGap ▹ MeansZone o ▹ IsSpace) text.now) }
    ensures left { IfErr result (λ e. e.left ≤ length text.now) }
{
    let rest = ok!(gap(text));
    let (is_negative, hours, minutes, rest) = ok!(zone(rest));
    ok!(lenient_end(rest));
    Ok(signed_offset(is_negative, hours, minutes))
}

// Reads a whole text of mail.
fn lenient(text: &[u8]) -> Result<OffsetDateTime, Unexpected>
    ensures read { IfOk result (λ v. MailMeans v text.now) }
    ensures left { IfErr result (λ e. e.left ≤ length text.now) }
{
    let rest = ok!(space(text));
    let (day, rest) = ok!(lenient_date(rest));
    let rest = ok!(gap(rest));
    let (hour, minute, second, rest) = ok!(lenient_clock(rest));
    let offset = ok!(lenient_zone(rest));
    let time = Time::from_valid_hms_nano(hour, minute, second, 0);
    Ok(OffsetDateTime::new_in_offset(date_of(day), time, offset))
}

/// Returns the value that a text of mail or of a feed means. Beside what [`read`] takes these are
/// the obsolete forms of RFC 5322, section 4.3, and what mailers write: white space and comments,
/// which may nest, between the parts; letters in either case; a day of one digit; a year of three
/// digits, which are added to 1900, or of two, of 1950 to 2049; no weekday; no seconds; zones by
/// name and by letter, where each letter but `J` is UTC; and `-0000`, which is UTC too. Second 60
/// means second 59. A weekday that is not the date's is refused, and so is a zone without a
/// meaning, as `CET`. The value is proved to be one that the text means. That each text with a
/// meaning is read, and that the place is the first part that is none, is tested.
pub fn read_lenient(text: &[u8]) -> Result<OffsetDateTime, NotRead>
    ensures read { IfOk result (λ v. MailMeans v text.now) }
    ensures within { IfErr result (λ e. e.at ≤ length text.now) }
{
    match lenient(text) {
        Ok(value) => Ok(value),
        Err(fault) => Err(NotRead {
            at: text.len() - fault.left,
            expected: fault.expected,
            is_second_60: false,
        }),
    }
}
