//! Texts of RFC 2822 as it is written here, by the places of their bytes.
//!
//! What is read here is written and compared, so that a byte that is no digit gives some number.
ghost use Rattle.std.specs.Prelude.{◌≡◌, ◌≢◌, ◌+◌, ◌*◌, ◌<◌, ◌↔◌, ◌++◌, ℕ, List, Some, pos, codes};
ghost use Rattle.std.specs.Prelude.{IfNone, IfSome, IsTrue};
ghost use Rattle.std.specs.Int.{IsInRange};
ghost use Rattle.time_below.specs.Calendar.{IsDayOfMonth, OrdinalDate, date_of};
ghost use Rattle.time_below.specs.Moment.{OffsetDateAndTime};
ghost use Rattle.time_below.specs.Offset.{Offset};
ghost use Rattle.time_below.specs.TimeOfDay.{TimeOfDay};
ghost use Rattle.time_fmt.specs.Outcome.{done};
ghost use Rattle.time_known.specs.Laws.{IsValue};
ghost use Rattle.time_known.specs.Parts.{ClockTime, SignedOffset};
ghost use Rattle.time_known.specs.Rfc2822.{rfc2822_of};
ghost use Rattle.time_known.specs.Rfc2822Grammar.{NamedDate, Rfc2822Spells};
ghost use Rattle.time_known.specs.Rules.{Digits};

use crate::days::{Day, date_of, days_of_month};
use crate::digit_runs::two;
use crate::letters::{Names, place_of};
use crate::offset::signed_offset;
use crate::written::difference_from;
use std::default::Default;
use time_below::{Date, OffsetDateTime, Time, UtcOffset};
use time_known::fields::accepted_fields;
use time_known::rfc2822::Rfc2822Text;
use time_known::sink::Text;
use time_provide::DateState;

// How many bytes a text has, and where its time of day and its offset begin.
const LENGTH: usize = 31;

const TIME: usize = 17;

const OFFSET: usize = 26;

// The date of a year, a month and a day, if there is one.
fn real_date(year: u16, month: u8, day: u8) -> Option<Date>
    requires { IsInRange 1 12 month }
    ensures { year < 10_000 → IsDayOfMonth (pos year) month day
        → result ≡ Some (date_of (pos year) month day) }
{
    if 9_999 < year || day < 1 || days_of_month(year, month) < day {
        return None;
    }
    Some(date_of(Day { year, month, day }))
}

// The date at the front of a text.
fn date_at(text: &[u8]) -> Option<Date>
    ensures { (date : OrdinalDate) (front rest : List ℕ) → NamedDate date front
        → text.now ≡ front ++ rest → result ≡ Some date }
{
    let [_, _, _, _, _, d, e, _, j, k, l, _, w, x, y, z, ..] = text else {
        return None;
    };
    let place = place_of(Names::Month, *j, *k, *l)?;
    let year = 100 * two(*w, *x) as u16 + two(*y, *z) as u16;
    real_date(year, place + 1, two(*d, *e))
}

// The time of day at the front of a text.
fn time_at(text: &[u8]) -> Option<Time>
    ensures reads { (time : TimeOfDay) (front rest : List ℕ) → ClockTime (codes ":") time front
        → time.nanosecond ≡ 0 → text.now ≡ front ++ rest → result ≡ Some time }
    ensures whole { IfSome result (λ time. time.nanosecond ≡ 0) }
{
    let [h, i, _, m, n, _, s, t, ..] = text else {
        return None;
    };
    let (hour, minute, second) = (two(*h, *i), two(*m, *n), two(*s, *t));
    if 23 < hour || 59 < minute || 59 < second {
        return None;
    }
    Some(Time::from_valid_hms_nano(hour, minute, second, 0))
}

// The offset that a text is.
fn offset_at(text: &[u8]) -> Option<UtcOffset>
    ensures { (offset : Offset) → SignedOffset 25 (Digits 2) offset text.now
        → result ≡ Some offset }
{
    let [sign, h, i, m, n] = text else {
        return None;
    };
    let (hours, minutes) = (two(*h, *i), two(*m, *n));
    if 25 < hours || 59 < minutes {
        return None;
    }
    Some(signed_offset(*sign == b'-', hours, minutes))
}

// The value of a text, if a value is written so.
fn value_at(text: &[u8]) -> Option<OffsetDateTime>
    ensures reads { (value : OffsetDateAndTime) → Rfc2822Spells value text.now
        → result ≡ Some value }
    ensures whole { IfSome result (λ value. value.time.nanosecond ≡ 0) }
{
    if text.len() != LENGTH {
        return None;
    }
    let date = date_at(text)?;
    let time = time_at(&text[TIME..])?;
    let offset = offset_at(&text[OFFSET..])?;
    Some(OffsetDateTime::new_in_offset(date, time, offset))
}

// The text of a value, if it has one.
pub(crate) fn text_of(value: &OffsetDateTime) -> Option<Rfc2822Text>
    ensures text { IfSome result (λ t.
        rfc2822_of value.now ≡ done (⟦<Rfc2822Text as Text>⟧.text t)) }
    ensures real { IfSome result (λ _. IsValue value.now) }
    ensures none { IfNone result ((text : List ℕ) → rfc2822_of value.now ≢ done text) }
{
    match accepted_fields(1900, 25, value, &mut DateState::default()) {
        Ok(fields) => {
            let weekday = value.date().weekday();
            Some(Rfc2822Text { weekday, fields })
        }
        Err(_) => None,
    }
}

// The value that is written as this text, if there is one.
pub(crate) fn value_of(text: &[u8]) -> Option<OffsetDateTime>
    ensures read { IfSome result (λ v. Rfc2822Spells v text.now) }
    ensures none { IfNone result ((v : OffsetDateAndTime) → ¬ Rfc2822Spells v text.now) }
{
    let value = value_at(text)?;
    let own = text_of(&value)?;
    match difference_from(&own, text) {
        None => Some(value),
        Some(_) => None,
    }
}
