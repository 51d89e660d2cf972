//! What of a value a format has no place for.
ghost use Rattle.std.specs.Prelude.{◌≡◌, ℕ, List, IfOk, IfErr, nat_lt, unsigned_abs};
ghost use Rattle.time_fmt.specs.Ends.{refusal_of};
ghost use Rattle.time_fmt.specs.Outcome.{done, refused};
ghost use Rattle.time_known.specs.Accepted.{checked_text};

use time_below::UtcOffset;
use time_digits::ru16;
use time_fmt::Refused;

/// Returns the year as a number of four digits, if it is from the first to 9,999, and the offset
/// has at most this many hours and no seconds.
///
/// Else the first of them that is refused. No offset has more than 25 hours, so that where these
/// are the most they are not tested.
pub fn accepted_year(
    first: u16,
    greatest_hour: u8,
    year: i32,
    offset: UtcOffset,
) -> Result<ru16<0, 9_999>, Refused>
    ensures accepted { IfOk result (λ _. (text : List ℕ)
        → checked_text first greatest_hour year (unsigned_abs offset.hours)
        (unsigned_abs offset.seconds) text
        ≡ done text) }
    ensures year { IfOk result (λ y. y ≡ unsigned_abs year) }
    ensures refused { IfErr result (λ reason. (text : List ℕ)
        → checked_text first greatest_hour year (unsigned_abs offset.hours)
        (unsigned_abs offset.seconds) text
        ≡ refused (refusal_of reason)) }
{
    if year < first as i32 || year > 9_999 {
        return Err(Refused::InvalidYear);
    }
    let second = offset.as_hms().2.unsigned_abs();
    if has_more_hours(offset, greatest_hour) {
        return Err(Refused::InvalidOffsetHour);
    }
    if second != 0 {
        return Err(Refused::InvalidOffsetSecond);
    }
    Ok(ru16::within(year.unsigned_abs() as u16))
}

// Whether the offset has more hours than these, by their signed number: its size would cost more.
fn has_more_hours(offset: UtcOffset, greatest: u8) -> bool
    ensures { result ≡ nat_lt greatest (unsigned_abs offset.hours) }
{
    let hours = offset.as_hms().0;
    greatest < 25 && (hours < -(greatest as i8) || hours > greatest as i8)
}
