//! Moments of dates of which the year is not known.
ghost use Rattle.std.specs.Prelude.{◌≡◌, ◌<◌, IfNone, IfSome};
ghost use Rattle.time_lines.specs.declared.until.Years.TheVariants.{Latest};
ghost use Rattle.time_lines.specs.Described.{HasDay, HasYearlessMoment, IsPastIn, IsUntilDayAfter};
ghost use Rattle.time_lines.specs.Described.{IsLackIn, NoPastIn, in_year, tried_year};

use crate::described::Zone;
use crate::passed::Why;
use crate::until::{Until, Years};
use time_below::{Date, PlainDateTime, Timestamp};

/// How many years are tried. In any so many that follow one another a leap year is.
const YEARS_TRIED: u8 = 10;

/// The seconds of a day.
const DAY_SECONDS: i64 = 86_400;

impl Years {
    /// Returns the latest year in which the moment is at most a day after this one.
    pub fn before_day_after(now: Timestamp) -> Years
        ensures { IsUntilDayAfter now result }
    {
        Years::Latest(Until {
            year: now.date().year(),
            second: now.as_seconds() + DAY_SECONDS,
        })
    }
}

/// The same month, day and time of another year, if that year has the day.
fn in_year(local: PlainDateTime, year: i32) -> Option<PlainDateTime>
    ensures some { IfSome result (λ t. HasDay year local × (t ≡ in_year year local)) }
    ensures none { IfNone result (HasDay year local → ⊥) }
{
    let (_, month, day) = local.date().to_calendar_date();
    match Date::from_calendar_date(year, month, day) {
        Ok(date) => Some(PlainDateTime::new(date, local.time())),
        Err(_) => None,
    }
}

/// The year that is tried after so many others.
fn tried_year(until: &Until, back: u8) -> i32
    requires { back < 10 }
    ensures { result ≡ tried_year until.now back }
{
    until.year + 1 - back as i32
}

/// The moment of the date and time in the year that is tried after so many others, if it has one
/// that is not later than the second.
fn past_moment<Z: Zone>(
    zone: &Z,
    local: PlainDateTime,
    until: &Until,
    back: u8,
) -> Option<Timestamp>
    requires { back < 10 }
    ensures some { IfSome result (IsPastIn (Z.has_moment zone.now) until.now.second
        (tried_year until.now back) local) }
    ensures none { IfNone result (NoPastIn (Z.has_moment zone.now) until.now.second
        (tried_year until.now back) local) }
{
    let there = in_year(local, tried_year(until, back))?;
    let moment = zone.moment_of(there)?;
    if moment.as_seconds() <= until.second {
        Some(moment)
    } else {
        None
    }
}

/// The moment in the latest year in which it is not later than the second.
fn latest_moment<Z: Zone>(zone: &Z, local: PlainDateTime, until: &Until) -> Option<Timestamp>
    ensures { HasYearlessMoment (Z.has_moment zone.now) (Latest until.now) local result }
{
    for back in 0..YEARS_TRIED {
        if let Some(moment) = past_moment(zone, local, until, back) {
            return Some(moment);
        }
    }
    None
}

/// Why a date and time without a year has no moment, if it has none.
pub(crate) fn lack_in(local: PlainDateTime, years: &Years) -> Why
    ensures { IsLackIn years.now local result }
{
    match years {
        Years::One(year) if in_year(local, *year).is_none() => Why::NoDay,
        _ => Why::NoLocalMoment,
    }
}

/// The moment in the year that is asked for.
pub(crate) fn yearless_moment<Z: Zone>(
    zone: &Z,
    local: PlainDateTime,
    years: &Years,
) -> Option<Timestamp>
    ensures { HasYearlessMoment (Z.has_moment zone.now) years.now local result }
{
    match years {
        Years::Latest(until) => latest_moment(zone, local, until),
        Years::One(year) => zone.moment_of(in_year(local, *year)?),
    }
}
