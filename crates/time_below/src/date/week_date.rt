//! Dates of the week calendar (ISO 8601-1:2019, 5.2.4).
ghost use Rattle.std.specs.Prelude.{◌≡◌, ◌↔◌, ◌<◌, nat_le, ◌&&◌, IsOk, IfOk, IfErr, codes};
ghost use Rattle.std.specs.Prelude.{if◌then◌else◌, pos, ◌+ℤ◌, unsigned_abs};
ghost use Rattle.std.specs.Int.{IsInRange};
ghost use Rattle.time_below.specs.Calendar.{greatest_year, IsYear, IsDayNumber, date_at};
ghost use Rattle.time_below.specs.Calendar.{weekday_of, iso_year_of, iso_week_of, days_before};
ghost use Rattle.time_below.specs.ComponentRange.{range_refusal, conditional_range};
ghost use Rattle.time_below.specs.ComponentRange.{unconditional_range};
ghost use Rattle.time_below.specs.WeekDate.{weeks_in_year, first_monday, week_day_number};
ghost use Rattle.time_below.specs.Weekday.{days_from_monday};

use super::{ALL_DAYS, Date, is_year};
use crate::component_range::ComponentRange;
use crate::util;
use crate::weekday::Weekday;

// The days from -999999-01-01 to the Monday of week 1 of the year.
fn first_monday(year: i32) -> u32
    requires { IsYear year }
    ensures value { pos result ≡ first_monday year +ℤ pos days_before }
    ensures range { result < ALL_DAYS }
{
    let fourth = Date { year, ordinal: 4 }.days_from_start();
    fourth - fourth % 7
}

impl Date {
    /// Returns the date of a year of the week calendar, -999,999 to 999,999, a week, 1 to 52, or 53
    /// in a year that has as many, and a weekday.
    ///
    /// # Errors
    ///
    /// A year or a week out of its range is refused as `year` or `week`, and as `weekday` the two
    /// days after 999999-12-31, in the last week of all.
    ///
    /// # Examples
    ///
    /// ```text
    /// // 2026-11-22
    /// let Ok(day) = Date::from_iso_week_date(2026, 47, Weekday::Sunday) else { .. };
    /// ```
    pub fn from_iso_week_date(year: i32, week: u8, weekday: Weekday) -> Result<Date, ComponentRange>
        ensures accepted { IsOk result ↔ (IsYear year × IsInRange 1 (weeks_in_year year) week
            × IsDayNumber (week_day_number year week (days_from_monday weekday))) }
        ensures value { IfOk result (λ d. d
            ≡ date_at (week_day_number year week (days_from_monday weekday))) }
        ensures refusal { IfErr result (λ e. range_refusal e
            ≡ (if nat_le (unsigned_abs year) greatest_year
            then (if nat_le 1 week && nat_le week (weeks_in_year year)
            then conditional_range (codes "weekday")
            else conditional_range (codes "week"))
            else unconditional_range (codes "year"))) }
    {
        if !is_year(year) {
            return Err(ComponentRange::unconditional("year"));
        }
        if week == 0 || week > util::weeks_in_year(year) {
            return Err(ComponentRange::conditional("week"));
        }
        let whole_weeks = 7 * (week as u32 - 1);
        let days = first_monday(year) + (whole_weeks + weekday.number_days_from_monday() as u32);
        if days >= ALL_DAYS {
            return Err(ComponentRange::conditional("weekday"));
        }
        Ok(Date::from_days(days))
    }

    /// Returns the week of the week calendar, 1 to 53. Week 1 is the one with the year's first
    /// Thursday.
    pub fn iso_week(self) -> u8
        ensures value { result ≡ iso_week_of self }
        ensures range { IsInRange 1 53 result }
    {
        self.iso_year_week().1
    }

    /// Returns the year of the week calendar, -999,999 to 999,999, its week, 1 to 53, and the
    /// weekday.
    pub fn to_iso_week_date(self) -> (i32, u8, Weekday)
        ensures year { result.0 ≡ iso_year_of self }
        ensures week { result.1 ≡ iso_week_of self }
        ensures weekday { days_from_monday result.2 ≡ weekday_of self }
        ensures year_range { IsYear result.0 }
        ensures week_range { IsInRange 1 53 result.1 }
    {
        let (year, week) = self.iso_year_week();
        (year, week, self.weekday())
    }
}
