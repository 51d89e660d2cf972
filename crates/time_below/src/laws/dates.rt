//! How dates compare, and which date a week date is.
ghost use Rattle.std.specs.Prelude.{◌≡◌, ◌↔◌, ◌<◌, ℕ, ℤ, IsTrue};
ghost use Rattle.std.specs.Ordering.{int_cmp};
ghost use Rattle.std.specs.Int.{IsInRange};
ghost use Rattle.time_below.specs.Calendar.{OrdinalDate, IsDate, IsYear, IsDayNumber, day_number};
ghost use Rattle.time_below.specs.Calendar.{date_at, iso_year_of, iso_week_of, weekday_of};
ghost use Rattle.time_below.specs.WeekDate.{weeks_in_year, week_day_number};

use crate::date::Date;

/// Two dates are equal exactly if they are the same.
pub fn date_equality(a: Date, b: Date)
    ensures { IsTrue (⟦<Date as PartialEq>⟧.eq a b) ↔ (a ≡ b) }
{}

/// Dates compare by the year and then the day of the year, as their day numbers do.
#[tactic(auto, using(crate::proofs::DateOrderLemmas::date_cmp))]
pub fn dates_compare_by_their_days()
    ensures { (d e : OrdinalDate) → IsDate d → IsDate e
        → ⟦<Date as Ord>⟧.cmp d e ≡ int_cmp (day_number d) (day_number e) }
{}

/// The date of a year, a week and a weekday of the week calendar has them.
#[tactic(auto, using(crate::proofs::WeekLawLemmas::week_date_parts))]
pub fn a_week_date_has_its_week()
    ensures { (y : ℤ) (week weekday : ℕ) → IsYear y → IsInRange 1 (weeks_in_year y) week
        → weekday < 7 → IsDayNumber (week_day_number y week weekday)
        → (iso_year_of (date_at (week_day_number y week weekday)) ≡ y)
        × (iso_week_of (date_at (week_day_number y week weekday)) ≡ week)
        × (weekday_of (date_at (week_day_number y week weekday)) ≡ weekday) }
{}
