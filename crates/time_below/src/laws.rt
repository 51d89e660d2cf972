//! Laws of equality and conversions, of the calendar and of offsets: what their
//! definitions come to. Each body is empty.
ghost use Rattle.std.specs.Prelude.{◌≡◌, ◌↔◌, ◌+◌, ◌%◌, ◌<◌, ℕ, ℤ, pos, ◌+ℤ◌, unsigned_abs, IsTrue};
ghost use Rattle.std.specs.Prelude.{fold};
ghost use Rattle.std.specs.Int.{IsInRange};
ghost use Rattle.time_below.specs.Calendar.{OrdinalDate, IsDate, IsYear, IsDayNumber, IsDayOfMonth};
ghost use Rattle.time_below.specs.Calendar.{day_number, date_at, next_day, month_of, day_of};
ghost use Rattle.time_below.specs.Calendar.{date_of, weekday_of, iso_year_of, iso_week_of};
ghost use Rattle.time_below.specs.Calendar.{days_of_name, monday_based_week_of};
ghost use Rattle.time_below.specs.Calendar.{sunday_based_week_of};
ghost use Rattle.time_below.specs.ComponentRange.{range_refusal};
ghost use Rattle.time_below.specs.Conversion.{current_component};
ghost use Rattle.time_below.specs.Metadata.{of_both, of_nothing};
ghost use Rattle.time_below.specs.Month.{IsMadeOf, month_number};
ghost use Rattle.time_below.specs.Tree.{of_component, v3_tree};
ghost use Rattle.time_below.specs.TimeOfDay.{IsTimeOfDay};
ghost use Rattle.time_below.specs.Offset.{Offset, IsOffset, Settles, settled, offset_of_seconds};
ghost use Rattle.time_below.specs.Offset.{offset_seconds};
ghost use Rattle.time_below.specs.Moment.{Moment, DateAndTime, OffsetDateAndTime, IsMoment};
ghost use Rattle.time_below.specs.Moment.{IsTimestampSecond, IsNearTimestampSecond, utc_date};
ghost use Rattle.time_below.specs.Moment.{utc_time, utc_date_and_time, unix_seconds, moved};
ghost use Rattle.time_below.specs.Moment.{local_at, local_unix_seconds, nanoseconds};

pub mod dates;
pub mod order;
pub mod times;

use crate::component_range::ComponentRange;
use crate::format_description::{Component, FormatDescriptionV3Inner, Metadata};
use crate::month::Month;
use crate::period::Period;
use crate::weekday::Weekday;
use std::convert::TryFrom;
use std::default::Default;
use std::iter::Sum;
use std::ops::Add;

/// Two months are equal exactly if they are the same.
pub fn month_equality(a: Month, b: Month)
    ensures { IsTrue (⟦<Month as PartialEq>⟧.eq a b) ↔ (a ≡ b) }
{}

/// Two weekdays are equal exactly if they are the same.
pub fn weekday_equality(a: Weekday, b: Weekday)
    ensures { IsTrue (⟦<Weekday as PartialEq>⟧.eq a b) ↔ (a ≡ b) }
{}

/// Two values of AM or PM are equal exactly if they are the same.
pub fn period_equality(a: Period, b: Period)
    ensures { IsTrue (⟦<Period as PartialEq>⟧.eq a b) ↔ (a ≡ b) }
{}

/// Two refusals of a component are equal exactly if they have the same name and the same condition.
pub fn range_equality(a: ComponentRange, b: ComponentRange)
    ensures { IsTrue (⟦<ComponentRange as PartialEq>⟧.eq a b)
        ↔ (range_refusal a ≡ range_refusal b) }
{}

/// A month is made of its number, and the number of a month is that of the definition.
pub fn month_conversions(number: u8, month: Month, made: Result<Month, ComponentRange>)
    ensures made { ⟦<Month as TryFrom<u8>>⟧.try_from_gives number made ↔ IsMadeOf number made }
    ensures number { ⟦<u8 as From<Month>>⟧.from_gives month number ↔ (number ≡ month_number month) }
{}

/// A component becomes the current one in its place, and no other, in the third version.
pub fn component_conversion(component: Component, inner: &FormatDescriptionV3Inner<'_>)
    ensures { ⟦<FormatDescriptionV3Inner<'static> as From<Component>>⟧.from_gives component
        inner.now
        ↔ (v3_tree inner.now ≡ of_component (current_component component)) }
{}

/// What is known of no text, of one text after another, and of texts in order.
pub fn metadata_of_texts(a: Metadata, b: Metadata, texts: &[Metadata], of_all: Metadata)
    ensures nothing { ⟦<Metadata as Default>⟧.is_default of_all ↔ (of_all ≡ of_nothing) }
    ensures both { ⟦<Metadata as Add<Metadata>>⟧.add_gives a b of_all ↔ (of_all ≡ of_both a b) }
    ensures all { ⟦<Metadata as Sum<Metadata>>⟧.sum_gives texts.now of_all
        ↔ (of_all ≡ fold of_both of_nothing texts.now) }
{}

/// Each date has one day number, and each day number from -999999-01-01 to 999999-12-31 one date.
#[tactic(auto, using(crate::proofs::YearLemmas::laws_of_days))]
pub fn one_date_for_each_day()
    ensures numbered { (d : OrdinalDate) → IsDate d → IsDayNumber (day_number d) }
    ensures dated { (n : ℤ) → IsDayNumber n → IsDate (date_at n) }
    ensures date_back { (d : OrdinalDate) → IsDate d → date_at (day_number d) ≡ d }
    ensures number_back { (n : ℤ) → IsDayNumber n → day_number (date_at n) ≡ n }
{}

/// Day 0 is Monday 0001-01-01, and the day after a date has the next number and the next weekday.
#[tactic(auto, using(crate::proofs::YearLemmas::laws_of_days))]
pub fn days_follow_one_another()
    ensures begin { day_number (record { year = pos 1; ordinal = 1 }) ≡ pos 0 }
    ensures number { (d : OrdinalDate) → IsDate d
        → day_number (next_day d) ≡ day_number d +ℤ pos 1 }
    ensures weekday { (d : OrdinalDate) → IsDate d
        → weekday_of (next_day d) ≡ (weekday_of d + 1) % 7 }
{}

/// Each date is that of its month and its day of the month, and of no others.
#[tactic(auto, using(crate::proofs::MonthLemmas::laws_of_months))]
pub fn one_date_for_each_day_of_month()
    ensures month { (d : OrdinalDate) → IsDate d → IsInRange 1 12 (month_of d) }
    ensures day { (d : OrdinalDate) → IsDate d → IsDayOfMonth d.year (month_of d) (day_of d) }
    ensures made_of { (d : OrdinalDate) → IsDate d → date_of d.year (month_of d) (day_of d) ≡ d }
    ensures date { (y : ℤ) (m d : ℕ) → IsYear y → IsInRange 1 12 m → IsDayOfMonth y m d
        → IsDate (date_of y m d) }
    ensures month_back { (y : ℤ) (m d : ℕ) → IsInRange 1 12 m → IsDayOfMonth y m d
        → month_of (date_of y m d) ≡ m }
    ensures day_back { (y : ℤ) (m d : ℕ) → IsInRange 1 12 m → IsDayOfMonth y m d
        → day_of (date_of y m d) ≡ d }
{}

/// The year of the week calendar is that of a date, its weeks are 1 to 53, and a year, a week and a
/// weekday have one date at most.
#[tactic(auto, using(crate::proofs::WeekLemmas::weeks_of_dates))]
pub fn one_date_for_each_day_of_week()
    ensures year { (d : OrdinalDate) → IsDate d → IsYear (iso_year_of d) }
    ensures week { (d : OrdinalDate) → IsDate d → IsInRange 1 53 (iso_week_of d) }
    ensures date { (d e : OrdinalDate) → IsDate d → IsDate e → iso_year_of d ≡ iso_year_of e
        → iso_week_of d ≡ iso_week_of e → weekday_of d ≡ weekday_of e → d ≡ e }
{}

/// The Monday-based and the Sunday-based week of a date are the numbers of Mondays, and of Sundays,
/// that its year has had by then, that day counted.
#[tactic(auto, using(crate::proofs::WeekCountLemmas::weeks_counted))]
pub fn weeks_count_their_first_days()
    ensures mondays { (d : OrdinalDate) → IsDate d
        → monday_based_week_of d ≡ days_of_name 0 d.year d.ordinal }
    ensures sundays { (d : OrdinalDate) → IsDate d
        → sunday_based_week_of d ≡ days_of_name 6 d.year d.ordinal }
{}

/// The UTC date and time of a moment have its Unix seconds, and no others do. Those of a date and
/// time in UTC are a moment.
#[tactic(auto, using(crate::proofs::MomentLemmas::laws_of_moments))]
pub fn one_date_and_time_for_each_moment()
    ensures date { (m : Moment) → IsMoment m → IsDate (utc_date m.seconds) }
    ensures time { (m : Moment) → IsMoment m → IsTimeOfDay (utc_time m) }
    ensures seconds { (m : Moment) → IsMoment m → unix_seconds (utc_date_and_time m) ≡ m.seconds }
    ensures only { (m : Moment) (t : DateAndTime) → IsDate t.date → IsTimeOfDay t.time
        → unix_seconds t ≡ m.seconds → t.time.nanosecond ≡ m.nanosecond → t ≡ utc_date_and_time m }
    ensures moment { (t : DateAndTime) → IsDate t.date → IsTimeOfDay t.time
        → IsTimestampSecond (unix_seconds t) }
{}

/// Three parts of an offset settle to one offset: each part keeps its size, the first that is not
/// zero keeps its sign, and no part has the other sign. The parts of an offset settle to it.
pub fn one_sign_for_each_offset()
    ensures settled { (h m s : ℤ) → Settles h m s (settled h m s) }
    ensures only { (h m s : ℤ) (o : Offset) → Settles h m s o → o ≡ settled h m s }
    ensures same { (o : Offset) → IsOffset o → settled o.hours o.minutes o.seconds ≡ o }
{}

/// Less than 26 hours either way are one offset.
#[tactic(auto, using(crate::proofs::OffsetLemmas::offset_back))]
pub fn one_offset_for_each_number_of_seconds()
    ensures offset { (s : ℤ) → unsigned_abs s < 93_600 → IsOffset (offset_of_seconds s) }
    ensures seconds { (s : ℤ) → offset_seconds (offset_of_seconds s) ≡ s }
    ensures only { (o p : Offset) → IsOffset o → IsOffset p → offset_seconds o ≡ offset_seconds p
        → o ≡ p }
{}

/// The date and time of a moment by clocks at an offset have its Unix seconds, and no others do.
#[tactic(auto, using(crate::proofs::MomentLemmas::laws_of_moments))]
pub fn one_local_date_and_time_for_each_moment()
    ensures seconds { (m : Moment) (o : Offset) → IsMoment (moved m o)
        → local_unix_seconds (local_at m o) ≡ m.seconds }
    ensures only { (m : Moment) (t : OffsetDateAndTime) → IsDate t.date → IsTimeOfDay t.time
        → local_unix_seconds t ≡ m.seconds → t.time.nanosecond ≡ m.nanosecond
        → t ≡ local_at m t.offset }
{}

/// The Unix seconds of a local date and time are less than 26 hours outside the range of a moment.
pub fn local_seconds_near_the_range()
    ensures { (t : OffsetDateAndTime) → IsDate t.date → IsTimeOfDay t.time → IsOffset t.offset
        → IsNearTimestampSecond (local_unix_seconds t) }
{}

/// No two moments have as many nanoseconds since 1970.
#[tactic(auto, using(crate::proofs::MomentLemmas::one_moment_of_nanoseconds))]
pub fn one_moment_for_each_nanosecond()
    ensures { (m n : Moment) → m.nanosecond < 1_000_000_000 → n.nanosecond < 1_000_000_000
        → nanoseconds m ≡ nanoseconds n → m ≡ n }
{}
