//! The lengths of years and months, and the weeks of days.
ghost use Rattle.std.specs.Prelude.{◌≡◌, ◌+◌, ◌-◌, ◌*◌, ◌/◌, ◌%◌, ◌<◌, ◌≤◌, if◌then◌else◌};
ghost use Rattle.std.specs.Int.{IsInRange};
ghost use Rattle.time_below.specs.Calendar.{is_leap_year, days_in_year, days_in_month};
ghost use Rattle.time_below.specs.Calendar.{days_of_months, last_begun};

// The days before each month of a common year.
const CUMULATIVE_DAYS: [u16; 12] = [0, 31, 59, 90, 120, 151, 181, 212, 243, 273, 304, 334];

/// Returns whether a year is a leap year: 4 divides it, and 100 does not or 400 does.
///
/// Three years of four are told by the first test. Where 4 divides the year, 100 does if 25 does,
/// and 400 does if 25 and 16 do.
pub fn is_leap_year(year: i32) -> bool
    ensures { result ≡ is_leap_year year }
{
    if year % 4 != 0 {
        return false;
    }
    year % 25 != 0 || year % 16 == 0
}

pub fn days_in_year(year: i32) -> u16
    ensures { result ≡ days_in_year year }
{
    if is_leap_year(year) { 366 } else { 365 }
}

pub fn days_in_month(is_leap: bool, month: u8) -> u8
    requires { IsInRange 1 12 month }
    ensures value { result ≡ days_in_month is_leap month }
    ensures range { IsInRange 28 31 result }
{
    match month {
        2 => { if is_leap { 29 } else { 28 } }
        4 | 6 | 9 | 11 => 30,
        _ => 31,
    }
}

// The days of the months before a month.
#[tactic(auto, using(crate::proofs::MonthLemmas::days_of_months_by_table))]
pub fn days_before_month(is_leap: bool, month: u8) -> u16
    requires { IsInRange 1 12 month }
    ensures value { result ≡ days_of_months is_leap (month - 1) }
    ensures range { result ≤ 335 }
{
    let days = CUMULATIVE_DAYS[month as usize - 1];
    if is_leap && month > 2 { days + 1 } else { days }
}

// The month and the day of the month, counted on from 1 January or from 1 March. From there five
// months have 31, 30, 31, 30 and 31 days, and so again, so that products give both.
fn month_and_day_on(days: u16) -> (u8, u8)
    requires { IsInRange 1 306 days }
    ensures month { result.0 ≡ (days * 268 + 8031) / 8192 }
    ensures day { result.1 ≡ days - (result.0 * 3917 - 3866) / 128 }
    ensures month_range { IsInRange 1 10 result.0 }
{
    let month = (days as u32 * 268 + 8031) / 8192;
    let day = days as u32 - (month * 3917 - 3866) / 128;
    (month as u8, day as u8)
}

// The month of a day of the year, and the day of that month.
#[tactic(auto, using(crate::proofs::ProductLemmas::month_facts))]
pub fn month_and_day(is_leap: bool, ordinal: u16) -> (u8, u8)
    requires { IsInRange 1 (if is_leap then 366 else 365) ordinal }
    ensures month { result.0 ≡ last_begun is_leap 12 ordinal }
    ensures day { result.1 ≡ ordinal - days_of_months is_leap (result.0 - 1) }
    ensures month_range { IsInRange 1 12 result.0 }
    ensures day_range { IsInRange 1 (days_in_month is_leap result.0) result.1 }
    ensures day_limit { result.1 ≤ 31 }
{
    let february_end = if is_leap { 60 } else { 59 };
    if ordinal <= february_end {
        return month_and_day_on(ordinal);
    }
    let (month, day) = month_and_day_on(ordinal - february_end);
    (month + 2, day)
}

// The rest by seven, which the first three bits of a product are: the factor is a seventh of 2^32,
// rounded up.
#[tactic(auto, using(crate::proofs::ProductLemmas::rest_facts))]
pub fn rest_by_seven(number: u32) -> u8
    requires { number < 100_000_000 }
    ensures value { result ≡ number % 7 }
    ensures range { result < 7 }
{
    (number.wrapping_mul(613_566_757) >> 29) as u8
}

// The whole weeks in so many days, by a product.
pub fn weeks_in(days: u32) -> u8
    requires { days < 378 }
    ensures value { result ≡ days / 7 }
    ensures range { result ≤ 53 }
{
    (days * 9363 / 65_536) as u8
}
