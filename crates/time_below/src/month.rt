//! The months of the calendar.
ghost use Rattle.std.specs.Prelude.{◌≡◌, ◌+◌, ◌-◌, ◌%◌};
ghost use Rattle.std.specs.Int.{IsInRange};
ghost use Rattle.time_below.specs.Calendar.{days_in_month, is_leap_year};
ghost use Rattle.time_below.specs.Month.{month_number};

mod names;

use crate::calendar;
use crate::component_range::ComponentRange;
use std::convert::TryFrom;

/// A month of the Gregorian calendar.
#[derive(Debug, Clone, Copy, PartialEq, Eq, Hash)]
pub enum Month {
    /// Month 1.
    January,
    /// Month 2, with 28 days, or 29 in a leap year.
    February,
    /// Month 3.
    March,
    /// Month 4.
    April,
    /// Month 5.
    May,
    /// Month 6.
    June,
    /// Month 7.
    July,
    /// Month 8.
    August,
    /// Month 9.
    September,
    /// Month 10.
    October,
    /// Month 11.
    November,
    /// Month 12.
    December,
}

impl Month {
    /// Returns the month of a number, 1 to 12, as the caller knows.
    pub fn from_number(number: u8) -> Month
        requires { IsInRange 1 12 number }
        ensures { month_number result ≡ number }
    {
        match number {
            1 => Month::January,
            2 => Month::February,
            3 => Month::March,
            4 => Month::April,
            5 => Month::May,
            6 => Month::June,
            7 => Month::July,
            8 => Month::August,
            9 => Month::September,
            10 => Month::October,
            11 => Month::November,
            12 => Month::December,
            _ => unreachable!(),
        }
    }

    /// Returns the number of days of the month in this year, 28 to 31.
    pub fn length(self, year: i32) -> u8
        ensures value { result ≡ days_in_month (is_leap_year year) (month_number self) }
        ensures range { IsInRange 28 31 result }
    {
        calendar::days_in_month(calendar::is_leap_year(year), u8::from(self))
    }

    /// Returns the month before, which is December before January.
    pub fn previous(self) -> Month
        ensures { month_number self ≡ month_number result % 12 + 1 }
    {
        self.nth_prev(1)
    }

    /// Returns the month after, which is January after December.
    pub fn next(self) -> Month
        ensures { month_number result ≡ month_number self % 12 + 1 }
    {
        self.nth_next(1)
    }

    /// Returns the month this many months after, where January follows December.
    pub fn nth_next(self, n: u8) -> Month
        ensures { month_number result ≡ (month_number self - 1 + n) % 12 + 1 }
    {
        Month::from_number((self as u8 + n % 12) % 12 + 1)
    }

    /// Returns the month this many months before, where December precedes January.
    pub fn nth_prev(self, n: u8) -> Month
        ensures { month_number self ≡ (month_number result - 1 + n) % 12 + 1 }
    {
        Month::from_number((self as u8 + 12 - n % 12) % 12 + 1)
    }
}

/// The month of a number from 1 to 12. Any other number is refused as the component `month`, for
/// any values of the others.
impl TryFrom<u8> for Month {
    type Error = ComponentRange;

    ghost use Rattle.time_below.specs.Month.{IsMadeOf};

    ghost try_from_gives = { IsMadeOf };

    fn try_from(number: u8) -> Result<Month, ComponentRange> {
        if number < 1 || number > 12 {
            return Err(ComponentRange::unconditional("month"));
        }
        Ok(Month::from_number(number))
    }
}

impl From<Month> for u8 {
    ghost from_gives = { λ month number. number ≡ month_number month };

    /// The number of the month, 1 for January to 12 for December.
    fn from(month: Month) -> u8
        ensures value { result ≡ month_number month }
        ensures range { IsInRange 1 12 result }
    {
        month as u8 + 1
    }
}
