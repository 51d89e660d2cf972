//! The days of the week.
ghost use Rattle.std.specs.Prelude.{◌≡◌, ◌+◌, ◌%◌, ◌<◌};
ghost use Rattle.std.specs.Int.{IsInRange};
ghost use Rattle.time_below.specs.Weekday.{days_from_monday, days_from_sunday};

mod names;

/// A day of the week, which begins on Monday (ISO 8601-1:2019, week calendar).
#[derive(Debug, Clone, Copy, PartialEq, Eq, Hash)]
pub enum Weekday {
    /// Day 1 of the week.
    Monday,
    /// Day 2.
    Tuesday,
    /// Day 3.
    Wednesday,
    /// Day 4.
    Thursday,
    /// Day 5.
    Friday,
    /// Day 6.
    Saturday,
    /// Day 7.
    Sunday,
}

impl Weekday {
    // The weekday that many days after Monday.
    pub(crate) fn from_monday(days: u8) -> Weekday
        requires { days < 7 }
        ensures { days_from_monday result ≡ days }
    {
        match days {
            0 => Weekday::Monday,
            1 => Weekday::Tuesday,
            2 => Weekday::Wednesday,
            3 => Weekday::Thursday,
            4 => Weekday::Friday,
            5 => Weekday::Saturday,
            6 => Weekday::Sunday,
            _ => unreachable!(),
        }
    }

    /// Returns the days since Monday, 0 for Monday to 6 for Sunday.
    pub fn number_days_from_monday(self) -> u8
        ensures value { result ≡ days_from_monday self }
        ensures range { result < 7 }
    {
        self as u8
    }

    /// Returns the days since Sunday, 0 for Sunday to 6 for Saturday.
    pub fn number_days_from_sunday(self) -> u8
        ensures value { result ≡ days_from_sunday self }
        ensures range { result < 7 }
    {
        match self {
            Weekday::Sunday => 0,
            other => other as u8 + 1,
        }
    }

    /// Returns the position in the week, 1 for Monday to 7 for Sunday.
    pub fn number_from_monday(self) -> u8
        ensures value { result ≡ days_from_monday self + 1 }
        ensures range { IsInRange 1 7 result }
    {
        self as u8 + 1
    }

    /// Returns the position in a week that begins on Sunday, 1 for Sunday to 7 for Saturday.
    pub fn number_from_sunday(self) -> u8
        ensures value { result ≡ days_from_sunday self + 1 }
        ensures range { IsInRange 1 7 result }
    {
        self.number_days_from_sunday() + 1
    }

    /// Returns the weekday before, which is Sunday before Monday.
    pub fn previous(self) -> Weekday
        ensures { days_from_monday self ≡ (days_from_monday result + 1) % 7 }
    {
        self.nth_prev(1)
    }

    /// Returns the weekday after, which is Monday after Sunday.
    pub fn next(self) -> Weekday
        ensures { days_from_monday result ≡ (days_from_monday self + 1) % 7 }
    {
        self.nth_next(1)
    }

    /// Returns the weekday this many days after.
    pub fn nth_next(self, n: u8) -> Weekday
        ensures { days_from_monday result ≡ (days_from_monday self + n) % 7 }
    {
        Weekday::from_monday((self as u8 + n % 7) % 7)
    }

    /// Returns the weekday this many days before.
    pub fn nth_prev(self, n: u8) -> Weekday
        ensures { days_from_monday self ≡ (days_from_monday result + n) % 7 }
    {
        Weekday::from_monday((self as u8 + 7 - n % 7) % 7)
    }
}
