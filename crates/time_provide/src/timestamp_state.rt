//! The cache of a moment.
ghost use Rattle.std.specs.Prelude.{◌≡◌};
ghost use Rattle.time_below.specs.Moment.{utc_date, utc_time};
ghost use Rattle.time_provide.specs.Agreement.{Agrees, AgreesWithMoment};

use crate::date_cache::DateCache;
use crate::date_state::DateState;
use crate::ranges::{Day, IsoWeekNumber, Year};
use time_below::{Date, Month, Time, Timestamp};

/// The date and the time of a moment in UTC, each perhaps absent, and what that date caches.
#[derive(Debug, Default, Drop)]
pub struct TimestampState {
    pub(crate) date: Option<Date>,
    pub(crate) time: Option<Time>,
    pub(crate) date_state: DateState,
}

impl TimestampState {
    // The date in UTC, which is cached.
    pub(crate) fn date(&mut self, moment: Timestamp) -> Date
        requires { AgreesWithMoment self.old moment }
        ensures value { result ≡ utc_date moment.seconds }
        ensures held { self.new ≡ record self.old { date = Some result } }
        ensures agrees { AgreesWithMoment self.new moment }
    {
        if let Some(date) = self.date {
            return date;
        }
        let date = moment.date();
        self.date = Some(date);
        date
    }

    // The time of day in UTC, which is cached.
    pub(crate) fn time(&mut self, moment: Timestamp) -> Time
        requires { AgreesWithMoment self.old moment }
        ensures value { result ≡ utc_time moment }
        ensures held { self.new ≡ record self.old { time = Some result } }
        ensures agrees { AgreesWithMoment self.new moment }
    {
        if let Some(time) = self.time {
            return time;
        }
        let time = moment.time();
        self.time = Some(time);
        time
    }
}

impl DateCache for TimestampState {
    ghost agrees = { λ state date. Agrees state.date_state date };

    ghost grows = { λ old new date. (new ≡ record old { date_state = new.date_state })
        × Agrees new.date_state date };

    fn day(&mut self, date: Date) -> Day {
        self.date_state.day(date)
    }

    fn month(&mut self, date: Date) -> Month {
        self.date_state.month(date)
    }

    fn iso_week(&mut self, date: Date) -> IsoWeekNumber {
        self.date_state.iso_week(date)
    }

    fn iso_year(&mut self, date: Date) -> Year {
        self.date_state.iso_year(date)
    }
}
