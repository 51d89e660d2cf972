//! Times by the clock of a zone.
ghost use Rattle.std.specs.Prelude.{◌≡◌};
ghost use Rattle.log_time.specs.Times.{IsTimeIn};

use crate::log_time::{Decimals, LogTime};
use crate::times::Times;
use jiff_tz::TimeZone;
use time_below::Timestamp;
use time_digits::StackStr;
use time_jiff::ZoneClock;

/// The times of the lines of one log by the clock of a zone, with as many decimals in each.
#[derive(Drop)]
pub struct ZoneTimes<'z> {
    /// The clock.
    pub clock: ZoneClock<'z>,
    /// The decimals of each text.
    pub decimals: Decimals,
}

impl<'z> ZoneTimes<'z> {
    /// Returns times by the clock of this zone.
    pub fn new(zone: TimeZone<'z>, decimals: Decimals) -> ZoneTimes<'z>
        ensures zone { result.clock.zone ≡ zone.entry }
        ensures decimals { result.decimals ≡ decimals }
    {
        ZoneTimes {
            clock: ZoneClock::new(zone),
            decimals,
        }
    }
}

/// A moment has no text where RFC 3339 has none for its year by the clock of the zone, or for the
/// offset of that clock.
impl Times for ZoneTimes<'_> {
    ghost shows = { λ times. IsTimeIn times.clock.zone times.decimals };

    fn time_text(&mut self, moment: Timestamp) -> Option<StackStr<35>> {
        let mut times = LogTime {
            offset: self.clock.offset_at(&moment),
            decimals: self.decimals,
        };
        times.time_text(moment)
    }
}
