//! Zones as places.
ghost use Rattle.movaliren_cli.specs.LocalTime.{IsMomentIn};
ghost use Rattle.time_jiff.specs.Clock.{HasOffset};

use jiff_tz::TimeZone;
use time_below::{PlainDateTime, Timestamp, UtcOffset};
use time_jiff::ZoneClock;
use time_lines::{Place, Zone};

/// The place whose clock is that of a zone.
#[derive(Drop)]
pub struct InZone<'a>(pub ZoneClock<'a>);

impl Place for InZone<'_> {
    ghost has_offset = { λ place m o. HasOffset place.0.zone m.seconds o };

    fn offset_at(&mut self, moment: &Timestamp) -> UtcOffset {
        self.0.offset_at(moment)
    }
}

/// The dates and times that the clock of a zone shows. One that it skips is read by the offset
/// before the change, and so is one that it shows twice, which is the earlier moment.
#[derive(Drop)]
pub struct LocalIn<'a>(pub TimeZone<'a>);

impl Zone for LocalIn<'_> {
    ghost has_moment = { λ z. IsMomentIn z.0 };

    fn moment_of(&self, local: PlainDateTime) -> Option<Timestamp> {
        let Ok(shown) = time_jiff::jiff_date_time(local) else {
            return None;
        };
        match self.0.to_timestamp(shown.to_plain()) {
            Ok(instant) => Some(time_jiff::timestamp(jiff::Timestamp::from_plain(instant))),
            Err(_) => None,
        }
    }
}
