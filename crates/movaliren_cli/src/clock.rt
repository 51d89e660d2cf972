//! The clock that is asked for.
use crate::arguments::Clock;
use crate::zone::{Zone, read_system, read_zone};
use crate::{offset, say};
use jiff_core::Error;
use jiff_tz::TimeZone;
use std::process::ExitCode;

/// The clock that is asked for, whose zone was read.
#[derive(Drop)]
pub enum FoundClock {
    Utc,
    Zone(Zone),
}

impl FoundClock {
    /// The zone of the clock.
    pub fn as_time_zone(&self) -> TimeZone<'_> {
        match self {
            FoundClock::Utc => TimeZone::UTC,
            FoundClock::Zone(zone) => zone.as_time_zone(),
        }
    }
}

/// The clock at the offset that the text is.
fn at_offset(rt: &HostRuntime, text: &str) -> Result<FoundClock, ExitCode> {
    match offset::read(text) {
        Some(offset) => Ok(FoundClock::Zone(Zone::at_offset(offset))),
        None => Err(say::refuse(
            rt,
            "'--offset' takes an offset such as +05:30, -0800 or Z, at most 25:59:59",
        )),
    }
}

/// The clock of the zone that was read, which has a name unless it is that of the system.
fn in_zone(
    rt: &HostRuntime,
    name: Option<&str>,
    read: Result<Zone, Error>,
) -> Result<FoundClock, ExitCode> {
    match read {
        Ok(zone) => Ok(FoundClock::Zone(zone)),
        Err(fault) => Err(say::refuse_zone(rt, name, fault)),
    }
}

/// Finds the clock that is asked for. Where there is none, this is said, and the status is
/// returned.
pub fn find(rt: &HostRuntime, clock: Clock<'_>) -> Result<FoundClock, ExitCode> {
    match clock {
        Clock::Utc => Ok(FoundClock::Utc),
        Clock::Offset(text) => at_offset(rt, text),
        Clock::Zone(name) => in_zone(rt, Some(name), read_zone(rt, name)),
        Clock::Local => in_zone(rt, None, read_system(rt)),
    }
}
