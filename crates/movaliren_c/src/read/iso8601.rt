//! Texts of ISO 8601, read back as moments.
ghost use Rattle.std.specs.Prelude.{◌≡◌, IfNone, IfSome};
ghost use Rattle.movaliren_c.specs.Chosen.{choices_at};
ghost use Rattle.movaliren_c.specs.ReadIso.{Iso8601Reads, IsReadByChoices, TellsMoment};
ghost use Rattle.movaliren_c.specs.ReadIso.{TellsMomentInUtc};
ghost use Rattle.movaliren_c.specs.Reading.{IsByParts, IsInUtc, IsRead};
ghost use Rattle.time_below.specs.Offset.{utc};
ghost use Rattle.time_known.specs.Config.{Choices, default_choices};

use crate::answers::reason::{Reason, answer_number};
use crate::formats::iso8601::{Iso8601Config, config_at};
use crate::read::place::ReadError;
use crate::read::{OfValue, keep};
use crate::values::moment::{Moment, UtcMoment};
use time_below::{OffsetDateTime, UtcDateTime, UtcOffset};
use time_known::iso8601::Config;
use time_read::{NotRead, iso8601};

/// The value that the default configuration writes as this text.
fn by_default(text: &[u8]) -> Result<OffsetDateTime, NotRead>
    ensures { Iso8601Reads default_choices text.now result }
{
    iso8601::read(text)
}

/// A moment that is read by a configuration.
pub trait OfConfig: OfValue {
    /// Whether the texts of the choices determine it.
    ghost Tells: { Choices → Type 0 };

    /// The value that the configuration writes as this text, or none where its texts determine
    /// none.
    fn reading(config: &Config, text: &[u8]) -> Option<Result<OffsetDateTime, NotRead>>
        ensures reads { IfSome result (Iso8601Reads config.now text.now) }
        ensures tells { IfSome result (λ _. Tells config.now) }
        ensures none { IfNone result (¬ Tells config.now) };
}

impl OfConfig for Moment {
    ghost Tells = { TellsMoment };

    fn reading(config: &Config, text: &[u8]) -> Option<Result<OffsetDateTime, NotRead>> {
        match iso8601::reader::<OffsetDateTime>(config) {
            Ok(reader) => Some(reader.read(text)),
            Err(_) => None,
        }
    }
}

impl OfConfig for UtcMoment {
    ghost Tells = { TellsMomentInUtc };

    /// Where the texts show no offset, they are those of UTC.
    fn reading(config: &Config, text: &[u8]) -> Option<Result<OffsetDateTime, NotRead>> {
        match iso8601::reader::<OffsetDateTime>(config) {
            Ok(reader) => Some(reader.read(text)),
            Err(_) => reading_in_utc(config, text),
        }
    }
}

/// The value in UTC that the configuration writes as this text, or none where its texts show no
/// date or no time of day.
fn reading_in_utc(config: &Config, text: &[u8]) -> Option<Result<OffsetDateTime, NotRead>>
    ensures reads { IfSome result (Iso8601Reads config.now text.now) }
    ensures tells { IfSome result (λ _. TellsMomentInUtc config.now) }
    ensures none { IfNone result (¬ TellsMomentInUtc config.now) }
{
    let Ok(reader) = iso8601::reader::<UtcDateTime>(config) else {
        return None;
    };
    match reader.read(text) {
        Ok(value) => Some(Ok(at_utc(value))),
        Err(fault) => Some(Err(fault)),
    }
}

/// The same date and time of day, with the offset of UTC.
fn at_utc(value: UtcDateTime) -> OffsetDateTime
    ensures { result ≡ record { date = value.date; time = value.time; offset = utc } }
{
    OffsetDateTime::new_in_offset(value.date(), value.time(), UtcOffset::UTC)
}

/// Reads a text by a configuration.
fn read_with<M: OfConfig>(
    numbers: &Iso8601Config,
    text: &[u8],
    moment: &mut M,
    error: &mut ReadError,
) -> isize
    ensures { IsReadByChoices M.Tells (choices_at numbers.now) M.Holds text.now result
        moment.old moment.new error.old error.new }
{
    let config = match config_at(numbers) {
        Ok(config) => config,
        Err(reason) => return answer_number(Err(reason)),
    };
    match M::reading(&config, text) {
        Some(reading) => keep(reading, moment, error),
        None => answer_number(Err(Reason::Undetermined)),
    }
}

/// Reads a text of ISO 8601 by the default configuration as a moment by its parts.
#[unsafe(no_mangle)]
pub extern "C" fn movaliren_read_iso8601(
    text: &[u8],
    moment: &mut Moment,
    error: &mut ReadError,
) -> isize
    ensures { IsRead (Iso8601Reads default_choices) IsByParts text.now result
        moment.old moment.new error.old error.new }
{
    keep(by_default(text), moment, error)
}

/// Reads a text of ISO 8601 by the default configuration as a moment in UTC.
#[unsafe(no_mangle)]
pub extern "C" fn movaliren_read_iso8601_utc(
    text: &[u8],
    moment: &mut UtcMoment,
    error: &mut ReadError,
) -> isize
    ensures { IsRead (Iso8601Reads default_choices) IsInUtc text.now result
        moment.old moment.new error.old error.new }
{
    keep(by_default(text), moment, error)
}

/// Reads a text of ISO 8601 by a configuration as a moment by its parts.
#[unsafe(no_mangle)]
pub extern "C" fn movaliren_read_iso8601_with(
    config: &Iso8601Config,
    text: &[u8],
    moment: &mut Moment,
    error: &mut ReadError,
) -> isize
    ensures { IsReadByChoices TellsMoment (choices_at config.now) IsByParts text.now result
        moment.old moment.new error.old error.new }
{
    read_with(config, text, moment, error)
}

/// Reads a text of ISO 8601 by a configuration as a moment in UTC, also one without an offset.
#[unsafe(no_mangle)]
pub extern "C" fn movaliren_read_iso8601_with_utc(
    config: &Iso8601Config,
    text: &[u8],
    moment: &mut UtcMoment,
    error: &mut ReadError,
) -> isize
    ensures { IsReadByChoices TellsMomentInUtc (choices_at config.now) IsInUtc text.now result
        moment.old moment.new error.old error.new }
{
    read_with(config, text, moment, error)
}
