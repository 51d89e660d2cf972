//! ISO 8601-1:2019, by a configuration of `time_known`.
//!
//! The specification of a reader is the writer: a value that is read is one that the format writes
//! as this very text. The fields are read first, and what they give is written and compared.
ghost use Rattle.std.specs.Prelude.{◌≡◌, ◌≤◌, ◌↔◌, IfErr, IfOk, IsOk, IsTrue, length};
ghost use Rattle.time_fmt.specs.Outcome.{done};
ghost use Rattle.time_known.specs.Config.{default_choices, has_date, has_offset, has_time};
ghost use Rattle.time_known.specs.Iso8601.{iso8601_of, iso8601_outcome};
ghost use Rattle.time_known.specs.Iso8601Parts.{SuppliesParts};

mod compare;
mod decimals;
mod fields;

pub use crate::fault::NoReader;
use crate::fault::{NotRead, Unexpected};
use crate::reading::{Described, Reading};
pub use crate::values::Readable;
use crate::values::text_fields::TextFields;
use compare::{difference, unsupplied};
use fields::{kinds_of, read_fields};
use std::default::Default;
use time_below::OffsetDateTime;
use time_fmt::ComponentProvider;
use time_known::iso8601::Config;

impl Described for Config {
    ghost outcome_of = { λ config. iso8601_outcome config };

    fn read_fields<'a>(&self, text: &'a [u8], fields: &mut TextFields) -> Option<&'a [u8]> {
        match read_fields(self, text, fields) {
            Ok(rest) => Some(rest),
            Err(fault) => {
                fields.stop = Some(fault);
                None
            }
        }
    }

    fn difference<V: ComponentProvider>(&self, text: &[u8], value: &V) -> Option<Unexpected>
    where
        V::State: Drop,
    {
        difference(self, text, value)
    }
}

/// Reads the texts of a configuration as values of a type.
#[derive(Drop)]
pub struct Iso8601Reader<V> {
    /// The configuration.
    pub config: Config,
    reading: Reading<V>,
}

/// Returns the reader of texts of a configuration as values of a type.
///
/// Refused are configurations whose texts show what no value of the type has, or do not show each
/// of its parts: a date, a time of day or an offset. A date and a time of day determine a
/// `UtcDateTime` and a `Timestamp`. What is finer than the precision of the time, or of the offset,
/// is zero.
pub fn reader<V: Readable>(config: &Config) -> Result<Iso8601Reader<V>, NoReader>
    ensures config { IfOk result (λ reader. reader.config ≡ config.now) }
    ensures made { IsOk result
        ↔ (SuppliesParts config.now V.SUPPLIES_DATE V.SUPPLIES_TIME V.SUPPLIES_OFFSET
        × IsTrue (V.determined_by (has_date config.now.formatted_components)
        (has_time config.now.formatted_components) (has_offset config.now.formatted_components))) }
    ensures undetermined { IfErr result (λ refused. (refused ≡ NoReader.Undetermined)
        ↔ SuppliesParts config.now V.SUPPLIES_DATE V.SUPPLIES_TIME V.SUPPLIES_OFFSET) }
{
    if let Some(part) = unsupplied::<V>(config) {
        return Err(NoReader::Unsupplied(part));
    }
    if !V::is_determined_by(config.has_date(), config.has_time(), config.has_offset()) {
        return Err(NoReader::Undetermined);
    }
    Ok(reader_by(config))
}

/// The reader by a configuration whose texts determine a value.
fn reader_by<V: Readable>(config: &Config) -> Iso8601Reader<V>
    ensures { result.config ≡ config.now }
{
    Iso8601Reader {
        config: *config,
        reading: Reading::new(kinds_of(config), TextFields::default()),
    }
}

impl<V: Readable> Iso8601Reader<V> {
    /// Returns the value that the format writes as this text, or the first fault of the text.
    pub fn read(&self, text: &[u8]) -> Result<V, NotRead>
    where
        V::State: Drop,
        V: Drop,
        ensures written { IfOk result (λ value.
            iso8601_outcome self.now.config (V.facts value) ≡ done text.now) }
        ensures inside { IfErr result (λ fault. fault.at ≤ length text.now) }
    {
        self.reading.read(&self.config, text)
    }
}

/// Returns the value that the default configuration writes as this text, or the first fault of the
/// text: date, time of day with nine decimals, and offset, as
/// `2026-11-22T09:55:06.120000000-06:00`. UTC is `Z`.
pub fn read(text: &[u8]) -> Result<OffsetDateTime, NotRead>
    ensures written { IfOk result (λ value. iso8601_of default_choices value ≡ done text.now) }
    ensures inside { IfErr result (λ fault. fault.at ≤ length text.now) }
{
    reader_by::<OffsetDateTime>(&Config::default()).read(text)
}
