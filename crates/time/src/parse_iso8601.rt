//! Values that are read by a configuration of ISO 8601.
ghost use Rattle.std.specs.Prelude.{◌≡◌};
ghost use Rattle.time_fmt.specs.Outcome.{done};
ghost use Rattle.time_known.specs.Iso8601.{iso8601_outcome};

use crate::parse_value::Parsable;
use thiserror::Error;
use time_known::Iso8601;
use time_read::{NoReader, NotRead, Readable, iso8601};

/// Why a text is not read by a configuration of ISO 8601.
#[derive(Clone, Copy, Debug, PartialEq, Eq, Error)]
pub enum NotReadByIso8601 {
    /// No text of the configuration is read as a value of the type.
    #[error("{0}")]
    NoReader(NoReader),
    /// The text is none of the configuration.
    #[error("{0}")]
    NotRead(NotRead),
}

impl<V: Readable + Drop> Parsable<V> for Iso8601
where
    V::State: Drop,
{
    type Error = NotReadByIso8601;

    ghost reads = { λ config value text. iso8601_outcome config (V.facts value) ≡ done text };

    fn read_value(&self, text: &[u8]) -> Result<V, NotReadByIso8601> {
        let reader = match iso8601::reader::<V>(&self.config()) {
            Ok(reader) => reader,
            Err(refused) => return Err(NotReadByIso8601::NoReader(refused)),
        };
        match reader.read(text) {
            Ok(value) => Ok(value),
            Err(fault) => Err(NotReadByIso8601::NotRead(fault)),
        }
    }
}
