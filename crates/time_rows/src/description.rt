//! What descriptions are made of: bytes, brackets, and words for the choices of ISO 8601.
use anyhow::anyhow;
use std::alloc::{AllocError, Global};
use std::default::Default;
use time::format_description::well_known::Iso8601;
use time::format_description::well_known::iso8601::{
    Config, DateKind, DecimalSign, FormattedComponents, OffsetPrecision, TimePrecision, ru8,
};
use time::format_description::{OwnedFormatItem, parse_owned};

/// The bytes of a text, in which `\x` and two hexadecimal digits are one byte.
pub fn bytes_of(alloc: Global, text: &str) -> Result<Vec<u8>, AllocError> {
    let mut bytes = Vec::new(alloc);
    for (index, piece) in text.split("\\x").enumerate() {
        match piece.as_bytes() {
            [high, low, rest @ ..] if index > 0 => {
                bytes.push(digit(*high).wrapping_mul(16).wrapping_add(digit(*low)))?;
                bytes.extend_from_slice(rest)?;
            }
            whole => bytes.extend_from_slice(whole)?,
        }
    }
    Ok(bytes)
}

fn digit(byte: u8) -> u8 {
    match byte {
        b'0'..=b'9' => byte - b'0',
        b'a'..=b'f' => byte - b'a' + 10,
        _ => 0,
    }
}

/// The item that a text in brackets is.
pub fn in_brackets(alloc: Global, text: &[u8]) -> anyhow::Result<OwnedFormatItem> {
    match parse_owned(alloc, text) {
        Ok(item) => Ok(alone(item)),
        Err(error) => Err(anyhow!("{}", error.in_text(text))),
    }
}

/// The only item of a list, or else the item itself.
fn alone(item: OwnedFormatItem) -> OwnedFormatItem {
    match item {
        OwnedFormatItem::Compound(mut items) => {
            if items.len() == 1 {
                items.remove(0)
            } else {
                OwnedFormatItem::Compound(items)
            }
        }
        other => other,
    }
}

/// The default format of ISO 8601 with the choice of each word.
pub fn iso8601(words: &str) -> anyhow::Result<Iso8601> {
    let mut config = Config::default();
    for word in words.split_whitespace() {
        match chosen(config, word) {
            Some(changed) => config = changed,
            None => return Err(anyhow!("no choice `{word}`")),
        }
    }
    Ok(Iso8601::new(config))
}

fn chosen(config: Config, word: &str) -> Option<Config> {
    Some(match word {
        "none" => config.set_formatted_components(FormattedComponents::None),
        "date" => config.set_formatted_components(FormattedComponents::Date),
        "time" => config.set_formatted_components(FormattedComponents::Time),
        "offset" => config.set_formatted_components(FormattedComponents::Offset),
        "date-time" => config.set_formatted_components(FormattedComponents::DateTime),
        "date-time-offset" => config.set_formatted_components(FormattedComponents::DateTimeOffset),
        "time-offset" => config.set_formatted_components(FormattedComponents::TimeOffset),
        "separators" => config.set_use_separators(true),
        "no-separators" => config.set_use_separators(false),
        "four-digits" => config.set_year_is_six_digits(false),
        "six-digits" => config.set_year_is_six_digits(true),
        "calendar" => config.set_date_kind(DateKind::Calendar),
        "week" => config.set_date_kind(DateKind::Week),
        "ordinal" => config.set_date_kind(DateKind::Ordinal),
        "offset-hour" => config.set_offset_precision(OffsetPrecision::Hour),
        "offset-minute" => config.set_offset_precision(OffsetPrecision::Minute),
        "point" => config.set_decimal_sign(DecimalSign::Point),
        "comma" => config.set_decimal_sign(DecimalSign::Comma),
        _ => config.set_time_precision(precision(word)?),
    })
}

/// The smallest whole unit of a time and how many decimals follow, as `hour` or `second.9`.
fn precision(word: &str) -> Option<TimePrecision> {
    let (unit, count) = word.split_once('.').unwrap_or((word, "0"));
    let decimal_digits = match count.parse::<u8>() {
        Ok(count) => ru8::new(count),
        Err(_) => return None,
    };
    match unit {
        "hour" => Some(TimePrecision::Hour { decimal_digits }),
        "minute" => Some(TimePrecision::Minute { decimal_digits }),
        "second" => Some(TimePrecision::Second { decimal_digits }),
        _ => None,
    }
}
