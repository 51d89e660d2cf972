//! Configurations of ISO 8601 in the interface.
ghost use Rattle.std.specs.Prelude.{◌≡◌, IfSome, Ok};
ghost use Rattle.movaliren_c.specs.Chosen.{components_at, date_kind_at, decimals_at, precision_at};
ghost use Rattle.movaliren_c.specs.Chosen.{offset_precision_at, sign_at, choices_at, separated};

use crate::answers::reason::{Reason, flag_at};
use std::default::Default;
use time_digits::ru8;
use time_known::iso8601::{
    Config, DateKind, DecimalSign, FormattedComponents, OffsetPrecision, TimePrecision, Usual,
};

/// The seven choices, and the number of decimals.
#[repr(C)]
#[derive(Clone, Copy)]
pub struct Iso8601Config {
    pub parts: u8,
    pub date_kind: u8,
    pub time_precision: u8,
    pub decimals: u8,
    pub offset_precision: u8,
    pub use_separators: u8,
    pub year_is_six_digits: u8,
    pub comma: u8,
}

fn components_at(number: u8) -> Result<FormattedComponents, Reason>
    ensures { result ≡ components_at number }
{
    match number {
        1 => Ok(FormattedComponents::Date),
        2 => Ok(FormattedComponents::Time),
        3 => Ok(FormattedComponents::Offset),
        4 => Ok(FormattedComponents::DateTime),
        5 => Ok(FormattedComponents::DateTimeOffset),
        6 => Ok(FormattedComponents::TimeOffset),
        _ => Err(Reason::BadConfig),
    }
}

fn date_kind_at(number: u8) -> Result<DateKind, Reason>
    ensures { result ≡ date_kind_at number }
{
    match number {
        0 => Ok(DateKind::Calendar),
        1 => Ok(DateKind::Week),
        2 => Ok(DateKind::Ordinal),
        _ => Err(Reason::BadConfig),
    }
}

fn precision_at(number: u8, decimals: u8) -> Result<TimePrecision, Reason>
    ensures { result ≡ precision_at number (decimals_at decimals) }
{
    let decimal_digits = ru8::new(decimals);
    match number {
        0 => Ok(TimePrecision::Hour { decimal_digits }),
        1 => Ok(TimePrecision::Minute { decimal_digits }),
        2 => Ok(TimePrecision::Second { decimal_digits }),
        _ => Err(Reason::BadConfig),
    }
}

fn offset_precision_at(number: u8) -> Result<OffsetPrecision, Reason>
    ensures { result ≡ offset_precision_at number }
{
    match number {
        0 => Ok(OffsetPrecision::Hour),
        1 => Ok(OffsetPrecision::Minute),
        _ => Err(Reason::BadConfig),
    }
}

fn sign_at(number: u8) -> Result<DecimalSign, Reason>
    ensures { result ≡ sign_at number }
{
    match number {
        0 => Ok(DecimalSign::Point),
        1 => Ok(DecimalSign::Comma),
        _ => Err(Reason::BadConfig),
    }
}

/// The configuration that these numbers choose, if each of them is one that there is.
pub fn config_at(numbers: &Iso8601Config) -> Result<Config, Reason>
    ensures { result ≡ choices_at numbers.now }
{
    Ok(
        Config::default()
            .set_formatted_components(components_at(numbers.parts)?)
            .set_date_kind(date_kind_at(numbers.date_kind)?)
            .set_time_precision(precision_at(numbers.time_precision, numbers.decimals)?)
            .set_offset_precision(offset_precision_at(numbers.offset_precision)?)
            .set_use_separators(flag_at(numbers.use_separators, Reason::BadConfig)?)
            .set_year_is_six_digits(flag_at(numbers.year_is_six_digits, Reason::BadConfig)?)
            .set_decimal_sign(sign_at(numbers.comma)?),
    )
}

/// What these numbers choose of a text with separators, if the rest is chosen as by most callers.
pub fn separated_config_at(numbers: &Iso8601Config) -> Option<Usual>
    ensures { IfSome result (λ u. choices_at numbers.now ≡ Ok (separated u)) }
{
    let parts_are_usual = numbers.parts == 5
        && numbers.date_kind == 0
        && numbers.time_precision == 2
        && numbers.offset_precision == 1;
    let digits_are_usual = numbers.use_separators == 1 && numbers.year_is_six_digits == 0;
    if !(parts_are_usual && digits_are_usual) {
        return None;
    }
    match sign_at(numbers.comma) {
        Ok(decimal_sign) => Some(Usual {
            decimal_digits: ru8::new(numbers.decimals),
            decimal_sign,
        }),
        Err(_) => None,
    }
}
