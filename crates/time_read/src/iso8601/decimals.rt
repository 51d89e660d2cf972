//! Decimals of a second, of a minute and of an hour.
use crate::digit_runs::digits_at_front;
use crate::digits::byte;
use crate::fault::{Expected, Unexpected};
use time_digits::ru8;
use time_known::iso8601::{Config, DecimalSign};

/// What follows the sign before decimals.
fn behind_sign<'a>(config: &Config, text: &'a [u8]) -> Result<&'a [u8], Unexpected> {
    match config.decimal_sign() {
        DecimalSign::Point => byte(text, b'.'),
        DecimalSign::Comma => byte(text, b','),
    }
}

/// Reads this many digits behind the decimal sign, if any.
pub(super) fn decimals<'a>(
    config: &Config,
    text: &'a [u8],
    digits: Option<ru8<1, 255>>,
) -> Result<(&'a [u8], &'a [u8]), Unexpected> {
    let Some(digits) = digits else {
        return Ok((&[], text));
    };
    let wanted = digits.get() as usize;
    let rest = ok!(behind_sign(config, text));
    let count = digits_at_front(rest);
    if count < wanted || rest.len() < wanted {
        return Err(Unexpected {
            left: rest.len().saturating_sub(count),
            expected: Expected::Digit(0, 9),
        });
    }
    Ok((&rest[..wanted], &rest[wanted..]))
}

/// The nanoseconds of the units whose decimals are cut.
pub(super) const HOUR: u64 = 3_600_000_000_000;

pub(super) const MINUTE: u64 = 60_000_000_000;

/// How many decimals of an hour tell its nanoseconds apart.
const ENOUGH: usize = 13;

/// The fewest nanoseconds of a unit whose decimals are not below the first of these. It is computed
/// from the last of them to the first, so that no number has more than 64 bits.
pub(super) fn fewest_nanoseconds(decimals: &[u8], unit: u64) -> u64 {
    let mut fewest = 0u64;
    for digit in decimals[..decimals.len().min(ENOUGH)].iter().rev() {
        let tenths = (digit.wrapping_sub(b'0') as u64).wrapping_mul(unit);
        fewest = tenths.wrapping_add(fewest).div_ceil(10);
    }
    fewest.min(unit.saturating_sub(1))
}
