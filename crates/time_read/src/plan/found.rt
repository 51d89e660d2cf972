//! Numbers at the front of a text, by the shape of their component.
use crate::digit_runs::{digits, padded, some_digits};
use crate::offset::sign;
use crate::plan::shapes::{Shape, YearShape, fixed_decimals};
use time_below::format_description::modifier::{Padding, SubsecondDigits};

/// A number that was read.
#[derive(Clone, Copy)]
pub(crate) struct Found {
    pub(crate) number: u64,
    /// Whether a minus stands before it.
    pub(crate) is_negative: bool,
    /// How many bytes it has.
    pub(crate) count: usize,
}

impl Found {
    /// The number of up to seventeen digits, with its sign.
    pub(crate) fn signed(self) -> i64 {
        let number = (self.number % 100_000_000_000_000_000) as i64;
        if self.is_negative { -number } else { number }
    }

    /// The year of up to six digits, with its sign.
    pub(crate) fn year(self) -> i32 {
        let number = (self.number % 1_000_000) as i32;
        if self.is_negative { -number } else { number }
    }
}

/// Reads the number of a component. So many digits belong to what follows it.
pub(crate) fn number_of(shape: Shape, text: &[u8], behind: usize) -> Option<Found> {
    match shape {
        Shape::Number(padding, places) => unsigned(padded(text, padding, places, places, behind)),
        Shape::LastTwo(padding) => unsigned(padded(text, padding, 2, 2, behind)),
        Shape::Weekday(first, from_monday) => weekday(text, first, from_monday),
        Shape::Year(year) => year_of(text, year, behind),
        Shape::OffsetHour(padding, _) => signed(text, padding, 2, 2, behind),
        Shape::Count(_) => signed(text, Padding::None, 1, 17, behind),
        Shape::Decimals(wanted) => decimals(text, wanted, behind),
        Shape::Letters => None,
        Shape::Nothing => unsigned(Some((0, 0))),
    }
}

/// A number that has no sign.
fn unsigned(read: Option<(u64, usize)>) -> Option<Found> {
    match read {
        Some((number, count)) => Some(Found {
            number,
            is_negative: false,
            count,
        }),
        None => None,
    }
}

/// Reads a number that may have a sign, in so many places, of at most so many digits.
fn signed(
    text: &[u8],
    padding: Padding,
    places: usize,
    most: usize,
    behind: usize,
) -> Option<Found> {
    let (is_negative, digits) = sign(text).unwrap_or((false, text));
    let (number, count) = padded(digits, padding, places, most, behind)?;
    let width = text.len().saturating_sub(digits.len());
    Some(Found {
        number,
        is_negative,
        count: count.saturating_add(width),
    })
}

/// Reads a year or a century.
fn year_of(text: &[u8], year: YearShape, behind: usize) -> Option<Found> {
    let most = match sign(text) {
        Ok(_) => year.most,
        Err(_) => year.places,
    };
    signed(text, year.padding, year.places, most, behind)
}

/// Reads a weekday by one digit, in days from Monday. The first day of the week stands so many days
/// behind a Monday.
fn weekday(text: &[u8], first: u8, from_monday: u8) -> Option<Found> {
    let [byte, ..] = text else {
        return None;
    };
    let days = byte.wrapping_sub(first);
    if 6 < days {
        return None;
    }
    Some(Found {
        number: (days.wrapping_add(from_monday) % 7) as u64,
        is_negative: false,
        count: 1,
    })
}

/// Ten to the ninth less so many decimals.
const SCALES: [u64; 10] = [
    1_000_000_000,
    100_000_000,
    10_000_000,
    1_000_000,
    100_000,
    10_000,
    1_000,
    100,
    10,
    1,
];

/// Reads decimals of the second, as its nanosecond.
fn decimals(text: &[u8], wanted: SubsecondDigits, behind: usize) -> Option<Found> {
    let (number, count) = match fixed_decimals(wanted) {
        Some(count) => (digits(text, count)?, count),
        None => some_digits(text, 1, 9, behind)?,
    };
    let scale = SCALES.get(count).copied().unwrap_or(1);
    unsigned(Some((number.wrapping_mul(scale), count)))
}
