//! Numbers at the front of a text.
ghost use Rattle.std.specs.Prelude.{◌≡◌, ◌<◌, ◌+◌, ◌*◌, ℕ};

use time_below::format_description::modifier::Padding;

/// The number of two digits, and some number of other bytes.
pub(crate) fn two(tens: u8, units: u8) -> u8
    ensures { (t u : ℕ) → t < 10 → u < 10 → tens ≡ 48 + t → units ≡ 48 + u → result ≡ 10 * t + u }
{
    let tens = tens.wrapping_sub(b'0');
    tens.wrapping_mul(10).wrapping_add(units.wrapping_sub(b'0'))
}

/// The number of four digits, and some number of other bytes.
pub(crate) fn four(a: u8, b: u8, c: u8, d: u8) -> i32 {
    100 * two(a, b) as i32 + two(c, d) as i32
}

/// The number of so many digits at the front of a text.
pub(crate) fn digits(text: &[u8], count: usize) -> Option<u64> {
    let mut number = 0u64;
    for byte in text.get(..count)? {
        if !byte.is_ascii_digit() {
            return None;
        }
        number = number.wrapping_mul(10).wrapping_add((*byte - b'0') as u64);
    }
    Some(number)
}

/// How many digits a text begins with.
pub(crate) fn digits_at_front(text: &[u8]) -> usize {
    let mut count = 0usize;
    for byte in text {
        if !byte.is_ascii_digit() {
            return count;
        }
        count = count.saturating_add(1);
    }
    count
}

/// The number of from so many digits to so many, and how many there are: all but those that belong
/// to what follows.
pub(crate) fn some_digits(
    text: &[u8],
    least: usize,
    most: usize,
    behind: usize,
) -> Option<(u64, usize)> {
    let count = digits_at_front(text).saturating_sub(behind).min(most);
    if count < least {
        return None;
    }
    Some((digits(text, count)?, count))
}

/// How many spaces stand before a number in so many places.
pub(crate) fn spaces(text: &[u8], places: usize) -> usize {
    let mut count = 0usize;
    for byte in text {
        if *byte != b' ' || places <= count.saturating_add(1) {
            break;
        }
        count = count.saturating_add(1);
    }
    count
}

/// A number in so many places, of at most so many digits, and how many bytes it has. So many digits
/// belong to what follows.
pub(crate) fn padded(
    text: &[u8],
    padding: Padding,
    places: usize,
    most: usize,
    behind: usize,
) -> Option<(u64, usize)> {
    let least = match padding {
        Padding::Zero => places,
        Padding::None => 1,
        Padding::Space => {
            let count = spaces(text, places);
            if 0 < count {
                return Some((
                    digits(text.get(count..)?, places.saturating_sub(count))?,
                    places,
                ));
            }
            places
        }
    };
    if least == most {
        return Some((digits(text, least)?, least));
    }
    some_digits(text, least, most, behind)
}
