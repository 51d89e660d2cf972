//! Offsets of the command line.
ghost use Rattle.std.specs.Prelude.{◌≡◌, ◌≤◌, IfSome};
ghost use Rattle.time_below.specs.Offset.{signed};
ghost use Rattle.movaliren_cli.specs.OffsetText.{offset_of_digits, offset_of_parts, offset_of_word};
ghost use Rattle.movaliren_cli.specs.OffsetText.{pair};

use time_below::UtcOffset;

/// The number of two digits, if they are digits.
fn pair(tens: u8, ones: u8) -> Option<u8>
    ensures value { result ≡ pair tens ones }
    ensures range { IfSome result (λ n. n ≤ 99) }
{
    if tens.is_ascii_digit() && ones.is_ascii_digit() {
        Some((tens - b'0') * 10 + (ones - b'0'))
    } else {
        None
    }
}

/// A part with a sign.
fn signed(is_negative: bool, part: u8) -> i8
    requires { part ≤ 99 }
    ensures { result ≡ signed is_negative part }
{
    if is_negative {
        -(part as i8)
    } else {
        part as i8
    }
}

/// The offset of parts with one sign, if each is in its range.
fn of_parts(
    is_negative: bool,
    hours: Option<u8>,
    minutes: Option<u8>,
    seconds: Option<u8>,
) -> Option<UtcOffset>
    requires hours { IfSome hours (λ n. n ≤ 99) }
    requires minutes { IfSome minutes (λ n. n ≤ 99) }
    requires seconds { IfSome seconds (λ n. n ≤ 99) }
    ensures { result ≡ offset_of_parts is_negative hours minutes seconds }
{
    let (hours, minutes, seconds) = (hours?, minutes?, seconds?);
    let made = UtcOffset::from_hms(
        signed(is_negative, hours),
        signed(is_negative, minutes),
        signed(is_negative, seconds),
    );
    match made {
        Ok(offset) => Some(offset),
        Err(_) => None,
    }
}

/// The offset of `5`, `05`, `5:30`, `0530`, `05:30` or `05:30:15` with a sign, if each part is in its range.
fn with_sign(is_negative: bool, text: &[u8]) -> Option<UtcOffset>
    ensures { result ≡ offset_of_digits is_negative text.now }
{
    match *text {
        [a] => of_parts(is_negative, pair(b'0', a), Some(0), Some(0)),
        [a, b':', c, d] => of_parts(is_negative, pair(b'0', a), pair(c, d), Some(0)),
        [a, b] => of_parts(is_negative, pair(a, b), Some(0), Some(0)),
        [a, b, c, d] | [a, b, b':', c, d] => {
            of_parts(is_negative, pair(a, b), pair(c, d), Some(0))
        }
        [a, b, b':', c, d, b':', e, f] => {
            of_parts(is_negative, pair(a, b), pair(c, d), pair(e, f))
        }
        _ => None,
    }
}

/// The offset that a text such as `+05:30`, `-0800`, `+01` or `Z` is, at most 25:59:59 either way.
pub fn read(text: &str) -> Option<UtcOffset>
    ensures { result ≡ offset_of_word text.now }
{
    match text.as_bytes() {
        [b'Z' | b'z'] => Some(UtcOffset::UTC),
        [b'+', rest @ ..] => with_sign(false, rest),
        [b'-', rest @ ..] => with_sign(true, rest),
        _ => None,
    }
}
