//! Where values of JSON stand in a line.
ghost use Rattle.std.specs.Prelude.{◌≡◌, ◌≤◌, ◌==◌, ◌%◌, length, take, count_by, false, not, ◌&&◌};
ghost use Rattle.std.specs.Prelude.{if◌then◌else◌};
ghost use Rattle.time_lines.specs.Json.{ends_in_string, has_exponent, is_value_at, quotes_if};

use crate::runs::{LANES, count_in_lanes};

/// Whether the next position is inside of a string of JSON, which a quote begins and ends unless it
/// is escaped.
fn inside_after(inside: bool, escaped: bool, byte: u8) -> bool
    ensures { result ≡ (if (byte == 34) && not escaped then not inside else inside) }
{
    if byte == b'"' && !escaped {
        !inside
    } else {
        inside
    }
}

/// Whether the next byte is escaped, by a backslash inside of a string that is not escaped itself.
fn escaped_after(inside: bool, escaped: bool, byte: u8) -> bool
    ensures { result ≡ (inside && ((byte == 92) && not escaped)) }
{
    inside && (byte == b'\\' && !escaped)
}

/// Whether the text ends inside of a string of JSON, byte by byte, where it begins inside of one or
/// not.
fn ends_in_string_after(begins_inside: bool, text: &[u8]) -> bool
    ensures { result ≡ ends_in_string begins_inside false text.now }
{
    let mut inside = begins_inside;
    let mut escaped = false;
    for byte in text {
        let is_inside = inside_after(inside, escaped, *byte);
        let is_escaped = escaped_after(inside, escaped, *byte);
        inside = is_inside;
        escaped = is_escaped;
    }
    inside
}

/// Whether the next position is inside of a string, behind sixteen bytes of which none is escaped.
fn inside_after_lanes(inside: bool, text: &[u8]) -> bool
    requires { 16 ≤ length text.now }
    ensures { result
        ≡ (if count_by (λ b. b == 34) (take 16 text.now) % 2 == 1 then not inside else inside) }
{
    if count_in_lanes(text, b'"') % 2 == 1 {
        !inside
    } else {
        inside
    }
}

/// Whether the text ends inside of a string of JSON. Sixteen bytes without a backslash are looked
/// at together.
fn ends_in_string(text: &[u8]) -> bool
    ensures { result ≡ ends_in_string false false text.now }
{
    let mut inside = false;
    let mut rest = text;
    while rest.len() >= LANES && count_in_lanes(rest, b'\\') == 0 {
        inside = inside_after_lanes(inside, rest);
        rest = &rest[LANES..];
    }
    ends_in_string_after(inside, rest)
}

/// Whether a value of JSON stands here, in no string of the line.
pub(crate) fn is_value_at(line: &[u8], at: usize) -> bool
    requires { at ≤ length line.now }
    ensures { result ≡ is_value_at line.now at }
{
    !ends_in_string(&line[..at])
}

/// Whether the text begins with the exponent of a number.
pub(crate) fn has_exponent(text: &[u8]) -> bool
    ensures { result ≡ has_exponent text.now }
{
    match text {
        [b'E' | b'e', ..] => true,
        _ => false,
    }
}

/// The quotes that stand on both sides of a text, if they are asked for.
pub(crate) fn quotes_if(wanted: bool) -> &'static [u8]
    ensures { result.now ≡ quotes_if wanted }
{
    if wanted { b"\"" } else { b"" }
}
