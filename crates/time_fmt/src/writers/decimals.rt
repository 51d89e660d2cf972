//! Decimals of a unit, by long division.
ghost use Rattle.std.specs.Prelude.{◌<◌, ◌≤◌};
ghost use Rattle.time_fmt.specs.Decimals.{decimals};
ghost use Rattle.time_fmt.specs.Sink.{Fits, Puts};

use crate::sink::Sink;
use time_digits::ru8;

/// Appends the first 1 to 255 decimals of `rest / unit`, not rounded, and returns their number. The
/// rest is below the unit, which is at most 3,600,000,000,000.
///
/// Both are counts of one smaller unit, as nanoseconds, of which an hour has the most.
pub fn format_decimals<S: Sink>(output: &mut S, rest: u64, unit: u64, digits: ru8<1, 255>) -> usize
    requires part { rest < unit }
    requires unit { unit ≤ 3_600_000_000_000 }
    requires room { Fits (S.buffer output.old) digits }
    ensures writes { Puts (S.buffer output.old) (S.buffer output.new) result
        (decimals rest unit digits) }
{
    let count = digits.get();
    let mut left = rest;
    for _ in 0..count {
        let scaled = left * 10;
        output.put_byte(b'0' + (scaled / unit) as u8);
        left = scaled % unit;
    }
    count as usize
}
