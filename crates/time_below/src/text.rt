//! Parts of the texts of values.
ghost use Rattle.std.specs.Prelude.{◌≡◌, ◌^◌, ◌<◌, Some, codes, if◌then◌else◌};
ghost use Rattle.std.specs.Fmt.{DisplaysOnOk};
ghost use Rattle.time_below.specs.Text.{two_digits, decimals};

use std::fmt;
use std::fmt::{Display, InlineText};

// More bytes than the longest text of a value has.
const ROOM: usize = 64;

// Writes a text, which is padded to the width of the formatter and cut to its precision, as a `str`
// is.
pub(crate) fn pad<W: fmt::Write, D: Display + Drop>(
    f: &mut fmt::Formatter<W>,
    text: D,
) -> fmt::Result
    ensures { DisplaysOnOk W.Write.write_str_gives f.old result (D.Display.output text) f.new }
{
    if f.width().is_none() && f.precision().is_none() {
        f.write(text)
    } else {
        f.pad(InlineText::<ROOM>::of(text).as_str())
    }
}

// The sign that is always written.
pub(crate) fn sign_of(is_negative: bool) -> &'static str
    ensures { result.now ≡ if is_negative then codes "-" else codes "+" }
{
    if is_negative { "-" } else { "+" }
}

// A number below 100, which is written with two digits.
#[derive(Clone, Copy)]
pub(crate) struct TwoDigits(pub(crate) u8);

impl Display for TwoDigits {
    ghost output = { λ n. Some (two_digits n.0) };

    fn fmt<W: fmt::Write>(&self, f: &mut fmt::Formatter<W>) -> fmt::Result {
        write!(f, "{}{}", self.0 / 10, self.0 % 10)
    }
}

// A nanosecond, which is written as the decimals of a second: up to the last that is not zero, but
// at least one.
#[derive(Clone, Copy)]
pub(crate) struct Decimals(pub(crate) u32);

impl Display for Decimals {
    ghost output = { λ n. Some (decimals 9 n.0) };

    fn fmt<W: fmt::Write>(&self, f: &mut fmt::Formatter<W>) -> fmt::Result {
        write_decimals(f, 9, self.0)
    }
}

#[tactic(auto, using(crate::proofs::TextLemmas::ten_power_positive))]
fn power_of_ten(places: u32) -> u32
    requires { places < 10 }
    ensures value { result ≡ 10 ^ places }
    ensures positive { 0 < result }
{
    10u32.pow(places)
}

// Writes the decimals of so many parts of 10 to the power of `places`.
#[tactic(auto, using(crate::proofs::TextLemmas::decimals_in_order))]
fn write_decimals<W: fmt::Write>(f: &mut fmt::Formatter<W>, places: u32, parts: u32) -> fmt::Result
    requires { places < 10 }
    ensures { DisplaysOnOk W.write_str_gives f.old result (Some (decimals places parts)) f.new }
{
    if places == 0 {
        return Ok(());
    }
    let tenth = power_of_ten(places - 1);
    let rest = parts % tenth;
    write!(f, "{}", parts / tenth)?;
    if rest == 0 {
        return Ok(());
    }
    write_decimals(f, places - 1, rest)
}
