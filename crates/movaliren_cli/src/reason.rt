//! Why a line passed as it was.
use crate::hints::{self, Looks};
use std::alloc::Global;
use std::fmt::{self, Display, Formatter, Write};
use time_lines::Why;

/// Why a line passed as it was.
#[derive(Drop)]
pub struct Reason<'a> {
    why: Why,
    /// The beginning of the line, or of what follows its time.
    example: &'a [u8],
    looks: Looks,
}

impl<'a> Reason<'a> {
    /// The reason of a line that begins so, or of one whose time is followed so, where the texts of
    /// this description are read.
    pub fn of(alloc: Global, why: Why, from: &str, example: &'a [u8]) -> Reason<'a> {
        let looks = match why {
            Why::NoTime => hints::find(alloc, from, example),
            _ => Looks::Unknown,
        };
        Reason {
            why,
            example,
            looks,
        }
    }
}

/// The conversion of an offset that stands here, perhaps behind a space.
fn offset_conversion(text: &[u8]) -> &'static str {
    match text {
        [b'Z' | b'z', ..] => "Z, and --from-zone UTC",
        [b' ', _, _, _, b':', ..] => "' %:z'",
        [b' ', _, _, _, b'0'..=b'9', ..] => "' %z'",
        [_, _, _, b':', ..] => "%:z",
        [_, _, _, b'0'..=b'9', ..] => "%z",
        _ => "[offset_hour sign:mandatory]",
    }
}

/// Writes which decimals stand here.
fn write_decimals<W: Write>(f: &mut Formatter<W>, text: &[u8]) -> fmt::Result {
    let (mark, digits) = match text {
        [b',', digits @ ..] => (',', digits),
        [_, digits @ ..] => ('.', digits),
        [] => ('.', text),
    };
    match digits
        .iter()
        .take_while(|byte| byte.is_ascii_digit())
        .count()
    {
        count @ (3 | 6 | 9) => write!(f, "{mark}%{count}N"),
        count => write!(f, "{mark}[subsecond digits:{count}]"),
    }
}

impl Display for Reason<'_> {
    fn fmt<W: Write>(&self, f: &mut Formatter<W>) -> fmt::Result {
        match (self.why, self.looks) {
            (Why::NoTime, Looks::Like(word)) => {
                write!(f, "it looks like {word}: use --from '{word}'")
            }
            (Why::NoTime, Looks::Second60) => f.write_str("its second is 60, which no moment has"),
            (Why::NoTime, Looks::Nearly(fault)) => {
                write!(f, "a text in it is nearly a time: {fault}")
            }
            (Why::NoTime, Looks::Unknown) => f.write_str("no time is in it"),
            (Why::NoPlace, _) => f.write_str("the text of --after is not in it"),
            (Why::NoUnit(count), _) => write!(
                f,
                "its number has {count} digits, which is no unit's: \
                 10 are seconds, 13 milliseconds, and options name the unit"
            ),
            (Why::OtherYears, _) => {
                f.write_str("its number is of no year that is asked for: see --years")
            }
            (Why::NoMoment, _) => {
                f.write_str("its time is no moment of the years -999999 to 999999")
            }
            (Why::NoLocalMoment, _) => {
                f.write_str("no clock shows its time in the years -9999 to 9999")
            }
            (Why::NoDay, _) => f.write_str("the year of --year does not have its day"),
            (Why::Decimals, _) => {
                f.write_str("decimals follow its time: add ")?;
                write_decimals(f, self.example)
            }
            (Why::Offset, _) => {
                let conversion = offset_conversion(self.example);
                write!(f, "an offset follows its time: add {conversion}")
            }
            (Why::NoText, _) => f.write_str("the description has no text for its time"),
            (Why::TooLong(longest), _) => {
                write!(f, "it has more than {longest} bytes: see --longest")
            }
        }
    }
}
