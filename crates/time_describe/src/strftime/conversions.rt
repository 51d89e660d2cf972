//! The conversions of strftime, by the letter that each one has.
ghost use Rattle.std.specs.Prelude.{◌≡◌, ◌∷◌, [], option_map};
ghost use Rattle.time_describe.specs.Conversions.{flag_named, number, word, sign, composition};
ghost use Rattle.time_describe.specs.Conversions.{width, refusal};

use super::reason::StrftimeReason;
use time_below::format_description::modifier::{Padding, SubsecondDigits};
use time_below::format_description::{Component, modifier};

/// Returns the padding that a flag asks for.
#[tactic(auto, unfolding(crate::specs::Conversions::flag_named))]
pub fn flag_named(byte: u8) -> Option<Padding>
    ensures { result ≡ flag_named byte }
{
    match byte {
        b'-' => Some(Padding::None),
        b'_' => Some(Padding::Space),
        b'0' => Some(Padding::Zero),
        _ => None,
    }
}

/// Returns the number that a letter stands for, padded as the flag says.
#[tactic(auto, unfolding(crate::specs::Conversions::number))]
pub fn number(letter: u8, flag: Option<Padding>) -> Option<Component>
    ensures { result ≡ number letter flag }
{
    match letter {
        b'C' => Some(Component::CalendarYearCenturyExtendedRange(
            modifier::CalendarYearCenturyExtendedRange {
                padding: flag.unwrap_or(Padding::Zero),
                sign_is_mandatory: false,
            },
        )),
        b'd' => Some(Component::Day(modifier::Day {
            padding: flag.unwrap_or(Padding::Zero),
        })),
        b'e' => Some(Component::Day(modifier::Day {
            padding: flag.unwrap_or(Padding::Space),
        })),
        b'g' => Some(Component::IsoYearLastTwo(modifier::IsoYearLastTwo {
            padding: flag.unwrap_or(Padding::Zero),
        })),
        b'G' => Some(Component::IsoYearFullExtendedRange(modifier::IsoYearFullExtendedRange {
            padding: flag.unwrap_or(Padding::Zero),
            sign_is_mandatory: false,
        })),
        b'H' => Some(Component::Hour24(modifier::Hour24 {
            padding: flag.unwrap_or(Padding::Zero),
        })),
        b'I' => Some(Component::Hour12(modifier::Hour12 {
            padding: flag.unwrap_or(Padding::Zero),
        })),
        b'j' => Some(Component::Ordinal(modifier::Ordinal {
            padding: flag.unwrap_or(Padding::Zero),
        })),
        b'k' => Some(Component::Hour24(modifier::Hour24 {
            padding: flag.unwrap_or(Padding::Space),
        })),
        b'l' => Some(Component::Hour12(modifier::Hour12 {
            padding: flag.unwrap_or(Padding::Space),
        })),
        b'm' => Some(Component::MonthNumerical(modifier::MonthNumerical {
            padding: flag.unwrap_or(Padding::Zero),
        })),
        b'M' => Some(Component::Minute(modifier::Minute {
            padding: flag.unwrap_or(Padding::Zero),
        })),
        b's' => Some(Component::UnixTimestampSecond(modifier::UnixTimestampSecond {
            sign_is_mandatory: false,
        })),
        b'S' => Some(Component::Second(modifier::Second {
            padding: flag.unwrap_or(Padding::Zero),
        })),
        b'u' => Some(Component::WeekdayMonday(modifier::WeekdayMonday { one_indexed: true })),
        b'U' => Some(Component::WeekNumberSunday(modifier::WeekNumberSunday {
            padding: flag.unwrap_or(Padding::Zero),
        })),
        b'V' => Some(Component::WeekNumberIso(modifier::WeekNumberIso {
            padding: flag.unwrap_or(Padding::Zero),
        })),
        b'w' => Some(Component::WeekdaySunday(modifier::WeekdaySunday { one_indexed: false })),
        b'W' => Some(Component::WeekNumberMonday(modifier::WeekNumberMonday {
            padding: flag.unwrap_or(Padding::Zero),
        })),
        b'y' => Some(Component::CalendarYearLastTwo(modifier::CalendarYearLastTwo {
            padding: flag.unwrap_or(Padding::Zero),
        })),
        b'Y' => Some(Component::CalendarYearFullExtendedRange(
            modifier::CalendarYearFullExtendedRange {
                padding: flag.unwrap_or(Padding::Zero),
                sign_is_mandatory: false,
            },
        )),
        _ => None,
    }
}

/// Returns the name or the fraction that a letter stands for.
#[tactic(auto, unfolding(crate::specs::Conversions::word))]
pub fn word(letter: u8) -> Option<Component>
    ensures { result ≡ word letter }
{
    match letter {
        b'a' => Some(Component::WeekdayShort(modifier::WeekdayShort {
            case_sensitive: true,
        })),
        b'A' => Some(Component::WeekdayLong(modifier::WeekdayLong {
            case_sensitive: true,
        })),
        b'b' => Some(Component::MonthShort(modifier::MonthShort {
            case_sensitive: true,
        })),
        b'B' => Some(Component::MonthLong(modifier::MonthLong {
            case_sensitive: true,
        })),
        b'h' => Some(Component::MonthShort(modifier::MonthShort {
            case_sensitive: true,
        })),
        b'N' => Some(Component::Subsecond(modifier::Subsecond {
            digits: SubsecondDigits::Nine,
        })),
        b'p' => Some(Component::Period(modifier::Period {
            is_uppercase: true,
            case_sensitive: true,
        })),
        b'P' => Some(Component::Period(modifier::Period {
            is_uppercase: false,
            case_sensitive: true,
        })),
        _ => None,
    }
}

/// Returns the other conversions that a letter stands for.
#[tactic(auto, unfolding(crate::specs::Conversions::composition))]
pub fn composition(letter: u8) -> Option<&'static [u8]>
    ensures { option_map (λ text. text.now) result ≡ composition letter }
{
    match letter {
        b'c' => Some(b"%a %b %e %H:%M:%S %Y".as_slice()),
        b'D' => Some(b"%m/%d/%y".as_slice()),
        b'F' => Some(b"%Y-%m-%d".as_slice()),
        b'r' => Some(b"%I:%M:%S %p".as_slice()),
        b'R' => Some(b"%H:%M".as_slice()),
        b'T' => Some(b"%H:%M:%S".as_slice()),
        b'x' => Some(b"%m/%d/%y".as_slice()),
        b'X' => Some(b"%H:%M:%S".as_slice()),
        _ => None,
    }
}

/// Returns the byte that a letter stands for.
#[tactic(auto, unfolding(crate::specs::Conversions::sign))]
pub fn sign(letter: u8) -> Option<u8>
    ensures { option_map (λ byte. byte ∷ []) result ≡ sign letter }
{
    match letter {
        b'%' => Some(b'%'),
        b'n' => Some(b'\n'),
        b't' => Some(b'\t'),
        _ => None,
    }
}

/// Returns how many digits of a fraction a digit asks for.
#[tactic(auto, unfolding(crate::specs::Conversions::width))]
pub fn width(digit: u8) -> Option<SubsecondDigits>
    ensures { result ≡ width digit }
{
    match digit {
        b'3' => Some(SubsecondDigits::Three),
        b'6' => Some(SubsecondDigits::Six),
        b'9' => Some(SubsecondDigits::Nine),
        _ => None,
    }
}

/// Why a letter is refused that stands for nothing here.
#[tactic(auto, unfolding(crate::specs::Conversions::refusal))]
pub fn refusal(letter: u8) -> StrftimeReason
    ensures { result ≡ refusal letter }
{
    match letter {
        b'Z' => StrftimeReason::ZoneName,
        b'E' | b'O' => StrftimeReason::LocaleModifier(letter),
        b'^' | b'#' => StrftimeReason::CaseFlag(letter),
        b'+' => StrftimeReason::PlusFlag,
        b'-' | b'_' | b'0' => StrftimeReason::SecondFlag(letter),
        b'1'..=b'9' => StrftimeReason::FieldWidth(letter),
        _ => StrftimeReason::UnknownConversion(letter),
    }
}
