//! The values that modifiers of a component have.
ghost use Rattle.std.specs.Prelude.{◌≡◌};
ghost use Rattle.time_describe.specs.Values.{is_name, padding_named, month_repr_named};
ghost use Rattle.time_describe.specs.Values.{weekday_repr_named, week_number_repr_named};
ghost use Rattle.time_describe.specs.Values.{year_repr_named, year_range_named, precision_named};
ghost use Rattle.time_describe.specs.Values.{digits_named, bool_named, clock_named, case_named};
ghost use Rattle.time_describe.specs.Values.{sign_named, base_named, trailing_input_named};
ghost use Rattle.time_describe.specs.Values.{with_digit, whole_number, count_named};

use time_below::format_description::modifier::{
    MonthRepr, Padding, SubsecondDigits, TrailingInput, UnixTimestampPrecision, WeekNumberRepr,
    WeekdayRepr, YearRange, YearRepr,
};

/// Returns whether a word is this name, in capitals or small letters.
pub fn is_name(word: &[u8], name: &[u8]) -> bool
    ensures { result ≡ is_name word.now name.now }
{
    word.eq_ignore_ascii_case(name)
}

/// Returns the padding of this name.
#[tactic(auto, unfolding(crate::specs::Values::padding_named))]
pub fn padding_named(word: &[u8]) -> Option<Padding>
    ensures { result ≡ padding_named word.now }
{
    if is_name(word, b"zero") {
        Some(Padding::Zero)
    } else if is_name(word, b"space") {
        Some(Padding::Space)
    } else if is_name(word, b"none") {
        Some(Padding::None)
    } else {
        None
    }
}

/// Returns how a month is written, by name.
#[tactic(auto, unfolding(crate::specs::Values::month_repr_named))]
pub fn month_repr_named(word: &[u8]) -> Option<MonthRepr>
    ensures { result ≡ month_repr_named word.now }
{
    if is_name(word, b"numerical") {
        Some(MonthRepr::Numerical)
    } else if is_name(word, b"long") {
        Some(MonthRepr::Long)
    } else if is_name(word, b"short") {
        Some(MonthRepr::Short)
    } else {
        None
    }
}

/// Returns how a weekday is written, by name.
#[tactic(auto, unfolding(crate::specs::Values::weekday_repr_named))]
pub fn weekday_repr_named(word: &[u8]) -> Option<WeekdayRepr>
    ensures { result ≡ weekday_repr_named word.now }
{
    if is_name(word, b"short") {
        Some(WeekdayRepr::Short)
    } else if is_name(word, b"long") {
        Some(WeekdayRepr::Long)
    } else if is_name(word, b"sunday") {
        Some(WeekdayRepr::Sunday)
    } else if is_name(word, b"monday") {
        Some(WeekdayRepr::Monday)
    } else {
        None
    }
}

/// Returns which weeks are counted, by name.
#[tactic(auto, unfolding(crate::specs::Values::week_number_repr_named))]
pub fn week_number_repr_named(word: &[u8]) -> Option<WeekNumberRepr>
    ensures { result ≡ week_number_repr_named word.now }
{
    if is_name(word, b"iso") {
        Some(WeekNumberRepr::Iso)
    } else if is_name(word, b"sunday") {
        Some(WeekNumberRepr::Sunday)
    } else if is_name(word, b"monday") {
        Some(WeekNumberRepr::Monday)
    } else {
        None
    }
}

/// Returns which part of a year is written, by name.
#[tactic(auto, unfolding(crate::specs::Values::year_repr_named))]
pub fn year_repr_named(word: &[u8]) -> Option<YearRepr>
    ensures { result ≡ year_repr_named word.now }
{
    if is_name(word, b"full") {
        Some(YearRepr::Full)
    } else if is_name(word, b"century") {
        Some(YearRepr::Century)
    } else if is_name(word, b"last_two") {
        Some(YearRepr::LastTwo)
    } else {
        None
    }
}

/// Returns how great a year may be, by name.
#[tactic(auto, unfolding(crate::specs::Values::year_range_named))]
pub fn year_range_named(word: &[u8]) -> Option<YearRange>
    ensures { result ≡ year_range_named word.now }
{
    if is_name(word, b"standard") {
        Some(YearRange::Standard)
    } else if is_name(word, b"extended") {
        Some(YearRange::Extended)
    } else {
        None
    }
}

/// Returns the unit in which a moment is counted, by name.
#[tactic(auto, unfolding(crate::specs::Values::precision_named))]
pub fn precision_named(word: &[u8]) -> Option<UnixTimestampPrecision>
    ensures { result ≡ precision_named word.now }
{
    if is_name(word, b"second") {
        Some(UnixTimestampPrecision::Second)
    } else if is_name(word, b"millisecond") {
        Some(UnixTimestampPrecision::Millisecond)
    } else {
        None
    }
}

/// Returns how many decimals are written, by name.
#[tactic(auto, unfolding(crate::specs::Values::digits_named))]
pub fn digits_named(word: &[u8]) -> Option<SubsecondDigits>
    ensures { result ≡ digits_named word.now }
{
    if is_name(word, b"1") {
        Some(SubsecondDigits::One)
    } else if is_name(word, b"2") {
        Some(SubsecondDigits::Two)
    } else if is_name(word, b"3") {
        Some(SubsecondDigits::Three)
    } else if is_name(word, b"4") {
        Some(SubsecondDigits::Four)
    } else if is_name(word, b"5") {
        Some(SubsecondDigits::Five)
    } else if is_name(word, b"6") {
        Some(SubsecondDigits::Six)
    } else if is_name(word, b"7") {
        Some(SubsecondDigits::Seven)
    } else if is_name(word, b"8") {
        Some(SubsecondDigits::Eight)
    } else if is_name(word, b"9") {
        Some(SubsecondDigits::Nine)
    } else if is_name(word, b"1+") {
        Some(SubsecondDigits::OneOrMore)
    } else {
        None
    }
}

/// Returns the value of the word `true` or `false`.
#[tactic(auto, unfolding(crate::specs::Values::bool_named))]
pub fn bool_named(word: &[u8]) -> Option<bool>
    ensures { result ≡ bool_named word.now }
{
    if is_name(word, b"false") {
        Some(false)
    } else if is_name(word, b"true") {
        Some(true)
    } else {
        None
    }
}

/// Returns whether the clock has 12 hours, by name.
#[tactic(auto, unfolding(crate::specs::Values::clock_named))]
pub fn clock_named(word: &[u8]) -> Option<bool>
    ensures { result ≡ clock_named word.now }
{
    if is_name(word, b"12") {
        Some(true)
    } else if is_name(word, b"24") {
        Some(false)
    } else {
        None
    }
}

/// Returns whether letters are capitals, by name.
#[tactic(auto, unfolding(crate::specs::Values::case_named))]
pub fn case_named(word: &[u8]) -> Option<bool>
    ensures { result ≡ case_named word.now }
{
    if is_name(word, b"lower") {
        Some(false)
    } else if is_name(word, b"upper") {
        Some(true)
    } else {
        None
    }
}

/// Returns whether a plus is written, by name.
#[tactic(auto, unfolding(crate::specs::Values::sign_named))]
pub fn sign_named(word: &[u8]) -> Option<bool>
    ensures { result ≡ sign_named word.now }
{
    if is_name(word, b"automatic") {
        Some(false)
    } else if is_name(word, b"mandatory") {
        Some(true)
    } else {
        None
    }
}

/// Returns whether the year is that of the week calendar, by name.
#[tactic(auto, unfolding(crate::specs::Values::base_named))]
pub fn base_named(word: &[u8]) -> Option<bool>
    ensures { result ≡ base_named word.now }
{
    if is_name(word, b"calendar") {
        Some(false)
    } else if is_name(word, b"iso_week") {
        Some(true)
    } else {
        None
    }
}

/// Returns what a parser does with input past the end of a description, by name.
#[tactic(auto, unfolding(crate::specs::Values::trailing_input_named))]
pub fn trailing_input_named(word: &[u8]) -> Option<TrailingInput>
    ensures { result ≡ trailing_input_named word.now }
{
    if is_name(word, b"prohibit") {
        Some(TrailingInput::Prohibit)
    } else if is_name(word, b"discard") {
        Some(TrailingInput::Discard)
    } else {
        None
    }
}

/// The number with one more decimal digit, if it stays below 65,536.
fn with_digit(number: u16, digit: u8) -> Option<u16>
    ensures { result ≡ with_digit number digit }
{
    if !digit.is_ascii_digit() {
        return None;
    }
    let number = number as u32 * 10 + (digit - b'0') as u32;
    if number < 65_536 {
        Some(number as u16)
    } else {
        None
    }
}

/// The number, 0 to 65,535, that decimal digits write; of no digits, 0.
fn whole_number(digits: &[u8]) -> Option<u16>
    ensures { result ≡ whole_number 0 digits.now }
{
    let mut number = 0;
    for digit in digits {
        match with_digit(number, *digit) {
            Some(next) => number = next,
            None => return None,
        }
    }
    Some(number)
}

/// Returns the number of bytes, 1 to 65,535, that decimal digits write.
pub fn count_named(word: &[u8]) -> Option<u16>
    ensures { result ≡ count_named word.now }
{
    match whole_number(word) {
        Some(0) | None => None,
        Some(count) => Some(count),
    }
}
