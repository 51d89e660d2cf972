//! How the texts of components look.
use time_below::format_description::Component;
use time_below::format_description::modifier::{Padding, SubsecondDigits};

/// How the texts of a component look.
#[derive(Clone, Copy)]
pub(crate) enum Shape {
    /// A number in so many places.
    Number(Padding, usize),
    /// The last two digits of a year.
    LastTwo(Padding),
    /// A weekday by one digit: that of the first day of the week, and how many days behind a Monday
    /// that day stands.
    Weekday(u8, u8),
    /// A year or a century, which may have a sign.
    Year(YearShape),
    /// The hour of an offset, and whether it has a sign in any case.
    OffsetHour(Padding, bool),
    /// A count since 1970, and whether it has a sign in any case.
    Count(bool),
    /// Decimals of the second.
    Decimals(SubsecondDigits),
    /// Letters.
    Letters,
    /// There is no text.
    Nothing,
}

/// How the texts of a year or of a century look.
#[derive(Clone, Copy)]
pub(crate) struct YearShape {
    pub(crate) padding: Padding,
    /// How many places it has, and how many digits at most where there is no sign.
    pub(crate) places: usize,
    /// How many digits it has at most behind a sign.
    pub(crate) most: usize,
    /// Whether it has a sign in any case.
    pub(crate) has_sign: bool,
}

/// How the texts of a component that is not deprecated look.
pub(crate) fn shape_of(component: Component) -> Shape {
    match component {
        Component::Day(m) => Shape::Number(m.padding, 2),
        Component::MonthNumerical(m) => Shape::Number(m.padding, 2),
        Component::Ordinal(m) => Shape::Number(m.padding, 3),
        Component::WeekNumberIso(m) => Shape::Number(m.padding, 2),
        Component::WeekNumberSunday(m) => Shape::Number(m.padding, 2),
        Component::WeekNumberMonday(m) => Shape::Number(m.padding, 2),
        Component::Hour12(m) => Shape::Number(m.padding, 2),
        Component::Hour24(m) => Shape::Number(m.padding, 2),
        Component::Minute(m) => Shape::Number(m.padding, 2),
        Component::Second(m) => Shape::Number(m.padding, 2),
        Component::OffsetMinute(m) => Shape::Number(m.padding, 2),
        Component::OffsetSecond(m) => Shape::Number(m.padding, 2),
        Component::WeekdaySunday(m) => Shape::Weekday(first_digit(m.one_indexed), 6),
        Component::WeekdayMonday(m) => Shape::Weekday(first_digit(m.one_indexed), 0),
        Component::CalendarYearLastTwo(m) => Shape::LastTwo(m.padding),
        Component::IsoYearLastTwo(m) => Shape::LastTwo(m.padding),
        Component::CalendarYearFullExtendedRange(m) => year(m.padding, 4, 6, m.sign_is_mandatory),
        Component::CalendarYearFullStandardRange(m) => year(m.padding, 4, 4, m.sign_is_mandatory),
        Component::IsoYearFullExtendedRange(m) => year(m.padding, 4, 6, m.sign_is_mandatory),
        Component::IsoYearFullStandardRange(m) => year(m.padding, 4, 4, m.sign_is_mandatory),
        Component::CalendarYearCenturyExtendedRange(m) => {
            year(m.padding, 2, 4, m.sign_is_mandatory)
        }
        Component::CalendarYearCenturyStandardRange(m) => {
            year(m.padding, 2, 2, m.sign_is_mandatory)
        }
        Component::IsoYearCenturyExtendedRange(m) => year(m.padding, 2, 4, m.sign_is_mandatory),
        Component::IsoYearCenturyStandardRange(m) => year(m.padding, 2, 2, m.sign_is_mandatory),
        Component::OffsetHour(m) => Shape::OffsetHour(m.padding, m.sign_is_mandatory),
        Component::UnixTimestampSecond(m) => Shape::Count(m.sign_is_mandatory),
        Component::UnixTimestampMillisecond(m) => Shape::Count(m.sign_is_mandatory),
        Component::Subsecond(m) => Shape::Decimals(m.digits),
        Component::MonthShort(_)
        | Component::MonthLong(_)
        | Component::WeekdayShort(_)
        | Component::WeekdayLong(_)
        | Component::Period(_) => Shape::Letters,
        _ => Shape::Nothing,
    }
}

/// The digit of the first day of a week.
fn first_digit(one_indexed: bool) -> u8 {
    if one_indexed { b'1' } else { b'0' }
}

/// The shape of a year or of a century.
fn year(padding: Padding, places: usize, most: usize, has_sign: bool) -> Shape {
    Shape::Year(YearShape {
        padding,
        places,
        most,
        has_sign,
    })
}

/// How many decimals there are, where that does not depend on the value.
pub(crate) fn fixed_decimals(digits: SubsecondDigits) -> Option<usize> {
    match digits {
        SubsecondDigits::One => Some(1),
        SubsecondDigits::Two => Some(2),
        SubsecondDigits::Three => Some(3),
        SubsecondDigits::Four => Some(4),
        SubsecondDigits::Five => Some(5),
        SubsecondDigits::Six => Some(6),
        SubsecondDigits::Seven => Some(7),
        SubsecondDigits::Eight => Some(8),
        SubsecondDigits::Nine => Some(9),
        SubsecondDigits::OneOrMore => None,
    }
}
