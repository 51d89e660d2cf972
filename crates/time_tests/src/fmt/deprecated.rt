//! Deprecated components, which no text of a description spells, have the text of the component that
//! they convert to and a maximum length of their own.
use crate::asserted::assert_formats;
use crate::values::moment;
use time_below::modifier::Padding::Zero;
use time_below::modifier::{
    self, MonthRepr, UnixTimestampPrecision, WeekNumberRepr, WeekdayRepr, YearRange, YearRepr,
};
use time_below::{BorrowedFormatItem, Component};

/// Rows of a component by its choices, its text of 1997-11-12 9:55:06.12 -06:00 and its maximum
/// length.
macro_rules! components {
    ($($name:ident { $($choice:ident: $chosen:expr),* } $text:literal $width:literal,)+) => {
        &[$((Component::$name(modifier::$name { $($choice: $chosen),* }), $text, $width)),+]
    };
}

const DEPRECATED: &[(Component, &str, usize)] = components! {
    Month { padding: Zero, repr: MonthRepr::Numerical, case_sensitive: true } "11" 2,
    Month { padding: Zero, repr: MonthRepr::Long, case_sensitive: true } "November" 9,
    Month { padding: Zero, repr: MonthRepr::Short, case_sensitive: true } "Nov" 3,
    Weekday { repr: WeekdayRepr::Short, one_indexed: true, case_sensitive: true } "Wed" 3,
    Weekday { repr: WeekdayRepr::Long, one_indexed: true, case_sensitive: true } "Wednesday" 9,
    Weekday { repr: WeekdayRepr::Sunday, one_indexed: true, case_sensitive: true } "4" 1,
    Weekday { repr: WeekdayRepr::Monday, one_indexed: true, case_sensitive: true } "3" 1,
    WeekNumber { padding: Zero, repr: WeekNumberRepr::Iso } "46" 2,
    Hour { padding: Zero, is_12_hour_clock: false } "09" 2,
    UnixTimestamp { precision: UnixTimestampPrecision::Second, sign_is_mandatory: false }
        "879350106" 15,
    UnixTimestamp { precision: UnixTimestampPrecision::Millisecond, sign_is_mandatory: false }
        "879350106120" 18,
    Year { padding: Zero, repr: YearRepr::Full, range: YearRange::Standard, iso_week_based: false,
        sign_is_mandatory: false } "1997" 7,
    Year { padding: Zero, repr: YearRepr::Century, range: YearRange::Extended, iso_week_based: true,
        sign_is_mandatory: false } "19" 5,
    Year { padding: Zero, repr: YearRepr::LastTwo, range: YearRange::Extended, iso_week_based: true,
        sign_is_mandatory: false } "97" 2,
};

#[test]
fn a_deprecated_component_has_the_text_of_another_and_its_own_width(rt: HostRuntime) {
    let value = moment(&rt, (1997, 11, 12), (9, 55, 6, 120_000_000), (-6, 0, 0));
    for &(component, text, width) in DEPRECATED {
        let item = BorrowedFormatItem::Component(component);
        assert_formats(&rt, rt.alloc(), &item, &value, (text, width));
    }
}
