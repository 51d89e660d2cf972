//! Displayed texts of values. No clause speaks of them, and `Debug` shows the same.
use crate::asserted::{assert_debugs, assert_displays, assert_same};
use crate::values::{date, moment, offset, time, timestamp};
use std::alloc::Global;
use std::fmt::{Debug, Display};
use std::process::Abort;
use time_below::{
    Date, InvalidVariant, Month, OffsetDateTime, PlainDateTime, Timestamp, UtcDateTime, Weekday,
};

/// Compares the text of a value, and its text for debugging.
fn assert_shows<T: Debug + Display>(rt: &impl Abort, alloc: Global, value: &T, text: &str) {
    assert_displays(rt, alloc, value, text);
    assert_debugs(rt, alloc, value, text);
}

const DATES: &[((i32, u8, u8), &str)] = &[
    ((0, 1, 1), "0000-01-01"),
    ((838, 4, 5), "0838-04-05"),
    ((9999, 12, 31), "9999-12-31"),
    ((10_000, 1, 1), "+10000-01-01"),
    ((999_999, 12, 31), "+999999-12-31"),
    ((-1, 12, 31), "-0001-12-31"),
    ((-10_000, 2, 29), "-10000-02-29"),
];

const TIMES: &[((u8, u8, u8, u32), &str)] = &[
    ((0, 0, 0, 0), "0:00:00.0"),
    ((9, 55, 6, 120_000_000), "9:55:06.12"),
    ((10, 0, 0, 1), "10:00:00.000000001"),
    ((23, 59, 59, 999_999_999), "23:59:59.999999999"),
];

const OFFSETS: &[((i8, i8, i8), &str)] = &[
    ((0, 0, 0), "+00:00:00"),
    ((5, 30, 0), "+05:30:00"),
    ((0, 0, -1), "-00:00:01"),
    ((-25, -59, -59), "-25:59:59"),
];

#[test]
fn dates_have_a_sign_that_is_needed_and_times_the_decimals_that_are(rt: HostRuntime) {
    for &(day, text) in DATES {
        assert_shows(&rt, rt.alloc(), &date(&rt, day), text);
    }
    for &(clock, text) in TIMES {
        assert_shows(&rt, rt.alloc(), &time(&rt, clock), text);
    }
    for &(ahead, text) in OFFSETS {
        assert_shows(&rt, rt.alloc(), &offset(&rt, ahead), text);
    }
}

/// Compares the displayed texts of values, a row each.
macro_rules! shown {
    ($rt:ident; $($value:expr => $text:literal,)+) => {
        $(assert_shows(&$rt, $rt.alloc(), &$value, $text);)+
    };
}

#[test]
fn a_date_and_time_has_a_space_and_what_is_known_of_its_offset(rt: HostRuntime) {
    let local = moment(&rt, (-1, 1, 1), (0, 0, 0, 0), (0, -1, 0));
    let half = timestamp(&rt, -1, 500_000_000);
    shown! { rt;
        PlainDateTime::MIN => "-999999-01-01 0:00:00.0",
        PlainDateTime::MAX => "+999999-12-31 23:59:59.999999999",
        local => "-0001-01-01 0:00:00.0 -00:01:00",
        OffsetDateTime::UNIX_EPOCH => "1970-01-01 0:00:00.0 +00:00:00",
        UtcDateTime::UNIX_EPOCH => "1970-01-01 0:00:00.0 +00",
        Timestamp::UNIX_EPOCH => "1970-01-01 0:00:00.0 +00",
        half => "1969-12-31 23:59:59.5 +00",
    }
}

#[test]
fn months_weekdays_and_the_refusal_of_a_name_are_displayed(rt: HostRuntime) {
    assert_displays(&rt, rt.alloc(), &Month::November, "November");
    assert_displays(&rt, rt.alloc(), &Weekday::Wednesday, "Wednesday");
    let refusal = InvalidVariant;
    assert_displays(&rt, rt.alloc(), &refusal, "value was not a valid variant");
}

/// Compares the texts of a date in more columns than it has, and in fewer.
fn assert_pads(rt: &impl Abort, alloc: Global, date: Date) {
    let Ok(shown) = format!(in alloc; "{date:13}|{date:>13}|{date:*^13}|{date:4}") else {
        panic!(rt; "no memory");
    };
    let padded = "2026-11-22   |   2026-11-22|*2026-11-22**|2026-11-22";
    assert_same(rt, shown.as_str(), padded);
}

#[test]
fn a_value_is_padded_as_a_text(rt: HostRuntime) {
    assert_pads(&rt, rt.alloc(), date(&rt, (2026, 11, 22)));
    let epoch = UtcDateTime::UNIX_EPOCH;
    let Ok(shown) = format!(in rt.alloc(); "{epoch:>26}") else {
        panic!(rt; "no memory");
    };
    assert_same(&rt, shown.as_str(), "  1970-01-01 0:00:00.0 +00");
}
