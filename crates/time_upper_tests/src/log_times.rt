//! Times of log lines: texts to their decimals, and what is refused.
use crate::asserted::{assert_same, offset, timestamp};
use log_time::Decimals::{Microseconds, Milliseconds, Nanoseconds, Seconds};
use log_time::{Decimals, LogTime};
use std::process::Abort;
use time_fmt::Format;

/// Rows of the seconds since 1970 and the nanosecond, the hours and minutes of the offset, the
/// decimals, and the text.
macro_rules! texts {
    ($($at:tt $place:tt $decimals:ident $text:literal,)+) => {
        &[$(($at, $place, $decimals, $text)),+]
    };
}

/// Examples of RFC 3339, section 5.8, a leap day, and the ends of the years. The seconds are those
/// of `date +%s` of GNU coreutils.
const TEXTS: &[((i64, u32), (i8, i8), Decimals, &str)] = texts! {
    (482_196_050, 520_000_000) (0, 0) Milliseconds "1985-04-12T23:20:50.520Z",
    (851_042_397, 0) (-8, 0) Seconds "1996-12-19T16:39:57-08:00",
    (-1_041_337_173, 870_000_000) (0, 20) Microseconds "1937-01-01T12:00:27.870000+00:20",
    (-1, 999_999_999) (0, 0) Milliseconds "1969-12-31T23:59:59.999Z",
    (-1, 999_999_999) (0, 0) Seconds "1969-12-31T23:59:59Z",
    (951_868_799, 1_999) (0, 0) Microseconds "2000-02-29T23:59:59.000001Z",
    (1_709_252_999, 1) (0, -30) Nanoseconds "2024-02-29T23:59:59.000000001-00:30",
    (-62_167_305_540, 0) (23, 59) Milliseconds "0000-01-01T00:00:00.000+23:59",
    (253_402_387_139, 900_000_000) (-23, -59) Nanoseconds "9999-12-31T23:59:59.900000000-23:59",
};

/// The time of a moment at an offset: its text, or the component that is refused.
fn assert_time(
    rt: &impl Abort,
    (second, nanosecond): (i64, u32),
    (hours, minutes, seconds): (i8, i8, i8),
    decimals: Decimals,
    wanted: Result<&str, &str>,
) {
    let offset = offset(rt, hours, minutes, seconds);
    let time = LogTime { offset, decimals };
    match time.text(timestamp(rt, second, nanosecond)) {
        Ok(text) => assert_same(rt, Ok(text.as_str()), wanted),
        Err(Format::InvalidComponent(component)) => assert_same(rt, Err(component), wanted),
        Err(_) => panic!(rt; "another refusal"),
    }
}

#[test]
fn examples_of_the_rfc_are_cut_to_their_decimals(rt: HostRuntime) {
    for &(at, (hours, minutes), decimals, wanted) in TEXTS {
        assert_time(&rt, at, (hours, minutes, 0), decimals, Ok(wanted));
    }
}

#[test]
fn what_rfc_3339_has_no_text_for_is_refused_by_its_component(rt: HostRuntime) {
    for (second, place, name) in [
        (253_402_300_800, (0, 0, 0), "year"),
        (-62_167_219_201, (0, 0, 0), "year"),
        (0, (24, 0, 0), "offset_hour"),
        (0, (-25, -59, -59), "offset_hour"),
        (0, (23, 59, 1), "offset_second"),
        (0, (0, 0, -1), "offset_second"),
    ] {
        assert_time(&rt, (second, 0), place, Milliseconds, Err(name));
    }
}
