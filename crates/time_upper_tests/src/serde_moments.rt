//! Moments in JSON. The texts are those of RFC 3339, section 5.8, and their Unix time is that of
//! GNU `date -u -d TEXT +%s`.
use crate::asserted::{assert_text, assert_that, timestamp};
use serde::{Deserialize, Serialize};
use serde_json::{from_str, to_string};
use std::alloc::Global;
use std::process::Abort;
use std::test::Fail;
use time_below::{OffsetDateTime, UtcDateTime, UtcOffset};

#[derive(Drop, Serialize, Deserialize)]
struct Entry {
    #[serde(with = "time_serde::rfc3339")]
    opened: OffsetDateTime,
    #[serde(with = "time_serde::timestamp")]
    seen: OffsetDateTime,
}

#[derive(Drop, Serialize, Deserialize)]
struct Line {
    #[serde(with = "time_serde::rfc3339")]
    at: OffsetDateTime,
}

#[derive(Drop, Serialize, Deserialize)]
struct Second {
    #[serde(with = "time_serde::timestamp")]
    at: UtcDateTime,
}

/// Entries, when they were opened, and how they are written once they were read. An escape stands
/// for its character.
const ENTRIES: &[(&str, i64, &str)] = &[
    (
        r#"{"opened":"1996-12-19T16:39:57-08:00","seen":851042397}"#,
        851_042_397,
        r#"{"opened":"1996-12-19T16:39:57-08:00","seen":851042397}"#,
    ),
    (
        r#"{"opened":"1985-04-12\u005423:20:50.52\u005a","seen":0}"#,
        482_196_050,
        r#"{"opened":"1985-04-12T23:20:50.52Z","seen":0}"#,
    ),
];

#[test]
fn entries_go_round(rt: HostRuntime) -> Result<(), Fail> {
    for (text, seconds, written) in ENTRIES {
        let read: Entry = from_str(rt.alloc(), text)?;
        assert_that(&rt, read.opened.unix_timestamp() == *seconds);
        assert_text(&rt, to_string(rt.alloc(), &read)?, written);
    }
    Ok(())
}

/// Unix time is that of UTC, and has no decimals.
#[test]
fn unix_time_keeps_the_second_alone(rt: HostRuntime) -> Result<(), Fail> {
    let at = UtcDateTime::from(timestamp(&rt, 851_042_397, 999_999_999));
    let text = to_string(rt.alloc(), &Second { at })?;
    let read: Second = from_str(rt.alloc(), text.as_str())?;
    assert_that(
        &rt,
        read.at.unix_timestamp_nanos() == 851_042_397_000_000_000,
    );
    assert_text(&rt, text, r#"{"at":851042397}"#);
    Ok(())
}

/// Compares how the message of a refusal begins.
fn assert_says<T>(
    rt: &impl Abort,
    alloc: Global,
    answer: serde_json::Result<T>,
    words: &str,
) -> Result<(), Fail> {
    match answer {
        Ok(_) => panic!(rt; "there is no refusal: {words}"),
        Err(error) => {
            let said = format!(in alloc; "{error}")?;
            assert!(rt; said.starts_with(words), "{said}");
            Ok(())
        }
    }
}

#[test]
fn a_moment_that_has_no_text_is_refused(rt: HostRuntime) -> Result<(), Fail> {
    let utc = OffsetDateTime::UNIX_EPOCH;
    let (Ok(second), Ok(far)) = (UtcOffset::from_hms(0, 0, 1), utc.replace_year(10_000)) else {
        panic!(rt; "no moment");
    };
    let line = to_string(rt.alloc(), &Line { at: far });
    assert_says(&rt, rt.alloc(), line, "The year component cannot be ")?;
    let at = utc.replace_offset(second);
    let line = to_string(rt.alloc(), &Line { at });
    assert_says(&rt, rt.alloc(), line, "The offset_second component c")
}

/// What is no text of RFC 3339, and how the message begins. One has 36 bytes.
const UNREAD: &[(&str, &str)] = &[
    (
        r#"{"at":"1985-04-12t23:20:50Z"}"#,
        "byte 10: expected `T` at line 1 ",
    ),
    (
        r#"{"at":"1990-12-31T23:59:60Z"}"#,
        "byte 17: expected a digit fro",
    ),
    (
        r#"{"at":"1937-01-01T12:00:27.870000000+00:200"}"#,
        "byte 35: expected the end at line 1 ",
    ),
    (r#"{"at":851042397}"#, "invalid type at line 1 "),
    (r#"{"at":null}"#, "invalid type at line 1 "),
    (r#"{}"#, "missing field `at` at line 1 "),
];

/// What is no Unix time, and how the message begins.
const NO_SECONDS: &[(&str, &str)] = &[
    (r#"{"at":31494784780800}"#, "The seconds component is out "),
    (r#"{"at":-31619087596801}"#, "The seconds component is out "),
    (r#"{"at":"851042397"}"#, "invalid type at line 1 "),
];

#[test]
fn what_is_no_moment_is_refused_at_its_place(rt: HostRuntime) -> Result<(), Fail> {
    for (text, words) in UNREAD {
        assert_says(&rt, rt.alloc(), from_str::<Line>(rt.alloc(), text), words)?;
    }
    for (text, words) in NO_SECONDS {
        assert_says(&rt, rt.alloc(), from_str::<Second>(rt.alloc(), text), words)?;
    }
    let last: Second = from_str(rt.alloc(), r#"{"at":31494784780799}"#)?;
    assert_that(&rt, last.at.year() == 999_999);
    Ok(())
}
