//! Jobs over lines, of what no run of `movaliren` shows: the year of texts without one. The texts of
//! moments are those of GNU `date -u`.
use crate::asserted::{answered, assert_same, assert_that, timestamp};
use line_streams::LineJob;
use std::alloc::Global;
use std::process::Abort;
use std::test::Fail;
use time_below::{Date, Timestamp};
use time_fmt::parts::UNIX_TIMESTAMP;
use time_lines::{Described, Descriptions, Form, FormRow, InUtc, Passed, ReadJob, Utc, Why, Years};
use time_plan::Plan;

/// What a line becomes.
fn assert_becomes<J: LineJob>(
    rt: &impl Abort,
    alloc: Global,
    job: &mut J,
    line: &str,
    wanted: &str,
) {
    let mut output = Vec::new(alloc);
    assert!(rt; job.prepare().is_ok());
    assert_that(rt, job.append(&mut output, line.as_bytes()).is_ok());
    assert_same(rt, output.as_slice(), wanted.as_bytes());
}

/// What a line becomes by a description whose texts are of these years, and why it stays.
fn assert_read(
    rt: &impl Abort,
    alloc: Global,
    years: Years,
    line: &str,
    (wanted, why): (&str, Option<Why>),
) -> Result<(), Fail> {
    let plan = answered(rt, Plan::parse_strftime(alloc, b"%b %e %H:%M:%S"));
    let Ok(date) = Date::from_ordinal_date(2026, 326) else {
        panic!(rt; "no date");
    };
    let Ok(form) = Form::of(&plan, date) else {
        panic!(rt; "no form");
    };
    let mut job = ReadJob {
        shown: InUtc {
            descriptions: Descriptions::one(alloc, UNIX_TIMESTAMP),
        },
        reader: Described::new(vec![in alloc; FormRow::new(form)]?, years, Utc),
        passed: Passed::new(),
        example: Vec::new(alloc),
    };
    assert_becomes(rt, alloc, &mut job, line, wanted);
    assert_that(rt, job.passed.first.map(|first| first.why) == why);
    Ok(())
}

/// The seconds of a clock, a text without a year, and its seconds.
const LATEST: &[(i64, &str, &str)] = &[
    // 2026-01-01T00:30:00Z
    (1_767_227_400, "Dec 31 23:59:59", "1767225599"),
    (1_767_227_400, "Jan  1 00:00:00", "1767225600"),
    (1_767_227_400, "Jan  2 00:30:00", "1767313800"),
    (1_767_227_400, "Jan  2 00:30:01", "1735777801"),
    (1_767_227_400, "Feb 29 00:00:00", "1709164800"),
    // 2105-01-01T00:00:00Z, where 2100 is no leap year
    (4_260_211_200, "Feb 29 00:00:00", "4233686400"),
];

#[test]
fn a_text_without_a_year_has_the_latest_up_to_a_day_after_now(rt: HostRuntime) -> Result<(), Fail> {
    for &(now, line, wanted) in LATEST {
        let years = Years::before_day_after(timestamp(&rt, now, 0));
        assert_read(&rt, rt.alloc(), years, line, (wanted, None))?;
    }
    let line = "Feb 29 00:00:00";
    let stays = (line, Some(Why::NoDay));
    assert_read(&rt, rt.alloc(), Years::One(2023), line, stays)?;
    let stays = ("nov 14", Some(Why::NoTime));
    assert_read(&rt, rt.alloc(), Years::One(2023), "nov 14", stays)
}
