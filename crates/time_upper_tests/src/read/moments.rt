//! A text as its moment, by the readers that no line of `time_rows` names. The seconds are those of
//! `date +%s` of GNU coreutils.
use crate::asserted::{answered, assert_same};
use std::process::Abort;
use time_below::OffsetDateTime;
use time_read::{NotRead, iso8601, stamp};

/// Compares the seconds since 1970, and the minutes of the offset.
fn assert_moment(
    rt: &impl Abort,
    read: Result<OffsetDateTime, NotRead>,
    seconds: i64,
    minutes: i16,
) {
    let moment = answered(rt, read);
    assert_same(rt, moment.unix_timestamp(), seconds);
    assert_same(rt, moment.offset().whole_minutes(), minutes);
}

#[test]
fn a_stamp_and_a_text_of_the_default_of_iso_8601_have_their_moments(rt: HostRuntime) {
    let text = b"1997-11-12T09:55:06.123456789-06:00";
    assert_moment(&rt, iso8601::read(text), 879_350_106, -360);
    let stamp = answered(&rt, stamp::read(b"2026-11-22T09:55:06.120000000Z"));
    assert_same(&rt, stamp.unix_timestamp_nanos(), 1_795_341_306_120_000_000);
}
