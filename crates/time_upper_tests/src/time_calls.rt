//! The crate `time`: its calls, its macros, and its paths.
use crate::asserted::{assert_same, assert_text, assert_that};
use std::mem::size_of;
use std::test::Fail;
use time::error::{
    BracketReason, ComponentRange, DifferentVariant, Error, InText, InvalidDescription,
    InvalidStrftime, InvalidVariant, StrftimeReason,
};
use time::format_description::well_known::Rfc3339;
use time::format_description::well_known::iso8601::OffsetPrecision;
use time::format_description::{
    BorrowedItems, FormatDescriptionV3, FormatDescriptionV3Inner, OwnedItems,
};
use time::formatting::{Metadata, TimestampState};
use time::macros::{date, datetime, offset, time, utc_datetime};
use time::parsing::{Expected, MailPart, Profile};
use time::parts::*;
use time::util::{days_in_month, days_in_year, is_leap_year, weeks_in_year};
use time::{Month, PrimitiveDateTime};

#[test]
fn a_value_is_appended_made_and_written_where_there_is_room(rt: HostRuntime) -> Result<(), Fail> {
    let (moment, clock) = (
        datetime!(2026-11-22 9:55:06.12 -6),
        text!(HOUR, b":", MINUTE),
    );
    let mut output = Vec::with_capacity(rt.alloc(), 5)?;
    assert_same(&rt, moment.write_into(&mut output, &clock)?, 5);
    assert_same(&rt, moment.format_into(&mut output, &Rfc3339)?, 28);
    assert_same(
        &rt,
        output.as_slice(),
        b"09:552026-11-22T09:55:06.12-06:00".as_slice(),
    );
    assert_text(&rt, moment.format(rt.alloc(), &clock)?, "09:55");
    Ok(())
}

#[test]
fn macros_make_the_values_that_they_spell(rt: HostRuntime) {
    assert_same(
        &rt,
        date!(-10 - 326).to_calendar_date(),
        (-10, Month::November, 22),
    );
    assert_same(&rt, date!(+12026-02-28).year(), 12_026);
    assert_same(&rt, time!(9:55).as_hms_nano(), (9, 55, 0, 0));
    assert_same(&rt, time!(9:55:06).as_hms_nano(), (9, 55, 6, 0));
    assert_same(
        &rt,
        time!(9:55:06.004_005).as_hms_nano(),
        (9, 55, 6, 4_005_000),
    );
    assert_same(&rt, offset!(UTC).as_hms(), (0, 0, 0));
    assert_same(&rt, offset!(+5:30).as_hms(), (5, 30, 0));
    assert_same(&rt, offset!(-00:00:01).as_hms(), (0, 0, -1));
    assert_same(&rt, offset!(+5:30:15).as_hms(), (5, 30, 15));
}

#[test]
fn macros_of_dates_and_times_make_what_they_spell(rt: HostRuntime) {
    let local: PrimitiveDateTime = datetime!(2026-326 9:55);
    assert_same(&rt, local.time().as_hms_nano(), (9, 55, 0, 0));
    assert_same(&rt, local.date().to_ordinal_date(), (2026, 326));
    let moment = datetime!(-10-326 9:55 -5:30);
    assert_same(&rt, moment.date().to_ordinal_date(), (-10, 326));
    assert_same(&rt, moment.offset().as_hms(), (-5, -30, 0));
    let utc = utc_datetime!(+12026-02-28 9:55:06.12);
    assert_same(&rt, utc.date().to_ordinal_date(), (12_026, 59));
    assert_same(&rt, utc.time().as_hms_nano(), (9, 55, 6, 120_000_000));
    assert_same(&rt, utc_datetime!(2026-326 9:55).ordinal(), 326);
}

/// What no other test of the crate names.
type Errors = (
    ComponentRange,
    DifferentVariant,
    Error,
    InText<'static>,
    InvalidVariant,
);

type Reasons = (
    InvalidDescription,
    InvalidStrftime,
    BracketReason,
    StrftimeReason,
);

type Trees<'a> = (BorrowedItems<'a>, OwnedItems<'a>, FormatDescriptionV3<'a>);

type Others = (
    FormatDescriptionV3Inner<'static>,
    OffsetPrecision,
    Metadata,
    TimestampState,
);

type Readers = (MailPart, Expected, Profile);

#[test]
fn each_path_is_there(rt: HostRuntime) {
    let errors = size_of::<Errors>() + size_of::<Reasons>() + size_of::<Trees<'_>>();
    let others = size_of::<Others>() + size_of::<Readers>();
    assert_that(&rt, errors > 0 && others > 0);
    assert_that(
        &rt,
        is_leap_year(2028) && days_in_month(Month::November, 2026) == 30,
    );
    assert_that(&rt, days_in_year(2028) == 366 && weeks_in_year(2026) == 53);
}
