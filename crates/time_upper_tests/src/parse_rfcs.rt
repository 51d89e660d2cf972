//! Values of each type by `Rfc3339` and by `Rfc2822`.
use std::test::Fail;
use time::format_description::well_known::{Rfc2822, Rfc3339};
use time::macros::{date, datetime, offset, time, utc_datetime};
use time::prelude::*;
use time::{Date, OffsetDateTime, PlainDateTime, Time, Timestamp, UtcDateTime, UtcOffset};

/// RFC 3339, section 5.8, the second example: 16:39:57 at -08:00, "equivalent to
/// 1996-12-20T00:39:57Z in UTC".
#[test]
fn each_type_has_a_value_by_rfc3339(rt: HostRuntime) -> Result<(), Fail> {
    let text = "1996-12-19T16:39:57-08:00";
    let whole = OffsetDateTime::parse(text, &Rfc3339)?;
    assert!(rt; whole.date() == date!(1996 - 12 - 19) && whole.time() == time!(16:39:57));
    assert!(rt; whole.offset() == offset!(-8) && whole.unix_timestamp() == 851_042_397);
    assert!(rt; UtcDateTime::parse(text, &Rfc3339)? == utc_datetime!(1996-12-20 0:39:57));
    assert!(rt; Timestamp::parse(text, &Rfc3339)?.as_parts() == (851_042_397, 0));
    assert!(rt; PlainDateTime::parse(text, &Rfc3339)? == datetime!(1996-12-19 16:39:57));
    assert!(rt; Date::parse(text, &Rfc3339)? == date!(1996 - 12 - 19));
    assert!(rt; Time::parse("1985-04-12T23:20:50.52Z", &Rfc3339)? == time!(23:20:50.52));
    assert!(rt; UtcOffset::parse("1937-01-01T12:00:27.87+00:20", &Rfc3339)? == offset!(+0:20));
    Ok(())
}

/// RFC 5322, appendix A.1.3, whose moment is that of 1969-02-14T03:02:54Z.
#[test]
fn each_type_has_a_value_by_rfc2822(rt: HostRuntime) -> Result<(), Fail> {
    let text = "Thu, 13 Feb 1969 23:32:54 -0330";
    let whole = OffsetDateTime::parse(text, &Rfc2822)?;
    assert!(rt; whole.date() == date!(1969 - 02 - 13) && whole.time() == time!(23:32:54));
    assert!(rt; whole.offset() == offset!(-3:30) && whole.unix_timestamp() == -27_723_426);
    assert!(rt; UtcDateTime::parse(text, &Rfc2822)? == utc_datetime!(1969-02-14 3:02:54));
    assert!(rt; Timestamp::parse(text, &Rfc2822)?.as_parts() == (-27_723_426, 0));
    assert!(rt; PlainDateTime::parse(text, &Rfc2822)? == datetime!(1969-02-13 23:32:54));
    assert!(rt; Date::parse(text, &Rfc2822)? == date!(1969 - 02 - 13));
    assert!(rt; Time::parse(text, &Rfc2822)? == time!(23:32:54));
    assert!(rt; UtcOffset::parse(text, &Rfc2822)? == offset!(-3:30));
    Ok(())
}

#[test]
fn a_year_in_utc_of_five_digits_or_below_zero_is_a_value(rt: HostRuntime) -> Result<(), Fail> {
    let last = UtcDateTime::parse("9999-12-31T23:59:59-23:59", &Rfc3339)?;
    assert!(rt; last == utc_datetime!(+10000-01-01 23:58:59));
    let first = UtcDateTime::parse("0000-01-01T00:00:00+23:59", &Rfc3339)?;
    assert!(rt; first.year() == -1 && first.time() == time!(0:01));
    Ok(())
}

/// RFC 3339, section 5.8, the third example, and a weekday that is not that of the date.
#[test]
fn no_type_has_a_value_of_a_leap_second_or_of_another_weekday(rt: HostRuntime) {
    let leap = "1990-12-31T23:59:60Z";
    assert!(rt; UtcDateTime::parse(leap, &Rfc3339).is_err_and(|fault| fault.is_second_60));
    assert!(rt; Date::parse(leap, &Rfc3339).is_err_and(|fault| fault.is_second_60));
    let friday = "Fri, 13 Feb 1969 23:32:54 -0330";
    assert!(rt; Timestamp::parse(friday, &Rfc2822).is_err_and(|fault| fault.at == 0));
    assert!(rt; UtcOffset::parse(friday, &Rfc2822).is_err_and(|fault| fault.at == 0));
}
