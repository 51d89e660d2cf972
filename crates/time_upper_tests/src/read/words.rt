//! The words of each fault of a reader, at the first byte that no text has.
use crate::asserted::{answered, assert_refused, assert_that};
use std::default::Default;
use time_below::{Date, OffsetDateTime, PlainDateTime, Timestamp, UtcOffset};
use time_known::{Config, DateKind, FormattedComponents as Parts};
use time_read::iso8601::{NoReader, reader};
use time_read::{iso8601, rfc2822, rfc3339, stamp};

/// Compares the words in which a reader refuses texts.
macro_rules! refused {
    ($rt:ident $read:path; $($text:literal $words:literal,)+) => {
        $(assert_refused(&$rt, $rt.alloc(), $read($text), $words);)+
    };
}

#[test]
fn a_text_that_is_none_of_rfc_3339_has_its_place(rt: HostRuntime) {
    refused! { rt rfc3339::read;
        b"2026-11-22" "byte 10: expected `T`",
        b"2026-02-29T00:00:00Z" "byte 9: expected a digit from 0 to 8",
        b"2026-04-31T00:00:00Z" "byte 9: expected the digit 0",
        b"1990-12-31T23:59:60Z" "byte 17: expected a digit from 0 to 5, since second 60 has no value",
        b"2026-11-22T09:55:06" "byte 19: expected `.`, `Z`, `+` or `-`",
        b"2026-11-22T09:55:06.1" "byte 21: expected a digit, `Z`, `+` or `-`",
        b"2026-11-22T09:55:06.1234567891Z" "byte 29: expected `Z`, `+` or `-`",
        b"2026-11-22T09:55:06Zx" "byte 20: expected the end",
        b"2026-11-22T09:55:06+0530" "byte 22: expected `:`",
        b"2026-11-22T09:55:06-00:00" "byte 24: expected a digit from 1 to 9",
    }
}

#[test]
fn a_text_that_means_none_of_rfc_3339_has_its_place(rt: HostRuntime) {
    refused! { rt rfc3339::read_lenient;
        b"2026-11-22 09:55:06Z" "byte 10: expected `T` or `t`",
        b"2026-11-22t09:55:06" "byte 19: expected `.`, `Z`, `z`, `+` or `-`",
        b"2026-11-22t09:55:06.1234567891" "byte 30: expected a digit, `Z`, `z`, `+` or `-`",
        b"2026-11-22t09:55:06-00:60" "byte 23: expected a digit from 0 to 5",
    }
}

#[test]
fn a_text_that_is_none_of_rfc_2822_has_its_place(rt: HostRuntime) {
    refused! { rt rfc2822::read;
        b"fri, 21 Nov 1997 09:55:06 -0600" "byte 0: expected `F`",
        b"Fxi" "byte 0: expected the name of a weekday, or a day",
        b"Sat, 29 Feb 1997" "byte 5: expected a day that this month has",
        b"Fri, 21 Nov 1997 09:55:06 GMT" "byte 26: expected `+`",
        b"Sat, 31 Dec 2016 23:59:60 +0000" "byte 23: expected `5`, since second 60 has no value",
        b"Sun, 23 Nov 2026 09:55:06 -0600" "byte 0: expected `Mon`, the weekday of this date",
        b"Mon, 24 Nov 2026 09:55:06 -0600" "byte 0: expected `Tue`, the weekday of this date",
        b"Tue, 25 Nov 2026 09:55:06 -0600" "byte 0: expected `Wed`, the weekday of this date",
        b"Wed, 26 Nov 2026 09:55:06 -0600" "byte 0: expected `Thu`, the weekday of this date",
        b"Sat, 21 Nov 1997 09:55:06 -0600" "byte 0: expected `Fri`, the weekday of this date",
        b"Fri, 28 Nov 2026 09:55:06 -0600" "byte 0: expected `Sat`, the weekday of this date",
        b"Sat, 22 Nov 2026 09:55:06 -0600" "byte 0: expected `Sun`, the weekday of this date",
    }
}

#[test]
fn a_text_that_is_none_of_mail_has_its_part(rt: HostRuntime) {
    refused! { rt rfc2822::read_lenient;
        b"" "byte 0: expected the name of a weekday, or a day",
        b"Sunday, 06-Nov-94 08:49:37 GMT" "byte 3: expected `,`",
        b"032 Nov 1997" "byte 0: expected a day from 1 to 31",
        b"21Nov" "byte 2: expected white space or a comment",
        b"21 Nev" "byte 3: expected the name of a month",
        b"21 Nov 1899" "byte 7: expected a year from 1900 on",
        b"29 Feb 1900 00:00 GMT" "byte 0: expected a day that this month has",
        b"21 Nov 97 9:55" "byte 10: expected an hour from 00 to 23",
        b"21 Nov 97 09.55" "byte 12: expected `:`",
        b"21 Nov 97 09:60" "byte 13: expected a minute from 00 to 59",
        b"21 Nov 97 09:55:61" "byte 16: expected a second from 00 to 60",
        b"21 Nov 97 09:55:06 CET" "byte 19: expected a zone that has a meaning",
        b"21 Nov 97 09:55:06 GMT x" "byte 23: expected the end",
        b"21 Nov 97 09:55:06 GMT (open" "byte 28: expected the end of a comment",
        b"Sat, 21 Nov 1997 09:55:06 -0600" "byte 0: expected `Fri`, the weekday of this date",
    }
}

#[test]
fn a_text_that_is_no_stamp_or_none_of_iso_8601_has_its_place(rt: HostRuntime) {
    refused! { rt stamp::read;
        b"2026-11-22T09:55:06Z" "byte 19: expected `.`",
        b"2026-11-22T09:55:06.120000000+00:00" "byte 29: expected `Z`",
    }
    refused! { rt iso8601::read;
        b"2026-11-22T09:55:06.120000000" "byte 29: expected `Z`, `+` or `-`",
        b"2026-11-22T09:55:06.120000000+00:00" "byte 29: expected `Z`",
    }
    let weeks = Config::default()
        .set_formatted_components(Parts::Date)
        .set_date_kind(DateKind::Week);
    let reader = answered(&rt, reader::<Date>(&weeks));
    let fault = reader.read(b"+999999-W52-6");
    assert_refused(
        &rt,
        rt.alloc(),
        fault,
        "byte 0: expected a digit from 0 to 9",
    );
    let fault = reader.read(b"2010-W53-1");
    assert_refused(
        &rt,
        rt.alloc(),
        fault,
        "byte 7: expected a digit from 0 to 2",
    );
}

#[test]
fn a_configuration_whose_texts_tell_too_little_or_too_much_has_no_reader(rt: HostRuntime) {
    let parts = |parts: Parts| Config::default().set_formatted_components(parts);
    let undetermined = "the texts do not determine a value of the type";
    let none = reader::<OffsetDateTime>(&parts(Parts::DateTime));
    assert_refused(&rt, rt.alloc(), none, undetermined);
    let none = reader::<Timestamp>(&parts(Parts::Date));
    assert_that(&rt, matches!(none, Err(NoReader::Undetermined)));
    let none = reader::<PlainDateTime>(&Config::default());
    assert_refused(
        &rt,
        rt.alloc(),
        none,
        "step 2: no value of the type has what is shown",
    );
    let none = reader::<UtcOffset>(&parts(Parts::Time));
    assert_that(&rt, matches!(none, Err(NoReader::Unsupplied(_))));
}
