//! Texts that show a part of a value, which a base value completes.
use super::plans::{plan, plan_in_brackets};
use crate::asserted::{answered, assert_same, assert_text, offset, timestamp};
use std::default::Default;
use std::process::Abort;
use std::test::Fail;
use time_below::OffsetDateTime;
use time_fmt::{DateState, Formattable};
use time_known::Rfc3339;
use time_plan::Plan;
use time_read::{ReadPlan, Readable};

/// Noon of 28 November 2026 and 15 seconds, two hours and a half before UTC.
fn base(rt: &impl Abort) -> OffsetDateTime {
    let moment = timestamp(rt, 1_795_858_215, 7);
    match moment.checked_to_offset(offset(rt, 2, 30, 0)) {
        Some(local) => local,
        None => panic!(rt; "no local time"),
    }
}

/// The value of a text by a plan, and by a base value what no text shows. Fails where it has none.
fn value_from<V: Readable<State: Drop> + Drop>(
    rt: &impl Abort,
    plan: &Plan,
    text: &str,
    base: &V,
) -> V {
    let reader = answered(rt, plan.reader_from(base));
    answered(rt, reader.read(text.as_bytes()))
}

/// Rows of a description, a text, and what RFC 3339 writes of the value that is completed.
macro_rules! completed {
    ($($conversions:literal $text:literal $wanted:literal,)+) => {
        &[$(($conversions, $text, $wanted)),+]
    };
}

const COMPLETED: &[(&str, &str, &str)] = completed! {
    "%b %e %H:%M:%S" "Nov  7 13:55:36" "2026-11-07T13:55:36+02:30",
    "%d/%m/%y %H" "01/02/70 09" "2070-02-01T09:00:00+02:30",
    "%s" "0" "1970-01-01T02:30:00+02:30",
    "%M:%S" "30:00" "2026-11-28T12:30:00+02:30",
    "%Y-%m-%d" "2024-02-29" "2024-02-29T12:00:15.000000007+02:30",
    "%V-%u" "01-1" "2025-12-29T12:00:15.000000007+02:30",
    "%I %p %z" "01 PM -0100" "2026-11-28T13:00:00-01:00",
    "%j" "060" "2026-03-01T12:00:15.000000007+02:30",
    "%C" "19" "1926-11-28T12:00:15.000000007+02:30",
};

#[test]
fn a_base_completes_what_no_text_shows(rt: HostRuntime) -> Result<(), Fail> {
    let alloc = rt.alloc();
    let base = base(&rt);
    for (conversions, text, wanted) in COMPLETED {
        let moment = value_from(&rt, &plan(&rt, alloc, conversions), text, &base);
        let shown = Rfc3339.format(alloc, &moment, &mut DateState::default())?;
        assert_text(&rt, shown, wanted);
    }
    Ok(())
}

#[test]
fn what_is_below_a_part_that_is_shown_is_zero_or_that_of_the_base(rt: HostRuntime) {
    let hour = plan_in_brackets(&rt, rt.alloc(), "[offset_hour]");
    let moment = value_from(&rt, &hour, "05", &base(&rt));
    assert_same(&rt, moment.offset().as_hms(), (5, 0, 0));
    let day = plan(&rt, rt.alloc(), "%F");
    let moment = timestamp(&rt, 1_700_000_000, 7);
    assert_same(&rt, value_from(&rt, &day, "2023-11-14", &moment), moment);
}
