//! Dates and times of day that are one step.
use crate::component_name::ComponentName;
use crate::digit_runs::{four, two};
use crate::digits::byte;
use crate::fault::Unexpected;
use crate::plan::components::behind_component;
use crate::values::text_fields::TextFields;
use time_plan::Run;

/// How many bytes a year of four digits and a month have, with a byte behind each.
const YEAR_AND_MONTH: usize = 8;

/// Reads an hour, a minute and a second, and returns what follows them.
///
/// Whether these are digits, and those between them the right ones, is seen when the text of the
/// value is compared.
#[inline(always)]
pub(crate) fn read_time<'a>(text: &'a [u8], fields: &mut TextFields) -> Option<&'a [u8]> {
    let [a, b, _, c, d, _, e, f, rest @ ..] = text else {
        return None;
    };
    let (hour, minute, second) = (two(*a, *b), two(*c, *d), two(*e, *f));
    if 23 < hour || 59 < minute || 59 < second {
        return None;
    }
    fields.hour_24 = hour;
    fields.minute = minute;
    fields.second = second;
    Some(rest)
}

/// Reads a year, a month and a day, and returns what follows them. They are compared later, as a time
/// of day.
#[inline(always)]
pub(crate) fn read_date<'a>(text: &'a [u8], fields: &mut TextFields) -> Option<&'a [u8]> {
    let [a, b, c, d, _, e, f, _, g, h, rest @ ..] = text else {
        return None;
    };
    if !a.is_ascii_digit() || !is_month(two(*e, *f)) {
        return None;
    }
    fields.year = four(*a, *b, *c, *d);
    fields.month = two(*e, *f);
    fields.day = two(*g, *h);
    fields.set_pick(ComponentName::Day, text.len() - YEAR_AND_MONTH);
    Some(rest)
}

/// Whether this is the number of a month.
fn is_month(number: u8) -> bool {
    1 <= number && number <= 12
}

/// Reads a run in any of its forms, component by component, and returns what follows it, or why the
/// text is none of it.
pub(crate) fn behind_run<'a>(
    run: Run,
    text: &'a [u8],
    fields: &mut TextFields,
) -> Result<&'a [u8], Unexpected> {
    let (first, second, third, between) = run.components();
    let rest = ok!(behind_component(first, 0, text, fields));
    let rest = ok!(byte(rest, between.first));
    let rest = ok!(behind_component(second, 0, rest, fields));
    let rest = ok!(byte(rest, between.second));
    behind_component(third, 0, rest, fields)
}
