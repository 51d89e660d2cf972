//! What value a text is read as.
use crate::description::{bytes_of, iso8601};
use anyhow::bail;
use std::alloc::Global;
use std::fmt::Display;
use time::format_description::Plan;
use time::format_description::well_known::{Iso8601, Rfc2822, Rfc3339};
use time::parsing::{Parsable, rfc2822, rfc3339};
use time::{Date, OffsetDateTime, PlainDateTime, Time, Timestamp, UtcDateTime, UtcOffset};

/// A call for the type of a name.
macro_rules! for_type {
    ($name:expr, $call:ident<$($format:ty)?>($($argument:expr),+)) => {
        match $name {
            "Date" => $call::<Date, $($format)?>($($argument),+),
            "Time" => $call::<Time, $($format)?>($($argument),+),
            "PlainDateTime" => $call::<PlainDateTime, $($format)?>($($argument),+),
            "UtcDateTime" => $call::<UtcDateTime, $($format)?>($($argument),+),
            "OffsetDateTime" => $call::<OffsetDateTime, $($format)?>($($argument),+),
            "UtcOffset" => $call::<UtcOffset, $($format)?>($($argument),+),
            "Timestamp" => $call::<Timestamp, $($format)?>($($argument),+),
            _ => bail!("no type"),
        }
    };
}

/// The value of the type of a name, by a strict or a lenient reader, or why the text is not read.
pub fn read(
    alloc: Global,
    text: &str,
    description: &str,
    (name, is_lenient): (&str, bool),
) -> anyhow::Result<String> {
    let text = &bytes_of(alloc, text)?;
    let (word, rest) = description.split_once(' ').unwrap_or((description, ""));
    let plan = match word {
        "rfc3339" if is_lenient => return shown(alloc, rfc3339::read_lenient(text)),
        "rfc3339" => return for_type!(name, by_format<Rfc3339>(alloc, text, &Rfc3339)),
        "rfc2822" if is_lenient => return shown(alloc, rfc2822::read_lenient(text)),
        "rfc2822" => return for_type!(name, by_format<Rfc2822>(alloc, text, &Rfc2822)),
        "iso8601" => return for_type!(name, by_format<Iso8601>(alloc, text, &iso8601(rest)?)),
        _ if is_lenient => bail!("no reader"),
        "plan" => Plan::parse(alloc, &bytes_of(alloc, rest)?)?,
        "strftime-plan" => Plan::parse_strftime(alloc, &bytes_of(alloc, rest)?)?,
        _ => bail!("no reader"),
    };
    for_type!(name, by_format<Plan>(alloc, text, &plan))
}

fn by_format<V: Display + Drop, F: Parsable<V, Error: Display + Drop>>(
    alloc: Global,
    text: &[u8],
    format: &F,
) -> anyhow::Result<String> {
    shown(alloc, format.read_value(text))
}

fn shown<V: Display + Drop, E: Display + Drop>(
    alloc: Global,
    read: Result<V, E>,
) -> anyhow::Result<String> {
    Ok(match read {
        Ok(value) => format!(in alloc; "ok {value}")?,
        Err(fault) => format!(in alloc; "refused {fault}")?,
    })
}
