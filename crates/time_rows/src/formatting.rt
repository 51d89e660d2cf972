//! What a description writes of a value.
use crate::description::{bytes_of, in_brackets, iso8601};
use crate::value::{date, split_offset, time, timestamp};
use anyhow::bail;
use std::alloc::Global;
use std::default::Default;
use time::format_description::well_known::{ImfFixdate, Rfc2822, Rfc3339};
use time::format_description::{Component, OwnedFormatItem, Plan, parse_strftime_owned};
use time::formatting::{ComponentProvider, Formattable};
use time::parts::DAY;
use time::{Date, OffsetDateTime, PlainDateTime, UtcDateTime};

/// Where a text goes.
#[derive(Clone, Copy)]
pub enum Room<'a> {
    /// Behind these bytes. It is also made as a text of its own, by the same state.
    After(&'a str),
    /// Into a vector whose capacity is the maximum length.
    Exact,
}

/// What comes of the value that a text is: the number of bytes, the maximum length and the output
/// behind `ok`, behind `exact` for a text that fills exact room, or behind `refused`, with the error
/// before the output.
pub fn answer(
    alloc: Global,
    value: &str,
    text: &str,
    room: Room<'_>,
) -> Option<anyhow::Result<String>> {
    if let Some((seconds, others)) = value.split_once('s') {
        return Some(answer_of(alloc, &timestamp(seconds, others)?, text, room));
    }
    if let Some((day, clock)) = value.split_once('T') {
        return answer_of_both(alloc, date(day)?, clock, text, room);
    }
    Some(match split_offset(value) {
        _ if !value.contains(':') => answer_of(alloc, &date(value)?, text, room),
        Some((_, offset)) => answer_of(alloc, &offset, text, room),
        None => answer_of(alloc, &time(value)?, text, room),
    })
}

/// The same of a date and a time of day, behind which stands `Z`, an offset or nothing.
fn answer_of_both(
    alloc: Global,
    date: Date,
    clock: &str,
    text: &str,
    room: Room<'_>,
) -> Option<anyhow::Result<String>> {
    if let Some(clock) = clock.strip_suffix('Z') {
        return Some(answer_of(alloc, &UtcDateTime::new(date, time(clock)?), text, room));
    }
    Some(match split_offset(clock) {
        Some((clock, offset)) => {
            let moment = OffsetDateTime::new_in_offset(date, time(clock)?, offset);
            answer_of(alloc, &moment, text, room)
        }
        None => answer_of(alloc, &PlainDateTime::new(date, time(clock)?), text, room),
    })
}

/// The answer by a text whose first word says what it is; without such a word it is in brackets.
fn answer_of<V: ComponentProvider<State: Drop>>(
    alloc: Global,
    value: &V,
    text: &str,
    room: Room<'_>,
) -> anyhow::Result<String> {
    let (word, rest) = text.split_once(' ').unwrap_or((text, ""));
    let bytes = &bytes_of(alloc, rest)?;
    match word {
        "rfc3339" => answer_by(alloc, value, &Rfc3339, room),
        "rfc2822" => answer_by(alloc, value, &Rfc2822, room),
        "http" => answer_by(alloc, value, &ImfFixdate, room),
        "iso8601" => answer_by(alloc, value, &iso8601(rest)?, room),
        "plan" => answer_by(alloc, value, &Plan::parse(alloc, bytes)?, room),
        "strftime-plan" => answer_by(alloc, value, &Plan::parse_strftime(alloc, bytes)?, room),
        "strftime" => answer_by(alloc, value, &parse_strftime_owned(alloc, bytes)?, room),
        _ => answer_by(
            alloc,
            value,
            &in_brackets(alloc, &bytes_of(alloc, text)?)?,
            room,
        ),
    }
}

fn answer_by<V: ComponentProvider<State: Drop>, F: Formattable>(
    alloc: Global,
    value: &V,
    format: &F,
    room: Room<'_>,
) -> anyhow::Result<String> {
    match room {
        Room::After(before) => append_after(alloc, before, value, format),
        Room::Exact => fill_exact_room(alloc, value, format),
    }
}

fn append_after<V: ComponentProvider<State: Drop>, F: Formattable>(
    alloc: Global,
    before: &str,
    value: &V,
    format: &F,
) -> anyhow::Result<String> {
    let mut state = V::State::default();
    let mut output = Vec::from_slice(alloc, before.as_bytes())?;
    let appended = format.format_into(&mut output, value, &mut state);
    let made = format.format(alloc, value, &mut state);
    let width = format.compute_metadata().max_bytes_needed;
    let count = output.len().saturating_sub(before.len());
    let text = String::from_utf8_lossy(alloc, &output)?;
    Ok(match (appended, made) {
        (Ok(length), Ok(made)) if length == count && text.as_str().ends_with(made.as_str()) => {
            format!(in alloc; "ok {count} {width} {text:?}")?
        }
        (Err(refusal), Err(_)) => {
            // The state serves the same value after a refusal.
            let day = OwnedFormatItem::Component(Component::Day(DAY));
            let then = match day.format(alloc, value, &mut state) {
                Ok(day) => format!(in alloc; ", then {day:?}")?,
                Err(_) => String::new(alloc),
            };
            format!(in alloc; "refused {count} {width} {refusal:?} {text:?}{then}")?
        }
        _ => format!(in alloc; "two answers, with {text:?}")?,
    })
}

fn fill_exact_room<V: ComponentProvider<State: Drop>, F: Formattable>(
    alloc: Global,
    value: &V,
    format: &F,
) -> anyhow::Result<String> {
    let width = format.compute_metadata().max_bytes_needed;
    if width == usize::MAX {
        bail!("no room");
    }
    let mut output = Vec::with_capacity(alloc, width)?;
    let written = format.write_into(&mut output, value, &mut V::State::default());
    let text = String::from_utf8_lossy(alloc, &output)?;
    Ok(match written {
        _ if output.capacity() != width => format!(in alloc; "other room")?,
        Ok(count) if count == width => format!(in alloc; "exact {count} {width} {text:?}")?,
        Ok(count) => format!(in alloc; "ok {count} {width} {text:?}")?,
        Err(refusal) => format!(in alloc; "refused {} {width} {refusal:?} {text:?}", output.len())?,
    })
}
