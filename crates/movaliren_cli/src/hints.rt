//! What a line looks like that passed as it was.
use crate::place::LocalIn;
use crate::reading::{self, Plans};
use jiff_tz::TimeZone;
use std::alloc::{AllocError, Global};
use time_below::Timestamp;
use time_lines::{Described, Form, FormRow, Reads, Years};
use time_read::rfc3339::read_lenient;
use time_read::{Expected, Mismatch, NotRead, Readable, Reader};

/// The descriptions that are tried, in the words of `--from`.
const TRIED: &[&str] = &[
    "rfc3339",
    "clf",
    "rfc2822",
    "log4j",
    "iso8601",
    "syslog",
    "%F %T.%3N",
    "%F %T.%6N",
    "%F %T",
    "%Y/%m/%d %H:%M:%S",
    "%d/%m/%Y %H:%M:%S",
];

/// A year that has every day.
const LEAP_YEAR: i32 = 2000;

/// What a line may be.
#[derive(Clone, Copy)]
pub enum Looks {
    /// It has a time by this word of `--from`.
    Like(&'static str),
    /// It has such a time, but for its second, which is 60.
    Second60,
    /// It has a text that is nearly a time, and is wrong here.
    Nearly(NotRead),
    Unknown,
}

/// Whether a text of the description is in the line.
fn has_text(alloc: Global, word: &str, line: &[u8]) -> bool {
    let Ok(plans) = Plans::of(alloc, word) else {
        return false;
    };
    let Ok(forms) = plans.forms(alloc, Timestamp::UNIX_EPOCH.date()) else {
        return false;
    };
    let mut reader = Described::new(forms, Years::One(LEAP_YEAR), LocalIn(TimeZone::UTC));
    for at in 0..line.len() {
        if let Some(front) = reader.read_front(&line[at..]) {
            if front.moment.is_some() {
                return true;
            }
        }
    }
    false
}

/// The first description that has a text in the line.
fn word_for(alloc: Global, line: &[u8]) -> Option<&'static str> {
    for word in TRIED {
        if has_text(alloc, word, line) {
            return Some(word);
        }
    }
    None
}

/// Whether a second 60 stands here, behind its colon.
fn has_second_60(line: &[u8], at: Option<usize>) -> bool {
    let Some(at) = at else {
        return false;
    };
    match line.get(at..) {
        Some(rest) => rest.starts_with(b":60"),
        None => false,
    }
}

/// The line with 59 for each 60 behind a colon.
fn without_second_60(alloc: Global, line: &[u8]) -> Result<Vec<u8>, AllocError> {
    let mut changed = Vec::new(alloc);
    for at in 0..line.len() {
        changed.push(if has_second_60(line, at.checked_sub(1)) {
            b'5'
        } else if has_second_60(line, at.checked_sub(2)) {
            b'9'
        } else {
            line[at]
        })?;
    }
    Ok(changed)
}

/// The fault of a text at this place of a line, as one of the line.
fn moved(fault: NotRead, at: usize) -> NotRead {
    NotRead {
        at: fault.at.saturating_add(at),
        ..fault
    }
}

/// Where the day of a text of RFC 3339 begins, and where it ends.
const DAY: (usize, usize) = (8, 10);

/// Where a text of RFC 3339 in the line is wrong that has a year and a month, and more than a date.
fn rfc3339_fault(line: &[u8]) -> Option<NotRead> {
    let (day, end) = DAY;
    for at in 0..line.len() {
        if let Err(fault) = read_lenient(&line[at..]) {
            if fault.at >= day && fault.at != end {
                return Some(moved(fault, at));
            }
        }
    }
    None
}

/// The text with 11 for the number of two digits at a place: a day, a month, an hour, a minute and
/// a second.
fn with_eleven(alloc: Global, text: &[u8], place: usize) -> Result<Vec<u8>, AllocError> {
    let mut changed = Vec::new(alloc);
    for at in 0..text.len() {
        changed.push(if at == place || Some(place) == at.checked_sub(1) {
            b'1'
        } else {
            text[at]
        })?;
    }
    Ok(changed)
}

/// Where the text is none that is read, if another number there makes one of it.
fn number_fault<V: Readable>(alloc: Global, reader: &Reader<'_, V>, text: &[u8]) -> Option<NotRead>
where
    V::State: Drop,
    V: Drop,
{
    let Err(fault) = reader.read_front(text) else {
        return None;
    };
    let Expected::Plan(Mismatch::NoValue(_)) = fault.expected else {
        return None;
    };
    let Ok(changed) = with_eleven(alloc, text, fault.at) else {
        return None;
    };
    match reader.read_front(changed.as_slice()) {
        Ok(_) => Some(fault),
        Err(_) => None,
    }
}

/// The same of the texts of one of the forms.
fn form_fault(alloc: Global, forms: &[FormRow<'_>], text: &[u8]) -> Option<NotRead> {
    for row in forms {
        let fault = match &row.form {
            Form::AtOffset(reader) => number_fault(alloc, reader, text),
            Form::AtMoment(reader) => number_fault(alloc, reader, text),
            Form::Local(reader) | Form::Yearless(reader) => number_fault(alloc, reader, text),
        };
        if fault.is_some() {
            return fault;
        }
    }
    None
}

/// Where a text of the description in the line is wrong, if another number there makes one of it.
fn described_fault(alloc: Global, word: &str, line: &[u8]) -> Option<NotRead> {
    let Ok(plans) = Plans::of(alloc, word) else {
        return None;
    };
    let Ok(forms) = plans.forms(alloc, Timestamp::UNIX_EPOCH.date()) else {
        return None;
    };
    for at in 0..line.len() {
        if let Some(fault) = form_fault(alloc, forms.as_slice(), &line[at..]) {
            return Some(moved(fault, at));
        }
    }
    None
}

/// What a line looks like in which no text of this description was read.
pub fn find(alloc: Global, from: &str, line: &[u8]) -> Looks {
    if let Some(word) = word_for(alloc, line) {
        return Looks::Like(word);
    }
    let Ok(changed) = without_second_60(alloc, line) else {
        return Looks::Unknown;
    };
    if word_for(alloc, changed.as_slice()).is_some() {
        return Looks::Second60;
    }
    let fault = if from == reading::USUAL {
        rfc3339_fault(line)
    } else {
        described_fault(alloc, from, line)
    };
    match fault {
        Some(fault) => Looks::Nearly(fault),
        None => Looks::Unknown,
    }
}
