//! What a line is answered by.
ghost use Rattle.std.specs.Prelude.{◌≡◌, ℕ, List};
ghost use Rattle.time_show.specs.Answer.{IsAnswer, Answers};
ghost use Rattle.time_show.specs.Asked.{asked_by, asked_value, comma_choices};
ghost use Rattle.time_show.specs.Fields.{numbers_of};
ghost use Rattle.time_show.specs.LineBuffer.{kept_of};
ghost use Rattle.time_show.specs.Reply.{reply_text, error_name};

use crate::fields::LineFields;
use crate::line_buffer::LineBuffer;
use crate::value::{NoValue, date_time_value, time_value, utc_date_time_value};
use std::default::Default;
use time_below::{BorrowedFormatItem, Component};
use time_fmt::parts::{HOUR, MINUTE, SECOND, SUBSECOND};
use time_fmt::{BorrowedItems, Format, Formattable};
use time_known::{Config, DecimalSign, Iso8601, Rfc2822, Rfc3339};
use time_provide::ComponentProvider;

/// The answer to a line.
#[derive(Clone, Copy)]
pub enum Reply<'a> {
    /// A value's text, the number of its bytes as the formatter counted them, and the description's
    /// maximum length.
    Formatted {
        count: usize,
        width: usize,
        text: &'a [u8],
    },
    /// A refusal by its name, with the number of bytes that were written before it.
    Refused {
        written: usize,
        name: &'static str,
    },
    /// The line is no command.
    BadLine,
}

/// Hour, minute and second in two digits each, and as many decimals as are needed, at least one.
const TIME: &[BorrowedFormatItem<'static>] = &[
    BorrowedFormatItem::Component(Component::Hour24(HOUR)),
    BorrowedFormatItem::StringLiteral(":"),
    BorrowedFormatItem::Component(Component::Minute(MINUTE)),
    BorrowedFormatItem::StringLiteral(":"),
    BorrowedFormatItem::Component(Component::Second(SECOND)),
    BorrowedFormatItem::StringLiteral("."),
    BorrowedFormatItem::Component(Component::Subsecond(SUBSECOND)),
];

/// The default format of ISO 8601, with a comma before the decimals.
fn iso_with_comma() -> Iso8601
    ensures { result ≡ comma_choices }
{
    Iso8601::new(Config::default().set_decimal_sign(DecimalSign::Comma))
}

/// The name of an error in its refusal.
fn error_name(error: &Format) -> &'static str
    ensures { result.now ≡ error_name error.now }
{
    match error {
        Format::InsufficientTypeInformation => "insufficient",
        Format::InvalidComponent(component) => component,
        Format::ComponentRange(range) => range.name(),
        Format::OutOfMemory => "out-of-memory",
    }
}

/// The reply to a value by a description, or to fields that give none. The text of the value takes
/// the place of the one before it.
fn value_reply<'a, D: Formattable, V: ComponentProvider + Drop>(
    text: &'a mut Vec<u8>,
    description: &D,
    value: Result<V, NoValue>,
) -> Reply<'a>
where
    V::State: Drop,
    ensures { Answers
        (asked_value (D.width_of description.now)
        (λ v. D.outcome_of description.now (V.facts v)) value)
        (reply_text result) }
{
    let value = match value {
        Ok(value) => value,
        Err(NoValue::BadLine) => return Reply::BadLine,
        Err(NoValue::OutOfRange(part)) => {
            return Reply::Refused {
                written: 0,
                name: part.name(),
            };
        }
    };
    text.clear();
    let mut state = Default::default();
    match description.format_into(text, &value, &mut state) {
        Ok(count) => Reply::Formatted {
            count,
            width: description.compute_metadata().max_bytes_needed,
            text: text.as_slice(),
        },
        Err(error) => Reply::Refused {
            written: text.len(),
            name: error_name(&error),
        },
    }
}

/// The reply to the numbers of a command.
fn named_reply<'a>(text: &'a mut Vec<u8>, name: &[u8], fields: LineFields<'_>) -> Reply<'a>
    ensures { Answers (asked_by name.now (numbers_of fields.entry)) (reply_text result) }
{
    if name == b"time".as_slice() {
        value_reply(text, &BorrowedItems(TIME), time_value(fields))
    } else if name == b"rfc3339".as_slice() {
        value_reply(text, &Rfc3339, date_time_value(fields))
    } else if name == b"rfc2822".as_slice() {
        value_reply(text, &Rfc2822, date_time_value(fields))
    } else if name == b"iso".as_slice() {
        value_reply(text, &Iso8601::default(), date_time_value(fields))
    } else if name == b"iso-comma".as_slice() {
        value_reply(text, &iso_with_comma(), date_time_value(fields))
    } else if name == b"stamp".as_slice() {
        value_reply(text, &Iso8601::default(), utc_date_time_value(fields))
    } else {
        Reply::BadLine
    }
}

/// The reply to the line in the buffer. The text of its value is put into the vector.
pub fn reply_to<'a>(text: &'a mut Vec<u8>, line: &LineBuffer) -> Reply<'a>
    ensures { (whole : List ℕ) → line.now ≡ kept_of whole → IsAnswer whole (reply_text result) }
{
    let Some(line) = line.line() else {
        return Reply::BadLine;
    };
    let mut fields = LineFields::new(line);
    match fields.next_field() {
        None => Reply::BadLine,
        Some(name) => named_reply(text, name, fields),
    }
}
