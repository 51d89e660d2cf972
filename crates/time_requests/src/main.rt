//! Prints whether each of five texts comes at once or, after a request for memory was refused, which
//! changes nothing, by a second call: of a list, of a byte that is no text and of no items by
//! `format`, and of RFC 3339 with room for 35 bytes and for 34 by `format_into`. Under `rt try
//! --fail-alloc 9 --cases cases` each run has its ninth request refused, and begins with as many as
//! its input says.
#![tactic(auto)]

use std::alloc::Global;
use std::default::Default;
use std::io;
use std::io::Read;
use time::OffsetDateTime;
use time::error::Format;
use time::format_description::well_known::Rfc3339;
use time::format_description::{BorrowedFormatItem as Item, BorrowedItems, Component};
use time::formatting::{DateState, Formattable};
use time::macros::datetime;
use time::parts::DAY;

fn make<F: Formattable>(
    alloc: Global,
    value: &OffsetDateTime,
    format: &F,
    text: &str,
) -> &'static str {
    let mut state = DateState::default();
    match format.format(alloc, value, &mut state) {
        Ok(made) if made.as_str() == text => return "once",
        Err(Format::OutOfMemory) if state == DateState::default() => {}
        _ => return "wrong",
    }
    match format.format(alloc, value, &mut state) {
        Ok(made) if made.as_str() == text => "twice",
        _ => "wrong",
    }
}

fn append(value: &OffsetDateTime, output: &mut Vec<u8>) -> &'static str {
    let (text, capacity) = (b"1997-11-12T09:55:06-06:00".as_slice(), output.capacity());
    let mut state = DateState::default();
    match Rfc3339.format_into(output, value, &mut state) {
        Ok(25) if output.as_slice() == text => return "once",
        Err(Format::OutOfMemory) if output.is_empty() && output.capacity() == capacity => {}
        _ => return "wrong",
    }
    let is_unchanged = state == DateState::default();
    match Rfc3339.format_into(output, value, &mut state) {
        Ok(25) if is_unchanged && output.as_slice() == text => "twice",
        _ => "wrong",
    }
}

fn main(rt: HostRuntime) -> io::Result<()> {
    let (alloc, mut count) = (rt.alloc(), [b'0'; 1]);
    let mut enough = Vec::with_capacity(alloc, 35)?;
    let mut short = Vec::with_capacity(alloc, 34)?;
    let _ = rt.stdin().read(&mut count)?;
    for _ in b'0'..count[0] {
        drop(Vec::<u8>::with_capacity(alloc, 1));
    }
    let value = datetime!(1997-11-12 9:55:06 -6);
    let list = BorrowedItems(&[Item::Component(Component::Day(DAY))]);
    let list = make(alloc, &value, &list, "12");
    let byte = make(alloc, &value, &Item::Literal(b"\xc3"), "\u{fffd}");
    let nothing = make(alloc, &value, &BorrowedItems(&[]), "");
    let (enough, short) = (append(&value, &mut enough), append(&value, &mut short));
    println!(rt; "{list} {byte} {nothing} {enough} {short}")
}
