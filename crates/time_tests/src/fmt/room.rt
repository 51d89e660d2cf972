//! Room: each engine writes where it is, and what no memory holds is refused.
use crate::asserted::{append, assert_refusal, assert_same, assert_that};
use crate::values::{time, wednesday};
use std::default::Default;
use std::test::Fail;
use time_below::{BorrowedFormatItem as Borrowed, Component, FormatDescriptionV3Inner as Inner};
use time_fmt::{BorrowedItems, DateState, Formattable, component_write_into, parts, v3_write_into};

const DAY: Component = Component::Day(parts::DAY);

const HOUR: Component = Component::Hour24(parts::HOUR);

const MINUTE: Component = Component::Minute(parts::MINUTE);

#[test]
fn engines_write_where_there_is_room(rt: HostRuntime) -> Result<(), Fail> {
    let value = time(&rt, (9, 55, 6, 0));
    let mut output = Vec::with_capacity(rt.alloc(), 16)?;
    let first = component_write_into(&HOUR, &mut output, &value, &mut ());
    let colon = Inner::BorrowedLiteral(":");
    let second = v3_write_into(&colon, &mut output, &value, &mut ());
    let minute = Borrowed::Component(MINUTE);
    let third = minute.write_into(&mut output, &value, &mut ());
    assert_that(
        &rt,
        matches!((&first, &second, &third), (Ok(2), Ok(1), Ok(2))),
    );
    assert_same(&rt, output.as_slice(), b"09:55".as_slice());
    Ok(())
}

/// The day, and 4 MiB of letters 32 times in each of four levels: 4 TiB, which no memory holds.
#[test]
fn a_text_that_no_memory_holds_is_refused_and_changes_nothing(rt: HostRuntime) -> Result<(), Fail> {
    let letters = vec![in rt.alloc(); b'x'; 1 << 22]?;
    let mut item = Borrowed::Literal(letters.as_slice());
    for _ in 0..4 {
        item = Borrowed::Compound(vec![in rt.alloc(); item; 32]?.leak());
    }
    let items = [Borrowed::Component(DAY), item];
    let (value, mut state) = (wednesday(&rt), DateState::default());
    let mut output = b"before".to_vec(rt.alloc())?;
    let capacity = output.capacity();
    let refused = append(&mut output, &BorrowedItems(&items), &value, &mut state);
    assert_refusal(&rt, rt.alloc(), &refused, "OutOfMemory");
    assert_that(
        &rt,
        state == DateState::default() && output.capacity() == capacity,
    );
    let written = append(&mut output, &BorrowedItems(&items[..1]), &value, &mut state);
    assert_that(&rt, matches!(&written, Ok(2)));
    assert_same(&rt, output.as_slice(), b"before12".as_slice());
    Ok(())
}
