//! Descriptions from a text, in items or at once.
ghost use Rattle.std.specs.Prelude.{◌≡◌, ◌≤◌, IfOk, length};
ghost use Rattle.movaliren_c.specs.Answer.{Answers, IsText};
ghost use Rattle.movaliren_c.specs.Described.{Leaves, bracket_items, few, items_in, strftime_items};
ghost use Rattle.movaliren_c.specs.Items.{described};
ghost use Rattle.movaliren_c.specs.Utc.{local_value};
ghost use Rattle.movaliren_c.specs.Value.{timestamp_value};
ghost use Rattle.time_below.specs.Facts.{facts_of_offset_date_time, facts_of_timestamp};

use crate::answers::reason::{Reason, answer_number};
use crate::described::item::Item;
use crate::described::item_room::ItemRoom;
use crate::described::made_item::NO_ITEM;
use crate::described::syntax::{Numbered, ParseError, put_items};
use crate::described::write_described;
use crate::values::moment::timestamp_value;
use crate::values::source::local_value;
use time_describe::{Brackets, Strftime, Syntax};
use time_provide::ComponentProvider;

/// The most items of a text that is formatted in one call.
const FEW: usize = 64;

/// The items of the array that is tried first: one of all 64 costs more instructions. Where a text
/// has more items, both arrays are on the stack.
const USUAL: usize = 18;

/// The text of a moment in UTC by a description in brackets.
#[unsafe(no_mangle)]
pub extern "C" fn movaliren_format_brackets_utc(
    text: &[u8],
    seconds: i64,
    nanosecond: u32,
    buffer: &mut [u8],
) -> isize
    ensures { Answers result (λ answer. IsText (described (few (bracket_items text.now))
        (timestamp_value seconds nanosecond) facts_of_timestamp) answer buffer.old buffer.new) }
{
    answer_number(write_text::<Brackets, _>(text, timestamp_value(seconds, nanosecond), buffer))
}

/// The text of a moment by a description in brackets, at an offset of this many seconds east of
/// UTC.
#[unsafe(no_mangle)]
pub extern "C" fn movaliren_format_brackets_local(
    text: &[u8],
    seconds: i64,
    nanosecond: u32,
    offset: i64,
    buffer: &mut [u8],
) -> isize
    ensures { Answers result (λ answer. IsText (described (few (bracket_items text.now))
        (local_value seconds nanosecond offset) facts_of_offset_date_time)
        answer buffer.old buffer.new) }
{
    let value = local_value(seconds, nanosecond, offset);
    answer_number(write_text::<Brackets, _>(text, value, buffer))
}

/// The text of a moment in UTC by a description in the syntax of strftime.
#[unsafe(no_mangle)]
pub extern "C" fn movaliren_format_strftime_utc(
    text: &[u8],
    seconds: i64,
    nanosecond: u32,
    buffer: &mut [u8],
) -> isize
    ensures { Answers result (λ answer. IsText (described (few (strftime_items text.now))
        (timestamp_value seconds nanosecond) facts_of_timestamp) answer buffer.old buffer.new) }
{
    answer_number(write_text::<Strftime, _>(text, timestamp_value(seconds, nanosecond), buffer))
}

/// The text of a moment by a description in the syntax of strftime, at an offset of this many
/// seconds east of UTC.
#[unsafe(no_mangle)]
pub extern "C" fn movaliren_format_strftime_local(
    text: &[u8],
    seconds: i64,
    nanosecond: u32,
    offset: i64,
    buffer: &mut [u8],
) -> isize
    ensures { Answers result (λ answer. IsText (described (few (strftime_items text.now))
        (local_value seconds nanosecond offset) facts_of_offset_date_time)
        answer buffer.old buffer.new) }
{
    let value = local_value(seconds, nanosecond, offset);
    answer_number(write_text::<Strftime, _>(text, value, buffer))
}

/// Reads the items of a text into an array, where each date and each time of day is one item then.
/// If there are none, or they do not fit, the first item of the array is none.
pub fn describe<S: Syntax<Reason: Numbered>>(
    text: &[u8],
    items: &mut [Item],
    fault: &mut ParseError,
) -> Result<usize, Reason>
    ensures leaves { Leaves text.now (items_in S.Reason.number text.now (S.described text.now))
        result items.new fault.old fault.new }
    ensures fits { IfOk result (λ count. count ≤ length items.new) }
    ensures len { length items.new ≡ length items.old }
{
    let mut room = ItemRoom::new(items);
    match put_items::<S>(&mut room, text) {
        Ok(()) if room.is_complete() => Ok(room.made()),
        Ok(()) => {
            *fault = ParseError::many(room.count());
            room.clear();
            Err(Reason::ManyItems)
        }
        Err(first) => {
            *fault = first;
            room.clear();
            Err(Reason::BadDescription)
        }
    }
}

/// Writes the text of the value by the description that another text is.
#[tactic(auto, using(crate::proofs::ItemLemmas::text_shown, crate::proofs::ItemLemmas::text_faulty, std::proofs::lemmas::Grind::common_steps))]
fn write_text<S: Syntax<Reason: Numbered>, V: ComponentProvider<State: Drop> + Drop>(
    text: &[u8],
    value: Result<V, Reason>,
    room: &mut [u8],
) -> Result<usize, Reason>
    ensures text { IsText
        (described (few (items_in S.Reason.number text.now (S.described text.now))) value V.facts)
        result room.old room.new }
    ensures fits { IfOk result (λ count. count ≤ length room.old) }
{
    let mut items = [NO_ITEM; USUAL];
    let mut fault = ParseError::many(0);
    match describe::<S>(text, &mut items, &mut fault) {
        Ok(count) => write_described(&items[..count], text, value, room),
        Err(Reason::BadDescription) => Err(Reason::BadDescription),
        Err(_) => write_many::<S, V>(text, value, room),
    }
}

/// Writes the text of the value by a description of more items than most have.
#[cold]
#[inline(never)]
#[tactic(auto, using(crate::proofs::ItemLemmas::text_shown, crate::proofs::ItemLemmas::text_refused, std::proofs::lemmas::Grind::common_steps))]
fn write_many<S: Syntax<Reason: Numbered>, V: ComponentProvider<State: Drop> + Drop>(
    text: &[u8],
    value: Result<V, Reason>,
    room: &mut [u8],
) -> Result<usize, Reason>
    ensures text { IsText
        (described (few (items_in S.Reason.number text.now (S.described text.now))) value V.facts)
        result room.old room.new }
    ensures fits { IfOk result (λ count. count ≤ length room.old) }
{
    let mut all = [NO_ITEM; FEW];
    let mut fault = ParseError::many(0);
    let count = describe::<S>(text, &mut all, &mut fault)?;
    write_described(&all[..count], text, value, room)
}
