//! Descriptions that cross as data, whose texts allocate nothing.
ghost use Rattle.std.specs.Prelude.{◌≡◌, ◌≤◌, ◌<◌, ◌+◌, ◌^◌, ◌∷◌, ℕ, IfOk, IfSome, List};
ghost use Rattle.std.specs.Prelude.{MatchOption, MatchResult, Ok, [], false, is_ok, length};
ghost use Rattle.std.specs.Prelude.{slice_range, true};
ghost use Rattle.movaliren_c.specs.Answer.{IsRefusedFor};
ghost use Rattle.movaliren_c.specs.Items.{EndsItem, IsDescribed, IsPut, IsShown, PutsOrLoses};
ghost use Rattle.movaliren_c.specs.Items.{Shows, answer_before, as_one, item_tree, part_tree};
ghost use Rattle.movaliren_c.specs.Items.{reason_before, tree_or_nothing, trees_of, width_answer};
ghost use Rattle.movaliren_c.specs.Value.{moment_value};
ghost use Rattle.time_below.specs.Facts.{Facts, facts_of_offset_date_time};
ghost use Rattle.time_below.specs.Width.{tree_width};
ghost use Rattle.time_fmt.specs.Description.{tree_outcome};
ghost use Rattle.time_fmt.specs.Sink.{Fits, Puts};
ghost use Rattle.time_plan.specs.Shown.{shown_tree};

pub mod describe;
pub mod item;
pub mod item_room;
mod join;
pub mod made_item;
pub mod syntax;

use crate::answers::reason::Reason;
use crate::answers::room::copy_text;
use crate::described::item::{Item, Part, head_of, part_of, separators_of, text_of};
use crate::values::moment::{Moment, date_state, moment_value};
use std::default::Default;
use std::marker::Brand;
use time_below::format_description::modifier::Padding;
use time_below::format_description::{component_width, modifier};
use time_fmt::writers::write_bytes;
use time_fmt::{
    OldBytes, Refused, Run, Sink, SliceSink, WriteStep, write_part, write_run, write_steps_inline,
};
use time_plan::{Shown, write_shown};
use time_provide::ComponentProvider;

/// The greatest maximum length or length that is returned. No buffer is so long.
pub const GREATEST_WIDTH: usize = 0x7fff_ffff_ffff_ffff;

/// The bytes of the array that a text is written to at first, from which a short one is copied.
pub const SHORT: usize = 128;

// The most bytes of a component, a date or a time of day.
const LONGEST: usize = 18;

/// Writes a component with these choices.
macro_rules! usual {
    ($name:ident: $($choice:ident),+; $output:ident, $value:ident, $state:ident) => {
        Some(write_part(modifier::$name { $($choice),+ }, $output, $value, $state))
    };
}

/// Writes the text of the value by the description, if there are both.
#[inline(always)]
pub fn write_described<V: ComponentProvider<State: Drop> + Drop>(
    items: &[Item],
    texts: &[u8],
    value: Result<V, Reason>,
    room: &mut [u8],
) -> Result<usize, Reason>
    ensures text { IsDescribed texts.now items.now value V.facts result room.old room.new }
    ensures fits { IfOk result (λ count. count ≤ length room.old) }
{
    match value {
        Ok(value) => write_value(items, texts, &value, &mut V::State::default(), room),
        Err(reason) => Err(first_reason(items, texts, reason)),
    }
}

/// Writes the text of a moment by the description, if there are both. Its month and its day of the
/// month are at hand, and need not be computed from the day of the year.
pub fn write_moment(
    items: &[Item],
    texts: &[u8],
    moment: &Moment,
    room: &mut [u8],
) -> Result<usize, Reason>
    ensures text { IsDescribed texts.now items.now (moment_value moment.now)
        facts_of_offset_date_time result room.old room.new }
    ensures fits { IfOk result (λ count. count ≤ length room.old) }
{
    match moment_value(moment) {
        Ok(value) => {
            let state = &mut date_state(moment.month, moment.day);
            write_value(items, texts, &value, state, room)
        }
        Err(reason) => Err(first_reason(items, texts, reason)),
    }
}

/// Writes the text of a value by the description. It is written to an array first, so that the
/// buffer is as it was where there is no text. A longer text is written again, once it is known that
/// it is complete and fits.
#[inline(always)]
fn write_value<V: ComponentProvider>(
    items: &[Item],
    texts: &[u8],
    value: &V,
    state: &mut V::State,
    room: &mut [u8],
) -> Result<usize, Reason>
    requires agrees { V.agrees state.old value.now }
    ensures text { IsDescribed texts.now items.now (Ok value.now) V.facts
        result room.old room.new }
    ensures fits { IfOk result (λ count. count ≤ length room.old) }
{
    let mut line = [0u8; SHORT];
    match write_items::<Brand, V>(items, texts, value, state, &mut line) {
        Ok(count) if count <= SHORT => copy_text(&line[..count], room),
        Ok(count) if count <= room.len() => {
            write_items::<Brand, V>(items, texts, value, state, room)
        }
        Ok(_) => Err(Reason::BufferTooSmall),
        Err(reason) => Err(reason),
    }
}

/// The reason of the first invalid item, or else this one.
#[cold]
#[inline(never)]
pub fn first_reason(items: &[Item], texts: &[u8], reason: Reason) -> Reason
    ensures { result ≡ reason_before (trees_of texts.now items.now) reason }
{
    match width(items, texts) {
        Ok(_) => reason,
        Err(invalid) => invalid,
    }
}

/// Writes the text of the items to the start of a buffer, or as much of it as fits. Returns the
/// number of bytes of the whole text, up to the greatest `usize`.
#[inline(never)]
pub fn write_items<B: OldBytes, V: ComponentProvider>(
    items: &[Item],
    texts: &[u8],
    value: &V,
    state: &mut V::State,
    room: &mut [u8],
) -> Result<usize, Reason>
    requires before { room.old ≡ B.before }
    requires agrees { V.agrees state.old value.now }
    ensures shown { IsShown (trees_of texts.now items.now) (V.facts value.now)
        result room.old room.new }
    ensures agrees { V.agrees state.new value.now }
{
    let mut output = SliceSink::<B>::new(room);
    match put_items(items, texts, &mut output, value, state) {
        Ok(lost) => Ok(output.len().saturating_add(lost)),
        Err(reason) => Err(first_reason(items, texts, reason)),
    }
}

/// Writes the texts of the items into a sink, but for those that do not fit. Returns their number
/// of bytes, up to the greatest `usize`. An item before which the loop stops is written by a call.
/// A reason is that of the first item that is invalid or refused.
fn put_items<S: Sink, V: ComponentProvider>(
    items: &[Item],
    texts: &[u8],
    output: &mut S,
    value: &V,
    state: &mut V::State,
) -> Result<usize, Reason>
    requires agrees { V.agrees state.old value.now }
    ensures puts { let all = trees_of texts.now items.now in IsPut (as_one all) (V.facts value.now)
        (S.buffer output.old) (S.buffer output.new) (answer_before all result) }
    ensures lender { IfOk result (λ _. (S.buffer output.new).block.lender
        ≡ (S.buffer output.old).block.lender) }
    ensures agrees { V.agrees state.new value.now }
{
    let mut lost = 0usize;
    let mut left = items;
    while let [item, behind @ ..] = write_steps_inline(left, texts, output, value, state)? {
        lost = lost.saturating_add(write_item(item, texts, output, value, state)?);
        left = behind;
    }
    Ok(lost)
}

/// Each item is a step. It is read with the bytes that items name. It looks for room itself.
impl<'a> WriteStep<&'a [u8]> for Item {
    ghost tree_of = { λ texts item. tree_or_nothing (item_tree texts.now item) };

    ghost is_valid = { λ texts item. is_ok (item_tree texts.now item) };

    ghost has_room = { false };

    fn write_inline<S: Sink, V: ComponentProvider>(
        &self,
        texts: &'a [u8],
        output: &mut S,
        value: &V,
        state: &mut V::State,
    ) -> Option<Result<(), Refused>> {
        write_usual(self, texts, output, value, state)
    }
}

/// Writes an item as most texts have it, if any text of it fits, and returns its refusal, if it is
/// refused. Of any other writes nothing, and returns `None`. It becomes part of the loop, where the
/// choices are constants.
#[inline(always)]
#[tactic(auto, using(crate::proofs::DescribedLemmas::component_fits), unfolding(crate::specs::Items::component_of, crate::specs::Items::date_component, crate::specs::Items::year_component, crate::specs::Items::time_component))]
fn write_usual<S: Sink, V: ComponentProvider>(
    item: &Item,
    texts: &[u8],
    output: &mut S,
    value: &V,
    state: &mut V::State,
) -> Option<Result<(), Refused>>
    requires agrees { V.agrees state.old value.now }
    ensures writes { MatchOption result (S.buffer output.new ≡ S.buffer output.old)
        (λ answer. EndsItem (item_tree texts.now item.now) (V.facts value.now)
        (S.buffer output.old) (S.buffer output.new) answer) }
    ensures agrees { V.agrees state.new value.now }
{
    let head = head_of(item);
    if head == 255 {
        return write_usual_text(item, texts, output);
    }
    if output.room() < LONGEST {
        return None;
    }
    let (padding, sign_is_mandatory, case_sensitive) = (Padding::Zero, false, true);
    match head {
        1 => usual!(Day: padding; output, value, state),
        2 => usual!(MonthShort: case_sensitive; output, value, state),
        3 => usual!(MonthLong: case_sensitive; output, value, state),
        4 => usual!(MonthNumerical: padding; output, value, state),
        6 => usual!(WeekdayShort: case_sensitive; output, value, state),
        7 => usual!(WeekdayLong: case_sensitive; output, value, state),
        13 =>
            usual!(CalendarYearFullExtendedRange: padding, sign_is_mandatory; output, value, state),
        14 =>
            usual!(CalendarYearFullStandardRange: padding, sign_is_mandatory; output, value, state),
        24 => usual!(Hour24: padding; output, value, state),
        25 => usual!(Minute: padding; output, value, state),
        27 => usual!(Second: padding; output, value, state),
        30 => usual!(OffsetMinute: padding; output, value, state),
        _ => write_run_or_byte(head, item, output, value, state),
    }
}

/// Writes a date, a time of day or a byte. Of any other item writes nothing, and returns `None`.
#[inline(always)]
fn write_run_or_byte<S: Sink, V: ComponentProvider>(
    head: u64,
    item: &Item,
    output: &mut S,
    value: &V,
    state: &mut V::State,
) -> Option<Result<(), Refused>>
    requires head { head < 2 ^ 32 → item.now.kind ≡ head }
    requires room { Fits (S.buffer output.old) 13 }
    requires agrees { V.agrees state.old value.now }
    ensures writes { MatchOption result (S.buffer output.new ≡ S.buffer output.old)
        (λ answer. (texts : List ℕ) → EndsItem (item_tree texts item.now) (V.facts value.now)
        (S.buffer output.old) (S.buffer output.new) answer) }
    ensures agrees { V.agrees state.new value.now }
{
    match head {
        253 => {
            let between = separators_of(item).ok()?;
            Some(write_run(&Run::Date(between), output, value, state))
        }
        252 => {
            let between = separators_of(item).ok()?;
            Some(write_run(&Run::Time(between), output, value, state))
        }
        _ if item.kind == 254 => {
            output.put_byte(item.byte);
            Some(Ok(()))
        }
        _ => None,
    }
}

/// Writes a literal if it and two bytes fit, or else nothing. Most have one or two bytes, for which
/// one test tells that there is room.
fn write_usual_text<S: Sink>(
    item: &Item,
    texts: &[u8],
    output: &mut S,
) -> Option<Result<(), Refused>>
    requires { item.now.kind ≡ 255 }
    ensures { MatchOption result (S.buffer output.new ≡ S.buffer output.old)
        (λ answer. (f : Facts) → EndsItem (item_tree texts.now item.now) f
        (S.buffer output.old) (S.buffer output.new) answer) }
{
    if output.room() < 2 || item.start >= texts.len() {
        return None;
    }
    match item.len {
        1 => output.put_byte(texts[item.start]),
        2 => {
            let (first, second) = pair_at(texts, item.start)?;
            output.put_byte(first);
            output.put_byte(second);
        }
        _ => {
            let text = text_of(item, texts)?;
            if text.len() > output.room() {
                return None;
            }
            write_fitting(output, text);
        }
    }
    Some(Ok(()))
}

/// The bytes at a place and behind it, if there is one behind it.
fn pair_at(texts: &[u8], start: usize) -> Option<(u8, u8)>
    requires { start < length texts.now }
    ensures there { IfSome result (λ pair. start + 2 ≤ length texts.now) }
    ensures bytes { IfSome result (λ pair. slice_range texts.now start (start + 2)
        ≡ pair.0 ∷ pair.1 ∷ []) }
{
    if start + 1 >= texts.len() {
        return None;
    }
    match &texts[start..start + 2] {
        [first, second] => Some((*first, *second)),
        _ => None,
    }
}

/// Writes a text that fits to the sink taken out, since a call writes it.
#[inline(always)]
fn write_fitting<S: Sink>(output: &mut S, text: &[u8])
    requires room { Fits (S.buffer output.old) (length text.now) }
    ensures writes { Puts (S.buffer output.old) (S.buffer output.new) (length text.now) text.now }
{
    let mut taken = output.take_out();
    write_bytes(&mut taken, text);
    output.put_back(taken);
}

/// Writes any item if its text fits, and returns the number of bytes that are lost if it does not.
/// The sink is taken out for the call, so that the loop's does not lie in memory.
#[inline(always)]
fn write_item<S: Sink, V: ComponentProvider>(
    item: &Item,
    texts: &[u8],
    output: &mut S,
    value: &V,
    state: &mut V::State,
) -> Result<usize, Reason>
    requires agrees { V.agrees state.old value.now }
    ensures put { IsPut (item_tree texts.now item.now) (V.facts value.now)
        (S.buffer output.old) (S.buffer output.new) result }
    ensures agrees { V.agrees state.new value.now }
{
    let mut taken = output.take_out();
    let answer = write_taken_out(item, texts, &mut taken, value, state);
    output.put_back(taken);
    answer
}

/// Writes any item to a sink that was taken out.
#[inline(never)]
fn write_taken_out<S: Sink, V: ComponentProvider>(
    item: &Item,
    texts: &[u8],
    output: &mut S,
    value: &V,
    state: &mut V::State,
) -> Result<usize, Reason>
    requires agrees { V.agrees state.old value.now }
    ensures put { IsPut (item_tree texts.now item.now) (V.facts value.now)
        (S.buffer output.old) (S.buffer output.new) result }
    ensures agrees { V.agrees state.new value.now }
{
    write_any(part_of(item, texts)?, output, value, state)
}

/// Writes any part if its text fits, and returns the number of bytes that are lost if it does not.
fn write_any<S: Sink, V: ComponentProvider>(
    part: Part<'_>,
    output: &mut S,
    value: &V,
    state: &mut V::State,
) -> Result<usize, Reason>
    requires agrees { V.agrees state.old value.now }
    ensures put { IsPut (Ok (part_tree part.entry)) (V.facts value.now)
        (S.buffer output.old) (S.buffer output.new) result }
    ensures agrees { V.agrees state.new value.now }
{
    match part {
        Part::Text(text) => Ok(write_text(output, text)),
        Part::Byte(byte) => Ok(write_text(output, &[byte])),
        Part::Component(component) => {
            write_whole(Shown::Component(component), output, value, state)
        }
        Part::Run(run) => write_whole(Shown::Run(run), output, value, state),
    }
}

/// Writes a component, a date or a time of day if its text fits, and returns the number of bytes
/// that are lost if it does not.
#[tactic(auto, using(crate::proofs::DescribedLemmas::shown_fits))]
fn write_whole<S: Sink, V: ComponentProvider>(
    shown: Shown,
    output: &mut S,
    value: &V,
    state: &mut V::State,
) -> Result<usize, Reason>
    requires agrees { V.agrees state.old value.now }
    ensures put { IsPut (Ok (shown_tree shown)) (V.facts value.now)
        (S.buffer output.old) (S.buffer output.new) result }
    ensures agrees { V.agrees state.new value.now }
{
    if LONGEST <= output.room() {
        write_shown(&shown, output, value, state)?;
        return Ok(0);
    }
    let mut array = [0u8; LONGEST];
    let count = write_at_start::<Brand, V>(&shown, &mut array, value, state)?;
    Ok(write_text(output, &array[..count]))
}

/// Writes what an item shows to the start of a buffer with room for it, and returns the number of
/// bytes.
fn write_at_start<B: OldBytes, V: ComponentProvider>(
    shown: &Shown,
    room: &mut [u8],
    value: &V,
    state: &mut V::State,
) -> Result<usize, Reason>
    requires before { room.old ≡ B.before }
    requires fits { tree_width (shown_tree shown.now) ≤ length room.old }
    requires agrees { V.agrees state.old value.now }
    ensures shows { MatchResult result
        (λ count. Shows (tree_outcome (shown_tree shown.now) (V.facts value.now))
        (tree_width (shown_tree shown.now)) count room.old room.new)
        (λ reason. IsRefusedFor reason (tree_outcome (shown_tree shown.now) (V.facts value.now))) }
    ensures agrees { V.agrees state.new value.now }
{
    let mut output = SliceSink::<B>::new(room);
    write_shown(shown, &mut output, value, state)?;
    Ok(output.len())
}

/// Writes a text if it fits, and returns the number of bytes that are lost if it does not.
#[tactic(auto, using(crate::proofs::DescribedLemmas::put_once, crate::proofs::DescribedLemmas::lost_whole))]
fn write_text<S: Sink>(output: &mut S, text: &[u8]) -> usize
    ensures { PutsOrLoses (S.buffer output.old) (S.buffer output.new) result text.now }
{
    if text.len() > output.room() {
        return text.len();
    }
    write_bytes(output, text);
    0
}

/// The maximum length of the items, up to the greatest `isize`, or the first invalid item's reason.
#[tactic(auto, using(crate::proofs::DescribedLemmas::summed_more))]
pub fn width(items: &[Item], texts: &[u8]) -> Result<usize, Reason>
    ensures { result ≡ width_answer (trees_of texts.now items.now) }
{
    let mut left = GREATEST_WIDTH;
    for item in items {
        left -= part_width(part_of(item, texts)?).min(left);
    }
    Ok(GREATEST_WIDTH - left)
}

fn part_width(part: Part<'_>) -> usize
    ensures { result ≡ tree_width (part_tree part.entry) }
{
    match part {
        Part::Text(text) => text.len(),
        Part::Byte(_) => 1,
        Part::Component(component) => component_width(&component),
        Part::Run(run) => run.width(),
    }
}
