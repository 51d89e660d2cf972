//! Descriptions from a text in the syntax of strftime, as `%Y-%m-%d`, in the C locale.
//!
//! The conversions are those of POSIX.1-2017 but `%Z` and those with `E` or `O`, and of GNU `%k`,
//! `%l`, `%N`, `%P`, `%s` and `%:z`. A number takes one flag: `-` for no padding, `_` for spaces,
//! `0` for zeros. A year has at least four digits, unless a flag says otherwise.
ghost use Rattle.std.specs.Prelude.{◌≡◌, ◌+◌, ◌≤◌, ℕ, List, [], length, slice_range, Ok};
ghost use Rattle.std.specs.Prelude.{IfOk, IfErr, IfSome, Some};
ghost use Rattle.time_below.specs.Tree.{owned_tree};
ghost use Rattle.time_describe.specs.Conversions.{component_of, composed, offset};
ghost use Rattle.time_describe.specs.Items.{Adds};
ghost use Rattle.time_describe.specs.Description.{tree_of, IsWithin, Says, SaysFault};
ghost use Rattle.time_describe.specs.Strftime.{described};
ghost use Rattle.time_describe.specs.StrftimeOutcome.{BeginsParted, items_of_part};

use crate::fault::{Fault, InvalidStrftime};
use crate::items::{Items, Parted};
use crate::literal::MOST_ITEMS;
use crate::syntax::{Syntax, parse};
use crate::text::first_and_rest;
use std::alloc::Global;
use time_below::format_description::modifier::Padding;
use time_below::format_description::{Component, OwnedFormatItem, modifier};

mod conversions;
pub mod part;
pub mod reason;

use part::{StrftimePart, component_of, first_part};
use reason::StrftimeReason;

/// The syntax of strftime.
pub struct Strftime;

/// Adds the hours of the offset with their sign, perhaps a colon, and the minutes. Returns how many
/// items these are.
fn put_offset<I: Items>(items: &mut I, with_colon: bool) -> usize
    ensures put { (text : List ℕ) → Adds (I.Holds text []) items.old items.new (offset with_colon) }
    ensures count { result ≡ length (offset with_colon) }
    ensures lender { I.lender items.new ≡ I.lender items.old }
{
    items.put_component(Component::OffsetHour(modifier::OffsetHour {
        padding: Padding::Zero,
        sign_is_mandatory: true,
    }));
    if with_colon {
        items.put_byte(b':');
    }
    items.put_component(Component::OffsetMinute(modifier::OffsetMinute {
        padding: Padding::Zero,
    }));
    2 + usize::from(with_colon)
}

/// Adds the components of a composition, and the bytes between them. Returns how many items these
/// are.
fn put_composed<I: Items>(items: &mut I, text: &[u8]) -> usize
    ensures put { (of : List ℕ) → Adds (I.Holds of []) items.old items.new (composed text.now) }
    ensures count { result ≡ length (composed text.now) }
    ensures lender { I.lender items.new ≡ I.lender items.old }
{
    let mut count = 0;
    let mut rest = text;
    'parts: while let Some((first, after)) = first_and_rest(rest) {
        match first_and_rest(after) {
            Some((letter, behind)) if first == b'%' => {
                if let Some(component) = component_of(letter) {
                    items.put_component(component);
                    count += 1;
                }
                rest = behind;
            }
            _ => {
                items.put_byte(first);
                count += 1;
                rest = after;
            }
        }
    }
    count
}

/// Adds the items of a part, to which so many bytes of the text belong, from a position on. Returns
/// how many items these are.
fn put_part<I: Items>(
    items: &mut I,
    text: &[u8],
    start: usize,
    len: usize,
    part: StrftimePart<'_>,
) -> usize
    requires within { start + len ≤ length text.now }
    ensures put { Adds (I.Holds text.now []) items.old items.new
        (items_of_part (slice_range text.now start (start + len)) part.entry) }
    ensures count { result
        ≡ length (items_of_part (slice_range text.now start (start + len)) part.entry) }
    ensures lender { I.lender items.new ≡ I.lender items.old }
{
    match part {
        StrftimePart::Literal => items.put_literal(text, start, len),
        StrftimePart::Byte(byte) => items.put_byte(byte),
        StrftimePart::Component(component) => items.put_component(component),
        StrftimePart::Offset(with_colon) => return put_offset(items, with_colon),
        StrftimePart::Composition(composition) => return put_composed(items, composition),
    }
    1
}

/// The components that three letters stand for, where these are a date or a time of day. The letters
/// stand as constants for the row that `parted_front` names.
fn usual_components(one: u8, two: u8, three: u8) -> Option<(Component, Component, Component)>
    ensures first { IfSome result (λ x. component_of one ≡ Some x.0) }
    ensures second { IfSome result (λ x. component_of two ≡ Some x.1) }
    ensures third { IfSome result (λ x. component_of three ≡ Some x.2) }
{
    match (one, two, three) {
        (b'Y', b'm', b'd') => Some((
            component_of(b'Y')?,
            component_of(b'm')?,
            component_of(b'd')?,
        )),
        (b'H', b'M', b'S') => Some((
            component_of(b'H')?,
            component_of(b'M')?,
            component_of(b'S')?,
        )),
        _ => None,
    }
}

/// The date or the time of day that a text begins with. Its five parts are read at once, since read
/// one by one they make "a description that is read each time, from C" three times as dear.
fn parted_front(text: &[u8]) -> Option<Parted>
    ensures begins { IfSome result (BeginsParted text.now) }
    ensures within { IfSome result (λ _. 8 ≤ length text.now) }
{
    let [
        b'%',
        one,
        before_second,
        b'%',
        two,
        before_third,
        b'%',
        three,
        ..
    ] = text
    else {
        return None;
    };
    if *before_second == b'%' || *before_third == b'%' {
        return None;
    }
    let (first, second, third) = usual_components(*one, *two, *three)?;
    Some(Parted {
        first,
        before_second: *before_second,
        second,
        before_third: *before_third,
        third,
    })
}

impl Syntax for Strftime {
    type Reason = StrftimeReason;

    ghost described = { described };

    fn put_all<I: Items>(items: &mut I, text: &[u8]) -> Result<(), Fault<StrftimeReason>> {
        let mut at = 0;
        let mut count: usize = 0;
        'parts: while at < text.len() {
            if let Some(parted) = parted_front(&text[at..])
                && count <= MOST_ITEMS - 5
                && items.put_parted(parted)
            {
                count += 5;
                at += 8;
                continue;
            }
            let (part, behind) = first_part(&text[at..])?;
            count = count.saturating_add(put_part(items, text, at, behind + 1, part));
            if count > MOST_ITEMS {
                return Err(Fault {
                    reason: StrftimeReason::TooManyItems,
                    left: text.len() - at,
                });
            }
            at += behind + 1;
        }
        Ok(())
    }
}

/// Returns the description that a text with conversions of `strftime` is.
///
/// Each run of bytes other than `%` is one literal, a text where it is UTF-8. Each conversion is
/// the items that `specs/Conversions.antt` lists for it.
///
/// # Errors
///
/// The error is the first fault, with the index of its byte. A text has at most 65,536 items. A
/// failed allocation is the error only of a text without a fault. Nothing is kept then.
///
/// # Examples
///
/// ```text
/// let description = parse_strftime_owned(alloc, b"%Y-%m-%d")?;
/// ```
pub fn parse_strftime_owned(alloc: Global, text: &[u8]) -> Result<OwnedFormatItem, InvalidStrftime>
    ensures found { IfOk result (λ item. tree_of (described text.now) ≡ Ok (owned_tree item)) }
    ensures says { IfErr result (Says (length text.now) (described text.now)) }
    ensures inside { IfErr result (IsWithin (length text.now)) }
    ensures says_fault { IfErr result (SaysFault (described text.now)) }
{
    parse::<Strftime>(alloc, text)
}
