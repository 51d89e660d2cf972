//! The items of a description, as C passes them.
ghost use Rattle.std.specs.Prelude.{◌≡◌, ◌<◌, ◌^◌, ◌∷◌, [], Err, IfNone, IfSome, Ok};
ghost use Rattle.movaliren_c.specs.declared.answers.reason.Reason.TheVariants.{BadItem};
ghost use Rattle.time_below.specs.Tree.{byte_literal};
ghost use Rattle.time_below.specs.declared.format_description.component.Component.{Component};
ghost use Rattle.movaliren_c.specs.Items.{padding_at, digits_at, date_component, year_component};
ghost use Rattle.movaliren_c.specs.Items.{time_component, component_at, component_of, item_tree};
ghost use Rattle.movaliren_c.specs.Items.{parted_by, parted_tree, tree_of};

use crate::answers::reason::{Reason, flag_at};
use time_below::format_description::modifier::{Padding, SubsecondDigits};
use time_below::format_description::{Component, modifier};
use time_plan::{Run, Separators};

/// An item of a description: kind 255 is `len` bytes of the texts from `start` on, kind 254 the
/// byte in `byte`, kind 253 a date and kind 252 a time of day, any other a component with its
/// choices. A date or a time of day has the byte `start` before its second part and `len` before
/// its third.
#[repr(C)]
#[derive(Clone, Copy)]
pub struct Item {
    pub kind: u32,
    pub padding: u8,
    pub flag: u8,
    pub digits: u8,
    pub byte: u8,
    pub start: usize,
    pub len: usize,
}

/// What an item says.
#[derive(Clone, Copy)]
pub enum Part<'a> {
    Text(&'a [u8]),
    Byte(u8),
    Component(Component),
    Run(Run),
}

/// A component with choices of these names.
macro_rules! component {
    ($name:ident: $($choice:ident),+) => { Ok(Component::$name(modifier::$name { $($choice),+ })) };
}

fn padding_at(number: u8) -> Result<Padding, Reason>
    ensures { result ≡ padding_at number }
{
    match number {
        0 => Ok(Padding::Zero),
        1 => Ok(Padding::Space),
        2 => Ok(Padding::None),
        _ => Err(Reason::BadItem),
    }
}

fn digits_at(number: u8) -> Result<SubsecondDigits, Reason>
    ensures { result ≡ digits_at number }
{
    match number {
        0 => Ok(SubsecondDigits::OneOrMore),
        1 => Ok(SubsecondDigits::One),
        2 => Ok(SubsecondDigits::Two),
        3 => Ok(SubsecondDigits::Three),
        4 => Ok(SubsecondDigits::Four),
        5 => Ok(SubsecondDigits::Five),
        6 => Ok(SubsecondDigits::Six),
        7 => Ok(SubsecondDigits::Seven),
        8 => Ok(SubsecondDigits::Eight),
        9 => Ok(SubsecondDigits::Nine),
        _ => Err(Reason::BadItem),
    }
}

/// The components of a date, but for its year.
#[tactic(auto, unfolding(crate::specs::Items::date_component))]
fn date_component(kind: u32, padding: Padding, one_indexed: bool) -> Result<Component, Reason>
    ensures { result ≡ date_component kind padding one_indexed }
{
    let case_sensitive = true;
    match kind {
        1 => component!(Day: padding),
        2 => component!(MonthShort: case_sensitive),
        3 => component!(MonthLong: case_sensitive),
        4 => component!(MonthNumerical: padding),
        5 => component!(Ordinal: padding),
        6 => component!(WeekdayShort: case_sensitive),
        7 => component!(WeekdayLong: case_sensitive),
        8 => component!(WeekdaySunday: one_indexed),
        9 => component!(WeekdayMonday: one_indexed),
        10 => component!(WeekNumberIso: padding),
        11 => component!(WeekNumberSunday: padding),
        12 => component!(WeekNumberMonday: padding),
        _ => Err(Reason::BadItem),
    }
}

/// The components of a year.
#[tactic(auto, unfolding(crate::specs::Items::year_component))]
fn year_component(kind: u32, padding: Padding, sign_is_mandatory: bool) -> Result<Component, Reason>
    ensures { result ≡ year_component kind padding sign_is_mandatory }
{
    match kind {
        13 => component!(CalendarYearFullExtendedRange: padding, sign_is_mandatory),
        14 => component!(CalendarYearFullStandardRange: padding, sign_is_mandatory),
        15 => component!(CalendarYearCenturyExtendedRange: padding, sign_is_mandatory),
        16 => component!(CalendarYearCenturyStandardRange: padding, sign_is_mandatory),
        17 => component!(CalendarYearLastTwo: padding),
        18 => component!(IsoYearFullExtendedRange: padding, sign_is_mandatory),
        19 => component!(IsoYearFullStandardRange: padding, sign_is_mandatory),
        20 => component!(IsoYearCenturyExtendedRange: padding, sign_is_mandatory),
        21 => component!(IsoYearCenturyStandardRange: padding, sign_is_mandatory),
        22 => component!(IsoYearLastTwo: padding),
        _ => Err(Reason::BadItem),
    }
}

/// The components of a time, an offset and a moment.
#[tactic(auto, unfolding(crate::specs::Items::time_component))]
fn time_component(
    kind: u32,
    padding: Padding,
    flag: bool,
    digits: SubsecondDigits,
) -> Result<Component, Reason>
    ensures { result ≡ time_component kind padding flag digits }
{
    let (is_uppercase, sign_is_mandatory, case_sensitive) = (flag, flag, true);
    match kind {
        23 => component!(Hour12: padding),
        24 => component!(Hour24: padding),
        25 => component!(Minute: padding),
        26 => component!(Period: is_uppercase, case_sensitive),
        27 => component!(Second: padding),
        28 => component!(Subsecond: digits),
        29 => component!(OffsetHour: padding, sign_is_mandatory),
        30 => component!(OffsetMinute: padding),
        31 => component!(OffsetSecond: padding),
        32 => component!(UnixTimestampSecond: sign_is_mandatory),
        33 => component!(UnixTimestampMillisecond: sign_is_mandatory),
        _ => Err(Reason::BadItem),
    }
}

/// The component of a number, with its padding, flag and decimals. In one match of all of them each
/// item costs four instructions more.
#[inline(always)]
fn component_at(
    kind: u32,
    padding: Padding,
    flag: bool,
    digits: SubsecondDigits,
) -> Result<Component, Reason>
    ensures { result ≡ component_at kind padding flag digits }
{
    if kind < 13 {
        return date_component(kind, padding, flag);
    }
    if kind < 23 {
        return year_component(kind, padding, flag);
    }
    time_component(kind, padding, flag, digits)
}

/// The component of an item with its choices.
#[inline(always)]
#[tactic(auto, unfolding(crate::specs::Items::component_of))]
pub fn component_of(item: &Item) -> Result<Component, Reason>
    ensures { result ≡ component_of item.now }
{
    let padding = padding_at(item.padding)?;
    let flag = flag_at(item.flag, Reason::BadItem)?;
    let digits = digits_at(item.digits)?;
    component_at(item.kind, padding, flag, digits)
}

/// The bytes that an item of the kind of texts names, if they are there.
pub fn text_of<'a>(item: &Item, texts: &'a [u8]) -> Option<&'a [u8]>
    requires { item.now.kind ≡ 255 }
    ensures there { IfSome result (λ text. item_tree texts.now item.now
        ≡ Ok (byte_literal text.now)) }
    ensures not_there { IfNone result (item_tree texts.now item.now ≡ Err BadItem) }
{
    if item.start > texts.len() || item.len > texts.len() - item.start {
        return None;
    }
    let end = item.start + item.len;
    Some(&texts[item.start..end])
}

/// The byte that an item is, if it is a text of one.
pub fn byte_of(item: &Item, texts: &[u8]) -> Option<u8>
    ensures { IfSome result (λ byte. item_tree texts.now item.now ≡ Ok (byte_literal (byte ∷ []))) }
{
    match item.kind {
        255 if item.len == 1 && item.start < texts.len() => Some(texts[item.start]),
        254 => Some(item.byte),
        _ => None,
    }
}

/// Returns the kind of an item, and above it its choices and its byte, as one number.
pub fn head_of(item: &Item) -> u64
    ensures kind { result < 2 ^ 32 → item.now.kind ≡ result }
    ensures padding { result < 2 ^ 32 → item.now.padding ≡ 0 }
    ensures flag { result < 2 ^ 32 → item.now.flag ≡ 0 }
    ensures digits { result < 2 ^ 32 → item.now.digits ≡ 0 }
{
    let choices = item.padding as u64 + item.flag as u64 * 0x100 + item.digits as u64 * 0x1_0000;
    let whole = choices + item.byte as u64 * 0x100_0000;
    item.kind as u64 + whole * 0x1_0000_0000
}

/// The bytes between the parts of a date or of a time of day, which are ASCII.
#[tactic(auto, using(crate::proofs::StepLemmas::ascii_is_text))]
pub fn separators_of(item: &Item) -> Result<Separators, Reason>
    ensures { (p q r : Component) → parted_by p q r result ≡ parted_tree p q r item.now }
{
    if item.start >= 128 || item.len >= 128 {
        return Err(Reason::BadItem);
    }
    Ok(Separators {
        first: item.start as u8,
        second: item.len as u8,
    })
}

/// The part that the item says.
#[inline(always)]
pub fn part_of<'a>(item: &Item, texts: &'a [u8]) -> Result<Part<'a>, Reason>
    ensures { tree_of result ≡ item_tree texts.now item.now }
{
    match item.kind {
        255 => match text_of(item, texts) {
            Some(text) => Ok(Part::Text(text)),
            None => Err(Reason::BadItem),
        },
        254 => Ok(Part::Byte(item.byte)),
        253 => Ok(Part::Run(Run::Date(separators_of(item)?))),
        252 => Ok(Part::Run(Run::Time(separators_of(item)?))),
        _ => Ok(Part::Component(component_of(item)?)),
    }
}
