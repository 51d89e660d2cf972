//! The items of components and literals.
ghost use Rattle.std.specs.Prelude.{◌≡◌, ◌≤◌, ◌<◌, ◌+◌, ◌∷◌, [], ℕ, List, MatchOption, Ok, false};
ghost use Rattle.std.specs.Prelude.{length, slice_range};
ghost use Rattle.movaliren_c.specs.Described.{IsItem, IsItemOf, is_shown, item_of_run};
ghost use Rattle.movaliren_c.specs.Items.{component_at, component_of, digits_at, padding_at};
ghost use Rattle.time_below.specs.Tree.{of_component};
ghost use Rattle.time_describe.specs.Literal.{literal_of};

use crate::described::item::Item;
use time_below::format_description::Component;
use time_below::format_description::modifier::{Padding, SubsecondDigits};
use time_plan::Run;

/// A text of no bytes.
const NO_TEXT: Item = Item {
    kind: 255,
    ..NO_ITEM
};

/// An item of zeros alone, which is none.
pub const NO_ITEM: Item = Item {
    kind: 0,
    padding: 0,
    flag: 0,
    digits: 0,
    byte: 0,
    start: 0,
    len: 0,
};

fn padding_number(padding: Padding) -> u8
    ensures { padding_at result ≡ Ok padding }
{
    match padding {
        Padding::Zero => 0,
        Padding::Space => 1,
        Padding::None => 2,
    }
}

fn digits_number(digits: SubsecondDigits) -> u8
    ensures { digits_at result ≡ Ok digits }
{
    match digits {
        SubsecondDigits::OneOrMore => 0,
        SubsecondDigits::One => 1,
        SubsecondDigits::Two => 2,
        SubsecondDigits::Three => 3,
        SubsecondDigits::Four => 4,
        SubsecondDigits::Five => 5,
        SubsecondDigits::Six => 6,
        SubsecondDigits::Seven => 7,
        SubsecondDigits::Eight => 8,
        SubsecondDigits::Nine => 9,
    }
}

/// The item of this kind with these choices.
#[tactic(auto, unfolding(crate::specs::Items::component_of))]
fn item(kind: u32, padding: Padding, flag: bool, digits: SubsecondDigits) -> Item
    ensures kind { result.kind ≡ kind }
    ensures component { component_of result ≡ component_at kind padding flag digits }
{
    Item {
        kind,
        padding: padding_number(padding),
        flag: u8::from(flag),
        digits: digits_number(digits),
        ..NO_ITEM
    }
}

/// The item of this kind with this padding and this flag, which has no decimals.
macro_rules! made {
    ($kind:literal, $padding:expr, $flag:expr) => {
        Some(item($kind, $padding, $flag, SubsecondDigits::OneOrMore))
    };
}

/// The item of a component that is written, unless it is deprecated.
#[inline(always)]
#[tactic(auto, unfolding(crate::specs::Items::date_component, crate::specs::Items::year_component, crate::specs::Items::time_component))]
fn item_shown(component: Component) -> Option<Item>
    ensures { MatchOption result (is_shown component ≡ false) (IsItemOf component) }
{
    let zero = Padding::Zero;
    match component {
        Component::Day(m) => made!(1, m.padding, false),
        Component::MonthShort(_) => made!(2, zero, false),
        Component::MonthLong(_) => made!(3, zero, false),
        Component::MonthNumerical(m) => made!(4, m.padding, false),
        Component::Ordinal(m) => made!(5, m.padding, false),
        Component::WeekdayShort(_) => made!(6, zero, false),
        Component::WeekdayLong(_) => made!(7, zero, false),
        Component::WeekdaySunday(m) => made!(8, zero, m.one_indexed),
        Component::WeekdayMonday(m) => made!(9, zero, m.one_indexed),
        Component::WeekNumberIso(m) => made!(10, m.padding, false),
        Component::WeekNumberSunday(m) => made!(11, m.padding, false),
        Component::WeekNumberMonday(m) => made!(12, m.padding, false),
        Component::CalendarYearFullExtendedRange(m) => made!(13, m.padding, m.sign_is_mandatory),
        Component::CalendarYearFullStandardRange(m) => made!(14, m.padding, m.sign_is_mandatory),
        Component::CalendarYearCenturyExtendedRange(m) => made!(15, m.padding, m.sign_is_mandatory),
        Component::CalendarYearCenturyStandardRange(m) => made!(16, m.padding, m.sign_is_mandatory),
        Component::CalendarYearLastTwo(m) => made!(17, m.padding, false),
        Component::IsoYearFullExtendedRange(m) => made!(18, m.padding, m.sign_is_mandatory),
        Component::IsoYearFullStandardRange(m) => made!(19, m.padding, m.sign_is_mandatory),
        Component::IsoYearCenturyExtendedRange(m) => made!(20, m.padding, m.sign_is_mandatory),
        Component::IsoYearCenturyStandardRange(m) => made!(21, m.padding, m.sign_is_mandatory),
        Component::IsoYearLastTwo(m) => made!(22, m.padding, false),
        Component::Hour12(m) => made!(23, m.padding, false),
        Component::Hour24(m) => made!(24, m.padding, false),
        Component::Minute(m) => made!(25, m.padding, false),
        Component::Period(m) => made!(26, zero, m.is_uppercase),
        Component::Second(m) => made!(27, m.padding, false),
        Component::Subsecond(m) => Some(item(28, zero, false, m.digits)),
        Component::OffsetHour(m) => made!(29, m.padding, m.sign_is_mandatory),
        Component::OffsetMinute(m) => made!(30, m.padding, false),
        Component::OffsetSecond(m) => made!(31, m.padding, false),
        Component::UnixTimestampSecond(m) => made!(32, zero, m.sign_is_mandatory),
        Component::UnixTimestampMillisecond(m) => made!(33, zero, m.sign_is_mandatory),
        Component::Ignore(_)
        | Component::End(_)
        | Component::Month(_)
        | Component::Weekday(_)
        | Component::WeekNumber(_)
        | Component::Hour(_)
        | Component::UnixTimestamp(_)
        | Component::Year(_) => None,
    }
}

/// The item of a component. One that writes nothing has a text of no bytes.
#[inline(always)]
#[tactic(auto, using(crate::proofs::ItemLemmas::item_is_of, crate::proofs::ItemLemmas::no_text_is))]
pub fn item_of(component: Component) -> Item
    ensures shows { (text : List ℕ) → IsItem text result (of_component component) }
    ensures small { result.kind < 256 }
{
    match item_shown(component.current()) {
        Some(item) => item,
        None => NO_TEXT,
    }
}

/// The item of a byte.
#[tactic(auto, using(crate::proofs::ItemLemmas::byte_is))]
pub fn byte_item(byte: u8) -> Item
    ensures { (text : List ℕ) → IsItem text result (literal_of (byte ∷ [])) }
{
    Item {
        kind: 254,
        byte,
        ..NO_ITEM
    }
}

/// The item of so many bytes of the text, from a place on. One byte alone stands in the item.
#[tactic(auto, using(crate::proofs::ItemLemmas::text_is, crate::proofs::ItemLemmas::one_byte_is))]
pub fn text_item(text: &[u8], start: usize, len: usize) -> Item
    requires { start + len ≤ length text.now }
    ensures { IsItem text.now result (literal_of (slice_range text.now start (start + len))) }
{
    if len == 1 {
        return byte_item(text[start]);
    }
    Item {
        kind: 255,
        start,
        len,
        ..NO_ITEM
    }
}

/// The item of a date or of a time of day.
pub fn run_item(run: Run) -> Item
    ensures { result ≡ item_of_run run }
{
    let (kind, between) = match run {
        Run::Date(between) => (253, between),
        Run::Time(between) => (252, between),
    };
    Item {
        kind,
        start: usize::from(between.first),
        len: usize::from(between.second),
        ..NO_ITEM
    }
}
