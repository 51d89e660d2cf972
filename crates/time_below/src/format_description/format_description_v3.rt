//! A description of the third version, over parts that are borrowed or its own.
ghost use Rattle.std.specs.Prelude.{◌≡◌, min};
ghost use Rattle.time_below.specs.Conversion.{current_component};
ghost use Rattle.time_below.specs.Size.{v3_size};
ghost use Rattle.time_below.specs.Tree.{v3_tree, of_component};
ghost use Rattle.time_below.specs.Metadata.{tree_metadata};
ghost use Rattle.time_below.specs.Width.{tree_width};

use crate::format_description::{Component, Layer, Metadata, Node, metadata_of_node, modifier};
use std::marker::Model;

/// A description of the third version.
#[derive(Drop)]
pub enum FormatDescriptionV3Inner<'a> {
    /// The day of the month, 1 to 31, in two places.
    Day(modifier::Day),
    /// The first three letters of the month's English name.
    MonthShort(modifier::MonthShort),
    /// The month's English name, at most nine letters.
    MonthLong(modifier::MonthLong),
    /// The month, 1 to 12, in two places.
    MonthNumerical(modifier::MonthNumerical),
    /// The day of the year, 1 to 366, in three places (ISO 8601-1:2019, ordinal date).
    Ordinal(modifier::Ordinal),
    /// The first three letters of the weekday's English name.
    WeekdayShort(modifier::WeekdayShort),
    /// The weekday's English name, at most nine letters.
    WeekdayLong(modifier::WeekdayLong),
    /// The weekday by one digit from Sunday on, 0 to 6 or 1 to 7.
    WeekdaySunday(modifier::WeekdaySunday),
    /// The weekday by one digit from Monday on, 0 to 6 or 1 to 7.
    WeekdayMonday(modifier::WeekdayMonday),
    /// The week of the week calendar, 1 to 53, in two places (ISO 8601-1:2019, week date).
    WeekNumberIso(modifier::WeekNumberIso),
    /// The week of the year, 0 to 53, in two places, where week 1 begins on the first Sunday.
    WeekNumberSunday(modifier::WeekNumberSunday),
    /// The week of the year, 0 to 53, in two places, where week 1 begins on the first Monday.
    WeekNumberMonday(modifier::WeekNumberMonday),
    /// The year, -999,999 to 999,999, in at least four places, after a sign if it is negative or
    /// above 9,999.
    CalendarYearFullExtendedRange(modifier::CalendarYearFullExtendedRange),
    /// The year, -9,999 to 9,999, in four places. Every other year is refused.
    CalendarYearFullStandardRange(modifier::CalendarYearFullStandardRange),
    /// The year without its last two digits, -9,999 to 9,999, in at least two places, after a sign
    /// if the year is negative or above 9,999.
    CalendarYearCenturyExtendedRange(modifier::CalendarYearCenturyExtendedRange),
    /// The year without its last two digits, -99 to 99, in two places. Every other one is refused.
    CalendarYearCenturyStandardRange(modifier::CalendarYearCenturyStandardRange),
    /// The last two digits of the year, 0 to 99, in two places, unsigned.
    CalendarYearLastTwo(modifier::CalendarYearLastTwo),
    /// The year of the week calendar, -999,999 to 999,999, in at least four places, after a sign if
    /// it is negative or above 9,999 (ISO 8601-1:2019, week date).
    IsoYearFullExtendedRange(modifier::IsoYearFullExtendedRange),
    /// The year of the week calendar, -9,999 to 9,999, in four places. Every other year is refused.
    IsoYearFullStandardRange(modifier::IsoYearFullStandardRange),
    /// The year of the week calendar without its last two digits, -9,999 to 9,999, in at least two
    /// places, after a sign if the year is negative or above 9,999.
    IsoYearCenturyExtendedRange(modifier::IsoYearCenturyExtendedRange),
    /// The year of the week calendar without its last two digits, -99 to 99, in two places. Every
    /// other one is refused.
    IsoYearCenturyStandardRange(modifier::IsoYearCenturyStandardRange),
    /// The last two digits of the year of the week calendar, 0 to 99, in two places, unsigned.
    IsoYearLastTwo(modifier::IsoYearLastTwo),
    /// The hour of the 12-hour clock, 1 to 12, in two places.
    Hour12(modifier::Hour12),
    /// The hour of the day, 0 to 23, in two places.
    Hour24(modifier::Hour24),
    /// The minute of the hour, 0 to 59, in two places.
    Minute(modifier::Minute),
    /// AM or PM, by two letters: before noon, or from noon on.
    Period(modifier::Period),
    /// The second of the minute, 0 to 59, in two places.
    Second(modifier::Second),
    /// The decimals of the second, one to nine digits, not rounded.
    Subsecond(modifier::Subsecond),
    /// The hour of the offset from UTC, 0 to 25, in two places, after the sign of the whole offset.
    OffsetHour(modifier::OffsetHour),
    /// The minute of the offset from UTC, 0 to 59, in two places, without a sign.
    OffsetMinute(modifier::OffsetMinute),
    /// The second of the offset from UTC, 0 to 59, in two places, without a sign.
    OffsetSecond(modifier::OffsetSecond),
    /// The seconds since 1970-01-01T00:00:00 UTC, rounded down, at most 14 digits.
    UnixTimestampSecond(modifier::UnixTimestampSecond),
    /// The milliseconds since 1970-01-01T00:00:00 UTC, rounded toward zero, at most 17 digits.
    UnixTimestampMillisecond(modifier::UnixTimestampMillisecond),
    /// Nothing: bytes that a parser passes over.
    Ignore(modifier::Ignore),
    /// Nothing: the end of what a parser reads.
    End(modifier::End),
    /// A text.
    BorrowedLiteral(&'a str),
    /// Items in order.
    BorrowedCompound(&'a [Self]),
    /// An item that a parser may leave out.
    BorrowedOptional {
        /// Whether the item is written.
        format: bool,
        /// The item itself.
        item: &'a Self,
    },
    /// Items of which a parser takes the first that fits. The first one alone is written.
    BorrowedFirst(&'a [Self]),
    /// A text.
    OwnedLiteral(String),
    /// Items in order.
    OwnedCompound(Vec<Self>),
    /// An item that a parser may leave out.
    OwnedOptional {
        /// Whether the item is written.
        format: bool,
        /// The item itself.
        item: Box<Self>,
    },
    /// Items of which a parser takes the first that fits. The first one alone is written.
    OwnedFirst(Vec<Self>),
}

// A match in which each variant that is a component becomes the variant of the same name, with the
// same choices. The other arms follow.
macro_rules! same_named {
    ($value:expr, $from:ident => $to:ident, $($other:pat => $answer:expr),+ $(,)?) => {
        same_named!(@arms $value, $from => $to, [
            Day MonthShort MonthLong MonthNumerical Ordinal WeekdayShort WeekdayLong WeekdaySunday
            WeekdayMonday WeekNumberIso WeekNumberSunday WeekNumberMonday
            CalendarYearFullExtendedRange CalendarYearFullStandardRange
            CalendarYearCenturyExtendedRange CalendarYearCenturyStandardRange CalendarYearLastTwo
            IsoYearFullExtendedRange IsoYearFullStandardRange IsoYearCenturyExtendedRange
            IsoYearCenturyStandardRange IsoYearLastTwo Hour12 Hour24 Minute Period Second Subsecond
            OffsetHour OffsetMinute OffsetSecond UnixTimestampSecond UnixTimestampMillisecond
            Ignore End
        ], $($other => $answer),+)
    };
    (
        @arms $value:expr, $from:ident => $to:ident,
        [$($name:ident)+], $($other:pat => $answer:expr),+
    ) => {
        match $value {
            $($from::$name(choices) => $to::$name(choices),)+
            $($other => $answer,)+
        }
    };
}

impl Node for FormatDescriptionV3Inner<'_> {
    ghost tree = { v3_tree };

    ghost size = { v3_size };

    // Row: a version 3 compound of 11 items.
    #[inline(always)]
    fn layer(&self) -> Layer<'_, Self> {
        let component = same_named!(*self, FormatDescriptionV3Inner => Component,
            Self::BorrowedLiteral(ref text) => return Layer::Text(text),
            Self::OwnedLiteral(ref text) => return Layer::Text(text.as_str()),
            Self::BorrowedCompound(items) => return Layer::All(items),
            Self::OwnedCompound(ref items) => return Layer::All(items),
            Self::BorrowedOptional { format: false, .. }
            | Self::OwnedOptional { format: false, .. } => return Layer::Nothing,
            Self::BorrowedOptional { item, .. } => return Layer::Optional(item),
            Self::OwnedOptional { ref item, .. } => return Layer::Optional(item),
            Self::BorrowedFirst(items) => return Layer::First(items),
            Self::OwnedFirst(ref items) => return Layer::First(items),
        );
        Layer::Component(component)
    }
}

/// A deprecated component becomes the current one in its place.
impl From<Component> for FormatDescriptionV3Inner<'_> {
    ghost from_gives = { λ component inner. v3_tree inner
        ≡ of_component (current_component component) };

    fn from(component: Component) -> Self {
        same_named!(component.current(), Component => FormatDescriptionV3Inner,
            Component::Month(_)
            | Component::Weekday(_)
            | Component::WeekNumber(_)
            | Component::Hour(_)
            | Component::UnixTimestamp(_)
            | Component::Year(_) => unreachable!(),
        )
    }
}

/// A description of the third version, with what is known of its text.
///
/// It is walked by recursion, so the stack bounds its depth. A test formats 1,000 levels of items
/// in items; a level took at most 305 bytes of the stack when it was measured.
#[derive(Drop)]
pub struct FormatDescriptionV3<'a> {
    inner: FormatDescriptionV3Inner<'a>,
    metadata: Metadata,
}

impl<'a> Model for FormatDescriptionV3<'a> {
    ghost use denote.Signature.{static_lft};
    ghost use Rattle.std.specs.Coded.{codes};
    ghost use Rattle.std.specs.Prelude.{◌≡◌};
    ghost use Rattle.time_below.specs.Tree.{v3_tree};
    ghost use Rattle.time_below.specs.Metadata.{tree_metadata};
    ghost use Rattle.time_below.specs.contracts.format_description.format_description_v3.FormatDescriptionV3Inner as plain;
    ghost use Rattle.time_below.specs.declared.format_description.format_description_v3.FormatDescriptionV3Inner.{FormatDescriptionV3Inner};

    ghost Value = { FormatDescriptionV3Inner };

    ghost coded = { Prim.hlevel (codes, (plain.the_row static_lft).coded) };

    ghost view = { λ description. description.inner };

    ghost invariant = { λ description.
        description.metadata ≡ tree_metadata (v3_tree description.inner) };
}

impl<'a> FormatDescriptionV3<'a> {
    /// Returns the description, with its maximum length and its text guarantee, which are computed
    /// here once.
    pub fn new(inner: FormatDescriptionV3Inner<'a>) -> Self
        ensures { result ≡ inner.entry }
    {
        let metadata = metadata_of_node(&inner);
        FormatDescriptionV3 { inner, metadata }
    }

    /// Returns the description without its metadata.
    pub fn inner(&self) -> &FormatDescriptionV3Inner<'a>
        ensures { result.now ≡ self.now }
    {
        &self.inner
    }

    /// Returns the maximum length of a text in bytes, at most the greatest `usize`.
    pub fn max_bytes_needed(&self) -> usize
        ensures { result ≡ min (tree_width (v3_tree self.now)) usize.MAX }
    {
        self.metadata.max_bytes_needed
    }

    /// Returns the maximum length and the text guarantee.
    pub fn metadata(&self) -> Metadata
        ensures { result ≡ tree_metadata (v3_tree self.now) }
    {
        self.metadata
    }
}
