//! Descriptions in an object of the caller's, which is made once from a text. Texts are formatted
//! by it and read by it without preparing anything again.
ghost use Rattle.std.specs.Prelude.{◌≡◌, ◌≤◌, IfOk, length, take};
ghost use Rattle.movaliren_c.specs.Answer.{Answers};
ghost use Rattle.movaliren_c.specs.Described.{DescribeNothing, bracket_items, items_in};
ghost use Rattle.movaliren_c.specs.Described.{strftime_items};
ghost use Rattle.movaliren_c.specs.Items.{IsDescribed, trees_of, width_answer};
ghost use Rattle.movaliren_c.specs.Made.{IsKept, IsMade, items_of, texts_of};
ghost use Rattle.movaliren_c.specs.ReadItems.{HasText, HasTextOfMoment, IsReadBy, IsUnread};
ghost use Rattle.movaliren_c.specs.Utc.{local_value};
ghost use Rattle.movaliren_c.specs.Value.{date_value, moment_value, timestamp_value};
ghost use Rattle.time_below.specs.Facts.{facts_of_date, facts_of_offset_date_time};
ghost use Rattle.time_below.specs.Facts.{facts_of_timestamp};

use crate::answers::reason::{Reason, answer_number};
use crate::answers::room::copy_over;
use crate::described::describe::describe;
use crate::described::item::Item;
use crate::described::item_room::make_none;
use crate::described::syntax::{Numbered, ParseError};
use crate::described::{width, write_described, write_moment};
use crate::read::items::{Way, read_by, way_of};
use crate::read::place::ReadError;
use crate::values::moment::{Moment, UtcMoment, date_value, timestamp_value};
use crate::values::source::local_value;
use time_describe::{Brackets, Strftime, Syntax};
use time_read::Kinds;

/// The most items.
const ITEMS: usize = 64;

/// The most bytes of the text of a description.
const TEXTS: usize = 512;

/// A description. One of zeros alone has 64 items, of which none is valid.
#[repr(C)]
#[derive(Drop)]
pub struct Description {
    /// How many items of the array are not used.
    pub unused: usize,
    /// How many bytes of the texts are used.
    pub texts_len: usize,
    /// Which components are shown where texts are read, by the bits of `Kinds`.
    pub kinds: u32,
    /// How texts are read: 1 in UTC, 2 with an offset, and otherwise not at all.
    pub way: u32,
    pub items: [Item; 64],
    pub texts: [u8; 512],
}

impl Description {
    /// The items.
    fn items(&self) -> &[Item]
        ensures { result.now ≡ items_of self.now }
    {
        first(&self.items, ITEMS.saturating_sub(self.unused))
    }

    /// What the items' literals lie in.
    fn texts(&self) -> &[u8]
        ensures { result.now ≡ texts_of self.now }
    {
        first(&self.texts, self.texts_len)
    }

    /// How texts are read.
    fn way(&self) -> Way {
        let kinds = Kinds::from_bits(self.kinds);
        match self.way {
            1 => Way::InUtc(kinds),
            2 => Way::WithOffset(kinds),
            _ => Way::Undetermined,
        }
    }

    /// Keeps how texts are read.
    fn set_way(&mut self, way: Way)
        ensures items { self.new.items ≡ self.old.items }
        ensures texts { self.new.texts ≡ self.old.texts }
        ensures unused { self.new.unused ≡ self.old.unused }
        ensures texts_len { self.new.texts_len ≡ self.old.texts_len }
    {
        let (number, kinds) = match way {
            Way::InUtc(kinds) => (1, kinds.bits()),
            Way::WithOffset(kinds) => (2, kinds.bits()),
            Way::Undetermined => (0, 0),
        };
        self.way = number;
        self.kinds = kinds;
    }

    /// Keeps the first items of the array, the text that they are of, and how texts are read.
    #[tactic(auto, using(crate::proofs::MadeLemmas::kept_text, crate::proofs::MadeLemmas::kept_items))]
    fn keep(&mut self, count: usize, text: &[u8])
        requires count { count ≤ 64 }
        requires text { length text.now ≤ 512 }
        ensures items { items_of self.new ≡ take count self.new.items }
        ensures array { self.new.items ≡ self.old.items }
        ensures texts { texts_of self.new ≡ text.now }
    {
        copy_over(text, &mut self.texts);
        self.texts_len = text.len();
        self.unused = ITEMS - count;
        let way = way_of(first(&self.items, count), text);
        self.set_way(way);
    }

    /// Becomes none, since its text is too long.
    #[tactic(auto, using(crate::proofs::MadeLemmas::nothing_left, crate::proofs::ItemLemmas::cleared))]
    fn clear(&mut self)
        ensures { DescribeNothing (items_of self.new) }
    {
        make_none(&mut self.items);
        self.unused = 0;
    }
}

/// The first elements of an array, up to all of them.
#[tactic(auto, using(std::proofs::lemmas::List::take_min))]
fn first<T>(array: &[T], count: usize) -> &[T]
    ensures { result.now ≡ take count array.now }
{
    &array[..count.min(array.len())]
}

/// Makes a description of a text.
fn make<S: Syntax<Reason: Numbered>>(
    description: &mut Description,
    text: &[u8],
    error: &mut ParseError,
) -> Result<usize, Reason>
    ensures made { IsMade text.now (items_in S.Reason.number text.now (S.described text.now))
        result description.new error.old error.new }
    ensures small { IfOk result (λ count. count ≡ 0) }
{
    if text.len() > TEXTS {
        description.clear();
        *error = ParseError::long(TEXTS);
        return Err(Reason::BufferTooSmall);
    }
    make_of_short::<S>(description, text, error)
}

/// The same of a text for which there is room.
fn make_of_short<S: Syntax<Reason: Numbered>>(
    description: &mut Description,
    text: &[u8],
    error: &mut ParseError,
) -> Result<usize, Reason>
    requires { length text.now ≤ 512 }
    ensures kept { IsKept text.now (items_in S.Reason.number text.now (S.described text.now))
        result description.new error.old error.new }
    ensures small { IfOk result (λ count. count ≡ 0) }
{
    description.unused = 0;
    match describe::<S>(text, &mut description.items, error) {
        Ok(count) => {
            description.keep(count, text);
            Ok(0)
        }
        Err(reason) => Err(reason),
    }
}

/// Makes a description of a text in brackets.
#[unsafe(no_mangle)]
pub extern "C" fn movaliren_description_parse(
    description: &mut Description,
    text: &[u8],
    error: &mut ParseError,
) -> isize
    ensures { Answers result (λ answer. IsMade text.now (bracket_items text.now)
        answer description.new error.old error.new) }
{
    answer_number(make::<Brackets>(description, text, error))
}

/// Makes a description of a text in the syntax of strftime.
#[unsafe(no_mangle)]
pub extern "C" fn movaliren_description_parse_strftime(
    description: &mut Description,
    text: &[u8],
    error: &mut ParseError,
) -> isize
    ensures { Answers result (λ answer. IsMade text.now (strftime_items text.now)
        answer description.new error.old error.new) }
{
    answer_number(make::<Strftime>(description, text, error))
}

/// The text of a local date and time with its offset.
#[unsafe(no_mangle)]
pub extern "C" fn movaliren_description_format(
    description: &Description,
    moment: &Moment,
    buffer: &mut [u8],
) -> isize
    ensures { Answers result (λ answer. IsDescribed (texts_of description.now)
        (items_of description.now) (moment_value moment.now) facts_of_offset_date_time
        answer buffer.old buffer.new) }
{
    answer_number(write_moment(description.items(), description.texts(), moment, buffer))
}

/// The text of a moment in UTC.
#[unsafe(no_mangle)]
pub extern "C" fn movaliren_description_format_utc(
    description: &Description,
    seconds: i64,
    nanosecond: u32,
    buffer: &mut [u8],
) -> isize
    ensures { Answers result (λ answer. IsDescribed (texts_of description.now)
        (items_of description.now) (timestamp_value seconds nanosecond) facts_of_timestamp
        answer buffer.old buffer.new) }
{
    let value = timestamp_value(seconds, nanosecond);
    answer_number(write_described(description.items(), description.texts(), value, buffer))
}

/// The text of a moment, at an offset of this many seconds east of UTC.
#[unsafe(no_mangle)]
pub extern "C" fn movaliren_description_format_local(
    description: &Description,
    seconds: i64,
    nanosecond: u32,
    offset: i64,
    buffer: &mut [u8],
) -> isize
    ensures { Answers result (λ answer. IsDescribed (texts_of description.now)
        (items_of description.now) (local_value seconds nanosecond offset)
        facts_of_offset_date_time answer buffer.old buffer.new) }
{
    let value = local_value(seconds, nanosecond, offset);
    answer_number(write_described(description.items(), description.texts(), value, buffer))
}

/// The text of a date.
#[unsafe(no_mangle)]
pub extern "C" fn movaliren_description_format_date(
    description: &Description,
    year: i32,
    month: u8,
    day: u8,
    buffer: &mut [u8],
) -> isize
    ensures { Answers result (λ answer. IsDescribed (texts_of description.now)
        (items_of description.now) (date_value year month day) facts_of_date
        answer buffer.old buffer.new) }
{
    let value = date_value(year, month, day);
    answer_number(write_described(description.items(), description.texts(), value, buffer))
}

/// A number of bytes that no text of the description exceeds, up to the greatest `isize`.
#[unsafe(no_mangle)]
pub extern "C" fn movaliren_description_max_length(description: &Description) -> isize
    ensures { Answers result (λ answer. answer
        ≡ width_answer (trees_of (texts_of description.now) (items_of description.now))) }
{
    answer_number(width(description.items(), description.texts()))
}

/// Reads a text as a moment by its parts.
#[unsafe(no_mangle)]
pub extern "C" fn movaliren_description_read(
    description: &Description,
    text: &[u8],
    moment: &mut Moment,
    error: &mut ReadError,
) -> isize
    ensures { let trees = trees_of (texts_of description.now) (items_of description.now) in
        IsReadBy (HasText trees text.now) (IsUnread trees text.now) result
        moment.old moment.new error.old error.new }
{
    let (items, texts) = (description.items(), description.texts());
    read_by(items, texts, description.way(), text, moment, error)
}

/// Reads a text as a moment in UTC.
#[unsafe(no_mangle)]
pub extern "C" fn movaliren_description_read_utc(
    description: &Description,
    text: &[u8],
    moment: &mut UtcMoment,
    error: &mut ReadError,
) -> isize
    ensures { let trees = trees_of (texts_of description.now) (items_of description.now) in
        IsReadBy (HasTextOfMoment trees text.now) (IsUnread trees text.now) result
        moment.old moment.new error.old error.new }
{
    let (items, texts) = (description.items(), description.texts());
    read_by(items, texts, description.way(), text, moment, error)
}
