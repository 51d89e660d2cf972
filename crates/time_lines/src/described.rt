//! Texts of descriptions, read.
ghost use Rattle.std.specs.Prelude.{◌≡◌, ◌≤◌, Option, IfSome, true, false, get_or, length, drop};
ghost use Rattle.std.specs.Char.{is_ascii_digit};
ghost use Rattle.time_below.specs.Moment.{DateAndTime, Moment, in_utc, local_moment};
ghost use Rattle.time_lines.specs.Described.{IsFront, IsFrontOf, ReadsForm, ReadsOneOf, ReadsRow};
ghost use Rattle.time_lines.specs.Described.{has_decimals, has_hours, has_offset, is_by_clock};
ghost use Rattle.time_lines.specs.Described.{ends_with_digit, has_offset_here, is_cut, is_to_second};
ghost use Rattle.time_lines.specs.Described.{lacks_decimals, lacks_offset, more_behind, plan_of};
ghost use Rattle.time_lines.specs.Described.{written};
ghost use Rattle.time_lines.specs.Read.{IsMomentIfReal};

use crate::begins::Begins;
use crate::decimals::{decimals_in, decimals_of};
use crate::front::{Front, Reads, moment_of_value};
use crate::passed::Why;
use crate::until::Years;
use crate::years::{lack_in, yearless_moment};
use time_below::format_description::Component;
use time_below::{OffsetDateTime, PlainDateTime, Timestamp};
use time_fmt::ComponentProvider;
use time_plan::{Plan, Shown};
use time_read::{Readable, Reader};

/// A place, whose clock shows dates and times at moments.
pub trait Zone {
    /// The moment that a date and time may have, or that it may have none.
    ghost has_moment: { Self → DateAndTime → Option Moment → Type 0 };

    /// The moment at which the clock shows the date and time, if there is one.
    fn moment_of(&self, local: PlainDateTime) -> Option<Timestamp>
        ensures { has_moment self.now local result };
}

/// The place whose clock is that of UTC.
#[derive(Clone, Copy)]
pub struct Utc;

impl Zone for Utc {
    ghost has_moment = { λ _ t. IsMomentIfReal (local_moment (in_utc t)) };

    fn moment_of(&self, local: PlainDateTime) -> Option<Timestamp> {
        moment_of_value(local.assume_utc())
    }
}

/// The texts of a plan, by what they show of a moment.
#[derive(Drop)]
pub enum Form<'a> {
    /// The date, the time and the offset.
    AtOffset(Reader<'a, OffsetDateTime>),
    /// The moment itself, as Unix time.
    AtMoment(Reader<'a, Timestamp>),
    /// The date and the time.
    Local(Reader<'a, PlainDateTime>),
    /// The month, the day and the time.
    Yearless(Reader<'a, PlainDateTime>),
}

/// A form, and what is known of its texts.
#[derive(Drop)]
pub struct FormRow<'a> {
    pub form: Form<'a>,
    /// How many decimals of a second they have, unless they have as many as their moment needs.
    decimals: Option<usize>,
    /// They show an offset by its hours alone.
    is_in_hours: bool,
    pub(crate) begins: Begins,
}

/// Whether texts of the plan show an offset by its hours alone.
fn is_in_hours(plan: &Plan) -> bool {
    let mut has_hours = false;
    for step in plan.steps() {
        let Shown::Component(component) = &step.shown else {
            continue;
        };
        match component.current() {
            Component::OffsetHour(_) => has_hours = true,
            Component::OffsetMinute(_) => return false,
            _ => {}
        }
    }
    has_hours
}

impl<'a> FormRow<'a> {
    /// Returns a form of these texts.
    pub fn new(form: Form<'a>) -> FormRow<'a>
        ensures { result.form ≡ form.entry }
    {
        let decimals = decimals_of(form.plan());
        let is_in_hours = is_in_hours(form.plan());
        let begins = Begins::of(form.plan().steps());
        FormRow {
            form,
            decimals,
            is_in_hours,
            begins,
        }
    }
}

impl<'a> Form<'a> {
    /// The plan whose texts they are.
    fn plan(&self) -> &'a Plan
        ensures { result.now ≡ plan_of self.now }
    {
        match self {
            Form::AtOffset(reader) => reader.plan,
            Form::AtMoment(reader) => reader.plan,
            Form::Local(reader) | Form::Yearless(reader) => reader.plan,
        }
    }

    /// Whether its texts show the date, the time and the offset.
    fn has_offset(&self) -> bool
        ensures { result ≡ has_offset self.now }
    {
        matches!(self, Form::AtOffset(_))
    }

    /// Whether the moment of its texts is the one at which a clock shows them.
    fn is_by_clock(&self) -> bool
        ensures { result ≡ is_by_clock self.now }
    {
        matches!(self, Form::Local(_) | Form::Yearless(_))
    }
}

/// Reads the texts of descriptions at the front of others, by the first form that reads one.
#[derive(Drop)]
pub struct Described<'a, Z: Zone + Drop> {
    pub forms: Vec<FormRow<'a>>,
    /// The year of a text that shows none.
    pub years: Years,
    /// The place of a text that shows no offset.
    pub zone: Z,
    begins: Begins,
}

impl<'a, Z: Zone + Drop> Described<'a, Z> {
    /// Reads the texts of these forms.
    pub fn new(forms: Vec<FormRow<'a>>, years: Years, zone: Z) -> Described<'a, Z>
        ensures forms { result.forms ≡ forms.entry }
        ensures years { result.years ≡ years }
        ensures zone { result.zone ≡ zone }
    {
        let begins = Begins::of_each(forms.as_slice());
        Described {
            forms,
            years,
            zone,
            begins,
        }
    }
}

/// The value at the front of a text, and how many bytes it has.
fn value_at_front<V: Readable>(reader: &Reader<'_, V>, text: &[u8]) -> Option<(V, usize)>
where
    V::State: Drop,
    V: Drop,
    ensures { IfSome result (λ r. IsFront
        (written reader.now.plan.now (V.facts r.0)) text.now r.1) }
{
    match reader.read_front(text) {
        Ok((value, rest)) => Some((value, text.len().saturating_sub(rest.len()))),
        Err(_) => None,
    }
}

/// A text of a form at the front of another one, and what it means by itself.
#[derive(Clone, Copy)]
pub(crate) struct Meant {
    /// How many bytes it has.
    pub count: usize,
    /// Its moment, unless it has none.
    pub moment: Option<Timestamp>,
    /// Why it has no moment, if it has none.
    pub lacks: Why,
}

/// The text of a form at the front of a text, if there is one.
fn read_form<Z: Zone>(form: &Form<'_>, zone: &Z, years: &Years, text: &[u8]) -> Option<Meant>
    ensures reads { IfSome result (ReadsForm (Z.has_moment zone.now)
        years.now form.now text.now) }
    ensures inside { IfSome result (λ meant. meant.count ≤ length text.now) }
{
    let (count, moment, lacks) = match form {
        Form::AtOffset(reader) => {
            let (value, count) = value_at_front(reader, text)?;
            (count, moment_of_value(value), Why::NoMoment)
        }
        Form::AtMoment(reader) => {
            let (value, count) = value_at_front(reader, text)?;
            (count, Some(value), Why::NoMoment)
        }
        Form::Local(reader) => {
            let (local, count) = value_at_front(reader, text)?;
            (count, zone.moment_of(local), Why::NoLocalMoment)
        }
        Form::Yearless(reader) => {
            let (local, count) = value_at_front(reader, text)?;
            let moment = yearless_moment(zone, local, years);
            (count, moment, lack_in(local, years))
        }
    };
    Some(Meant {
        count,
        moment,
        lacks,
    })
}

/// Whether a digit stands at the place.
fn is_digit_at(text: &[u8], at: usize) -> bool
    ensures { result ≡ is_ascii_digit (get_or text.now at 0) }
{
    match text.get(at) {
        Some(byte) => byte.is_ascii_digit(),
        None => false,
    }
}

/// Whether so many first bytes end with a digit, and another one follows.
fn is_cut(text: &[u8], count: usize) -> bool
    ensures { result ≡ is_cut text.now count }
{
    count > 0 && is_digit_at(text, count - 1) && is_digit_at(text, count)
}

/// Whether decimals stand here.
fn has_decimals(text: &[u8]) -> bool
    ensures { result ≡ has_decimals text.now }
{
    match text {
        [b'.' | b',', next, ..] => next.is_ascii_digit(),
        _ => false,
    }
}

/// Whether a sign and two digits stand here.
fn has_hours(text: &[u8]) -> bool
    ensures { result ≡ has_hours text.now }
{
    match text {
        [b'+' | b'-', tens, ones, ..] => tens.is_ascii_digit() && ones.is_ascii_digit(),
        _ => false,
    }
}

/// Whether an offset stands here, perhaps behind a space.
fn has_offset(text: &[u8]) -> bool
    ensures { result ≡ has_offset_here text.now }
{
    match text {
        [b'Z' | b'z', ..] => true,
        [b' ', rest @ ..] => has_hours(rest),
        _ => has_hours(text),
    }
}

/// Whether so many first bytes end with a digit.
fn ends_with_digit(text: &[u8], count: usize) -> bool
    ensures { result ≡ ends_with_digit text.now count }
{
    count > 0 && is_digit_at(text, count - 1)
}

/// Whether texts of the form have no decimals of a second, and no offset.
fn is_to_second(row: &FormRow<'_>) -> bool
    ensures { result ≡ is_to_second row.now }
{
    match row.decimals {
        Some(0) => !row.form.has_offset(),
        _ => false,
    }
}

/// Whether decimals follow a text of a form that has so many bytes, and the form has none.
fn lacks_decimals(row: &FormRow<'_>, text: &[u8], count: usize) -> bool
    requires { count ≤ length text.now }
    ensures { result ≡ lacks_decimals row.now text.now count }
{
    is_to_second(row) && ends_with_digit(text, count) && has_decimals(&text[count..])
}

/// Whether an offset follows a text of a form that has so many bytes, and the form has none.
fn lacks_offset(row: &FormRow<'_>, text: &[u8], count: usize) -> bool
    requires { count ≤ length text.now }
    ensures { result ≡ lacks_offset row.now text.now count }
{
    row.form.is_by_clock() && has_offset(&text[count..])
}

/// What follows a text of a form that has so many bytes, if it is of the same time and the form
/// does not have it: decimals of its second, or an offset.
fn more_behind(row: &FormRow<'_>, text: &[u8], count: usize) -> Option<Why>
    requires { count ≤ length text.now }
    ensures { result ≡ more_behind row.now text.now count }
{
    if lacks_decimals(row, text, count) {
        Some(Why::Decimals)
    } else if lacks_offset(row, text, count) {
        Some(Why::Offset)
    } else {
        None
    }
}

/// What is read of a text of a form: it has no moment where more of its time follows it.
fn front_of(meant: Meant, more: Option<Why>, decimals: usize) -> Front
    ensures { IsFrontOf more meant result }
{
    let (moment, lacks) = match more {
        None => (meant.moment, meant.lacks),
        Some(why) => (None, why),
    };
    Front {
        count: meant.count,
        decimals,
        moment,
        lacks,
    }
}

/// Whether minutes follow the hours of an offset.
fn has_minutes(text: &[u8]) -> bool {
    match text {
        [b':', next, ..] => next.is_ascii_digit(),
        _ => false,
    }
}

/// The text of a form at the front of a text, if there is one and it does not end inside a number
/// or an offset.
fn read_row<Z: Zone>(row: &FormRow<'_>, zone: &Z, years: &Years, text: &[u8]) -> Option<Front>
    ensures { IfSome result (ReadsRow (Z.has_moment zone.now) years.now row.now text.now) }
{
    if !row.begins.may_begin(text) {
        return None;
    }
    let meant = read_form(&row.form, zone, years, text)?;
    if is_cut(text, meant.count) {
        return None;
    }
    if row.is_in_hours && has_minutes(&text[meant.count..]) {
        return None;
    }
    let more = more_behind(row, text, meant.count);
    let decimals = decimals_in(row.decimals, meant.moment);
    Some(front_of(meant, more, decimals))
}

/// The text of the first form that reads one at the front of a text.
#[inline(never)]
fn read_forms<Z: Zone>(forms: &[FormRow<'_>], zone: &Z, years: &Years, text: &[u8]) -> Option<Front>
    ensures { IfSome result (ReadsOneOf (Z.has_moment zone.now)
        years.now forms.now text.now) }
{
    let mut left = forms;
    'rows: while let [row, others @ ..] = left {
        if let Some(front) = read_row(row, zone, years, text) {
            return Some(front);
        }
        left = others;
    }
    None
}

impl<Z: Zone + Drop> Reads for Described<'_, Z> {
    ghost reads = { λ d text front. IfSome front (ReadsOneOf
        (Z.has_moment d.zone) d.years d.forms.items text) };

    fn read_front(&mut self, text: &[u8]) -> Option<Front> {
        if !self.begins.may_begin(text) {
            return None;
        }
        read_forms(self.forms.as_slice(), &self.zone, &self.years, text)
    }
}
