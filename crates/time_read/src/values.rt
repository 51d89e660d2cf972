//! The values that are read.
ghost use Rattle.std.specs.Prelude.{◌≡◌, ◌&&◌, Bool};

pub(crate) mod clock;
mod dates;
pub(crate) mod kinds;
pub(crate) mod moments;
pub(crate) mod text_fields;

use crate::values::clock::{set_time, time_of};
use crate::values::dates::{date_of, set_date};
use crate::values::kinds::Kinds;
use crate::values::moments::{moment_of, offset_of, set_offset, timestamp};
use crate::values::text_fields::TextFields;
use std::default::Default;
use time_below::{Date, OffsetDateTime, PlainDateTime, Time, Timestamp, UtcDateTime, UtcOffset};
use time_fmt::ComponentProvider;

/// A type whose values are read: one of the seven.
pub trait Readable: FromFields {}

/// The value of what is read. What its methods answer is no part of what the readers promise: they
/// write the value that they are given, and compare.
pub trait FromFields: ComponentProvider + Sized {
    /// Whether texts that show a date, a time of day or an offset as a whole determine a value.
    ghost determined_by: { Bool → Bool → Bool → Bool };

    /// The same.
    fn is_determined_by(date: bool, time: bool, offset: bool) -> bool
        ensures { result ≡ determined_by date time offset };

    /// Whether texts that show these components determine a value.
    fn is_determined(kinds: Kinds) -> bool;

    /// The value of these numbers, of which texts show these components, if there is one.
    fn of_fields(fields: &TextFields, kinds: Kinds) -> Option<Self>;

    /// The numbers of the value.
    fn fields(&self) -> TextFields;

    /// The components that texts show, and those of a base value that complete them.
    fn completed(shown: Kinds) -> Kinds;
}

/// The numbers of a date and a time of day.
fn fields_of(date: Date, time: Time) -> TextFields {
    let mut fields = TextFields::default();
    set_date(&mut fields, date);
    set_time(&mut fields, time);
    fields
}

/// With the components of a base value that complete a date and a time of day, unless texts show
/// the moment.
fn with_moment(shown: Kinds) -> Kinds {
    if shown.have_moment() {
        shown
    } else {
        shown.with_date().with_time()
    }
}

impl Readable for Date {}

impl FromFields for Date {
    ghost determined_by = { λ date _ _. date };

    fn is_determined_by(date: bool, _time: bool, _offset: bool) -> bool {
        date
    }

    fn is_determined(kinds: Kinds) -> bool {
        kinds.have_date()
    }

    fn of_fields(fields: &TextFields, kinds: Kinds) -> Option<Date> {
        date_of(fields, kinds)
    }

    fn fields(&self) -> TextFields {
        let mut fields = TextFields::default();
        set_date(&mut fields, *self);
        fields
    }

    fn completed(shown: Kinds) -> Kinds {
        shown.with_date()
    }
}

impl Readable for Time {}

impl FromFields for Time {
    ghost determined_by = { λ _ time _. time };

    fn is_determined_by(_date: bool, time: bool, _offset: bool) -> bool {
        time
    }

    fn is_determined(kinds: Kinds) -> bool {
        kinds.have_time()
    }

    fn of_fields(fields: &TextFields, kinds: Kinds) -> Option<Time> {
        time_of(fields, kinds)
    }

    fn fields(&self) -> TextFields {
        let mut fields = TextFields::default();
        set_time(&mut fields, *self);
        fields
    }

    fn completed(shown: Kinds) -> Kinds {
        shown.with_time()
    }
}

impl Readable for UtcOffset {}

impl FromFields for UtcOffset {
    ghost determined_by = { λ _ _ offset. offset };

    fn is_determined_by(_date: bool, _time: bool, offset: bool) -> bool {
        offset
    }

    fn is_determined(kinds: Kinds) -> bool {
        kinds.have_offset()
    }

    fn of_fields(fields: &TextFields, _kinds: Kinds) -> Option<UtcOffset> {
        offset_of(fields)
    }

    fn fields(&self) -> TextFields {
        let mut fields = TextFields::default();
        set_offset(&mut fields, *self);
        fields
    }

    fn completed(shown: Kinds) -> Kinds {
        shown.with_offset()
    }
}

impl Readable for PlainDateTime {}

impl FromFields for PlainDateTime {
    ghost determined_by = { λ date time _. date && time };

    fn is_determined_by(date: bool, time: bool, _offset: bool) -> bool {
        date && time
    }

    fn is_determined(kinds: Kinds) -> bool {
        kinds.have_date() && kinds.have_time()
    }

    #[inline(always)]
    fn of_fields(fields: &TextFields, kinds: Kinds) -> Option<PlainDateTime> {
        Some(PlainDateTime::new(date_of(fields, kinds)?, time_of(fields, kinds)?))
    }

    fn fields(&self) -> TextFields {
        fields_of(self.date(), self.time())
    }

    fn completed(shown: Kinds) -> Kinds {
        shown.with_date().with_time()
    }
}

impl Readable for UtcDateTime {}

impl FromFields for UtcDateTime {
    ghost determined_by = { λ date time _. date && time };

    fn is_determined_by(date: bool, time: bool, _offset: bool) -> bool {
        date && time
    }

    fn is_determined(kinds: Kinds) -> bool {
        (kinds.have_date() && kinds.have_time()) || kinds.have_moment()
    }

    #[inline(always)]
    fn of_fields(fields: &TextFields, kinds: Kinds) -> Option<UtcDateTime> {
        if kinds.have_moment() {
            let moment = moment_of(fields, kinds)?;
            return Some(UtcDateTime::new(moment.date(), moment.time()));
        }
        Some(UtcDateTime::new(date_of(fields, kinds)?, time_of(fields, kinds)?))
    }

    fn fields(&self) -> TextFields {
        fields_of(self.date(), self.time())
    }

    fn completed(shown: Kinds) -> Kinds {
        with_moment(shown)
    }
}

impl Readable for Timestamp {}

impl FromFields for Timestamp {
    ghost determined_by = { λ date time _. date && time };

    fn is_determined_by(date: bool, time: bool, _offset: bool) -> bool {
        date && time
    }

    fn is_determined(kinds: Kinds) -> bool {
        (kinds.have_date() && kinds.have_time()) || kinds.have_moment()
    }

    #[inline(always)]
    fn of_fields(fields: &TextFields, kinds: Kinds) -> Option<Timestamp> {
        if kinds.have_moment() {
            return moment_of(fields, kinds);
        }
        let time = time_of(fields, kinds)?;
        let value = UtcDateTime::new(date_of(fields, kinds)?, time);
        timestamp(value.unix_timestamp(), fields.nanosecond)
    }

    fn fields(&self) -> TextFields {
        fields_of(self.date(), self.time())
    }

    fn completed(shown: Kinds) -> Kinds {
        with_moment(shown)
    }
}

impl Readable for OffsetDateTime {}

impl FromFields for OffsetDateTime {
    ghost determined_by = { λ date time offset. date && (time && offset) };

    fn is_determined_by(date: bool, time: bool, offset: bool) -> bool {
        date && (time && offset)
    }

    fn is_determined(kinds: Kinds) -> bool {
        kinds.have_offset() && ((kinds.have_date() && kinds.have_time()) || kinds.have_moment())
    }

    #[inline(always)]
    fn of_fields(fields: &TextFields, kinds: Kinds) -> Option<OffsetDateTime> {
        let offset = offset_of(fields)?;
        if kinds.have_moment() {
            return moment_of(fields, kinds)?.checked_to_offset(offset);
        }
        Some(OffsetDateTime::new_in_offset(
            date_of(fields, kinds)?,
            time_of(fields, kinds)?,
            offset,
        ))
    }

    fn fields(&self) -> TextFields {
        let mut fields = fields_of(self.date(), self.time());
        set_offset(&mut fields, self.offset());
        fields
    }

    fn completed(shown: Kinds) -> Kinds {
        with_moment(shown).with_offset()
    }
}
