//! Dates with a time of day, of no place in particular, in UTC or at an offset from UTC.

mod parts;
mod replace;
mod truncate;

use crate::date::Date;
use crate::time::Time;
use std::marker::Model;

/// A date and a time of day, and what is known of their offset from UTC: [`NoOffset`], [`Utc`] or a
/// `UtcOffset`.
#[derive(Clone, Copy)]
#[derive_where(PartialEq, Eq, PartialOrd, Ord, Hash; Z: Fixed)]
pub struct DateTime<Z> {
    pub(crate) date: Date,
    pub(crate) time: Time,
    #[derive_where(skip(EqHashOrd))]
    pub(crate) offset: Z,
}

impl<Z> Model for DateTime<Z> {
    ghost use Rattle.time_below.specs.Moment.{DateTimeWith};

    ghost Value = { DateTimeWith Z };

    ghost view = { λ t. record { date = t.date; time = t.time; offset = t.offset } };

    ghost inverse = { λ t. record { date = t.date; time = t.time; offset = t.offset } };
}

/// No offset is known.
#[derive(Clone, Copy)]
pub struct NoOffset;

impl Model for NoOffset {
    ghost Value = { Unit {0} };

    ghost view = { λ _. tt };

    ghost inverse = { λ _. record {} };
}

/// The offset of UTC.
#[derive(Clone, Copy)]
pub struct Utc;

impl Model for Utc {
    ghost Value = { Unit {0} };

    ghost view = { λ _. tt };

    ghost inverse = { λ _. record {} };
}

/// What all values have alike, so that they compare by the date and then by the time.
pub trait Fixed: Copy {}

impl Fixed for NoOffset {}

impl Fixed for Utc {}
