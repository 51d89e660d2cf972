//! Laws of what `{}` prints of a value, which is the text of a description, and of errors. The
//! contract of each function is the law, and its body is empty.
ghost use Rattle.std.specs.Prelude.{◌≡◌, IsSomeAnd};
ghost use Rattle.time.specs.DisplayText.{date_items, time_items, offset_items, date_time_items};
ghost use Rattle.time.specs.DisplayText.{utc_items, local_items, Spell};

use std::fmt::Display;
use time_below::{Date, OffsetDateTime, PlainDateTime, Time, Timestamp, UtcDateTime, UtcOffset};
use time_provide::ComponentProvider;

/// A date is printed as by `[year]-[month]-[day]`.
#[tactic(auto, using(crate::proofs::DisplayLemmas::date_spelled))]
pub fn date_is_shown_by_its_description(date: Date)
    ensures { IsSomeAnd (⟦<Date as Display>⟧.output date)
        (Spell date_items (⟦<Date as ComponentProvider>⟧.facts date)) }
{}

/// A time is printed as by `[hour padding:none]:[minute]:[second].[subsecond]`.
#[tactic(auto, using(crate::proofs::DisplayLemmas::time_spelled))]
pub fn time_is_shown_by_its_description(time: Time)
    ensures { IsSomeAnd (⟦<Time as Display>⟧.output time)
        (Spell time_items (⟦<Time as ComponentProvider>⟧.facts time)) }
{}

/// An offset is printed as by `[offset_hour sign:mandatory]:[offset_minute]:[offset_second]`.
#[tactic(auto, using(crate::proofs::DisplayLemmas::offset_spelled))]
pub fn offset_is_shown_by_its_description(offset: UtcOffset)
    ensures { IsSomeAnd (⟦<UtcOffset as Display>⟧.output offset)
        (Spell offset_items (⟦<UtcOffset as ComponentProvider>⟧.facts offset)) }
{}

/// A date with a time is printed as the two, with a space between them.
#[tactic(auto, using(crate::proofs::DisplayLemmas::plain_spelled))]
pub fn plain_date_time_is_shown_by_its_description(value: PlainDateTime)
    ensures { IsSomeAnd (⟦<PlainDateTime as Display>⟧.output value)
        (Spell date_time_items (⟦<PlainDateTime as ComponentProvider>⟧.facts value)) }
{}

/// A date and time in UTC is printed as the two, with ` +00` behind.
#[tactic(auto, using(crate::proofs::DisplayLemmas::utc_spelled))]
pub fn utc_date_time_is_shown_by_its_description(value: UtcDateTime)
    ensures { IsSomeAnd (⟦<UtcDateTime as Display>⟧.output value)
        (Spell utc_items (⟦<UtcDateTime as ComponentProvider>⟧.facts value)) }
{}

/// A date and time at an offset is printed as the two, with a space and the offset behind.
#[tactic(auto, using(crate::proofs::DisplayLemmas::local_spelled))]
pub fn offset_date_time_is_shown_by_its_description(value: OffsetDateTime)
    ensures { IsSomeAnd (⟦<OffsetDateTime as Display>⟧.output value)
        (Spell local_items (⟦<OffsetDateTime as ComponentProvider>⟧.facts value)) }
{}

/// A timestamp is printed as its date and time in UTC.
#[tactic(auto, using(crate::proofs::DisplayLemmas::moment_spelled))]
pub fn timestamp_is_shown_by_its_description(value: Timestamp)
    ensures { IsSomeAnd (⟦<Timestamp as Display>⟧.output value)
        (Spell utc_items (⟦<Timestamp as ComponentProvider>⟧.facts value)) }
{}
