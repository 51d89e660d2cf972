//! The fields of a text of RFC 3339, one after the other: the value, or the first fault.
//!
//! The attributes are of the path of RFC 3339, whose texts cost twice as much without those of this
//! crate.
ghost use Rattle.std.specs.Prelude.{IfOk, IfErr};
ghost use Rattle.time_read.specs.Fault.{SpellsSome};
ghost use Rattle.time_read.specs.Front.{TextFault};
ghost use Rattle.time_read.specs.Profiles.{ReadsAs};
ghost use Rattle.time_read.specs.declared.fault.Profile.{Profile};
ghost use Rattle.time_read.specs.declared.fault.Profile.TheVariants as profile;

use crate::days::{Day, date_of};
use crate::digits::after_letter;
use crate::fault::{Expected, Profile, Unexpected};
use crate::parts::{clock, full_date};
use crate::tail::fraction_and_offset;
use time_below::{OffsetDateTime, Time};

// A profile as a type: each has a function of its own, in which the profile is known.
pub(crate) trait Reads {
    ghost PROFILE: { Profile };

    const PROFILE: Profile;
}

pub(crate) struct Strict;

pub(crate) struct Lenient;

impl Reads for Strict {
    ghost PROFILE = { profile.Strict };

    const PROFILE: Profile = Profile::Strict;
}

impl Reads for Lenient {
    ghost PROFILE = { profile.Lenient };

    const PROFILE: Profile = Profile::Lenient;
}

// Reads a whole text.
#[inline(always)]
pub(crate) fn value_of<P: Reads>(text: &[u8]) -> Result<OffsetDateTime, Unexpected>
    ensures read { IfOk result (λ v. ReadsAs P.PROFILE v text.now) }
    ensures fault { IfErr result (λ e. TextFault (SpellsSome (ReadsAs P.PROFILE)) text.now e) }
{
    let profile = P::PROFILE;
    let (year, month, day, rest) = ok!(full_date(text));
    let date = date_of(Day { year, month, day });
    let Some(after_t) = after_letter(rest, b'T', profile) else {
        return Err(Unexpected {
            expected: Expected::Letter(b'T', profile),
            left: rest.len(),
        });
    };
    let (hour, minute, second, rest) = ok!(clock(after_t));
    let (nanosecond, offset) = ok!(fraction_and_offset(rest, profile));
    let time = Time::from_valid_hms_nano(hour, minute, second, nanosecond);
    Ok(OffsetDateTime::new_in_offset(date, time, offset))
}
