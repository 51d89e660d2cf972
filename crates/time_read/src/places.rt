//! The position of a fault, of a text that is refused.
//!
//! The attributes are of the path of RFC 3339, whose texts cost twice as much without those of this
//! crate.
ghost use Rattle.std.specs.Prelude.{◌≡◌, ◌-◌, ◌<◌, ◌≤◌, ◌↔◌, IsTrue, length};
ghost use Rattle.time_read.specs.Fault.{IsSecond60, SpellsSome};
ghost use Rattle.time_read.specs.Front.{TextFault};
ghost use Rattle.time_read.specs.Profiles.{ReadsAs};
ghost use Rattle.time_read.specs.Refused.{IsRefused};

use crate::fault::{NotRead, Profile, Unexpected};

// The position of the seconds in a text of RFC 3339, and in a stamp.
pub(crate) const SECONDS: usize = 17;

// Whether second 60 stands there. The seconds of the text stand at `seconds`.
#[inline(always)]
pub(crate) fn is_second_60(text: &[u8], at: usize, seconds: usize) -> bool
    requires { seconds < 100 }
    ensures { IsTrue result ↔ IsSecond60 seconds at text.now }
{
    at == seconds && text.len() > seconds + 1 && text[seconds] == b'6' && text[seconds + 1] == b'0'
}

// The position of a fault by the bytes that are left. The seconds of the text stand at `seconds`.
#[inline(always)]
pub(crate) fn place_of_fault(text: &[u8], fault: Unexpected, seconds: usize) -> NotRead
    requires left { fault.left ≤ length text.now }
    requires seconds { seconds < 100 }
    ensures at { result.at ≡ length text.now - fault.left }
    ensures expected { result.expected ≡ fault.expected }
    ensures second_60 { IsTrue result.is_second_60 ↔ IsSecond60 seconds result.at text.now }
{
    let at = text.len() - fault.left;
    NotRead {
        at,
        expected: fault.expected,
        is_second_60: is_second_60(text, at, seconds),
    }
}

// The position at which a text of RFC 3339 is refused whose first fault this is.
#[inline(always)]
pub(crate) fn place_of(text: &[u8], fault: Unexpected, _profile: Profile) -> NotRead
    requires { TextFault (SpellsSome (ReadsAs _profile)) text.now fault }
    ensures { IsRefused (ReadsAs _profile) SECONDS text.now result }
{
    place_of_fault(text, fault, SECONDS)
}
