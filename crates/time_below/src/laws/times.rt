//! Laws of times of day and of offsets.
ghost use Rattle.std.specs.Prelude.{◌≡◌, ◌↔◌, pos, IsTrue, Some, int_div};
ghost use Rattle.std.specs.Ordering.{nat_cmp, int_cmp, then_cmp, on};
ghost use Rattle.time_below.specs.Offset.{Offset, IsOffset, offset_minutes, offset_seconds};
ghost use Rattle.time_below.specs.TimeOfDay.{seconds_from_midnight};

use crate::time::Time;
use crate::utc_offset::UtcOffset;

/// Two times are equal exactly if their values are. They compare by the seconds from midnight, and
/// then by the nanosecond.
pub fn time_comparison(a: Time, b: Time)
    ensures equal { IsTrue (⟦<Time as PartialEq>⟧.eq a b) ↔ (a ≡ b) }
    ensures order { ⟦<Time as Ord>⟧.cmp a b
        ≡ then_cmp (on seconds_from_midnight nat_cmp) (on (λ t. t.nanosecond) nat_cmp) a b }
    ensures partial { ⟦<Time as PartialOrd>⟧.partial_cmp a b ≡ Some (⟦<Time as Ord>⟧.cmp a b) }
{}

/// Two offsets are equal exactly if they are the same. They compare by the whole offset in seconds.
pub fn offset_comparison(a: UtcOffset, b: UtcOffset)
    ensures equal { IsTrue (⟦<UtcOffset as PartialEq>⟧.eq a b) ↔ (a ≡ b) }
    ensures order { ⟦<UtcOffset as Ord>⟧.cmp a b ≡ on offset_seconds int_cmp a b }
    ensures partial { ⟦<UtcOffset as PartialOrd>⟧.partial_cmp a b
        ≡ Some (⟦<UtcOffset as Ord>⟧.cmp a b) }
{}

/// The hours of an offset are the whole offset in hours, and its hours and minutes that in minutes,
/// both rounded toward zero.
#[tactic(auto, using(crate::proofs::OffsetLemmas::minutes_of_seconds))]
pub fn offsets_round_toward_zero()
    ensures hours { (o : Offset) → IsOffset o → int_div (offset_seconds o) (pos 3600) ≡ o.hours }
    ensures minutes { (o : Offset) → IsOffset o
        → int_div (offset_seconds o) (pos 60) ≡ offset_minutes o }
{}
