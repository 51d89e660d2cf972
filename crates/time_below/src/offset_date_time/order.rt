//! Local dates and times compare by their moments.
ghost use Rattle.std.specs.Prelude.{◌==◌, ◌++◌};
ghost use Rattle.std.proofs.Common.{rules};
ghost use Rattle.std.specs.Cmp.{partial_order_from_own_ties};
ghost use Rattle.std.specs.Cmp.Rules.{comparing, hashing};
ghost use Rattle.std.specs.Hash as fed;
ghost use Rattle.std.specs.Ordering.{on, int_eq, int_cmp, nat_cmp, eq_of_both, then_cmp};
ghost use Rattle.std.specs.Ordering.{as_partial_cmp};
ghost use Rattle.time_below.specs.Moment.{local_unix_seconds};

use super::OffsetDateTime;
use std::cmp::Ordering;
use std::hash::{Hash, Hasher};

/// Two values are equal if they are one moment.
impl PartialEq for OffsetDateTime {
    ghost eq = { eq_of_both (on local_unix_seconds int_eq) (on (λ t. t.time.nanosecond) ◌==◌) };

    ghost laws = { Prim.search (comparing, rules) };

    fn eq(&self, other: &OffsetDateTime) -> bool {
        let (mine, its) = (self.time.nanosecond(), other.time.nanosecond());
        self.unix_timestamp() == other.unix_timestamp() && mine == its
    }
}

impl Eq for OffsetDateTime {
    ghost laws = { Prim.search (comparing, rules) };
}

/// An earlier moment is less.
impl Ord for OffsetDateTime {
    ghost cmp = { then_cmp (on local_unix_seconds int_cmp) (on (λ t. t.time.nanosecond) nat_cmp) };

    ghost total = { Prim.search (comparing, rules) };

    ghost matches_partial_cmp = { Prim.search (comparing, rules) };

    ghost matches_eq = { Prim.search (comparing, rules) };

    fn cmp(&self, other: &OffsetDateTime) -> Ordering {
        let (mine, its) = (self.time.nanosecond(), other.time.nanosecond());
        self.unix_timestamp()
            .cmp(&other.unix_timestamp())
            .then(mine.cmp(&its))
    }
}

impl PartialOrd for OffsetDateTime {
    ghost partial_cmp = { as_partial_cmp
        (then_cmp (on local_unix_seconds int_cmp) (on (λ t. t.time.nanosecond) nat_cmp)) };

    ghost laws = { partial_order_from_own_ties (Prim.search (comparing, rules))
        (Prim.search (comparing, rules)) };

    fn partial_cmp(&self, other: &OffsetDateTime) -> Option<Ordering> {
        Some(self.cmp(other))
    }
}

/// Equal moments have one hash.
impl Hash for OffsetDateTime {
    ghost hash_input = { λ t. fed.i64 (local_unix_seconds t) ++ fed.u32 t.time.nanosecond };

    ghost respects_eq = { Prim.search (hashing, rules) };

    fn hash<H: Hasher>(&self, state: &mut H) {
        self.unix_timestamp().hash(state);
        self.time.nanosecond().hash(state);
    }
}
