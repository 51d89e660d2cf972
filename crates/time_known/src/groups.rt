//! Which groups of a value a text is made of.
use time_provide::ComponentProvider;

// The groups of a value that a text is made of: a format that needs one refuses each value that
// does not supply it, ahead of all other refusals.
#[derive(Clone, Copy)]
pub(crate) struct Groups {
    pub(crate) date: bool,
    pub(crate) time: bool,
    pub(crate) offset: bool,
}

impl Groups {
    ghost use Rattle.std.specs.Prelude.{◌≡◌};
    ghost use Rattle.time_known.specs.Groups.{are_supplied, has_groups};

    // A date, a time of day and an offset.
    pub(crate) const ALL: Groups = Groups {
        date: true,
        time: true,
        offset: true,
    };

    // Whether values of the type supply each group that is needed.
    pub(crate) fn are_supplied_by<V: ComponentProvider>(self) -> bool
        ensures supplied { result
            ≡ are_supplied self V.SUPPLIES_DATE V.SUPPLIES_TIME V.SUPPLIES_OFFSET }
        ensures there { (value : V) → has_groups self (V.facts value) ≡ result }
    {
        (V::SUPPLIES_DATE || !self.date)
            && (V::SUPPLIES_TIME || !self.time)
            && (V::SUPPLIES_OFFSET || !self.offset)
    }
}
