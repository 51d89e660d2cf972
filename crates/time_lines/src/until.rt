//! The year of dates whose texts show none.
ghost use Rattle.time_below.specs.Calendar.{IsYear};

/// A second, and its year in UTC.
#[derive(Clone, Copy)]
pub struct Until {
    /// The years that are tried begin with the one behind it.
    pub year: i32,
    /// The second since 1970.
    pub second: i64,
    ghost range: { IsYear year },
}

/// Which year a date has whose text shows none.
#[derive(Clone, Copy)]
pub enum Years {
    /// This one.
    One(i32),
    /// The latest of ten in which its moment is not later than a second.
    Latest(Until),
}
