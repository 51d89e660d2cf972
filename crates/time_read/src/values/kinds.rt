//! What the steps of a plan show, and whether their texts determine a value.
ghost use Rattle.std.specs.Prelude.{◌≡◌};

use time_below::format_description::Component;

/// Which components are shown, one bit for each.
#[derive(Clone, Copy, Debug, PartialEq, Eq)]
pub struct Kinds(u32);

impl Kinds {
    /// No component.
    pub(crate) const NONE: Kinds = Kinds(0);

    pub(crate) const YEAR: Kinds = Kinds(0x1);

    pub(crate) const CENTURY: Kinds = Kinds(0x2);

    pub(crate) const LAST_TWO: Kinds = Kinds(0x4);

    pub(crate) const MONTH: Kinds = Kinds(0x8);

    pub(crate) const DAY: Kinds = Kinds(0x10);

    pub(crate) const ORDINAL: Kinds = Kinds(0x20);

    pub(crate) const WEEKDAY: Kinds = Kinds(0x40);

    pub(crate) const ISO_YEAR: Kinds = Kinds(0x80);

    pub(crate) const ISO_CENTURY: Kinds = Kinds(0x100);

    pub(crate) const ISO_LAST_TWO: Kinds = Kinds(0x200);

    pub(crate) const ISO_WEEK: Kinds = Kinds(0x400);

    pub(crate) const SUNDAY_WEEK: Kinds = Kinds(0x800);

    pub(crate) const MONDAY_WEEK: Kinds = Kinds(0x1000);

    pub(crate) const HOUR24: Kinds = Kinds(0x2000);

    pub(crate) const HOUR12: Kinds = Kinds(0x4000);

    pub(crate) const PERIOD: Kinds = Kinds(0x8000);

    pub(crate) const MINUTE: Kinds = Kinds(0x1_0000);

    pub(crate) const SECOND: Kinds = Kinds(0x2_0000);

    pub(crate) const DECIMALS: Kinds = Kinds(0x4_0000);

    pub(crate) const OFFSET_HOUR: Kinds = Kinds(0x8_0000);

    pub(crate) const OFFSET_MINUTE: Kinds = Kinds(0x10_0000);

    pub(crate) const OFFSET_SECOND: Kinds = Kinds(0x20_0000);

    pub(crate) const UNIX_SECOND: Kinds = Kinds(0x40_0000);

    pub(crate) const UNIX_MILLISECOND: Kinds = Kinds(0x80_0000);

    const ANY_YEAR: Kinds = Kinds(0x7);

    const ANY_ISO: Kinds = Kinds(0x780);

    const ANY_WEEK: Kinds = Kinds(0x1800);

    const ANY_TIME: Kinds = Kinds(0x7_e000);

    /// Returns the components as a number, for a caller that keeps them as data.
    pub fn bits(self) -> u32
        ensures { result ≡ self.0 }
    {
        self.0
    }

    /// Returns the components of a number of `bits`.
    pub fn from_bits(bits: u32) -> Kinds
        ensures { result.0 ≡ bits }
    {
        Kinds(bits)
    }

    /// Whether all of the others are there.
    pub(crate) fn have(self, others: Kinds) -> bool {
        self.0 & others.0 == others.0
    }

    /// Whether any of the others is there.
    pub(crate) fn have_any(self, others: Kinds) -> bool {
        self.0 & others.0 != 0
    }

    /// Both together.
    pub(crate) fn and(self, others: Kinds) -> Kinds {
        Kinds(self.0 | others.0)
    }

    /// Whether the year is determined.
    pub(crate) fn have_year(self) -> bool {
        self.have(Kinds::YEAR) || self.have(Kinds::CENTURY.and(Kinds::LAST_TWO))
    }

    /// Whether the year of the week calendar is determined.
    pub(crate) fn have_iso_year(self) -> bool {
        self.have(Kinds::ISO_YEAR) || self.have(Kinds::ISO_CENTURY.and(Kinds::ISO_LAST_TWO))
    }

    /// Whether the date is determined by its own components.
    pub(crate) fn have_date(self) -> bool {
        let has_weeks = self.have(Kinds::SUNDAY_WEEK) || self.have(Kinds::MONDAY_WEEK);
        let is_weekday = self.have(Kinds::WEEKDAY);
        let of_year = self.have(Kinds::MONTH.and(Kinds::DAY))
            || self.have(Kinds::ORDINAL)
            || (has_weeks && is_weekday);
        (self.have_year() && of_year)
            || (self.have_iso_year() && self.have(Kinds::ISO_WEEK) && is_weekday)
    }

    /// Whether the time of day is determined by its own components: those behind the last one that
    /// is shown are zero.
    pub(crate) fn have_time(self) -> bool {
        let has_hour = self.have(Kinds::HOUR24) || self.have(Kinds::HOUR12.and(Kinds::PERIOD));
        let is_whole = (self.have(Kinds::MINUTE) || !self.have(Kinds::SECOND))
            && (self.have(Kinds::SECOND) || !self.have(Kinds::DECIMALS));
        has_hour && is_whole
    }

    /// Whether the offset is determined.
    pub(crate) fn have_offset(self) -> bool {
        self.have(Kinds::OFFSET_HOUR)
            && (self.have(Kinds::OFFSET_MINUTE) || !self.have(Kinds::OFFSET_SECOND))
    }

    /// Whether the moment is determined by itself.
    pub(crate) fn have_moment(self) -> bool {
        self.have(Kinds::UNIX_SECOND) || self.have(Kinds::UNIX_MILLISECOND)
    }

    /// With the components of a base value that complete the date.
    pub(crate) fn with_date(self) -> Kinds {
        if self.have_date() {
            return self;
        }
        let of_year = Kinds::ANY_YEAR
            .and(Kinds::MONTH)
            .and(Kinds::DAY)
            .and(Kinds::ORDINAL)
            .and(Kinds::ANY_WEEK);
        if self.have_any(Kinds::ANY_ISO) && !self.have_any(of_year) {
            return self
                .with_iso_year()
                .and(Kinds::ISO_WEEK)
                .and(Kinds::WEEKDAY);
        }
        let known = self.with_year();
        if self.have(Kinds::ORDINAL) {
            known
        } else if self.have_any(Kinds::ANY_WEEK) && !self.have_any(Kinds::MONTH.and(Kinds::DAY)) {
            known.and(Kinds::WEEKDAY)
        } else {
            known.and(Kinds::MONTH).and(Kinds::DAY)
        }
    }

    /// With a year: the other part of one of which a part is shown.
    fn with_year(self) -> Kinds {
        if self.have(Kinds::LAST_TWO) {
            self.and(Kinds::CENTURY)
        } else if self.have(Kinds::CENTURY) {
            self.and(Kinds::LAST_TWO)
        } else {
            self.and(Kinds::YEAR)
        }
    }

    /// With a year of the week calendar.
    fn with_iso_year(self) -> Kinds {
        if self.have(Kinds::ISO_LAST_TWO) {
            self.and(Kinds::ISO_CENTURY)
        } else if self.have(Kinds::ISO_CENTURY) {
            self.and(Kinds::ISO_LAST_TWO)
        } else {
            self.and(Kinds::ISO_YEAR)
        }
    }

    /// With the components of a base value that complete the time of day.
    pub(crate) fn with_time(self) -> Kinds {
        let whole = Kinds::MINUTE.and(Kinds::SECOND);
        if self.have(Kinds::HOUR24) || !self.have_any(Kinds::HOUR12.and(Kinds::PERIOD)) {
            self.and(Kinds::HOUR24).and(whole)
        } else {
            self.and(Kinds::HOUR12).and(Kinds::PERIOD).and(whole)
        }
    }

    /// With the components of a base value that complete the offset.
    pub(crate) fn with_offset(self) -> Kinds {
        self.and(Kinds::OFFSET_HOUR).and(Kinds::OFFSET_MINUTE)
    }

    /// Whether a part of the time of day is shown.
    pub(crate) fn have_part_of_time(self) -> bool {
        self.have_any(Kinds::ANY_TIME)
    }
}

/// The kind of a component that is not deprecated.
pub(crate) fn kind_of(component: Component) -> Kinds {
    match component {
        Component::Day(_) => Kinds::DAY,
        Component::MonthShort(_) | Component::MonthLong(_) | Component::MonthNumerical(_) => {
            Kinds::MONTH
        }
        Component::Ordinal(_) => Kinds::ORDINAL,
        Component::WeekdayShort(_)
        | Component::WeekdayLong(_)
        | Component::WeekdaySunday(_)
        | Component::WeekdayMonday(_) => Kinds::WEEKDAY,
        Component::WeekNumberIso(_) => Kinds::ISO_WEEK,
        Component::WeekNumberSunday(_) => Kinds::SUNDAY_WEEK,
        Component::WeekNumberMonday(_) => Kinds::MONDAY_WEEK,
        Component::CalendarYearFullExtendedRange(_) | Component::CalendarYearFullStandardRange(_) =>
            Kinds::YEAR,
        Component::CalendarYearCenturyExtendedRange(_)
        | Component::CalendarYearCenturyStandardRange(_) => Kinds::CENTURY,
        Component::CalendarYearLastTwo(_) => Kinds::LAST_TWO,
        Component::IsoYearFullExtendedRange(_) | Component::IsoYearFullStandardRange(_) => {
            Kinds::ISO_YEAR
        }
        Component::IsoYearCenturyExtendedRange(_) | Component::IsoYearCenturyStandardRange(_) =>
            Kinds::ISO_CENTURY,
        Component::IsoYearLastTwo(_) => Kinds::ISO_LAST_TWO,
        Component::Hour12(_) => Kinds::HOUR12,
        Component::Hour24(_) => Kinds::HOUR24,
        Component::Minute(_) => Kinds::MINUTE,
        Component::Period(_) => Kinds::PERIOD,
        Component::Second(_) => Kinds::SECOND,
        Component::Subsecond(_) => Kinds::DECIMALS,
        Component::OffsetHour(_) => Kinds::OFFSET_HOUR,
        Component::OffsetMinute(_) => Kinds::OFFSET_MINUTE,
        Component::OffsetSecond(_) => Kinds::OFFSET_SECOND,
        Component::UnixTimestampSecond(_) => Kinds::UNIX_SECOND,
        Component::UnixTimestampMillisecond(_) => Kinds::UNIX_MILLISECOND,
        _ => Kinds::NONE,
    }
}
