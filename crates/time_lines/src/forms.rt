//! The forms of plans.
ghost use Rattle.std.specs.Prelude.{◌≡◌, IfOk};
ghost use Rattle.time_lines.specs.Described.{plan_of};

use crate::described::Form;
use std::default::Default;
use time_below::format_description::Component;
use time_below::{Date, Month, OffsetDateTime, PlainDateTime, Time, Timestamp};
use time_plan::{Plan, Run, Shown};
use time_read::{NoReader, ReadPlan};

/// Why the texts of a plan have no moments.
#[derive(Clone, Copy, Debug, PartialEq, Eq)]
pub enum NoForm {
    /// They do not show the day.
    NoDay,
    /// They do not show the hour, or leave out what stands before something that they show.
    NoTime,
    /// They show no year, and something beside the month and the day that depends on it.
    NoYear,
    /// They are not read.
    NoReader(NoReader),
}

/// What a plan shows of a date.
#[derive(Clone, Copy, Default)]
struct ShownParts {
    year: bool,
    /// The century or the last two digits of the year.
    year_part: bool,
    month: bool,
    day: bool,
    offset: bool,
    /// What depends on the year, as the weekday.
    other: bool,
}

impl ShownParts {
    /// With what a component shows.
    fn and(self, component: Component) -> ShownParts {
        match component {
            Component::CalendarYearFullExtendedRange(_)
            | Component::CalendarYearFullStandardRange(_) => ShownParts { year: true, ..self },
            Component::CalendarYearLastTwo(_)
            | Component::CalendarYearCenturyExtendedRange(_)
            | Component::CalendarYearCenturyStandardRange(_) => ShownParts {
                year_part: true,
                ..self
            },
            Component::MonthShort(_) | Component::MonthLong(_) | Component::MonthNumerical(_) => {
                ShownParts {
                    month: true,
                    ..self
                }
            }
            Component::Day(_) => ShownParts { day: true, ..self },
            Component::OffsetHour(_) => ShownParts {
                offset: true,
                ..self
            },
            other => self.and_other(other),
        }
    }

    /// With what another component shows of a date.
    fn and_other(self, component: Component) -> ShownParts {
        match component {
            Component::WeekdayShort(_)
            | Component::WeekdayLong(_)
            | Component::WeekdaySunday(_)
            | Component::WeekdayMonday(_)
            | Component::Ordinal(_)
            | Component::WeekNumberIso(_)
            | Component::WeekNumberSunday(_)
            | Component::WeekNumberMonday(_)
            | Component::IsoYearFullExtendedRange(_)
            | Component::IsoYearFullStandardRange(_)
            | Component::IsoYearCenturyExtendedRange(_)
            | Component::IsoYearCenturyStandardRange(_)
            | Component::IsoYearLastTwo(_) => ShownParts {
                other: true,
                ..self
            },
            _ => self,
        }
    }

    /// What the plan shows.
    fn of(plan: &Plan) -> ShownParts {
        let mut shows = ShownParts::default();
        for step in plan.steps() {
            match &step.shown {
                Shown::Component(component) => shows = shows.and(component.current()),
                Shown::Run(Run::Date(_)) => {
                    shows = ShownParts {
                        year: true,
                        month: true,
                        day: true,
                        ..shows
                    };
                }
                Shown::Run(Run::Time(_)) | Shown::Nothing => {}
            }
        }
        shows
    }
}

/// Whether texts of the plan determine a time of day: where they do, they have a reader of times,
/// unless it is refused because they show more.
fn has_time(plan: &Plan) -> bool {
    !matches!(plan.reader::<Time>(), Err(NoReader::Undetermined))
}

/// The form of a plan whose texts show a part of the year, or none of it.
fn without_year<'a>(plan: &'a Plan, base: Date) -> Result<Form<'a>, NoForm>
    ensures { IfOk result (λ form. plan_of form ≡ plan.now) }
{
    let shows = ShownParts::of(plan);
    if !shows.month || !shows.day {
        return Err(NoForm::NoDay);
    }
    if shows.year || !has_time(plan) {
        return Err(NoForm::NoTime);
    }
    if shows.year_part {
        return in_century(plan, base, shows.offset);
    }
    if shows.other || shows.offset {
        return Err(NoForm::NoYear);
    }
    // A leap year has every day.
    match plan.reader_from(&PlainDateTime::new(
        Date::from_valid_calendar_date(2000, Month::January, 1),
        Time::MIDNIGHT,
    )) {
        Ok(reader) => Ok(Form::Yearless(reader)),
        Err(refused) => Err(NoForm::NoReader(refused)),
    }
}

/// The form of a plan whose texts show a part of the year. The other part is that of a date.
fn in_century<'a>(plan: &'a Plan, base: Date, has_offset: bool) -> Result<Form<'a>, NoForm>
    ensures { IfOk result (λ form. plan_of form ≡ plan.now) }
{
    let start = PlainDateTime::new(base, Time::MIDNIGHT);
    if has_offset {
        return match plan.reader_from(&start.assume_utc()) {
            Ok(reader) => Ok(Form::AtOffset(reader)),
            Err(refused) => Err(NoForm::NoReader(refused)),
        };
    }
    match plan.reader_from(&start) {
        Ok(reader) => Ok(Form::Local(reader)),
        Err(refused) => Err(NoForm::NoReader(refused)),
    }
}

/// The form of a plan whose texts show no offset.
fn without_offset<'a>(plan: &'a Plan, base: Date) -> Result<Form<'a>, NoForm>
    ensures { IfOk result (λ form. plan_of form ≡ plan.now) }
{
    match plan.reader::<PlainDateTime>() {
        Ok(reader) => return Ok(Form::Local(reader)),
        Err(NoReader::Undetermined) => {}
        Err(refused) => return Err(NoForm::NoReader(refused)),
    }
    match plan.reader::<Timestamp>() {
        Ok(reader) => Ok(Form::AtMoment(reader)),
        Err(NoReader::Undetermined) => without_year(plan, base),
        Err(refused) => Err(NoForm::NoReader(refused)),
    }
}

impl<'a> Form<'a> {
    /// Returns the form of a plan. Where texts show only a part of the year, the other part is that
    /// of the date.
    pub fn of(plan: &'a Plan, base: Date) -> Result<Form<'a>, NoForm>
        ensures { IfOk result (λ form. plan_of form ≡ plan.now) }
    {
        match plan.reader::<OffsetDateTime>() {
            Ok(reader) => Ok(Form::AtOffset(reader)),
            Err(NoReader::Undetermined) => without_offset(plan, base),
            Err(refused) => Err(NoForm::NoReader(refused)),
        }
    }
}
