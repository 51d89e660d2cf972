//! Texts of steps that are in no plan.
use crate::asserted::{answered, assert_same, assert_that};
use time_below::modifier::{self, Padding};
use time_below::{Component, Date, Time};
use time_plan::Shown;
use time_read::{LiteralRef, StepParts, reader_of_steps};

/// A component with nothing behind it.
fn alone(component: Component) -> StepParts<'static> {
    StepParts {
        shown: Shown::Component(component),
        literal: LiteralRef::Bytes(&[]),
    }
}

/// The steps of a year, a dash and a day of the year.
fn ordinal_date() -> [StepParts<'static>; 3] {
    let (padding, sign_is_mandatory) = (Padding::Zero, false);
    let year = modifier::CalendarYearFullExtendedRange {
        padding,
        sign_is_mandatory,
    };
    let dash = StepParts {
        shown: Shown::Nothing,
        literal: LiteralRef::Byte(b'-'),
    };
    [
        alone(Component::CalendarYearFullExtendedRange(year)),
        dash,
        alone(Component::Ordinal(modifier::Ordinal { padding })),
    ]
}

#[test]
fn steps_in_an_array_are_read(rt: HostRuntime) {
    let steps = ordinal_date();
    let reader = answered(&rt, reader_of_steps::<StepParts<'_>, Date>(&steps, &[]));
    let strict = answered(&rt, reader.read(b"2026-033"));
    assert_same(&rt, strict.to_ordinal_date(), (2026, 33));
    assert_that(&rt, reader.read(b"2026-33").is_err());
    let none = reader_of_steps::<StepParts<'_>, Time>(&steps, &[]);
    assert_that(&rt, none.is_err());
}
