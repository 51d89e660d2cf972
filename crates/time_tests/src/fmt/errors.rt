//! Displayed texts of errors, and what they are converted to.
use crate::asserted::{assert_debugs, assert_displays, assert_that};
use std::convert::TryFrom;
use time_below::{ComponentRange, DifferentVariant};
use time_fmt::{Error, Format};

const CONDITIONAL: &str = "The day component is out of range, given the other components.";

/// Compares the displayed text of an error, alone and inside the outer one, and its variant.
macro_rules! errors {
    ($rt:ident; $($error:expr => $text:literal $debug:literal,)+) => {$({
        let error: Format = $error;
        assert_displays(&$rt, $rt.alloc(), &error, $text);
        assert_debugs(&$rt, $rt.alloc(), &error, $debug);
        assert_displays(&$rt, $rt.alloc(), &Error::from(error), $text);
    })+};
}

#[test]
fn an_error_is_displayed_the_same_inside_the_outer_one(rt: HostRuntime) {
    errors! { rt;
        Format::InsufficientTypeInformation => "The type being formatted does not contain sufficient information to format a component."
            "InsufficientTypeInformation",
        Format::InvalidComponent("year") => "The year component cannot be formatted into the requested format."
            "InvalidComponent(\"year\")",
        Format::ComponentRange(ComponentRange::unconditional("hour")) => "The hour component is out of range."
            "ComponentRange(ComponentRange { name: \"hour\", is_conditional: false })",
        Format::ComponentRange(ComponentRange::conditional("day")) => "The day component is out of range, given the other components."
            "ComponentRange(ComponentRange { name: \"day\", is_conditional: true })",
        Format::OutOfMemory => "Memory could not be reserved." "OutOfMemory",
    }
}

#[test]
fn a_range_and_a_conversion_that_failed_are_displayed(rt: HostRuntime) {
    let day = ComponentRange::conditional("day");
    assert_displays(&rt, rt.alloc(), &day, CONDITIONAL);
    assert_displays(&rt, rt.alloc(), &Error::ComponentRange(day), CONDITIONAL);
    let text = "The error is of a different variant.";
    assert_displays(&rt, rt.alloc(), &DifferentVariant, text);
}

/// Whether no range is given back of the error.
fn has_no_range(error: Format) -> bool {
    matches!(ComponentRange::try_from(error), Err(DifferentVariant))
}

#[test]
fn what_an_error_is_made_of_is_given_back_and_nothing_else(rt: HostRuntime) {
    let day = ComponentRange::conditional("day");
    let range = ComponentRange::try_from(Format::from(day));
    assert_that(&rt, matches!(range, Ok(same) if same == day));
    assert_that(&rt, has_no_range(Format::InsufficientTypeInformation));
    assert_that(&rt, has_no_range(Format::InvalidComponent("year")));
    assert_that(&rt, has_no_range(Format::OutOfMemory));
    let format = Format::try_from(Error::from(Format::OutOfMemory));
    assert_that(&rt, matches!(&format, Ok(Format::OutOfMemory)));
    let other = Format::try_from(Error::ComponentRange(day));
    assert_that(&rt, matches!(&other, Err(DifferentVariant)));
}
