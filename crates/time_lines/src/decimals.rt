//! How many decimals of a second the texts of a plan have.
use crate::number::power_of_ten;
use time_below::Timestamp;
use time_below::format_description::Component;
use time_below::format_description::modifier::SubsecondDigits;
use time_plan::{Plan, Shown};

/// How many decimals a component shows, unless it shows as many as the value needs.
fn shown_by(component: Component) -> Option<usize> {
    let Component::Subsecond(subsecond) = component else {
        return Some(match component {
            Component::UnixTimestampMillisecond(_) => 3,
            _ => 0,
        });
    };
    match subsecond.digits {
        SubsecondDigits::One => Some(1),
        SubsecondDigits::Two => Some(2),
        SubsecondDigits::Three => Some(3),
        SubsecondDigits::Four => Some(4),
        SubsecondDigits::Five => Some(5),
        SubsecondDigits::Six => Some(6),
        SubsecondDigits::Seven => Some(7),
        SubsecondDigits::Eight => Some(8),
        SubsecondDigits::Nine => Some(9),
        SubsecondDigits::OneOrMore => None,
    }
}

/// How many decimals the texts of a plan have, unless they have as many as their moment needs.
pub(crate) fn decimals_of(plan: &Plan) -> Option<usize> {
    for step in plan.steps() {
        let Shown::Component(component) = &step.shown else {
            continue;
        };
        match shown_by(component.current()) {
            Some(0) => {}
            shown => return shown,
        }
    }
    Some(0)
}

/// How many decimals a moment needs.
fn needed(moment: Timestamp) -> usize {
    let (_, nanosecond) = moment.as_parts();
    let nanosecond = u64::from(nanosecond);
    for places in 0..9usize {
        if nanosecond.checked_rem(power_of_ten(9 - places)) == Some(0) {
            return places;
        }
    }
    9
}

/// How many decimals a text of this moment has, which are so many or as many as it needs.
pub(crate) fn decimals_in(decimals: Option<usize>, moment: Option<Timestamp>) -> usize {
    match (decimals, moment) {
        (Some(count), _) => count,
        (None, Some(moment)) => needed(moment),
        (None, None) => 0,
    }
}
