//! The engine for one component.
ghost use Rattle.std.specs.Prelude.{◌≡◌, ◌+◌, ◌≤◌, IsTrue, IsUtf8, MatchOption, vec_len};
ghost use Rattle.time_below.specs.Conversion.{is_current};
ghost use Rattle.time_below.specs.Width.{component_width};
ghost use Rattle.time_fmt.specs.Description.{component_outcome};
ghost use Rattle.time_fmt.specs.Ends.{Ends};
ghost use Rattle.time_fmt.specs.Outcome.{Appends};
ghost use Rattle.time_fmt.specs.Room.{HasRoom};
ghost use Rattle.time_fmt.specs.Sink.{Fits};

use crate::error::Format;
use crate::modifier::write_part;
use crate::refused::Refused;
use crate::sink::Sink;
use time_below::format_description::Component;
use time_provide::ComponentProvider;

// A match in which the choices of each of these components have this answer. The other arms follow.
macro_rules! each {
    (
        $component:expr, [$($name:ident)+],
        $part:ident => $answer:expr, $($other:pat => $rest:expr),+ $(,)?
    ) => {
        match $component {
            $(Component::$name($part) => $answer,)+
            $($other => $rest,)+
        }
    };
}

/// Appends the text of one of the 15 components that most texts are made of, and returns its
/// refusal, if it is refused.
///
/// For any other component writes nothing and returns `None`. The output needs spare capacity for
/// its maximum length.
#[inline(always)]
pub fn write_component_inline<S: Sink, V: ComponentProvider>(
    component: Component,
    output: &mut S,
    value: &V,
    state: &mut V::State,
) -> Option<Result<(), Refused>>
    requires room { Fits (S.buffer output.old) (component_width component) }
    requires agrees { V.agrees state.old value.now }
    ensures ends { MatchOption result (S.buffer output.new ≡ S.buffer output.old)
        (λ answer. Ends (component_width component) (S.buffer output.old) (S.buffer output.new)
        answer (component_outcome component (V.facts value.now))) }
    ensures agrees { V.agrees state.new value.now }
{
    each!(component, [
        Day MonthShort MonthLong MonthNumerical WeekdayShort WeekdayMonday
        CalendarYearFullExtendedRange Hour12 Hour24 Minute Period Second Subsecond OffsetHour
        OffsetMinute
    ], part => Some(write_part(part, output, value, state)), _ => None)
}

/// Appends the text of any component, of a deprecated one that of the current one in its place.
///
/// Returns its refusal, if it is refused. The output needs spare capacity for its maximum length.
pub fn write_component<S: Sink, V: ComponentProvider>(
    component: Component,
    output: &mut S,
    value: &V,
    state: &mut V::State,
) -> Result<(), Refused>
    requires room { Fits (S.buffer output.old) (component_width component) }
    requires agrees { V.agrees state.old value.now }
    ensures ends { Ends (component_width component) (S.buffer output.old) (S.buffer output.new)
        result (component_outcome component (V.facts value.now)) }
    ensures agrees { V.agrees state.new value.now }
{
    write_supported(component.current(), output, value, state)
}

// Appends the text of a component that is not deprecated.
fn write_supported<S: Sink, V: ComponentProvider>(
    component: Component,
    output: &mut S,
    value: &V,
    state: &mut V::State,
) -> Result<(), Refused>
    requires current { IsTrue (is_current component) }
    requires room { Fits (S.buffer output.old) (component_width component) }
    requires agrees { V.agrees state.old value.now }
    ensures ends { Ends (component_width component) (S.buffer output.old) (S.buffer output.new)
        result (component_outcome component (V.facts value.now)) }
    ensures agrees { V.agrees state.new value.now }
{
    each!(component, [
        Day MonthShort MonthLong MonthNumerical Ordinal WeekdayShort WeekdayLong WeekdaySunday
        WeekdayMonday WeekNumberIso WeekNumberSunday WeekNumberMonday CalendarYearFullExtendedRange
        CalendarYearFullStandardRange CalendarYearCenturyExtendedRange
        CalendarYearCenturyStandardRange CalendarYearLastTwo IsoYearFullExtendedRange
        IsoYearFullStandardRange IsoYearCenturyExtendedRange IsoYearCenturyStandardRange
        IsoYearLastTwo Hour12 Hour24 Minute Period Second Subsecond OffsetHour OffsetMinute
        OffsetSecond UnixTimestampSecond UnixTimestampMillisecond
    ], part => write_part(part, output, value, state),
        Component::Ignore(_) | Component::End(_) => Ok(()),
        Component::Month(_)
        | Component::Weekday(_)
        | Component::WeekNumber(_)
        | Component::Hour(_)
        | Component::UnixTimestamp(_)
        | Component::Year(_) => unreachable!(),
    )
}

/// Appends the text of the component, and allocates nothing.
///
/// The output needs spare capacity for the component's maximum length. A deprecated component has
/// the text of the current one. Returns the number of bytes appended.
///
/// # Errors
///
/// A component that is refused appends no byte.
#[tactic(auto, using(crate::proofs::EndLemmas::answered))]
pub fn component_write_into<V: ComponentProvider>(
    component: &Component,
    output: &mut Vec<u8>,
    value: &V,
    state: &mut V::State,
) -> Result<usize, Format>
    requires room { HasRoom output.old (component_width component.now) }
    requires agrees { V.agrees state.old value.now }
    ensures appends { Appends output.old output.new result
        (component_outcome component.now (V.facts value.now)) }
    ensures within { vec_len output.new ≤ vec_len output.old + component_width component.now }
    ensures text { IsUtf8 (component_outcome component.now (V.facts value.now)).bytes }
    ensures agrees { V.agrees state.new value.now }
{
    let begin = output.len();
    write_component(*component, output, value, state)?;
    Ok(output.len() - begin)
}
