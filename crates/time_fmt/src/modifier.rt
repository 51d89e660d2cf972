//! The trait of a component's choices, which say what component it is and what it shows.
ghost use Rattle.std.specs.Prelude.{◌≡◌, IsTrue};
ghost use Rattle.time_below.specs.Conversion.{is_current};
ghost use Rattle.time_below.specs.declared.format_description.component.Component.{Component};
ghost use Rattle.time_below.specs.Width.{component_width, group_of};
ghost use Rattle.time_fmt.specs.Description.{component_outcome, has_group, is_supplied};
ghost use Rattle.time_fmt.specs.Description.{supplied_outcome};
ghost use Rattle.time_fmt.specs.Ends.{Ends};
ghost use Rattle.time_fmt.specs.Sink.{Fits};

use crate::refused::Refused;
use crate::sink::Sink;
use time_below::format_description::{Component, Group};
use time_provide::ComponentProvider;

/// The choices of one component, which with their type say which component it is.
///
/// Each type of choices in `time_below::format_description::modifier` is one, but for those of
/// deprecated components and of the two that have no text. Each impl is beside the component's
/// writer.
pub trait Modifier: Copy {
    /// The component with these choices.
    ghost component_of: { Self → Component };

    /// Returns the component with these choices, which is not deprecated.
    fn component(self) -> Component
        ensures component { result ≡ component_of self }
        ensures current { IsTrue (is_current (component_of self)) };

    /// Appends the text of a value that supplies the component's group. Returns its refusal, if it
    /// is refused.
    fn write<S: Sink, V: ComponentProvider>(
        self,
        output: &mut S,
        value: &V,
        state: &mut V::State,
    ) -> Result<(), Refused>
        requires supplied { IsTrue (is_supplied V.SUPPLIES_DATE V.SUPPLIES_TIME
            V.SUPPLIES_OFFSET V.SUPPLIES_TIMESTAMP (group_of (component_of self))) }
        requires room { Fits (S.buffer output.old) (component_width (component_of self)) }
        requires agrees { V.agrees state.old value.now }
        ensures ends { Ends (component_width (component_of self)) (S.buffer output.old)
            (S.buffer output.new) result (supplied_outcome (component_of self) (V.facts value.now)) }
        ensures agrees { V.agrees state.new value.now };
}

/// Appends the text of any component that is not deprecated, by its choices.
///
/// Returns its refusal, if it is refused.
#[inline(always)]
pub fn write_part<M: Modifier, S: Sink, V: ComponentProvider>(
    part: M,
    output: &mut S,
    value: &V,
    state: &mut V::State,
) -> Result<(), Refused>
    requires room { Fits (S.buffer output.old) (component_width (M.component_of part)) }
    requires agrees { V.agrees state.old value.now }
    ensures ends { Ends (component_width (M.component_of part)) (S.buffer output.old)
        (S.buffer output.new) result (component_outcome (M.component_of part) (V.facts value.now)) }
    ensures agrees { V.agrees state.new value.now }
{
    if !supplies::<V>(part.component().group()) {
        return Err(Refused::Unsupplied);
    }
    part.write(output, value, state)
}

/// Whether the values of a type supply a group.
pub(crate) fn supplies<V: ComponentProvider>(group: Group) -> bool
    ensures supplied { result ≡ is_supplied V.SUPPLIES_DATE V.SUPPLIES_TIME
        V.SUPPLIES_OFFSET V.SUPPLIES_TIMESTAMP group }
    ensures values { (value : V) → result ≡ has_group group (V.facts value) }
{
    match group {
        Group::Date => V::SUPPLIES_DATE,
        Group::Time => V::SUPPLIES_TIME,
        Group::Offset => V::SUPPLIES_OFFSET,
        Group::Timestamp => V::SUPPLIES_TIMESTAMP,
        Group::None => true,
    }
}
