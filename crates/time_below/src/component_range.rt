//! The refusal of a component.
ghost use Rattle.std.specs.Prelude.{◌≡◌};

use thiserror::Error;

/// A component is outside its range.
#[derive(Debug, Clone, Copy, PartialEq, Eq, Error)]
#[error("The {name} component is out of range{}.", if *.is_conditional {", given the other components"} else {""})]
pub struct ComponentRange {
    name: &'static str,
    is_conditional: bool,
}

impl ComponentRange {
    ghost use Rattle.time_below.specs.ComponentRange.{range_refusal, conditional_range};
    ghost use Rattle.time_below.specs.ComponentRange.{unconditional_range};

    /// Returns the error of a component that is outside the range that the other components leave
    /// it.
    pub fn conditional(name: &'static str) -> ComponentRange
        ensures { range_refusal result ≡ conditional_range name.now }
    {
        ComponentRange {
            name,
            is_conditional: true,
        }
    }

    /// Returns the error of a component that is outside its range for any values of the others.
    pub fn unconditional(name: &'static str) -> ComponentRange
        ensures { range_refusal result ≡ unconditional_range name.now }
    {
        ComponentRange {
            name,
            is_conditional: false,
        }
    }

    /// Returns the name of the component, such as `day`.
    pub fn name(&self) -> &'static str
        ensures { result.now ≡ (range_refusal self.now).name }
    {
        self.name
    }

    /// Returns whether the other components set the range, as the month sets that of the day.
    pub fn is_conditional(&self) -> bool
        ensures { result ≡ (range_refusal self.now).is_conditional }
    {
        self.is_conditional
    }
}
