//! What a step shows of a value.
ghost use Rattle.std.specs.Prelude.{◌≡◌};

use time_below::format_description::{Component, component_width};
use time_fmt::Run;

/// What a step shows before its literal.
#[derive(Clone, Copy)]
pub enum Shown {
    /// A component.
    Component(Component),
    /// A date or a time of day.
    Run(Run),
    /// Nothing, where a literal stands alone.
    Nothing,
}

impl Shown {
    ghost use Rattle.time_below.specs.Width.{tree_width};
    ghost use Rattle.time_plan.specs.Shown.{shown_tree};

    /// Returns the most bytes that are shown.
    pub fn width(&self) -> usize
        ensures { result ≡ tree_width (shown_tree self.now) }
    {
        match self {
            Shown::Component(component) => component_width(component),
            Shown::Run(run) => run.width(),
            Shown::Nothing => 0,
        }
    }
}
