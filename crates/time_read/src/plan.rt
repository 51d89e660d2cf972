//! Texts of a plan, or of steps of any kind: they are read, the value is written, and the two are
//! compared.

mod any_step;
mod behind;
mod compare;
mod components;
mod described;
mod found;
mod names;
mod reader;
mod runs;
mod shapes;
mod steps;

pub use any_step::{LiteralRef, ReadStep, StepParts};
pub use reader::{ReadPlan, Reader, StepsReader, readable_kinds, reader_by_kinds, reader_of_steps};
