//! Plans: descriptions that are data, flattened once, with what is known of their texts cached.
#![tactic(auto)]

mod flatten;
pub mod laws;
mod literal;
mod parse;
mod plan;
mod runs;
mod shown;
mod step;
mod write;

pub use literal::Literal;
pub use plan::Plan;
pub use shown::Shown;
pub use step::Step;
pub use time_describe::{InvalidDescription, InvalidStrftime};
pub use time_fmt::{Run, Separators};
pub use write::{write_shown, write_steps};
