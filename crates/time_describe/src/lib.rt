//! Descriptions from a text, as `[year]-[month]-[day]` or `%Y-%m-%d`.
#![tactic(auto)]

mod brackets;
mod fault;
mod items;
pub mod laws;
mod literal;
mod owned_list;
mod strftime;
mod syntax;
mod text;

pub use brackets::in_text::InText;
pub use brackets::reason::BracketReason;
pub use brackets::{Brackets, parse_owned};
pub use fault::{Fault, InvalidDescription, InvalidStrftime};
pub use items::{Items, ListKind, Parted};
pub use strftime::reason::StrftimeReason;
pub use strftime::{Strftime, parse_strftime_owned};
pub use syntax::{Syntax, parse};
