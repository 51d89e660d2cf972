//! Why there is no value, no description or no text.
pub use time_below::{ComponentRange, DifferentVariant, InvalidVariant};
pub use time_describe::{
    BracketReason, InText, InvalidDescription, InvalidDescription as InvalidFormatDescription,
    InvalidStrftime, StrftimeReason,
};
pub use time_fmt::{Error, Format};
