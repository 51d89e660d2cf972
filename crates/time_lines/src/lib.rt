//! Lines in which moments are written as text: what a line becomes, as jobs of `line_streams`.
#![tactic(auto)]

mod begins;
mod decimals;
mod described;
mod descriptions;
mod forms;
mod front;
mod json;
pub mod laws;
mod now;
mod number;
mod passed;
mod read;
mod runs;
mod shown;
mod unix;
mod until;
mod years;

pub use described::{Described, Form, FormRow, Utc, Zone};
pub use descriptions::{Descriptions, with_decimals};
pub use forms::NoForm;
pub use front::{Front, Reads};
pub use now::NowJob;
pub use number::{Numbers, Unit, Window};
pub use passed::{FirstPassed, Passed, Why};
pub use read::{FirstOf, ReadJob, Rfc3339Texts};
pub use shown::{InPlace, InUtc, Place, Shows};
pub use unix::UnixJob;
pub use until::{Until, Years};
