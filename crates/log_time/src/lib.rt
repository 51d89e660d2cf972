//! A sink for `log` whose lines begin with their time.
#![tactic(auto)]

mod line;
mod log_time;
mod sink;
mod times;
mod zone;

pub use line::TimedLine;
pub use log_time::{Decimals, LogTime};
pub use sink::Timed;
pub use times::Times;
pub use zone::ZoneTimes;
