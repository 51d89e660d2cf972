//! Tests of the crates above `time_known`, by public calls, of what no contract says and no line of
//! `time_rows` can hold. One library reads all crates below once.
#![tactic(auto)]

#[cfg(test)]
mod asserted;
#[cfg(test)]
mod describe;
#[cfg(test)]
mod jiff_values;
#[cfg(test)]
mod lines;
#[cfg(test)]
mod log_lines;
#[cfg(test)]
mod log_times;
#[cfg(test)]
mod parse_rfcs;
#[cfg(test)]
mod plans;
#[cfg(test)]
mod read;
#[cfg(test)]
mod serde_moments;
#[cfg(test)]
mod streams;
#[cfg(test)]
mod time_calls;
