//! Tests of the crates up to `time_known`, by public calls, of what no contract says and no line of
//! `time_rows` can hold. They stand in a library of their own, so that those crates are not proved
//! once more beside their tests.
#![tactic(auto)]

#[cfg(test)]
mod asserted;
#[cfg(test)]
mod below;
#[cfg(test)]
mod digits;
#[cfg(test)]
mod fmt;
#[cfg(test)]
mod known;
#[cfg(test)]
mod provide;
#[cfg(test)]
mod values;
