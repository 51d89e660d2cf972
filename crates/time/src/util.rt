//! The lengths of years and months, and the weeks of a year.
pub use time_below::util::{days_in_month, days_in_year, is_leap_year, weeks_in_year};
