//! Numbers with bounds, and the decimal texts of numbers, for the formatting of dates and times.
//!
//! No function here allocates. `new` and `narrow` of a number with bounds return `None` for a
//! number outside of them, and nothing else is refused. A small number's text is borrowed from a
//! constant table, a larger one comes in pieces of such texts, and a long one is in an array.
#![tactic(auto)]

pub mod digit_count;
pub mod laws;
pub mod num_fmt;
pub mod ranged;
pub mod stack_str;
pub mod tables;

pub use digit_count::DigitCount;
pub use num_fmt::{
    DIV_100_FACTOR, DIV_100_SHIFT, div_100, five_digits_zero_padded, four_digits_space_padded,
    four_digits_zero_padded, four_to_six_digits, magnitude_zero_padded,
    one_to_four_digits_no_padding, one_to_three_digits_no_padding, one_to_two_digits_no_padding,
    single_digit, six_digits_zero_padded, subsecond_from_nanos, three_digits_space_padded,
    three_digits_zero_padded, truncated_subsecond_from_nanos, two_digits_space_padded,
    two_digits_zero_padded, u64_pad_none, write_one_digit, write_two_digits, zeros_to_drop,
};
pub use ranged::{ri8, ri16, ri32, ru8, ru16, ru32};
pub use stack_str::{StackStr, StackTrailingStr};
pub use tables::{MAGNITUDE_PAIRS, SINGLE_DIGITS, SPACE_PADDED_PAIRS, ZERO_PADDED_PAIRS};
