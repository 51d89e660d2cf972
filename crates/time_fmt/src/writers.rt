//! Texts appended to a sink with room for them. No writer allocates. Each returns the number of
//! bytes that it has appended.
//!
//! The impl of [`Modifier`](crate::Modifier) beside a component's writer calls it.
mod century;
mod date;
mod decimals;
mod digits;
mod offset;
mod plain;
mod subsecond;
mod time;
mod timestamp;
mod week;
mod year;

pub use century::{
    fmt_calendar_year_century_extended_range, fmt_calendar_year_century_standard_range,
    fmt_calendar_year_last_two, fmt_iso_year_century_extended_range,
    fmt_iso_year_century_standard_range, fmt_iso_year_last_two,
};
pub use date::{fmt_day, fmt_month_long, fmt_month_numerical, fmt_month_short, fmt_ordinal};
pub use decimals::format_decimals;
pub use digits::{
    fmt_sign, format_five_digits_pad_zero, format_four_digits, format_four_digits_pad_zero,
    format_int_padded, format_single_digit, format_six_digits_pad_zero, format_three_digits,
    format_two_digits, format_two_digits_pad_zero, format_u64_pad_none,
};
pub use offset::{fmt_offset_hour, fmt_offset_minute, fmt_offset_second};
pub(crate) use plain::write_each;
pub use plain::{
    put_back, take_out, write, write_bytes, write_if, write_if_else, write_literal, write_many,
};
pub use subsecond::{write_fraction, write_nine_digits, write_six_decimals, write_three_decimals};
pub use time::{fmt_hour_12, fmt_hour_24, fmt_minute, fmt_period, fmt_second, fmt_subsecond};
pub use timestamp::{fmt_unix_timestamp_millisecond, fmt_unix_timestamp_second};
pub use week::{
    fmt_week_number_iso, fmt_week_number_monday, fmt_week_number_sunday, fmt_weekday_long,
    fmt_weekday_monday, fmt_weekday_short, fmt_weekday_sunday,
};
pub use year::{
    fmt_calendar_year_full_extended_range, fmt_calendar_year_full_standard_range,
    fmt_iso_year_full_extended_range, fmt_iso_year_full_standard_range,
};
