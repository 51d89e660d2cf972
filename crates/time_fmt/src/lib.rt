//! The formatter: the text of a value by a description, appended to a vector of bytes or written to
//! the start of a slice.
#![tactic(auto)]

mod component;
mod error;
mod formattable;
pub mod laws;
mod metadata;
mod modifier;
pub mod parts;
mod refused;
mod runs;
mod separators;
mod sink;
mod slice_sink;
mod step;
pub mod writers;

pub use component::{component_write_into, write_component, write_component_inline};
pub use error::{Error, Format};
pub use formattable::{BorrowedItems, Formattable, Literal, OwnedItems, make_room, v3_write_into};
pub use metadata::ComputeMetadata;
pub use modifier::{Modifier, write_part};
pub use refused::Refused;
pub use runs::{Run, write_date, write_run, write_time};
pub use separators::Separators;
pub use sink::Sink;
pub use slice_sink::{OldBytes, SliceSink, write_over};
pub use step::{WriteStep, write_steps_inline};
pub use time_below::format_description::Metadata;
pub use time_provide::{
    ComponentProvider, DateState, Day, ExtendedCentury, Hours, IsoWeekNumber, LastTwo, Minutes,
    MondayBasedWeek, Nanoseconds, OffsetHours, OffsetMinutes, OffsetSeconds, Ordinal, Seconds,
    StandardCentury, StandardYear, SundayBasedWeek, TimestampState, Year,
};
pub use writers::{
    fmt_calendar_year_century_extended_range, fmt_calendar_year_century_standard_range,
    fmt_calendar_year_full_extended_range, fmt_calendar_year_full_standard_range,
    fmt_calendar_year_last_two, fmt_day, fmt_hour_12, fmt_hour_24,
    fmt_iso_year_century_extended_range, fmt_iso_year_century_standard_range,
    fmt_iso_year_full_extended_range, fmt_iso_year_full_standard_range, fmt_iso_year_last_two,
    fmt_minute, fmt_month_long, fmt_month_numerical, fmt_month_short, fmt_offset_hour,
    fmt_offset_minute, fmt_offset_second, fmt_ordinal, fmt_period, fmt_second, fmt_sign,
    fmt_subsecond, fmt_unix_timestamp_millisecond, fmt_unix_timestamp_second, fmt_week_number_iso,
    fmt_week_number_monday, fmt_week_number_sunday, fmt_weekday_long, fmt_weekday_monday,
    fmt_weekday_short, fmt_weekday_sunday, format_decimals, format_five_digits_pad_zero,
    format_four_digits, format_four_digits_pad_zero, format_int_padded, format_single_digit,
    format_six_digits_pad_zero, format_three_digits, format_two_digits, format_u64_pad_none, write,
    write_bytes, write_if, write_if_else, write_many,
};
