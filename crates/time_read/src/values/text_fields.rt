//! The numbers of a text.
use crate::component_name::ComponentName;
use crate::fault::{Expected, Mismatch, Unexpected};
use std::default::Default;

/// What was read of a text, and of a base value what no text shows. Anything else is zero.
#[derive(Clone, Copy, Default)]
pub struct TextFields {
    pub(crate) unix_second: i64,
    pub(crate) unix_millisecond: i64,
    pub(crate) year: i32,
    pub(crate) iso_year: i32,
    pub(crate) nanosecond: u32,
    pub(crate) century: u16,
    pub(crate) iso_century: u16,
    pub(crate) ordinal: u16,
    pub(crate) last_two: u8,
    pub(crate) iso_last_two: u8,
    pub(crate) is_before_zero: bool,
    pub(crate) iso_is_before_zero: bool,
    pub(crate) month: u8,
    pub(crate) day: u8,
    /// In days from Monday.
    pub(crate) weekday: u8,
    pub(crate) iso_week: u8,
    pub(crate) sunday_week: u8,
    pub(crate) monday_week: u8,
    pub(crate) hour_24: u8,
    pub(crate) hour_12: u8,
    pub(crate) is_pm: bool,
    pub(crate) minute: u8,
    pub(crate) second: u8,
    pub(crate) offset_is_negative: bool,
    pub(crate) offset_hour: u8,
    pub(crate) offset_minute: u8,
    pub(crate) offset_second: u8,
    /// Where the text is none of the steps. Of a text that was read it is where the number stands
    /// that picks a date of its year, or a moment, of which there may be none.
    pub(crate) stop: Option<Unexpected>,
}

impl TextFields {
    /// Keeps where a number begins that picks a date or a moment: the day of a month before others,
    /// and else the first one.
    pub(crate) fn set_pick(&mut self, name: ComponentName, left: usize) {
        if self.stop.is_none() || matches!(name, ComponentName::Day) {
            self.stop = Some(Unexpected {
                left,
                expected: Expected::Plan(Mismatch::NoValue(name)),
            });
        }
    }
}
