//! The time of day that the numbers of a text are of.

use crate::values::kinds::Kinds;
use crate::values::text_fields::TextFields;
use time_below::Time;

/// The hour of numbers.
fn hour_of(fields: &TextFields, kinds: Kinds) -> u8 {
    if kinds.have(Kinds::HOUR24) {
        return fields.hour_24;
    }
    let hour = fields.hour_12 % 12;
    if fields.is_pm { hour + 12 } else { hour }
}

/// The time of day of numbers.
pub(crate) fn time_of(fields: &TextFields, kinds: Kinds) -> Option<Time> {
    let hour = hour_of(fields, kinds);
    match Time::from_hms_nano(hour, fields.minute, fields.second, fields.nanosecond) {
        Ok(time) => Some(time),
        Err(_) => None,
    }
}

/// Sets the numbers of a time of day.
pub(crate) fn set_time(fields: &mut TextFields, time: Time) {
    let (hour, minute, second, nanosecond) = time.as_hms_nano();
    fields.hour_24 = hour;
    fields.hour_12 = if hour % 12 == 0 { 12 } else { hour % 12 };
    fields.is_pm = 12 <= hour;
    fields.minute = minute;
    fields.second = second;
    fields.nanosecond = nanosecond;
}

/// Sets to zero what is finer than the last part of the time of day that is shown, if one is.
pub(crate) fn clear_finer_time(fields: &mut TextFields, shown: Kinds) {
    if !shown.have_part_of_time() || shown.have(Kinds::DECIMALS) {
        return;
    }
    fields.nanosecond = 0;
    if shown.have(Kinds::SECOND) {
        return;
    }
    fields.second = 0;
    if !shown.have(Kinds::MINUTE) {
        fields.minute = 0;
    }
}
