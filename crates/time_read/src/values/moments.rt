//! The offset and the moment that the numbers of a text are of.

use crate::values::kinds::Kinds;
use crate::values::text_fields::TextFields;
use std::convert::TryFrom;
use time_below::{Timestamp, UtcOffset};

/// The offset of numbers.
pub(crate) fn offset_of(fields: &TextFields) -> Option<UtcOffset> {
    if 25 < fields.offset_hour || 59 < fields.offset_minute || 59 < fields.offset_second {
        return None;
    }
    let (hours, minutes, seconds) = (
        fields.offset_hour as i8,
        fields.offset_minute as i8,
        fields.offset_second as i8,
    );
    let offset = if fields.offset_is_negative {
        UtcOffset::from_hms(-hours, -minutes, -seconds)
    } else {
        UtcOffset::from_hms(hours, minutes, seconds)
    };
    match offset {
        Ok(offset) => Some(offset),
        Err(_) => None,
    }
}

/// The moment of numbers.
pub(crate) fn moment_of(fields: &TextFields, kinds: Kinds) -> Option<Timestamp> {
    if kinds.have(Kinds::UNIX_SECOND) {
        let nanosecond = if kinds.have(Kinds::DECIMALS) {
            fields.nanosecond
        } else if kinds.have(Kinds::UNIX_MILLISECOND) {
            nanoseconds_of(fields.unix_millisecond)
        } else {
            0
        };
        return timestamp(fields.unix_second, nanosecond);
    }
    let seconds = fields.unix_millisecond.div_euclid(1_000);
    let nanosecond = if kinds.have(Kinds::DECIMALS) {
        fields.nanosecond
    } else {
        nanoseconds_of(fields.unix_millisecond)
    };
    timestamp(seconds, nanosecond)
}

/// The moment of seconds and a nanosecond.
pub(crate) fn timestamp(seconds: i64, nanosecond: u32) -> Option<Timestamp> {
    match Timestamp::new(seconds, nanosecond) {
        Ok(moment) => Some(moment),
        Err(_) => None,
    }
}

/// The nanoseconds behind the second of a count of milliseconds.
fn nanoseconds_of(milliseconds: i64) -> u32 {
    let behind = milliseconds.rem_euclid(1_000);
    match u32::try_from(behind) {
        Ok(behind) => behind.wrapping_mul(1_000_000),
        Err(_) => 0,
    }
}

/// Sets the numbers of an offset.
pub(crate) fn set_offset(fields: &mut TextFields, offset: UtcOffset) {
    let (hours, minutes, seconds) = offset.as_hms();
    fields.offset_is_negative = offset.is_negative();
    fields.offset_hour = hours.unsigned_abs();
    fields.offset_minute = minutes.unsigned_abs();
    fields.offset_second = seconds.unsigned_abs();
}

/// Sets to zero what is finer than the last part of the offset that is shown, if one is.
pub(crate) fn clear_finer_offset(fields: &mut TextFields, shown: Kinds) {
    if shown.have(Kinds::OFFSET_SECOND) {
        return;
    }
    if shown.have(Kinds::OFFSET_MINUTE) {
        fields.offset_second = 0;
    } else if shown.have(Kinds::OFFSET_HOUR) {
        fields.offset_minute = 0;
        fields.offset_second = 0;
    }
}
