//! The years of which numbers are times.
use time_below::{Date, Month, PlainDateTime, Time};
use time_lines::Window;

/// The years where none are asked for.
const USUAL: (i32, i32) = (1990, 2060);

/// The seconds from the start of a day to its last one.
const TO_LAST_SECOND: i64 = 86_399;

/// The first and the last year of a text such as `1970..9999`.
fn years_of(text: &str) -> Option<(i32, i32)> {
    let (first, last) = text.split_once("..")?;
    let Ok(first) = first.parse::<i32>() else {
        return None;
    };
    let Ok(last) = last.parse::<i32>() else {
        return None;
    };
    if first <= last {
        Some((first, last))
    } else {
        None
    }
}

/// The second at which a day begins, if there is such a day.
fn start_of(year: i32, month: Month, day: u8) -> Option<i64> {
    match Date::from_calendar_date(year, month, day) {
        Ok(date) => Some(
            PlainDateTime::new(date, Time::MIDNIGHT)
                .assume_utc()
                .unix_timestamp(),
        ),
        Err(_) => None,
    }
}

/// The seconds of the years, which are those that are asked for or the usual ones, if the text is
/// one of years.
pub fn read(text: Option<&str>) -> Option<Window> {
    let (first, last) = match text {
        Some(text) => years_of(text)?,
        None => USUAL,
    };
    Some(Window {
        first: start_of(first, Month::January, 1)?,
        last: start_of(last, Month::December, 31)?.saturating_add(TO_LAST_SECOND),
    })
}
