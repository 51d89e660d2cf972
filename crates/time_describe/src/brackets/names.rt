//! The names that stand in brackets: components, and what modifiers choose of them.
ghost use Rattle.std.specs.Prelude.{◌≡◌};
ghost use Rattle.time_describe.specs.Names.{named, padding_modified, year_modified, month_modified};
ghost use Rattle.time_describe.specs.Names.{weekday_modified, week_number_modified, hour_modified};
ghost use Rattle.time_describe.specs.Names.{period_modified, subsecond_modified};
ghost use Rattle.time_describe.specs.Names.{offset_hour_modified, unix_timestamp_modified};
ghost use Rattle.time_describe.specs.Names.{ignore_modified, end_modified, modified};

use super::reason::BracketReason;
use super::values::{
    base_named, bool_named, case_named, clock_named, count_named, digits_named, is_name,
    month_repr_named, padding_named, precision_named, sign_named, trailing_input_named,
    week_number_repr_named, weekday_repr_named, year_range_named, year_repr_named,
};
use time_below::format_description::modifier::{
    MonthRepr, Padding, SubsecondDigits, TrailingInput, UnixTimestampPrecision, WeekNumberRepr,
    WeekdayRepr, YearRange, YearRepr,
};
use time_below::format_description::{Component, modifier};

/// Returns the component of this name, where nothing more is said.
///
/// The count of an `ignore` is not given yet, and 0.
#[tactic(auto, unfolding(crate::specs::Names::named))]
pub fn named(word: &[u8]) -> Option<Component>
    ensures { result ≡ named word.now }
{
    if is_name(word, b"year") {
        Some(Component::Year(modifier::Year {
            padding: Padding::Zero,
            repr: YearRepr::Full,
            range: YearRange::Extended,
            iso_week_based: false,
            sign_is_mandatory: false,
        }))
    } else if is_name(word, b"month") {
        Some(Component::Month(modifier::Month {
            padding: Padding::Zero,
            repr: MonthRepr::Numerical,
            case_sensitive: true,
        }))
    } else if is_name(word, b"day") {
        Some(Component::Day(modifier::Day {
            padding: Padding::Zero,
        }))
    } else if is_name(word, b"ordinal") {
        Some(Component::Ordinal(modifier::Ordinal {
            padding: Padding::Zero,
        }))
    } else if is_name(word, b"weekday") {
        Some(Component::Weekday(modifier::Weekday {
            repr: WeekdayRepr::Long,
            one_indexed: true,
            case_sensitive: true,
        }))
    } else if is_name(word, b"week_number") {
        Some(Component::WeekNumber(modifier::WeekNumber {
            padding: Padding::Zero,
            repr: WeekNumberRepr::Iso,
        }))
    } else if is_name(word, b"hour") {
        Some(Component::Hour(modifier::Hour {
            padding: Padding::Zero,
            is_12_hour_clock: false,
        }))
    } else if is_name(word, b"minute") {
        Some(Component::Minute(modifier::Minute {
            padding: Padding::Zero,
        }))
    } else if is_name(word, b"period") {
        Some(Component::Period(modifier::Period {
            is_uppercase: true,
            case_sensitive: true,
        }))
    } else if is_name(word, b"second") {
        Some(Component::Second(modifier::Second {
            padding: Padding::Zero,
        }))
    } else if is_name(word, b"subsecond") {
        Some(Component::Subsecond(modifier::Subsecond {
            digits: SubsecondDigits::OneOrMore,
        }))
    } else if is_name(word, b"offset_hour") {
        Some(Component::OffsetHour(modifier::OffsetHour {
            padding: Padding::Zero,
            sign_is_mandatory: false,
        }))
    } else if is_name(word, b"offset_minute") {
        Some(Component::OffsetMinute(modifier::OffsetMinute {
            padding: Padding::Zero,
        }))
    } else if is_name(word, b"offset_second") {
        Some(Component::OffsetSecond(modifier::OffsetSecond {
            padding: Padding::Zero,
        }))
    } else if is_name(word, b"unix_timestamp") {
        Some(Component::UnixTimestamp(modifier::UnixTimestamp {
            precision: UnixTimestampPrecision::Second,
            sign_is_mandatory: false,
        }))
    } else if is_name(word, b"ignore") {
        Some(Component::Ignore(modifier::Ignore { count: 0 }))
    } else if is_name(word, b"end") {
        Some(Component::End(modifier::End {
            trailing_input: TrailingInput::Prohibit,
        }))
    } else {
        None
    }
}

/// The padding that one more modifier chooses, where only that can be chosen.
#[tactic(auto, unfolding(crate::specs::Names::padding_modified))]
fn padding_modified(key: &[u8], value: &[u8]) -> Result<Padding, BracketReason>
    ensures { result ≡ padding_modified key.now value.now }
{
    if is_name(key, b"padding") {
        padding_named(value).ok_or(BracketReason::InvalidValue)
    } else {
        Err(BracketReason::UnknownModifier)
    }
}

/// How the year is written, with one more modifier.
#[tactic(auto, unfolding(crate::specs::Names::year_modified))]
fn year_modified(
    m: modifier::Year,
    key: &[u8],
    value: &[u8],
) -> Result<modifier::Year, BracketReason>
    ensures { result ≡ year_modified m key.now value.now }
{
    if is_name(key, b"padding") {
        let Some(padding) = padding_named(value) else {
            return Err(BracketReason::InvalidValue);
        };
        Ok(modifier::Year { padding, ..m })
    } else if is_name(key, b"repr") {
        let Some(repr) = year_repr_named(value) else {
            return Err(BracketReason::InvalidValue);
        };
        Ok(modifier::Year { repr, ..m })
    } else if is_name(key, b"range") {
        let Some(range) = year_range_named(value) else {
            return Err(BracketReason::InvalidValue);
        };
        Ok(modifier::Year { range, ..m })
    } else if is_name(key, b"base") {
        let Some(iso_week_based) = base_named(value) else {
            return Err(BracketReason::InvalidValue);
        };
        Ok(modifier::Year {
            iso_week_based,
            ..m
        })
    } else if is_name(key, b"sign") {
        let Some(sign_is_mandatory) = sign_named(value) else {
            return Err(BracketReason::InvalidValue);
        };
        Ok(modifier::Year {
            sign_is_mandatory,
            ..m
        })
    } else {
        Err(BracketReason::UnknownModifier)
    }
}

/// How the month is written, with one more modifier.
#[tactic(auto, unfolding(crate::specs::Names::month_modified))]
fn month_modified(
    m: modifier::Month,
    key: &[u8],
    value: &[u8],
) -> Result<modifier::Month, BracketReason>
    ensures { result ≡ month_modified m key.now value.now }
{
    if is_name(key, b"padding") {
        let Some(padding) = padding_named(value) else {
            return Err(BracketReason::InvalidValue);
        };
        Ok(modifier::Month { padding, ..m })
    } else if is_name(key, b"repr") {
        let Some(repr) = month_repr_named(value) else {
            return Err(BracketReason::InvalidValue);
        };
        Ok(modifier::Month { repr, ..m })
    } else if is_name(key, b"case_sensitive") {
        let Some(case_sensitive) = bool_named(value) else {
            return Err(BracketReason::InvalidValue);
        };
        Ok(modifier::Month {
            case_sensitive,
            ..m
        })
    } else {
        Err(BracketReason::UnknownModifier)
    }
}

/// How the weekday is written, with one more modifier.
#[tactic(auto, unfolding(crate::specs::Names::weekday_modified))]
fn weekday_modified(
    m: modifier::Weekday,
    key: &[u8],
    value: &[u8],
) -> Result<modifier::Weekday, BracketReason>
    ensures { result ≡ weekday_modified m key.now value.now }
{
    if is_name(key, b"repr") {
        let Some(repr) = weekday_repr_named(value) else {
            return Err(BracketReason::InvalidValue);
        };
        Ok(modifier::Weekday { repr, ..m })
    } else if is_name(key, b"one_indexed") {
        let Some(one_indexed) = bool_named(value) else {
            return Err(BracketReason::InvalidValue);
        };
        Ok(modifier::Weekday { one_indexed, ..m })
    } else if is_name(key, b"case_sensitive") {
        let Some(case_sensitive) = bool_named(value) else {
            return Err(BracketReason::InvalidValue);
        };
        Ok(modifier::Weekday {
            case_sensitive,
            ..m
        })
    } else {
        Err(BracketReason::UnknownModifier)
    }
}

/// How the week is written, with one more modifier.
#[tactic(auto, unfolding(crate::specs::Names::week_number_modified))]
fn week_number_modified(
    m: modifier::WeekNumber,
    key: &[u8],
    value: &[u8],
) -> Result<modifier::WeekNumber, BracketReason>
    ensures { result ≡ week_number_modified m key.now value.now }
{
    if is_name(key, b"padding") {
        let Some(padding) = padding_named(value) else {
            return Err(BracketReason::InvalidValue);
        };
        Ok(modifier::WeekNumber { padding, ..m })
    } else if is_name(key, b"repr") {
        let Some(repr) = week_number_repr_named(value) else {
            return Err(BracketReason::InvalidValue);
        };
        Ok(modifier::WeekNumber { repr, ..m })
    } else {
        Err(BracketReason::UnknownModifier)
    }
}

/// How the hour is written, with one more modifier.
#[tactic(auto, unfolding(crate::specs::Names::hour_modified))]
fn hour_modified(
    m: modifier::Hour,
    key: &[u8],
    value: &[u8],
) -> Result<modifier::Hour, BracketReason>
    ensures { result ≡ hour_modified m key.now value.now }
{
    if is_name(key, b"padding") {
        let Some(padding) = padding_named(value) else {
            return Err(BracketReason::InvalidValue);
        };
        Ok(modifier::Hour { padding, ..m })
    } else if is_name(key, b"repr") {
        let Some(is_12_hour_clock) = clock_named(value) else {
            return Err(BracketReason::InvalidValue);
        };
        Ok(modifier::Hour {
            is_12_hour_clock,
            ..m
        })
    } else {
        Err(BracketReason::UnknownModifier)
    }
}

/// How AM or PM is written, with one more modifier.
#[tactic(auto, unfolding(crate::specs::Names::period_modified))]
fn period_modified(
    m: modifier::Period,
    key: &[u8],
    value: &[u8],
) -> Result<modifier::Period, BracketReason>
    ensures { result ≡ period_modified m key.now value.now }
{
    if is_name(key, b"case") {
        let Some(is_uppercase) = case_named(value) else {
            return Err(BracketReason::InvalidValue);
        };
        Ok(modifier::Period { is_uppercase, ..m })
    } else if is_name(key, b"case_sensitive") {
        let Some(case_sensitive) = bool_named(value) else {
            return Err(BracketReason::InvalidValue);
        };
        Ok(modifier::Period {
            case_sensitive,
            ..m
        })
    } else {
        Err(BracketReason::UnknownModifier)
    }
}

/// How the decimals of the second are written, with one more modifier.
#[tactic(auto, unfolding(crate::specs::Names::subsecond_modified))]
fn subsecond_modified(
    m: modifier::Subsecond,
    key: &[u8],
    value: &[u8],
) -> Result<modifier::Subsecond, BracketReason>
    ensures { result ≡ subsecond_modified m key.now value.now }
{
    if is_name(key, b"digits") {
        let Some(digits) = digits_named(value) else {
            return Err(BracketReason::InvalidValue);
        };
        Ok(modifier::Subsecond { digits })
    } else {
        Err(BracketReason::UnknownModifier)
    }
}

/// How the hour of the offset is written, with one more modifier.
#[tactic(auto, unfolding(crate::specs::Names::offset_hour_modified))]
fn offset_hour_modified(
    m: modifier::OffsetHour,
    key: &[u8],
    value: &[u8],
) -> Result<modifier::OffsetHour, BracketReason>
    ensures { result ≡ offset_hour_modified m key.now value.now }
{
    if is_name(key, b"padding") {
        let Some(padding) = padding_named(value) else {
            return Err(BracketReason::InvalidValue);
        };
        Ok(modifier::OffsetHour { padding, ..m })
    } else if is_name(key, b"sign") {
        let Some(sign_is_mandatory) = sign_named(value) else {
            return Err(BracketReason::InvalidValue);
        };
        Ok(modifier::OffsetHour {
            sign_is_mandatory,
            ..m
        })
    } else {
        Err(BracketReason::UnknownModifier)
    }
}

/// How the count of seconds is written, with one more modifier.
#[tactic(auto, unfolding(crate::specs::Names::unix_timestamp_modified))]
fn unix_timestamp_modified(
    m: modifier::UnixTimestamp,
    key: &[u8],
    value: &[u8],
) -> Result<modifier::UnixTimestamp, BracketReason>
    ensures { result ≡ unix_timestamp_modified m key.now value.now }
{
    if is_name(key, b"precision") {
        let Some(precision) = precision_named(value) else {
            return Err(BracketReason::InvalidValue);
        };
        Ok(modifier::UnixTimestamp { precision, ..m })
    } else if is_name(key, b"sign") {
        let Some(sign_is_mandatory) = sign_named(value) else {
            return Err(BracketReason::InvalidValue);
        };
        Ok(modifier::UnixTimestamp {
            sign_is_mandatory,
            ..m
        })
    } else {
        Err(BracketReason::UnknownModifier)
    }
}

/// Applies one `key:value` to an `ignore`.
#[tactic(auto, unfolding(crate::specs::Names::ignore_modified))]
fn ignore_modified(
    m: modifier::Ignore,
    key: &[u8],
    value: &[u8],
) -> Result<modifier::Ignore, BracketReason>
    ensures { result ≡ ignore_modified m key.now value.now }
{
    if is_name(key, b"count") {
        let Some(count) = count_named(value) else {
            return Err(BracketReason::InvalidValue);
        };
        Ok(modifier::Ignore { count })
    } else {
        Err(BracketReason::UnknownModifier)
    }
}

/// Applies one `key:value` to an `end`.
#[tactic(auto, unfolding(crate::specs::Names::end_modified))]
fn end_modified(m: modifier::End, key: &[u8], value: &[u8]) -> Result<modifier::End, BracketReason>
    ensures { result ≡ end_modified m key.now value.now }
{
    if is_name(key, b"trailing_input") {
        let Some(trailing_input) = trailing_input_named(value) else {
            return Err(BracketReason::InvalidValue);
        };
        Ok(modifier::End { trailing_input })
    } else {
        Err(BracketReason::UnknownModifier)
    }
}

/// Returns the component with one more modifier, by its key and its value.
#[tactic(auto, unfolding(crate::specs::Names::modified))]
pub fn modified(component: Component, key: &[u8], value: &[u8]) -> Result<Component, BracketReason>
    ensures { result ≡ modified component key.now value.now }
{
    Ok(match component {
        Component::Year(m) => Component::Year(year_modified(m, key, value)?),
        Component::Month(m) => Component::Month(month_modified(m, key, value)?),
        Component::Day(_) => Component::Day(modifier::Day {
            padding: padding_modified(key, value)?,
        }),
        Component::Ordinal(_) => Component::Ordinal(modifier::Ordinal {
            padding: padding_modified(key, value)?,
        }),
        Component::Weekday(m) => Component::Weekday(weekday_modified(m, key, value)?),
        Component::WeekNumber(m) => Component::WeekNumber(week_number_modified(m, key, value)?),
        Component::Hour(m) => Component::Hour(hour_modified(m, key, value)?),
        Component::Minute(_) => Component::Minute(modifier::Minute {
            padding: padding_modified(key, value)?,
        }),
        Component::Period(m) => Component::Period(period_modified(m, key, value)?),
        Component::Second(_) => Component::Second(modifier::Second {
            padding: padding_modified(key, value)?,
        }),
        Component::Subsecond(m) => Component::Subsecond(subsecond_modified(m, key, value)?),
        Component::OffsetHour(m) => Component::OffsetHour(offset_hour_modified(m, key, value)?),
        Component::OffsetMinute(_) => Component::OffsetMinute(modifier::OffsetMinute {
            padding: padding_modified(key, value)?,
        }),
        Component::OffsetSecond(_) => Component::OffsetSecond(modifier::OffsetSecond {
            padding: padding_modified(key, value)?,
        }),
        Component::UnixTimestamp(m) => Component::UnixTimestamp(unix_timestamp_modified(
            m, key, value,
        )?),
        Component::Ignore(m) => Component::Ignore(ignore_modified(m, key, value)?),
        Component::End(m) => Component::End(end_modified(m, key, value)?),
        _ => return Err(BracketReason::UnknownModifier),
    })
}
