//! Named formats, the configurations that they hold, and the three parts of a text by themselves.
ghost use Rattle.std.specs.Prelude.{IsTrue};

use crate::asserted::{assert_debugs, assert_formats, assert_refusal, assert_same, assert_that};
use crate::values::{moment, wednesday};
use std::alloc::Global;
use std::default::Default;
use std::process::Abort;
use std::test::Fail;
use time_digits::ru8;
use time_fmt::{ComponentProvider, Format};
use time_known::iso8601::{format_date, format_offset, format_time};
use time_known::{
    Config, DateKind, DecimalSign, FormattedComponents as Parts, Iso8601, OffsetPrecision,
    TimePrecision,
};

/// The default configuration with these parts alone.
fn with_parts(parts: Parts) -> Config {
    Config::default().set_formatted_components(parts)
}

/// Compares the parts of a named format, and its text of the Wednesday.
fn assert_named(rt: &impl Abort, alloc: Global, format: Iso8601, parts: Parts, text: &str) {
    assert_same(rt, format.config(), with_parts(parts));
    assert_formats(rt, alloc, &format, &wednesday(rt), (text, text.len()));
}

/// Compares named formats, a row each.
macro_rules! named {
    ($rt:ident; $($name:ident $parts:ident $text:literal,)+) => {
        $(assert_named(&$rt, $rt.alloc(), Iso8601::$name(), Parts::$parts, $text);)+
    };
}

#[test]
fn each_named_format_has_its_parts(rt: HostRuntime) {
    named! { rt;
        date Date "1997-11-12",
        time Time "09:55:06.000000000",
        offset Offset "-06:00",
        date_time DateTime "1997-11-12T09:55:06.000000000",
        time_offset TimeOffset "09:55:06.000000000-06:00",
        date_time_offset DateTimeOffset "1997-11-12T09:55:06.000000000-06:00",
        default DateTimeOffset "1997-11-12T09:55:06.000000000-06:00",
    }
}

#[test]
fn the_configuration_for_parsers_and_the_default_have_their_seven_choices(rt: HostRuntime) {
    let nine = TimePrecision::Second {
        decimal_digits: ru8::new(9),
    };
    let default = Config::default()
        .set_formatted_components(Parts::DateTimeOffset)
        .set_use_separators(true)
        .set_year_is_six_digits(false)
        .set_date_kind(DateKind::Calendar)
        .set_time_precision(nine)
        .set_offset_precision(OffsetPrecision::Minute)
        .set_decimal_sign(DecimalSign::Point);
    assert_same(&rt, default, Config::default());
    let parsing = with_parts(Parts::None)
        .set_use_separators(false)
        .set_time_precision(TimePrecision::Hour {
            decimal_digits: None,
        })
        .set_offset_precision(OffsetPrecision::Hour);
    assert_same(&rt, Iso8601::parsing().config(), parsing);
    assert_that(
        &rt,
        default != parsing && Iso8601::new(default) == Iso8601::default(),
    );
    assert_that(&rt, default != default.set_decimal_sign(DecimalSign::Comma));
}

#[test]
fn a_format_shows_its_configuration(rt: HostRuntime) -> Result<(), Fail> {
    let alloc = rt.alloc();
    let config = Config::default().set_date_kind(DateKind::Week);
    let wanted = format!(in alloc; "Iso8601 {{ config: {config:?} }}")?;
    assert_debugs(&rt, alloc, &Iso8601::new(config), wanted.as_str());
    assert_that(&rt, wanted.contains("date_kind: Week"));
    Ok(())
}

/// Appends the parts, and proves the capacity for each by the maximum lengths of the configuration.
fn append_parts<V: ComponentProvider>(
    config: &Config,
    output: &mut Vec<u8>,
    value: &V,
) -> Result<(usize, usize, usize), Format>
where
    V::State: Drop,
    requires date { IsTrue V.SUPPLIES_DATE }
    requires time { IsTrue V.SUPPLIES_TIME }
    requires offset { IsTrue V.SUPPLIES_OFFSET }
{
    let mut state = V::State::default();
    let width = config.date_width() + config.time_width() + config.offset_width();
    if output.reserve(width).is_err() {
        return Err(Format::OutOfMemory);
    }
    let date = format_date(config, output, value, &mut state)?;
    let time = format_time(config, output, value, &mut state)?;
    let offset = format_offset(config, output, value, &mut state)?;
    Ok((date, time, offset))
}

#[test]
fn each_part_is_written_by_itself_also_where_it_is_not_formatted(rt: HostRuntime) {
    let config = with_parts(Parts::None).set_decimal_sign(DecimalSign::Comma);
    let mut output = Vec::new(rt.alloc());
    let counts = append_parts(&config, &mut output, &wednesday(&rt));
    assert_that(&rt, matches!(counts, Ok((10, 18, 6))));
    let text = b"1997-11-1209:55:06,000000000-06:00";
    assert_same(&rt, output.as_slice(), text.as_slice());
}

#[test]
fn a_part_is_refused_by_itself(rt: HostRuntime) {
    let value = moment(&rt, (10_000, 1, 1), (0, 0, 0, 0), (0, 0, 1));
    let mut output = Vec::new(rt.alloc());
    let refused = append_parts(&Config::default(), &mut output, &value);
    assert_refusal(&rt, rt.alloc(), &refused, "InvalidComponent(\"year\")");
    assert_same(&rt, output.len(), 0);
    let value = moment(&rt, (2000, 1, 1), (0, 0, 0, 0), (0, 0, 1));
    let refused = append_parts(&Config::default(), &mut output, &value);
    assert_refusal(
        &rt,
        rt.alloc(),
        &refused,
        "InvalidComponent(\"offset_second\")",
    );
    assert_same(&rt, output.len(), 29);
}
