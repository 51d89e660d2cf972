//! ISO 8601-1:2019, by its default configuration and by any other.
ghost use Rattle.std.specs.Prelude.{◌≡◌, ◌≢◌, ◌<◌, ◌≤◌, IfErr, IfOk, IsFalse, IsTrue, Ok, length};
ghost use Rattle.movaliren_c.specs.Answer.{IsAnswer, IsRefusedFor, IsText, IsWritten, gives};
ghost use Rattle.movaliren_c.specs.Chosen.{HavePlaces, iso8601_by, separated};
ghost use Rattle.movaliren_c.specs.Utc.{local_value, utc_value};
ghost use Rattle.movaliren_c.specs.Value.{moment_value};
ghost use Rattle.time_below.specs.Facts.{date_facts};
ghost use Rattle.time_fmt.specs.Outcome.{done};
ghost use Rattle.time_known.specs.Config.{default_choices};
ghost use Rattle.time_known.specs.Iso8601.{iso8601_of, year_of_kind};
ghost use Rattle.time_known.specs.Iso8601Width.{iso8601_width};

mod config;

use crate::answers::reason::{Reason, answer_number};
use crate::answers::room::copy_text;
use crate::answers::writer::Writer;
use crate::formats::moment_text::{MomentFormat, answer_at, texts_of};
use crate::values::moment::Moment;
use crate::values::source::{AtOffset, ByParts, InUtc, Source};
use config::separated_config_at;
pub use config::{Iso8601Config, config_at};
use std::default::Default;
use std::marker::Brand;
use time_below::{OffsetDateTime, UtcOffset};
use time_digits::ru8;
use time_fmt::{OldBytes, SliceSink};
use time_known::fields::accepted_fields;
use time_known::iso8601::{
    Config, DateKind, DecimalSign, FormattedComponents, OffsetPrecision, SeparatedText,
    TimePrecision, Usual, put_parts,
};
use time_known::sink::{Text, put_at_start};
use time_provide::ranges::Year;
use time_provide::{ComponentProvider, DateState};

/// The most bytes of a text: 13 of the date, 265 of the time and 6 of the offset.
const MOST_BYTES: usize = 284;

/// The most bytes of a text of at most 35 decimals.
const SHORT_BYTES: usize = 64;

/// The format of ISO 8601 by its default configuration.
#[derive(Clone, Copy)]
struct Iso8601;

impl MomentFormat for Iso8601 {
    type Text = SeparatedText;

    ghost WIDTH = { 35 };

    const WIDTH: usize = 35;

    ghost outcome = { λ _. iso8601_of default_choices };

    fn text(self, value: &OffsetDateTime) -> Result<SeparatedText, Reason> {
        let usual = Usual {
            decimal_digits: ru8::new(9),
            decimal_sign: DecimalSign::Point,
        };
        separated_text(&usual, value)
    }
}

/// The text of the value by such choices with separators, or the reason why it has none.
fn separated_text(usual: &Usual, value: &OffsetDateTime) -> Result<SeparatedText, Reason>
    ensures chosen { IfOk result (λ t. t.usual ≡ usual.now) }
    ensures text { IfOk result (λ t. iso8601_of (separated usual.now) value.now
        ≡ done (⟦<SeparatedText as Text>⟧.text t)) }
    ensures refused { IfErr result (λ r. IsRefusedFor r
        (iso8601_of (separated usual.now) value.now)) }
{
    let fields = accepted_fields(0, 25, value, &mut DateState::default())?;
    let usual = *usual;
    Ok(SeparatedText { usual, fields })
}

/// The text of ISO 8601 by the default configuration.
#[unsafe(no_mangle)]
pub extern "C" fn movaliren_iso8601(moment: &Moment, buffer: &mut [u8]) -> isize
    ensures { IsAnswer (gives (moment_value moment.now) (iso8601_of default_choices))
        result buffer.old buffer.new }
{
    answer_number(texts_of(Iso8601, ByParts).write(moment, buffer))
}

/// The text of ISO 8601 of a moment in UTC, by the default configuration.
#[unsafe(no_mangle)]
pub extern "C" fn movaliren_iso8601_utc(seconds: i64, nanosecond: u32, buffer: &mut [u8]) -> isize
    ensures { IsAnswer (gives (utc_value seconds nanosecond) (iso8601_of default_choices))
        result buffer.old buffer.new }
{
    answer_at(&texts_of(Iso8601, InUtc), seconds, nanosecond, buffer)
}

/// The text of ISO 8601 of a moment by the default configuration, at an offset of this many seconds
/// east of UTC.
#[unsafe(no_mangle)]
pub extern "C" fn movaliren_iso8601_local(
    seconds: i64,
    nanosecond: u32,
    offset: i64,
    buffer: &mut [u8],
) -> isize
    ensures { IsAnswer (gives (local_value seconds nanosecond offset) (iso8601_of default_choices))
        result buffer.old buffer.new }
{
    let texts = texts_of(Iso8601, AtOffset(offset));
    answer_at(&texts, seconds, nanosecond, buffer)
}

/// The format of ISO 8601 by a configuration, over the moments of a source.
#[derive(Clone, Copy)]
struct Iso8601By<S> {
    config: Iso8601Config,
    source: S,
}

impl<S: Source> Writer for Iso8601By<S> {
    type Item = S::Item;

    ghost asked = { λ by item. iso8601_by by.config (S.given by.source item) };

    #[tactic(auto, unfolding(crate::specs::Chosen::iso8601_by))]
    fn write(&self, item: &S::Item, room: &mut [u8]) -> Result<usize, Reason> {
        match separated_config_at(&self.config) {
            Some(usual) if room.len() >= usual.width() => match self.source.value(item) {
                Ok(value) => self.put_usual(&usual, &value, room),
                Err(reason) => Err(reason),
            },
            _ => self.write_by(item, room),
        }
    }
}

/// The texts of ISO 8601 by this configuration, of the moments of this source.
fn iso8601_by<S: Source>(config: &Iso8601Config, source: S) -> Iso8601By<S>
    ensures { result ≡ record { config = config.now; source = source } }
{
    Iso8601By {
        config: *config,
        source,
    }
}

/// The text of ISO 8601 by a configuration, whose numbers are tested before the moment.
#[unsafe(no_mangle)]
pub extern "C" fn movaliren_iso8601_with(
    config: &Iso8601Config,
    moment: &Moment,
    buffer: &mut [u8],
) -> isize
    ensures { IsAnswer (iso8601_by config.now (moment_value moment.now))
        result buffer.old buffer.new }
{
    answer_number(iso8601_by(config, ByParts).write(moment, buffer))
}

/// The text of ISO 8601 of a moment in UTC by a configuration, whose numbers are tested before the
/// moment.
#[unsafe(no_mangle)]
pub extern "C" fn movaliren_iso8601_with_utc(
    config: &Iso8601Config,
    seconds: i64,
    nanosecond: u32,
    buffer: &mut [u8],
) -> isize
    ensures { IsAnswer (iso8601_by config.now (utc_value seconds nanosecond))
        result buffer.old buffer.new }
{
    answer_at(&iso8601_by(config, InUtc), seconds, nanosecond, buffer)
}

/// The text of ISO 8601 of a moment by a configuration, whose numbers are tested before the moment,
/// at an offset of this many seconds east of UTC.
#[unsafe(no_mangle)]
pub extern "C" fn movaliren_iso8601_with_local(
    config: &Iso8601Config,
    seconds: i64,
    nanosecond: u32,
    offset: i64,
    buffer: &mut [u8],
) -> isize
    ensures { IsAnswer (iso8601_by config.now (local_value seconds nanosecond offset))
        result buffer.old buffer.new }
{
    let texts = iso8601_by(config, AtOffset(offset));
    answer_at(&texts, seconds, nanosecond, buffer)
}

impl<S: Source> Iso8601By<S> {
    /// Puts the text of the value by such choices with separators at the start of the buffer.
    fn put_usual(
        &self,
        usual: &Usual,
        value: &OffsetDateTime,
        room: &mut [u8],
    ) -> Result<usize, Reason>
        requires room { iso8601_width (separated usual.now) ≤ length room.old }
        ensures { IsWritten result (iso8601_of (separated usual.now) value.now)
            room.old room.new }
    {
        Ok(put_at_start(&separated_text(usual, value)?, room))
    }

    /// Writes the text of the item by any configuration to the start of the buffer.
    #[inline(never)]
    #[tactic(auto, unfolding(crate::specs::Chosen::iso8601_by))]
    fn write_by(&self, item: &S::Item, room: &mut [u8]) -> Result<usize, Reason>
        ensures { IsText (iso8601_by self.now.config (S.given self.now.source item.now))
            result room.old room.new }
    {
        let config = config_at(&self.config)?;
        write_parts(&config, &self.source.value(item)?, room)
    }
}

/// Writes the text of the value to the start of the buffer: at once where it surely fits and is not
/// refused, and else by an array.
#[inline(always)]
fn write_parts(config: &Config, value: &OffsetDateTime, room: &mut [u8]) -> Result<usize, Reason>
    ensures { IsWritten result (iso8601_of config.now value.now) room.old room.new }
{
    if config.formats_nothing() {
        return Err(Reason::Insufficient);
    }
    let mut state = DateState::default();
    let year = shown_year(config, value, &mut state);
    let is_whole = have_places(config.offset_precision(), year, value.offset());
    if is_whole && fits(config, room.len()) {
        return put_at_once::<Brand>(config, value, &mut state, room);
    }
    write_by_array(config, value, room)
}

/// Whether each text of a configuration fits in so many bytes. Where most callers have room, the
/// maximum length is not computed.
fn fits(config: &Config, room: usize) -> bool
    ensures fit { IsTrue result → iso8601_width config.now ≤ room }
    ensures longer { IsFalse result → room < iso8601_width config.now }
{
    room >= SHORT_BYTES && is_short(config) || room >= config.width()
}

/// Whether a configuration has at most 35 decimals, so that none of its texts has more than
/// `SHORT_BYTES`.
fn is_short(config: &Config) -> bool
    ensures { IsTrue result → iso8601_width config.now ≤ SHORT_BYTES }
{
    match config.time_precision() {
        TimePrecision::Hour { decimal_digits }
        | TimePrecision::Minute { decimal_digits }
        | TimePrecision::Second { decimal_digits } => match decimal_digits {
            Some(digits) => digits.get() <= 35,
            None => true,
        },
    }
}

/// Whether a year and an offset have a place in a text: four digits hold the year, and the offset
/// has no seconds, and minutes only where they are written.
fn have_places(precision: OffsetPrecision, year: Year, offset: UtcOffset) -> bool
    ensures there { IsTrue result → HavePlaces precision year offset }
    ensures none { IsFalse result → ¬ HavePlaces precision year offset }
{
    if year.get() < 0 || year.get() > 9_999 {
        return false;
    }
    let (_, minutes, seconds) = offset.as_hms();
    match precision {
        OffsetPrecision::Minute => seconds == 0,
        OffsetPrecision::Hour => minutes == 0 && seconds == 0,
    }
}

/// The year that a date by the configuration shows.
fn shown_year(config: &Config, value: &OffsetDateTime, state: &mut DateState) -> Year
    requires agrees { ⟦<OffsetDateTime as ComponentProvider>⟧.agrees state.old value.now }
    ensures year { result ≡ year_of_kind config.now.date_kind (date_facts value.now.date) }
    ensures agrees { ⟦<OffsetDateTime as ComponentProvider>⟧.agrees state.new value.now }
{
    match config.date_kind() {
        DateKind::Week => value.iso_year(state),
        DateKind::Calendar | DateKind::Ordinal => value.calendar_year(state),
    }
}

/// Writes the text of the value to an array first, part by part, since one may be refused after
/// others.
fn write_by_array(config: &Config, value: &OffsetDateTime, room: &mut [u8]) -> Result<usize, Reason>
    requires some { config.now.formatted_components ≢ FormattedComponents.None }
    ensures { IsWritten result (iso8601_of config.now value.now) room.old room.new }
{
    let mut line = [0u8; MOST_BYTES];
    let _width = config.width();
    match put_at_once::<Brand>(config, value, &mut DateState::default(), &mut line) {
        Ok(count) => copy_text(&line[..count], room),
        Err(reason) => Err(reason),
    }
}

/// Puts the parts at the start of a buffer that holds them, up to what is refused.
fn put_at_once<B: OldBytes>(
    config: &Config,
    value: &OffsetDateTime,
    state: &mut DateState,
    room: &mut [u8],
) -> Result<usize, Reason>
    requires before { room.old ≡ B.before }
    requires agrees { ⟦<OffsetDateTime as ComponentProvider>⟧.agrees state.old value.now }
    requires some { config.now.formatted_components ≢ FormattedComponents.None }
    requires room { iso8601_width config.now ≤ length room.old }
    ensures text { IfOk result (λ n. IsWritten (Ok n) (iso8601_of config.now value.now)
        room.old room.new) }
    ensures fits { IfOk result (λ n. n ≤ length room.old) }
    ensures refused { IfErr result (λ r. IsRefusedFor r (iso8601_of config.now value.now)) }
    ensures len { length room.new ≡ length room.old }
{
    let mut sink = SliceSink::<B>::new(room);
    put_parts(&mut sink, config, value, state)?;
    Ok(sink.len())
}
