//! Values of the kit's `jiff` as values of Movaliren, and back: the same moments, offsets, dates
//! and times.
#![tactic(auto)]

mod clock;
mod local;

ghost use Rattle.std.specs.Prelude.{◌≡◌, ◌↔◌, ◌<◌, pos, neg_ℤ, ◌+ℤ◌, ◌*ℤ◌, IsOk, IfErr, IfOk};
ghost use Rattle.jiff.specs.ZonedView.{plain_zoned, zoned_date, zoned_nanos, zoned_time};
ghost use Rattle.jiff_core.specs.Calendar.{IsBetween, IsYear};
ghost use Rattle.time_below.specs.Calendar.{month_of, day_of, IsDate};
ghost use Rattle.jiff_core.specs.Timestamp.{IsTimestampNanos, IsOffsetSeconds};
ghost use Rattle.time_below.specs.Moment.{nanoseconds as nanoseconds_of, IsMoment};
ghost use Rattle.time_below.specs.Offset.{offset_of_seconds, offset_seconds};
ghost use Rattle.time_below.specs.TimeOfDay.{IsTimeOfDay};
ghost use Rattle.time_jiff.specs.Same.{IsInFixedZone, local_nanoseconds, same_date, same_time};

pub use clock::ZoneClock;
use jiff_core::Error;
use jiff_core::error::Bound;
pub use local::{LocalOffset, NowLocal};
use time_below::{Date, Month, OffsetDateTime, PlainDateTime, Time, UtcOffset};

/// The second in which the moment lies, and its nanoseconds from there on.
fn parts(moment: jiff::Timestamp) -> (i64, u32)
    ensures second { IsBetween (neg_ℤ (pos 377_705_023_201)) (pos 253_402_207_200) result.0 }
    ensures nanosecond { result.1 < 1_000_000_000 }
    ensures whole { pos 1_000_000_000 *ℤ result.0 +ℤ pos result.1 ≡ moment.nanosecond }
{
    let plain = moment.to_plain();
    let second = plain.floor_second();
    let rest = plain.nanosecond - 1_000_000_000 * second as i128;
    (second, rest as u32)
}

/// Returns the moment.
pub fn timestamp(moment: jiff::Timestamp) -> time_below::Timestamp
    ensures value { nanoseconds_of result ≡ moment.nanosecond }
    ensures second { IsBetween (neg_ℤ (pos 377_705_023_201)) (pos 253_402_207_200) result.seconds }
    ensures real { IsMoment result }
{
    let (second, nanosecond) = parts(moment);
    match time_below::Timestamp::new(second, nanosecond) {
        Ok(same) => same,
        Err(_) => unreachable!(),
    }
}

/// The moment of so many nanoseconds since 1970, if `jiff` has it.
fn jiff_instant(nanoseconds: i128) -> Result<jiff::Timestamp, Error>
    ensures succeeds { IsOk result ↔ IsTimestampNanos nanoseconds }
    ensures value { IfOk result (λ t. t.nanosecond ≡ nanoseconds) }
    ensures error { IfErr result (λ e. e ≡ Error.Range Bound.UnixEpochSeconds) }
{
    match jiff_core::Timestamp::from_nanosecond(nanoseconds) {
        Ok(same) => Ok(jiff::Timestamp::from_plain(same)),
        Err(error) => Err(error),
    }
}

/// Returns the moment, if `jiff` has it: from -9999-01-02T01:59:59Z to
/// 9999-12-30T22:00:00.999999999Z. Any other is refused by its Unix seconds.
pub fn jiff_timestamp(moment: time_below::Timestamp) -> Result<jiff::Timestamp, Error>
    ensures succeeds { IsOk result ↔ IsTimestampNanos (nanoseconds_of moment) }
    ensures value { IfOk result (λ t. t.nanosecond ≡ nanoseconds_of moment) }
    ensures error { IfErr result (λ e. e ≡ Error.Range Bound.UnixEpochSeconds) }
{
    jiff_instant(nanoseconds(moment))
}

/// The nanoseconds since 1970.
fn nanoseconds(moment: time_below::Timestamp) -> i128
    ensures { result ≡ nanoseconds_of moment }
{
    let (second, nanosecond) = moment.as_parts();
    1_000_000_000 * second as i128 + nanosecond as i128
}

/// Returns the offset.
pub fn offset(offset: jiff::tz::Offset) -> UtcOffset
    ensures parts { result ≡ offset_of_seconds offset.seconds }
    ensures value { offset_seconds result ≡ offset.seconds }
    ensures range { IsOffsetSeconds offset.seconds }
{
    match UtcOffset::from_whole_seconds(offset.to_plain().seconds) {
        Ok(same) => same,
        Err(_) => unreachable!(),
    }
}

/// Returns the local date and time at the offset that the zone has at the moment.
pub fn offset_date_time(zoned: &jiff::Zoned<'_>) -> OffsetDateTime
    ensures moment { local_nanoseconds result ≡ zoned_nanos zoned.now }
    ensures offset { offset_seconds result.offset ≡ (plain_zoned zoned.now).offset.seconds }
    ensures date { result.date ≡ same_date (zoned_date zoned.now) }
    ensures time { result.time ≡ same_time (zoned_time zoned.now) }
{
    match timestamp(zoned.timestamp()).checked_to_offset(offset(zoned.offset())) {
        Some(shown) => shown,
        None => unreachable!(),
    }
}

/// Returns the time of day.
pub fn time(time: jiff::civil::Time) -> Time
    ensures { result ≡ same_time time }
{
    let plain = time.to_plain();
    Time::from_valid_hms_nano(
        plain.hour,
        plain.minute,
        plain.second,
        plain.subsec_nanosecond,
    )
}

/// Returns the date.
pub fn date(date: jiff::civil::Date) -> Date
    ensures { result ≡ same_date date }
{
    let plain = date.to_plain();
    let month = Month::from_number(plain.month);
    Date::from_valid_calendar_date(plain.year as i32, month, plain.day)
}

/// Returns the offset for `jiff`.
pub fn jiff_offset(offset: UtcOffset) -> jiff::tz::Offset
    ensures { result.seconds ≡ offset_seconds offset }
{
    match jiff::tz::Offset::from_seconds(offset.whole_seconds()) {
        Ok(same) => same,
        Err(_) => unreachable!(),
    }
}

/// Returns the time of day for `jiff`.
pub fn jiff_time(time: Time) -> jiff::civil::Time
    ensures { same_time result ≡ time }
{
    let (hour, minute, second, nanosecond) = time.as_hms_nano();
    let same = jiff::civil::Time::new(hour as i8, minute as i8, second as i8, nanosecond as i32);
    match same {
        Ok(same) => same,
        Err(_) => unreachable!(),
    }
}

/// Returns the date for `jiff`, if it has the year: -9999 to 9999. Any other is refused by its
/// year.
pub fn jiff_date(date: Date) -> Result<jiff::civil::Date, Error>
    ensures succeeds { IsOk result ↔ IsYear date.year }
    ensures value { IfOk result (λ d. (d.year ≡ date.year) × (d.month ≡ month_of date)
        × (d.day ≡ day_of date)) }
    ensures error { IfErr result (λ e. e ≡ Error.Range Bound.Year) }
{
    let refused = Error::Range(Bound::Year);
    let (year, month, day) = date.to_calendar_date();
    let Ok(year) = i16::try_from(year) else {
        return Err(refused);
    };
    match jiff::civil::Date::new(year, u8::from(month) as i8, day as i8) {
        Ok(same) => Ok(same),
        // The month and the day are real.
        Err(_) => Err(refused),
    }
}

/// Returns the date and the time of day for `jiff`, if it has the year: -9999 to 9999. Others are
/// refused by their year.
pub fn jiff_date_time(shown: PlainDateTime) -> Result<jiff::civil::DateTime, Error>
    ensures succeeds { IsOk result ↔ IsYear shown.date.year }
    ensures time { IfOk result (λ t. same_time t.time ≡ shown.time) }
    ensures date { IfOk result (λ t. (t.date.year ≡ shown.date.year)
        × (t.date.month ≡ month_of shown.date)
        × (t.date.day ≡ day_of shown.date)) }
    ensures error { IfErr result (λ e. e ≡ Error.Range Bound.Year) }
{
    match jiff_date(shown.date()) {
        Ok(date) => Ok(jiff::civil::DateTime::from_parts(date, jiff_time(shown.time()))),
        Err(error) => Err(error),
    }
}

/// Returns the date and the time of day.
pub fn plain_date_time(shown: jiff::civil::DateTime) -> PlainDateTime
    ensures { result ≡ record { date = same_date shown.date; time = same_time shown.time; offset = tt } }
{
    PlainDateTime::new(date(shown.date()), time(shown.time()))
}

/// The nanoseconds since 1970 of a moment whose date and time are real.
fn nanoseconds_at(moment: OffsetDateTime) -> i128
    ensures value { result ≡ local_nanoseconds moment }
    ensures date { IsDate moment.date }
    ensures time { IsTimeOfDay moment.time }
{
    // A getter of the date says that the date is real.
    let _ = moment.date().year();
    let (_, _, _, nanosecond) = moment.time().as_hms_nano();
    1_000_000_000 * moment.unix_timestamp() as i128 + nanosecond as i128
}

/// The instant of the moment in the zone that always has its offset.
fn in_fixed_zone(instant: jiff::Timestamp, moment: OffsetDateTime) -> jiff::Zoned<'static>
    requires instant { instant.nanosecond ≡ local_nanoseconds moment }
    requires date { IsDate moment.date }
    requires time { IsTimeOfDay moment.time }
    ensures moment { zoned_nanos result ≡ local_nanoseconds moment }
    ensures offset { (plain_zoned result).offset.seconds ≡ offset_seconds moment.offset }
    ensures date { same_date (zoned_date result) ≡ moment.date }
    ensures time { same_time (zoned_time result) ≡ moment.time }
    ensures zone { IsInFixedZone result (offset_seconds moment.offset) }
{
    instant.to_zoned(jiff::tz::TimeZone::fixed(jiff_offset(moment.offset())))
}

/// Returns the moment in the zone that always has its offset, if `jiff` has the moment: from
/// -9999-01-02T01:59:59Z to 9999-12-30T22:00:00.999999999Z. Any other is refused by its Unix
/// seconds.
pub fn jiff_zoned(moment: OffsetDateTime) -> Result<jiff::Zoned<'static>, Error>
    ensures succeeds { IsOk result ↔ IsTimestampNanos (local_nanoseconds moment) }
    ensures moment { IfOk result (λ z. zoned_nanos z ≡ local_nanoseconds moment) }
    ensures offset { IfOk result (λ z.
        (plain_zoned z).offset.seconds ≡ offset_seconds moment.offset) }
    ensures date { IfOk result (λ z. same_date (zoned_date z) ≡ moment.date) }
    ensures time { IfOk result (λ z. same_time (zoned_time z) ≡ moment.time) }
    ensures zone { IfOk result (λ z. IsInFixedZone z (offset_seconds moment.offset)) }
    ensures error { IfErr result (λ e. e ≡ Error.Range Bound.UnixEpochSeconds) }
{
    match jiff_instant(nanoseconds_at(moment)) {
        Ok(instant) => Ok(in_fixed_zone(instant, moment)),
        Err(error) => Err(error),
    }
}
