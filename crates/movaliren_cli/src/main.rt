//! Makes the times in the lines of logs readable.
//!
//! `movaliren now` puts before each line the moment at which it was read. `movaliren unix` replaces
//! the first number of each line that is Unix time, or each, by its text. `movaliren read` does so
//! with the first text of RFC 3339 or of a description.
#![tactic(auto)]

mod arguments;
mod clock;
mod description;
mod hints;
mod offset;
mod place;
mod reading;
mod reason;
mod say;
mod sources;
mod streams;
mod window;
mod zone;

use arguments::{Asked, Clock, Job, Task};
use clock::FoundClock;
use description::NamedFormat;
use line_streams::FilterError;
use memchr::memmem::Finder;
use place::{InZone, LocalIn};
use reading::Plans;
use say::{fail, refuse};
use std::alloc::AllocError;
use std::env;
use std::process::ExitCode;
use time_below::Timestamp;
use time_fmt::Formattable;
use time_fmt::parts::UNIX_TIMESTAMP;
use time_jiff::ZoneClock;
use time_known::{ImfFixdate, Iso8601, Rfc2822};
use time_lines::{
    Described, Descriptions, FirstOf, FormRow, InPlace, InUtc, NowJob, Numbers, Passed, ReadJob,
    Reads, Rfc3339Texts, Shows, UnixJob, Years,
};

/// Puts before each line what is shown of the moment at which it was read.
fn run_now<S: Shows + Drop>(rt: &HostRuntime, task: &Task, shown: S) -> ExitCode {
    let mut job = NowJob {
        clock: rt,
        shown,
        stamp: Vec::new(rt.alloc()),
        passed: Passed::new(),
    };
    sources::run(rt, task, &mut job)
}

/// Replaces the first number of each line that is Unix time, or each.
fn run_unix<S: Shows + Drop>(
    rt: &HostRuntime,
    task: &Task,
    numbers: Numbers,
    shown: S,
) -> ExitCode {
    let window = match (numbers.unit, window::read(task.years)) {
        (Some(_), _) => None,
        (None, Some(window)) => Some(window),
        (None, None) => {
            return refuse(
                rt,
                "'--years' takes a first and a last year, such as 1970..9999",
            );
        }
    };
    let after = match task.after {
        Some(text) => Some(Finder::new(text.as_bytes())),
        None => None,
    };
    let mut job = UnixJob {
        shown,
        numbers: Numbers { window, ..numbers },
        after,
        passed: Passed::new(),
    };
    sources::run(rt, task, &mut job)
}

/// Replaces the first text of each line that a reader reads.
fn run_reader<S: Shows + Drop, R: Reads + Drop>(
    rt: &HostRuntime,
    task: &Task,
    shown: S,
    reader: R,
) -> ExitCode {
    let mut job = ReadJob {
        shown,
        reader,
        passed: Passed::new(),
        example: Vec::new(rt.alloc()),
    };
    sources::run(rt, task, &mut job)
}

/// Why a zone is refused for texts that show their offset.
const OFFSET_IS_SHOWN: &str = "'--from-zone' is for texts without an offset";

/// Why a year is refused for texts that show theirs.
const YEAR_IS_SHOWN: &str = "'--year' is for texts without a year";

/// Replaces the first text of each line that one of the forms has, where years are these, in the
/// zone that is asked for.
fn run_forms<S: Shows + Drop>(
    rt: &HostRuntime,
    task: &Task,
    shown: S,
    forms: Vec<FormRow<'_>>,
    years: Years,
) -> ExitCode {
    let is_local = reading::are_local(forms.as_slice());
    if task.texts.has_own_clock && !is_local {
        return refuse(rt, OFFSET_IS_SHOWN);
    }
    if task.texts.year.is_some() && !reading::are_yearless(forms.as_slice()) {
        return refuse(rt, YEAR_IS_SHOWN);
    }
    let clock = if is_local {
        task.texts.clock
    } else {
        Clock::Utc
    };
    let found = match clock::find(rt, clock) {
        Ok(found) => found,
        Err(status) => return status,
    };
    let described = Described::new(forms, years, LocalIn(found.as_time_zone()));
    if task.texts.from == reading::USUAL {
        run_reader(rt, task, shown, FirstOf(Rfc3339Texts, described))
    } else {
        run_reader(rt, task, shown, described)
    }
}

/// Replaces the first text of each line that is read.
fn run_read<S: Shows + Drop>(rt: &HostRuntime, task: &Task, shown: S) -> ExitCode {
    let alloc = rt.alloc();
    let Ok(now) = Timestamp::now(rt) else {
        return fail(rt, Err(FilterError::Job));
    };
    let years = match task.texts.year {
        Some(year) => Years::One(year),
        None => Years::before_day_after(now),
    };
    let plans = match Plans::of(alloc, task.texts.from) {
        Ok(plans) => plans,
        Err(refused) => return say::refuse_texts(rt, task.texts.from, refused),
    };
    match plans.forms(alloc, now.date()) {
        Ok(forms) => run_forms(rt, task, shown, forms, years),
        Err(refused) => say::refuse_texts(rt, task.texts.from, refused),
    }
}

/// Whether what is shown can stand in a string of JSON, by the text of one moment: what a
/// description shows beside its numbers and names is the same in all its texts.
fn is_for_json<S: Shows>(rt: &HostRuntime, shown: &mut S) -> Result<bool, AllocError> {
    let mut text = Vec::new(rt.alloc());
    shown.append(&mut text, &Timestamp::UNIX_EPOCH, 0)?;
    Ok(description::is_json_text(text.as_slice()))
}

/// Does what is asked for, with what is shown of moments.
fn run<S: Shows + Drop>(rt: &HostRuntime, task: &Task, mut shown: S) -> ExitCode {
    if task.is_json {
        match is_for_json(rt, &mut shown) {
            Ok(true) => {}
            Ok(false) => {
                return refuse(
                    rt,
                    "'--json' takes no description with a quote, a backslash \
                     or a control character",
                );
            }
            Err(_) => return fail(rt, Err(FilterError::Memory)),
        }
    }
    match task.job {
        Job::Now => run_now(rt, task, shown),
        Job::Unix(numbers) => run_unix(rt, task, numbers, shown),
        Job::Read => run_read(rt, task, shown),
    }
}

/// Runs by descriptions, at the clock that is asked for.
fn run_by<F: Formattable + Drop>(
    rt: &HostRuntime,
    asked: &Asked,
    descriptions: Descriptions<F>,
) -> ExitCode {
    match clock::find(rt, asked.clock) {
        Ok(FoundClock::Utc) => run(rt, &asked.task, InUtc { descriptions }),
        Ok(FoundClock::Zone(zone)) => {
            let place = InZone(ZoneClock::new(zone.as_time_zone()));
            run(
                rt,
                &asked.task,
                InPlace {
                    descriptions,
                    place,
                },
            )
        }
        Err(status) => status,
    }
}

/// One description, which has its own decimals, so that no others are asked for.
fn only<F: Formattable + Drop>(
    rt: &HostRuntime,
    asked: &Asked,
    description: F,
) -> Result<Descriptions<F>, ExitCode> {
    match asked.decimals {
        Some(_) => Err(refuse(rt, "'--decimals' is for rfc3339, iso8601 and stamp")),
        None => Ok(Descriptions::one(rt.alloc(), description)),
    }
}

/// Runs by one description, at the clock that is asked for.
fn run_one<F: Formattable + Drop>(rt: &HostRuntime, asked: &Asked, description: F) -> ExitCode {
    match only(rt, asked, description) {
        Ok(descriptions) => run_by(rt, asked, descriptions),
        Err(status) => status,
    }
}

/// Runs by one description in UTC, whatever the clock.
fn run_in_utc<F: Formattable + Drop>(rt: &HostRuntime, asked: &Asked, description: F) -> ExitCode {
    match only(rt, asked, description) {
        Ok(descriptions) => run(rt, &asked.task, InUtc { descriptions }),
        Err(status) => status,
    }
}

/// Whether the clock is at an offset that RFC 3339 does not have, which ends at 23:59.
fn is_past_rfc3339(clock: Clock<'_>) -> bool {
    let Clock::Offset(text) = clock else {
        return false;
    };
    match offset::read(text) {
        Some(offset) => {
            let (hours, _, _) = offset.as_hms();
            hours < -23 || hours > 23
        }
        None => false,
    }
}

/// Runs by ISO 8601 with the decimals that are asked for, or else as many as the times had, which
/// is RFC 3339.
fn run_rfc3339(rt: &HostRuntime, asked: &Asked) -> ExitCode {
    let alloc = rt.alloc();
    if is_past_rfc3339(asked.clock) {
        return refuse(rt, "RFC 3339 has no offset past 23:59");
    }
    let descriptions = match asked.decimals {
        Some(decimals) => Ok(Descriptions::one(alloc, time_lines::with_decimals(decimals))),
        None => Descriptions::as_read(alloc),
    };
    match descriptions {
        Ok(descriptions) => run_by(rt, asked, descriptions),
        Err(_) => fail(rt, Err(FilterError::Memory)),
    }
}

/// The description of ISO 8601, which has nine decimals unless others are asked for.
fn iso8601(rt: &HostRuntime, asked: &Asked) -> Descriptions<Iso8601> {
    let decimals = asked.decimals.unwrap_or(9);
    Descriptions::one(rt.alloc(), time_lines::with_decimals(decimals))
}

/// Runs by the description that a text is.
fn run_text(rt: &HostRuntime, asked: &Asked) -> ExitCode {
    if asked.description.starts_with("+%") {
        return refuse(
            rt,
            "a description has no + before it, as that of `date` has",
        );
    }
    match description::plan_of(rt.alloc(), asked.description) {
        Ok(plan) => run_one(rt, asked, plan),
        Err(refusal) => say::refuse_description(rt, asked.description, refusal),
    }
}

/// Runs by the description that is asked for.
fn run_described(rt: &HostRuntime, asked: &Asked) -> ExitCode {
    match NamedFormat::of_name(asked.description) {
        Some(NamedFormat::Rfc3339) => run_rfc3339(rt, asked),
        Some(NamedFormat::Rfc2822) => run_one(rt, asked, Rfc2822),
        Some(NamedFormat::ImfFixdate) => run_in_utc(rt, asked, ImfFixdate),
        Some(NamedFormat::Iso8601) => run_by(rt, asked, iso8601(rt, asked)),
        Some(NamedFormat::Stamp) => {
            let descriptions = iso8601(rt, asked);
            run(rt, &asked.task, InUtc { descriptions })
        }
        Some(NamedFormat::Unix) => run_in_utc(rt, asked, UNIX_TIMESTAMP),
        None => run_text(rt, asked),
    }
}

/// Reads the words of the command line, and does what they ask for.
fn run_words(rt: &HostRuntime, words: &[String]) -> ExitCode {
    match arguments::read(rt.alloc(), words) {
        Ok(Some(asked)) => run_described(rt, &asked),
        Ok(None) => refuse(rt, "no job is given"),
        Err(error) => say::print_usage(rt, error),
    }
}

fn main(rt: HostRuntime) -> ExitCode {
    let alloc = rt.alloc();
    let arguments = match env::args(&rt) {
        Ok(arguments) => arguments,
        Err(error) => return say::refuse_arguments(&rt, error.kind()),
    };
    let words: Vec<String> = match arguments.collect(alloc) {
        Ok(words) => words,
        Err(_) => return fail(&rt, Err(FilterError::Memory)),
    };
    run_words(&rt, words.as_slice())
}
