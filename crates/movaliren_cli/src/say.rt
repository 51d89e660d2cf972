//! What is said on standard error, and the status with which the program ends.
use crate::description::Refusal;
use crate::reading::NotReadBy;
use crate::reason::Reason;
use clap::Error as UsageError;
use clap::error::ErrorKind;
use jiff_core::Error as ZoneError;
use line_streams::FilterError;
use std::fmt::{Display, Formatter, Write};
use std::process::ExitCode;
use std::{env, fmt, io};
use time_lines::{NoForm, Passed};
use time_plan::{InvalidDescription, InvalidStrftime};
use time_read::NoReader;

/// The status of a failure.
const FAILURE: u8 = 1;

/// The status of a usage error.
const USAGE: u8 = 2;

/// Prints a line on standard error. Where that is closed, nobody reads it.
fn say(rt: &HostRuntime, text: &str) {
    let _ = eprintln!(rt; "movaliren: {text}");
}

/// Says why nothing was done.
pub fn refuse(rt: &HostRuntime, text: &str) -> ExitCode {
    say(rt, text);
    ExitCode::from(USAGE)
}

/// Says why the words of the command line were not read.
pub fn refuse_arguments(rt: &HostRuntime, kind: io::ErrorKind) -> ExitCode {
    match kind {
        io::ErrorKind::OutOfMemory => fail(rt, Err(FilterError::Memory)),
        _ => refuse(rt, "an argument is not UTF-8"),
    }
}

/// Says why a run ended before the end of its input, and gives the status. A closed pipe is an end
/// like another, since its reader wants no more.
pub fn fail(rt: &HostRuntime, outcome: Result<(), FilterError>) -> ExitCode {
    let text = match outcome {
        Ok(()) => return ExitCode::SUCCESS,
        Err(FilterError::Closed) => return ExitCode::SUCCESS,
        Err(FilterError::Read) => "standard input cannot be read",
        Err(FilterError::Write) => "standard output cannot be written",
        Err(FilterError::Memory) => "out of memory",
        Err(FilterError::Job) => "the clock cannot be read",
    };
    say(rt, text);
    ExitCode::from(FAILURE)
}

/// The same where it is known why a write failed.
pub fn fail_of(rt: &HostRuntime, outcome: FilterError, fault: &Option<io::Error>) -> ExitCode {
    match (outcome, fault) {
        (FilterError::Write, Some(fault)) => {
            let _ = eprintln!(rt; "movaliren: standard output cannot be written: {fault}");
            ExitCode::from(FAILURE)
        }
        (other, _) => fail(rt, Err(other)),
    }
}

/// Says that a word is neither a file nor a description.
pub fn say_unknown(rt: &HostRuntime, name: &str) {
    let _ = eprintln!(rt; "movaliren: {name}: no such file, and no description of that name");
}

/// Says that a description stands behind a file.
pub fn say_late(rt: &HostRuntime, name: &str) {
    let _ = eprintln!(rt; "movaliren: {name}: no such file; a description stands before the files");
}

/// Says that a file cannot be read, or standard input, whose name is `-`.
pub fn say_unread(rt: &HostRuntime, name: &str, fault: &io::Error) {
    if name == "-" {
        say(rt, "standard input cannot be read");
    } else {
        let _ = eprintln!(rt; "movaliren: {name}: {fault}");
    }
}

/// The status of a run of which a file could not be read.
pub fn unread() -> ExitCode {
    ExitCode::from(FAILURE)
}

/// Says how many lines passed as they were, if any did, and why the first of them did, which is one
/// of the file of this name, where the texts of this description are read.
pub fn say_passed(
    rt: &HostRuntime,
    passed: Passed,
    from: &str,
    example: &[u8],
    file: Option<&str>,
) {
    let Some(first) = passed.first else {
        return;
    };
    let why = Reason::of(rt.alloc(), first.why, from, example);
    let (line, count) = (first.line, passed.count);
    let (of, name) = match file {
        Some(name) => (" of ", name),
        None => ("", ""),
    };
    let _ = if count == 1 {
        eprintln!(rt; "movaliren: 1 line passed as it was, line {line}{of}{name}: {why}")
    } else {
        eprintln!(rt;
            "movaliren: {count} lines passed as they were, \
             the first of them line {line}{of}{name}: {why}"
        )
    };
}

/// Prints help, the version or a usage error.
pub fn print_usage(rt: &HostRuntime, error: UsageError) -> ExitCode {
    if matches!(error.kind(), ErrorKind::OutOfMemory) {
        return fail(rt, Err(FilterError::Memory));
    }
    let status = if error.use_stderr() { USAGE } else { 0 };
    match error.print(rt) {
        Ok(()) => ExitCode::from(status),
        Err(fault) => fail_of(rt, FilterError::Write, &Some(fault)),
    }
}

/// Says why a zone is not shown: that of a name, or that of the system, which has none.
pub fn refuse_zone(rt: &HostRuntime, name: Option<&str>, fault: ZoneError) -> ExitCode {
    let _ = match (fault, name) {
        (ZoneError::OutOfMemory, _) => return fail(rt, Err(FilterError::Memory)),
        (ZoneError::TimeZoneNotFound, Some(name)) => {
            eprintln!(rt; "movaliren: no time zone has the name '{name}'")
        }
        (ZoneError::TimeZoneNotFound, None) => match env::var(rt, "TZ") {
            Ok(value) => {
                eprintln!(rt; "movaliren: the variable TZ names no time zone: '{value}'")
            }
            Err(_) => eprintln!(rt; "movaliren: /etc/localtime names no time zone"),
        },
        (other, Some(name)) => {
            eprintln!(rt; "movaliren: the time zone '{name}' cannot be read: {other}")
        }
        (other, None) => {
            eprintln!(rt; "movaliren: the time zone of the system cannot be read: {other}")
        }
    };
    ExitCode::from(USAGE)
}

/// A text whose control characters are shown as spaces.
#[derive(Drop)]
struct OneLine<'a>(&'a str);

impl Display for OneLine<'_> {
    fn fmt<W: Write>(&self, f: &mut Formatter<W>) -> fmt::Result {
        for letter in self.0.chars() {
            f.write_char(if letter.is_control() { ' ' } else { letter })?;
        }
        Ok(())
    }
}

/// What is meant by the conversion of `strftime` in other languages that stands here.
fn meant_by(text: &str, index: usize) -> &'static str {
    match text.as_bytes().get(index) {
        Some(b'f' | b'L' | b'.' | b'0'..=b'9') => "; decimals are %3N, %6N and %9N",
        Some(b'Z') => "; the offset is %z or %:z",
        _ => "",
    }
}

/// Says why a description is wrong, and shows it with its position marked.
fn show_mark(rt: &HostRuntime, text: &str, reason: impl Display + Drop, index: usize) -> ExitCode {
    let place = text
        .char_indices()
        .take_while(|(at, _)| *at < index)
        .count();
    let shown = OneLine(text);
    let _ = eprintln!(rt; "movaliren: {reason}:\n  {shown}\n  {:>place$}^", "");
    ExitCode::from(USAGE)
}

/// Says why a text is no description, and marks the position.
pub fn refuse_description(rt: &HostRuntime, text: &str, refusal: Refusal) -> ExitCode {
    match refusal {
        Refusal::Name => {
            let _ = eprintln!(rt;
                "movaliren: no format has the name '{text}': \
                 there are rfc3339, rfc2822, http, iso8601, stamp and unix, and texts with % or ["
            );
            ExitCode::from(USAGE)
        }
        Refusal::Brackets(InvalidDescription::Invalid { reason, index }) => {
            show_mark(rt, text, reason, index)
        }
        Refusal::Strftime(InvalidStrftime::Invalid { reason, index }) => {
            let meant = meant_by(text, index);
            show_mark(rt, text, format_args!("{reason}{meant}"), index)
        }
        _ => fail(rt, Err(FilterError::Memory)),
    }
}

/// Why the texts of a description have no moments.
fn form_reason(refused: NoForm) -> &'static str {
    match refused {
        NoForm::NoDay => "its texts do not show the day",
        NoForm::NoTime => "its texts do not show the whole time of day",
        NoForm::NoYear => "its texts show no year, and more than the month, the day and the time",
        NoForm::NoReader(NoReader::Ambiguous(_)) => {
            "a number of no certain width stands before other digits"
        }
        NoForm::NoReader(_) => "its texts do not show a moment",
    }
}

/// Says why texts of a description are not read, and marks the place where it is wrong.
pub fn refuse_texts(rt: &HostRuntime, text: &str, refused: NotReadBy) -> ExitCode {
    match refused {
        NotReadBy::Memory => fail(rt, Err(FilterError::Memory)),
        NotReadBy::Refusal(Refusal::Name) => {
            let _ = eprintln!(rt;
                "movaliren: no texts have the name '{text}': \
                 there are rfc3339, clf, syslog, log4j, rfc2822 and iso8601, and texts with % or ["
            );
            ExitCode::from(USAGE)
        }
        NotReadBy::Refusal(other) => refuse_description(rt, text, other),
        NotReadBy::Form(refused) => {
            let reason = form_reason(refused);
            let _ = eprintln!(rt; "movaliren: '{text}' is not read: {reason}");
            ExitCode::from(USAGE)
        }
    }
}
