//! What the words of the command line ask for.
use crate::{description, reading};
use clap::builder::ValueParser;
use clap::{Arg, ArgAction, ArgMatches, Command, Error};
use std::alloc::{AllocError, Global};
use time_lines::{Numbers, Unit};

/// Where the clock stands whose times are shown.
#[derive(Clone, Copy)]
pub enum Clock<'a> {
    Utc,
    /// At an offset such as `+05:30`.
    Offset(&'a str),
    /// In a zone of the Time Zone Database.
    Zone(&'a str),
    /// In the zone of the system.
    Local,
}

/// What is done with each line.
#[derive(Clone, Copy)]
pub enum Job {
    /// The moment at which it was read is put before it.
    Now,
    /// Its first number that is Unix time, or each, is replaced.
    Unix(Numbers),
    /// Its first text that is read is replaced.
    Read,
}

/// The texts that are read.
#[derive(Clone, Copy)]
pub struct Texts<'a> {
    /// Their description, or its name.
    pub from: &'a str,
    /// Where the clock stands of which they are, if they show no offset.
    pub clock: Clock<'a>,
    /// The clock is asked for by a name of its own.
    pub has_own_clock: bool,
    /// Their year, if they show none.
    pub year: Option<i32>,
}

/// What is done with the lines of a run.
#[derive(Drop)]
pub struct Task<'a> {
    pub job: Job,
    /// The years of which a number is that has its unit by its digits, if they are given.
    pub years: Option<&'a str>,
    /// The text after which Unix time is looked for.
    pub after: Option<&'a str>,
    /// The texts that are read.
    pub texts: Texts<'a>,
    /// Lines are JSON, and stay so.
    pub is_json: bool,
    /// A line of more bytes passes as it is.
    pub longest: usize,
    /// Nothing is said of lines that passed as they were.
    pub is_quiet: bool,
    /// The files that are read, where `-` is standard input. With none that is read.
    pub files: Vec<&'a str>,
    /// The first file may be a description that was meant, since no description is given.
    pub has_no_description: bool,
}

/// What is asked for.
#[derive(Drop)]
pub struct Asked<'a> {
    pub task: Task<'a>,
    pub description: &'a str,
    /// How many decimals of a second are shown, if that is asked for.
    pub decimals: Option<u8>,
    pub clock: Clock<'a>,
}

/// The digits that a number has at least, where nothing else is asked for: in seconds, those of
/// 2001 and later.
const LEAST_DIGITS: usize = 10;

/// How many bytes a line has at most, where nothing else is asked for: 64 MiB.
const LONGEST: usize = 64 << 20;

/// The description, where nothing else is asked for.
const USUAL: &str = "rfc3339";

/// The descriptions of all jobs, and more texts behind them.
macro_rules! descriptions {
    ($($more:literal),*) => {
        concat!(
            "\
Descriptions:
  rfc3339        2023-11-14T22:13:20.123Z, the default
  rfc2822        Tue, 14 Nov 2023 22:13:20 +0000
  http           Tue, 14 Nov 2023 22:13:20 GMT, always in UTC
  iso8601        2023-11-14T22:13:20.123000000Z
  stamp          the same, always in UTC: sorts as the moments do
  unix           1700000000, always seconds since 1970
  a text with %  as of strftime: '%Y-%m-%d %H:%M:%S'
  a text with [  '[year]-[month]-[day] [hour]:[minute]'"
            $(, $more)*
        )
    };
}

/// The same, for a job that reads files.
macro_rules! descriptions_and_files {
    ($($more:literal),*) => {
        descriptions!(
            "

Any other word is a file, as is each word behind the first one; - is standard input."
            $(, $more)*
        )
    };
}

const NOW_DESCRIPTIONS: &str = descriptions!();

const DESCRIPTIONS: &str = descriptions_and_files!();

const READ_DESCRIPTIONS: &str = descriptions_and_files!(
    "

Texts that --from reads:
  rfc3339        2023-11-14T22:13:20.123Z, of any number of decimals, also with a space for T
                 or with +hhmm or +hh, and then of none, 3, 6 or 9 decimals; the default
  clf            14/Nov/2023:22:13:20 +0000, of nginx and Apache
  syslog         Nov 14 22:13:20
  log4j          2023-11-14 22:13:20,123, also of Python's logging
  rfc2822        Tue, 14 Nov 2023 22:13:20 +0000, of mail
  iso8601        2023-11-14T22:13:20,123+0000, also without an offset, of none, 3, 6
                 or 9 decimals
  a text with % or [, in which times stand as that text writes them

A time without an offset is that of --from-zone, or else of the clock that is named to be
shown, or else of the system's zone. One that its clocks skip is read by the offset before
the change, and of one that they show twice the first is taken. A line whose time goes on
with decimals or an offset that the description does not have passes as it is.
A time without a year is of the latest year in which it is at most a day after now."
);

const EXAMPLES: &str = "\
Examples:
  some-server | movaliren now --local
  movaliren unix --zone Europe/Berlin audit.log
  movaliren unix --json --after '\"ts\":' '%F %T' app.json
  docker logs -t web | movaliren read --local %T
  movaliren read --from clf --local access.log";

/// What follows the name of an option.
struct Takes {
    action: ArgAction,
    /// The name of the text in the help, if one follows.
    names: &'static [&'static str],
    /// The text may begin with a hyphen, since it may have a sign.
    is_signed: bool,
    parser: ValueParser<'static>,
}

/// Nothing: it is given or not.
const NOTHING: Takes = Takes {
    action: ArgAction::SetTrue,
    names: &[],
    is_signed: false,
    parser: ValueParser::Bool,
};

const OFFSET_TEXT: Takes = Takes {
    action: ArgAction::Set,
    names: &["OFFSET"],
    is_signed: true,
    parser: ValueParser::String,
};

const NAME_TEXT: Takes = Takes {
    action: ArgAction::Set,
    names: &["NAME"],
    is_signed: false,
    parser: ValueParser::String,
};

const AFTER_TEXT: Takes = Takes {
    action: ArgAction::Set,
    names: &["TEXT"],
    is_signed: true,
    parser: ValueParser::String,
};

/// The number of digits of a number.
const DIGIT_COUNT: Takes = Takes {
    action: ArgAction::Set,
    names: &["N"],
    is_signed: false,
    parser: ValueParser::Signed(1, 19),
};

/// How many bytes a line has at most.
const BYTE_COUNT: Takes = Takes {
    action: ArgAction::Set,
    names: &["BYTES"],
    is_signed: false,
    parser: ValueParser::Unsigned(1, u64::MAX),
};

/// A year of four digits.
const YEAR_NUMBER: Takes = Takes {
    action: ArgAction::Set,
    names: &["N"],
    is_signed: false,
    parser: ValueParser::Signed(1_000, 9_999),
};

/// The first and the last of some years.
const YEARS_TEXT: Takes = Takes {
    action: ArgAction::Set,
    names: &["YEARS"],
    is_signed: true,
    parser: ValueParser::String,
};

/// How many decimals of a second there are.
const DECIMAL_COUNT: Takes = Takes {
    action: ArgAction::Set,
    names: &["N"],
    is_signed: false,
    parser: ValueParser::Signed(0, 9),
};

const DESCRIPTION_TEXT: Takes = Takes {
    action: ArgAction::Set,
    names: &["DESCRIPTION"],
    is_signed: false,
    parser: ValueParser::String,
};

/// An option of the command line.
struct OptionRow {
    name: &'static str,
    letter: Option<char>,
    /// The group of which at most one option is given, if it is in one.
    groups: &'static [&'static str],
    takes: Takes,
    help: &'static str,
}

const UTC: OptionRow = OptionRow {
    name: "utc",
    letter: Some('u'),
    groups: &["clock"],
    takes: NOTHING,
    help: "Shows UTC, which is the default",
};

const OFFSET: OptionRow = OptionRow {
    name: "offset",
    letter: None,
    groups: &["clock"],
    takes: OFFSET_TEXT,
    help: "Shows the time at an offset such as +05:30",
};

const ZONE: OptionRow = OptionRow {
    name: "zone",
    letter: Some('z'),
    groups: &["clock"],
    takes: NAME_TEXT,
    help: "Shows the time in a zone such as Europe/Berlin",
};

const LOCAL: OptionRow = OptionRow {
    name: "local",
    letter: Some('l'),
    groups: &["clock"],
    takes: NOTHING,
    help: "Shows the time in the zone of the system, or that TZ gives: a name, with a colon before \
        it or without, or a rule such as EST5EDT",
};

const DECIMALS: OptionRow = OptionRow {
    name: "decimals",
    letter: None,
    groups: &[],
    takes: DECIMAL_COUNT,
    help: "How many decimals of a second rfc3339, iso8601 and stamp have [default: of rfc3339 as \
        many as the time had]",
};

const NOW_DECIMALS: OptionRow = OptionRow {
    help: "How many decimals of a second rfc3339, iso8601 and stamp have [default: of rfc3339 3]",
    ..DECIMALS
};

const YEARS: OptionRow = OptionRow {
    name: "years",
    letter: None,
    groups: &["unit"],
    takes: YEARS_TEXT,
    help: "The first and the last year of which a number is, as 1970..9999 [default: 1990..2060]",
};

const AFTER: OptionRow = OptionRow {
    name: "after",
    letter: Some('a'),
    groups: &[],
    takes: AFTER_TEXT,
    help: "Looks for Unix time behind the first such text of a line, as '\"ts\":'",
};

const ALL: OptionRow = OptionRow {
    name: "all",
    letter: None,
    groups: &[],
    takes: NOTHING,
    help: "Replaces each Unix time of a line, and not the first alone",
};

const JSON: OptionRow = OptionRow {
    name: "json",
    letter: Some('j'),
    groups: &[],
    takes: NOTHING,
    help: "Puts the text in quotes where the number is a value of JSON",
};

const READ_JSON: OptionRow = OptionRow {
    help: "Refuses a description whose text would end a string of JSON",
    ..JSON
};

const DIGITS: OptionRow = OptionRow {
    name: "digits",
    letter: Some('d'),
    groups: &[],
    takes: DIGIT_COUNT,
    help: "How many digits a number has at least [default: 10]",
};

const SECONDS: OptionRow = OptionRow {
    name: "seconds",
    letter: None,
    groups: &["unit"],
    takes: NOTHING,
    help: "Numbers are seconds, however many digits they have",
};

const MILLISECONDS: OptionRow = OptionRow {
    name: "milliseconds",
    letter: None,
    groups: &["unit"],
    takes: NOTHING,
    help: "Numbers are milliseconds",
};

const MICROSECONDS: OptionRow = OptionRow {
    name: "microseconds",
    letter: None,
    groups: &["unit"],
    takes: NOTHING,
    help: "Numbers are microseconds",
};

const NANOSECONDS: OptionRow = OptionRow {
    name: "nanoseconds",
    letter: None,
    groups: &["unit"],
    takes: NOTHING,
    help: "Numbers are nanoseconds",
};

const LONGEST_LINE: OptionRow = OptionRow {
    name: "longest",
    letter: None,
    groups: &[],
    takes: BYTE_COUNT,
    help: "A line of more bytes passes as it is, and is not kept in memory [default: 67108864]",
};

const QUIET: OptionRow = OptionRow {
    name: "quiet",
    letter: Some('q'),
    groups: &[],
    takes: NOTHING,
    help: "Does not print how many lines passed as they were",
};

const FROM: OptionRow = OptionRow {
    name: "from",
    letter: Some('f'),
    groups: &[],
    takes: DESCRIPTION_TEXT,
    help: "Reads the texts of a description: rfc3339 (the default), clf, syslog, log4j, rfc2822, \
        iso8601, or a text with % or [",
};

const FROM_ZONE: OptionRow = OptionRow {
    name: "from-zone",
    letter: None,
    groups: &[],
    takes: NAME_TEXT,
    help: "The zone of texts without an offset, as UTC or Europe/Berlin [default: the one that is \
        named to be shown, or else that of the system]",
};

const YEAR: OptionRow = OptionRow {
    name: "year",
    letter: None,
    groups: &[],
    takes: YEAR_NUMBER,
    help: "The year of texts without one [default: the latest in which the time is at most a day \
        after now]",
};

/// A job, what it does, and its options.
struct JobRow {
    name: &'static str,
    about: &'static str,
    options: &'static [&'static OptionRow],
    /// It reads files.
    takes_files: bool,
    descriptions: &'static str,
}

const JOBS: &[JobRow] = &[
    JobRow {
        name: "now",
        about: "Puts the time at which it was read before each line",
        options: &[
            &UTC,
            &OFFSET,
            &ZONE,
            &LOCAL,
            &NOW_DECIMALS,
            &LONGEST_LINE,
            &QUIET,
        ],
        takes_files: false,
        descriptions: NOW_DESCRIPTIONS,
    },
    JobRow {
        name: "unix",
        about: "Replaces the first Unix time of each line by its text. By its digits before the \
            point a number is seconds (10, or 9 with --digits 9), milliseconds (12 or 13), \
            microseconds (15 or 16) or nanoseconds (18 or 19), of the years 1990 to 2060",
        options: &[
            &UTC,
            &OFFSET,
            &ZONE,
            &LOCAL,
            &DECIMALS,
            &AFTER,
            &ALL,
            &JSON,
            &DIGITS,
            &YEARS,
            &SECONDS,
            &MILLISECONDS,
            &MICROSECONDS,
            &NANOSECONDS,
            &LONGEST_LINE,
            &QUIET,
        ],
        takes_files: true,
        descriptions: DESCRIPTIONS,
    },
    JobRow {
        name: "read",
        about: "Replaces the first text of each line that is a time, by default one of RFC 3339 \
            such as 2023-11-14T22:13:20Z or 2023-11-14 22:13:20+00:00",
        options: &[
            &UTC,
            &OFFSET,
            &ZONE,
            &LOCAL,
            &DECIMALS,
            &FROM,
            &FROM_ZONE,
            &YEAR,
            &READ_JSON,
            &LONGEST_LINE,
            &QUIET,
        ],
        takes_files: true,
        descriptions: READ_DESCRIPTIONS,
    },
];

/// The option of a row.
fn option<'a>(alloc: Global, row: &OptionRow) -> Result<Arg<'a>, AllocError> {
    let option = Arg::new(alloc, row.name)
        .help(row.help)
        .long(row.name)
        .action(row.takes.action)
        .value_names(row.takes.names)
        .allow_hyphen_values(row.takes.is_signed)
        .value_parser(row.takes.parser);
    match row.letter {
        Some(letter) => option.short(letter).groups(row.groups),
        None => option.groups(row.groups),
    }
}

/// The description, which needs no name.
fn description<'a>(alloc: Global) -> Arg<'a> {
    Arg::new(alloc, "DESCRIPTION").help("What the text of a time looks like [default: rfc3339]")
}

/// The files, which need no name either.
fn files<'a>(alloc: Global) -> Arg<'a> {
    Arg::new(alloc, "FILE")
        .help(
            "Files that are read in order, - for standard input, which is read where there is none",
        )
        .num_args(..)
}

/// The command of a job, with its options.
fn subcommand<'a>(alloc: Global, job: &JobRow) -> Result<Command<'a>, AllocError> {
    let mut args = Vec::new(alloc);
    args.push(description(alloc))?;
    if job.takes_files {
        args.push(files(alloc))?;
    }
    for row in job.options {
        args.push(option(alloc, row)?)?;
    }
    Command::new(alloc, job.name)
        .about(job.about)
        .after_help(job.descriptions)
        .args(args)
}

fn command<'a>(alloc: Global) -> Result<Command<'a>, AllocError> {
    let mut below = Vec::new(alloc);
    for job in JOBS {
        below.push(subcommand(alloc, job)?)?;
    }
    Command::new(alloc, "movaliren")
        .version("0.1.0")
        .bin_name("movaliren")?
        .about("Makes the times of log lines readable, or puts the present time before each line")
        .after_help(EXAMPLES)
        .subcommand_required(true)
        .arg_required_else_help(true)
        .subcommands(below)
}

/// The clock that is named to be shown, if one is.
fn clock_of<'a>(matches: &ArgMatches<'a>) -> Option<Clock<'a>> {
    if matches.get_flag("local") {
        return Some(Clock::Local);
    }
    if matches.get_flag("utc") {
        return Some(Clock::Utc);
    }
    if let Some(name) = matches.get_str("zone") {
        return Some(Clock::Zone(name));
    }
    let text = matches.get_str("offset")?;
    Some(Clock::Offset(text))
}

/// The unit that is asked for, if one is.
fn unit_of(matches: &ArgMatches<'_>) -> Option<Unit> {
    if matches.get_flag("seconds") {
        Some(Unit::Seconds)
    } else if matches.get_flag("milliseconds") {
        Some(Unit::Milliseconds)
    } else if matches.get_flag("microseconds") {
        Some(Unit::Microseconds)
    } else if matches.get_flag("nanoseconds") {
        Some(Unit::Nanoseconds)
    } else {
        None
    }
}

fn least_of(matches: &ArgMatches<'_>) -> usize {
    match matches.get_one::<u8>("digits") {
        Some(least) => usize::from(least),
        None => LEAST_DIGITS,
    }
}

/// The job of this name, by its words.
fn job_of(name: &str, words: &ArgMatches<'_>) -> Job {
    match name {
        "now" => Job::Now,
        "read" => Job::Read,
        _ => Job::Unix(Numbers {
            unit: unit_of(words),
            least: least_of(words),
            window: None,
            is_all: words.get_flag("all"),
            is_json: words.get_flag("json"),
        }),
    }
}

/// The texts that are read. Where no zone is named for them, they are of the clock that is named to
/// be shown, or else of the system's zone.
fn texts_of<'a>(matches: &ArgMatches<'a>) -> Texts<'a> {
    let (clock, has_own_clock) = match matches.get_str("from-zone") {
        Some(name) => (Clock::Zone(name), true),
        None => (clock_of(matches).unwrap_or(Clock::Local), false),
    };
    Texts {
        from: matches.get_str("from").unwrap_or(reading::USUAL),
        clock,
        has_own_clock,
        year: matches.get_one::<i32>("year"),
    }
}

/// The description, if one is given, and the files of the words that need no name. Where a job takes files, the first
/// word is a description if it is the name of a format or has a bracket or a percent sign, and else
/// a file.
fn words_of<'a>(
    alloc: Global,
    name: &str,
    words: &ArgMatches<'a>,
) -> Result<(Option<&'a str>, Vec<&'a str>), AllocError> {
    let mut files = Vec::new(alloc);
    let mut description = None;
    if let Some(first) = words.get_str("DESCRIPTION") {
        if name == "now" || description::is_description(first) {
            description = Some(first);
        } else {
            files.push(first)?;
        }
    }
    if let Some(others) = words.get_strs("FILE") {
        for file in others {
            files.push(*file)?;
        }
    }
    Ok((description, files))
}

/// What a job of this name and its words ask for.
fn asked_of<'a>(
    alloc: Global,
    name: &str,
    words: &ArgMatches<'a>,
) -> Result<Asked<'a>, AllocError> {
    let (description, files) = words_of(alloc, name, words)?;
    Ok(Asked {
        task: Task {
            job: job_of(name, words),
            years: words.get_str("years"),
            after: words.get_str("after"),
            texts: texts_of(words),
            is_json: words.get_flag("json"),
            longest: words.get_one::<usize>("longest").unwrap_or(LONGEST),
            is_quiet: words.get_flag("quiet"),
            files,
            has_no_description: description.is_none(),
        },
        description: description.unwrap_or(USUAL),
        decimals: words.get_one::<u8>("decimals"),
        clock: clock_of(words).unwrap_or(Clock::Utc),
    })
}

/// Reads the words of the command line. There is nothing that they ask for where they name no job,
/// which the command refuses by itself.
pub fn read<'a>(alloc: Global, words: &'a [String]) -> Result<Option<Asked<'a>>, Error> {
    let matches = command(alloc)?.try_get_matches_from(words)?;
    match matches.subcommand() {
        Some((name, below)) => Ok(Some(asked_of(alloc, name, below)?)),
        None => Ok(None),
    }
}
