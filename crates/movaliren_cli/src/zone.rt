//! The zone of one file, with no look at the others.
use jiff_core::{Error, Offset};
use jiff_tz::posix::TimeZone as PosixTimeZone;
use jiff_tz::{SystemTimeZone, TimeZone, Tzif};
use std::env::VarError;
use std::io::{ErrorKind, Read};
use std::rt::{Env, Files};
use std::{env, fs};
use time_below::UtcOffset;

/// The longest file that is read as a zone.
const MAX_FILE_BYTES: u64 = 1 << 20;

/// The places where systems keep their zones.
const DIRECTORIES: [&str; 3] = [
    "/usr/share/zoneinfo",
    "/usr/share/lib/zoneinfo",
    "/etc/zoneinfo",
];

/// Whether this is a name below a directory of zones: parts of letters, digits, `+`, `-` and `_`.
fn is_name(name: &str) -> bool {
    !name.is_empty()
        && !name.starts_with('/')
        && name.as_bytes().iter().all(|b| b.is_ascii_alphanumeric()
            || *b == b'+'
            || *b == b'-'
            || *b == b'_'
            || *b == b'/')
}

/// The bytes of a file, if they are no more than those of a zone.
fn read_bytes<R: Files + AllocGlobal>(rt: &R, path: &str) -> Result<Vec<u8>, Error> {
    if !fs::metadata(rt, path)?.is_file() {
        return Err(Error::Io(ErrorKind::InvalidInput));
    }
    let mut file = fs::open(rt, path)?.take(MAX_FILE_BYTES + 1);
    let mut bytes = Vec::new(rt.alloc());
    file.read_to_end(&mut bytes)?;
    if bytes.len() as u64 > MAX_FILE_BYTES {
        return Err(Error::Io(ErrorKind::FileTooLarge));
    }
    Ok(bytes)
}

/// Reads the zone of this name from a directory.
fn read_file<R: Files + AllocGlobal>(rt: &R, directory: &str, name: &str) -> Result<Tzif, Error> {
    let path = format!(in rt.alloc(); "{directory}/{name}")?;
    let bytes = read_bytes(rt, path.as_str())?;
    Tzif::parse(rt.alloc(), Some(name), bytes.as_slice())
}

/// Whether no file is there, so that the next place is looked at.
fn is_absent(fault: &Error) -> bool {
    matches!(
        fault,
        Error::Io(ErrorKind::NotFound | ErrorKind::NotADirectory | ErrorKind::InvalidInput)
    )
}

/// Reads the zone of this name from the directory that `TZDIR` names, or else from the usual ones.
/// A file that is there and cannot be read is a fault.
fn read_named<R: Files + Env + AllocGlobal>(rt: &R, name: &str) -> Result<Tzif, Error> {
    if !is_name(name) {
        return Err(Error::TimeZoneNotFound);
    }
    match env::var(rt, "TZDIR") {
        Ok(directory) => match read_file(rt, directory.as_str(), name) {
            Err(fault) if is_absent(&fault) => {}
            read => return read,
        },
        Err(VarError::OutOfMemory) => return Err(Error::OutOfMemory),
        Err(_) => {}
    }
    read_usual(rt, name)
}

/// Reads the zone of this name from the first of the usual directories that has it.
fn read_usual<R: Files + AllocGlobal>(rt: &R, name: &str) -> Result<Tzif, Error> {
    for directory in &DIRECTORIES {
        match read_file(rt, directory, name) {
            Err(fault) if is_absent(&fault) => {}
            read => return read,
        }
    }
    Err(Error::TimeZoneNotFound)
}

/// A zone that was read.
#[derive(Drop)]
pub enum Zone {
    Utc,
    /// One offset at every moment.
    Fixed(Offset),
    /// By the table of a file.
    Table(Tzif),
    /// By a rule such as `CET-1CEST,M3.5.0,M10.5.0/3`.
    Rule(PosixTimeZone),
}

impl Zone {
    /// The zone that has this offset at every moment.
    pub fn at_offset(offset: UtcOffset) -> Zone {
        Zone::Fixed(time_jiff::jiff_offset(offset).to_plain())
    }

    /// The zone, as moments ask it for their offsets.
    pub fn as_time_zone(&self) -> TimeZone<'_> {
        match self {
            Zone::Utc => TimeZone::UTC,
            Zone::Fixed(offset) => TimeZone::Fixed(*offset),
            Zone::Table(table) => TimeZone::Tzif(table),
            Zone::Rule(rule) => TimeZone::Posix(*rule),
        }
    }
}

/// Reads the zone of this name.
pub fn read_zone<R: Files + Env + AllocGlobal>(rt: &R, name: &str) -> Result<Zone, Error> {
    match read_named(rt, name) {
        Ok(table) => Ok(Zone::Table(table)),
        Err(fault) => Err(fault),
    }
}

/// The zone of a file, if there is one, and else that of a name.
fn read_file_or_name<R: Files + Env + AllocGlobal>(
    rt: &R,
    file: Option<Tzif>,
    name: &str,
) -> Result<Zone, Error> {
    match file {
        Some(table) => Ok(Zone::Table(table)),
        None => read_zone(rt, name),
    }
}

/// Reads the zone that the system means: by a file of its own, if it has one, and else by its name.
fn read_meant<R: Files + Env + AllocGlobal>(rt: &R, system: SystemTimeZone) -> Result<Zone, Error> {
    match system {
        SystemTimeZone::Utc => Ok(Zone::Utc),
        SystemTimeZone::Name { name, file, .. } => read_file_or_name(rt, file, name.as_str()),
        SystemTimeZone::Posix(rule) => Ok(Zone::Rule(rule)),
        SystemTimeZone::Tzif(table) => Ok(Zone::Table(table)),
    }
}

/// Whether the system names no zone.
fn has_no_zone<R: Files + Env + AllocGlobal>(rt: &R) -> bool {
    let is_set = !matches!(env::var(rt, "TZ"), Err(VarError::NotPresent));
    !is_set
        && matches!(fs::metadata(rt, "/etc/localtime"), Err(fault) if fault.kind() == ErrorKind::NotFound)
}

/// Reads the zone of the system, which is UTC where it names none.
pub fn read_system<R: Files + Env + AllocGlobal>(rt: &R) -> Result<Zone, Error> {
    if has_no_zone(rt) {
        return Ok(Zone::Utc);
    }
    match SystemTimeZone::read(rt) {
        Ok(system) => read_meant(rt, system),
        Err(fault) => Err(fault),
    }
}
