//! A job over files, one after another.
use crate::arguments::Task;
use crate::description;
use crate::say::{self, say_passed};
use crate::streams::{Source, Streams};
use line_streams::{FilterError, LineJob};
use std::io::{self, ErrorKind};
use std::process::ExitCode;
use std::time::Clock;
use time_lines::{NowJob, Passed, ReadJob, Reads, Shows, UnixJob};

/// A job that counts lines that passed as they were.
pub trait CountingJob: LineJob {
    fn passed(&mut self) -> &mut Passed;

    /// The beginning of the first such line, or of what follows its time.
    fn example(&self) -> &[u8];
}

impl<C: Clock, S: Shows + Drop> CountingJob for NowJob<'_, C, S> {
    fn passed(&mut self) -> &mut Passed {
        &mut self.passed
    }

    fn example(&self) -> &[u8] {
        &[]
    }
}

impl<S: Shows + Drop> CountingJob for UnixJob<'_, S> {
    fn passed(&mut self) -> &mut Passed {
        &mut self.passed
    }

    fn example(&self) -> &[u8] {
        &[]
    }
}

impl<S: Shows + Drop, R: Reads + Drop> CountingJob for ReadJob<S, R> {
    fn passed(&mut self) -> &mut Passed {
        &mut self.passed
    }

    fn example(&self) -> &[u8] {
        self.example.as_slice()
    }
}

/// What a run over files has come to.
#[derive(Clone, Copy)]
struct Progress {
    /// A file could not be read.
    has_unread: bool,
    /// Which file has the first line that passed as it was.
    first: Option<usize>,
}

/// Does the job for each line of an open source. Says whether all of it was read.
fn run_source<J: CountingJob>(
    rt: &HostRuntime,
    task: &Task,
    job: &mut J,
    streams: &mut Streams,
    name: &str,
) -> Result<bool, FilterError> {
    job.passed().lines = 0;
    match line_streams::run(rt.alloc(), job, task.longest, streams) {
        Ok(()) => Ok(true),
        Err(FilterError::Read) => {
            if let Some(fault) = &streams.fault {
                say::say_unread(rt, name, fault);
            }
            Ok(false)
        }
        Err(other) => Err(other),
    }
}

/// Says why a file was not opened. Its name may be one of a description that was meant.
fn say_unopened(rt: &HostRuntime, name: &str, may_be_name: bool, fault: &io::Error) {
    let is_absent = fault.kind() == ErrorKind::NotFound;
    if is_absent && description::is_description(name) {
        say::say_late(rt, name);
    } else if is_absent && may_be_name {
        say::say_unknown(rt, name);
    } else {
        say::say_unread(rt, name, fault);
    }
}

/// Does the job for each line of a file, where one that cannot be opened is said. Says whether all
/// of it was read.
fn run_file<J: CountingJob>(
    rt: &HostRuntime,
    task: &Task,
    job: &mut J,
    streams: &mut Streams,
    name: &str,
    may_be_name: bool,
) -> Result<bool, FilterError> {
    match Source::open(rt, name) {
        Ok(source) => {
            streams.go_on(source);
            run_source(rt, task, job, streams, name)
        }
        Err(fault) => {
            if fault.kind() == ErrorKind::OutOfMemory {
                return Err(FilterError::Memory);
            }
            say_unopened(rt, name, may_be_name, &fault);
            Ok(false)
        }
    }
}

/// Does the job for each line of the files, in order. One that cannot be read is said, and the
/// others are read.
fn run_each<J: CountingJob>(
    rt: &HostRuntime,
    task: &Task,
    job: &mut J,
    streams: &mut Streams,
    progress: &mut Progress,
) -> Result<(), FilterError> {
    let names = task.files.as_slice();
    for at in 0..names.len() {
        let had_first = job.passed().first.is_some();
        let may_be_name = at == 0 && task.has_no_description;
        let is_read = run_file(rt, task, job, streams, names[at], may_be_name)?;
        if !is_read {
            progress.has_unread = true;
        }
        if !had_first && job.passed().first.is_some() {
            progress.first = Some(at);
        }
    }
    Ok(())
}

/// Does the job for each line of standard input, and says at the end how many lines passed as they
/// were.
fn run_standard<J: CountingJob>(rt: &HostRuntime, task: &Task, job: &mut J) -> ExitCode {
    let mut streams = Streams::new(rt);
    match run_source(rt, task, job, &mut streams, "-") {
        Ok(true) => {
            if !task.is_quiet {
                say_passed(rt, *job.passed(), task.texts.from, job.example(), None);
            }
            ExitCode::SUCCESS
        }
        Ok(false) => say::unread(),
        Err(fault) => say::fail_of(rt, fault, &streams.fault),
    }
}

/// The same for each line of the files that are asked for.
fn run_files<J: CountingJob>(rt: &HostRuntime, task: &Task, job: &mut J) -> ExitCode {
    let mut streams = Streams::new(rt);
    let mut progress = Progress {
        has_unread: false,
        first: None,
    };
    if let Err(fault) = run_each(rt, task, job, &mut streams, &mut progress) {
        return say::fail_of(rt, fault, &streams.fault);
    }
    if !task.is_quiet {
        let name = match progress.first {
            Some(at) => task.files.get(at).copied(),
            None => None,
        };
        say_passed(rt, *job.passed(), task.texts.from, job.example(), name);
    }
    if progress.has_unread {
        say::unread()
    } else {
        ExitCode::SUCCESS
    }
}

/// Does the job for each line of the files that are asked for, or of standard input.
pub fn run<J: CountingJob>(rt: &HostRuntime, task: &Task, job: &mut J) -> ExitCode {
    if task.files.is_empty() {
        run_standard(rt, task, job)
    } else {
        run_files(rt, task, job)
    }
}
