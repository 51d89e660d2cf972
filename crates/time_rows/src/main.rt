//! Answers each line of standard input by one line: what a description writes of a value, or what
//! value a text is read as. Fields of a line have ` | ` between them. An empty line and one that
//! begins with `#` are printed as they are.
#![tactic(auto)]

mod description;
mod formatting;
mod reading;
mod value;

use anyhow::Context;
use formatting::{Room, answer};
use reading::read;
use std::alloc::Global;
use std::io;

/// The answer to a value or a text, a description, and what is done with both.
fn answer_line(alloc: Global, line: &str) -> anyhow::Result<String> {
    let (first, others) = line.split_once(" | ").context("no description")?;
    let (description, task) = others.split_once(" | ").unwrap_or((others, ""));
    match task.split_once(' ').unwrap_or((task, "")) {
        ("parse", name) => read(alloc, first, description, (name, false)),
        ("parse-leniently", name) => read(alloc, first, description, (name, true)),
        ("exact", _) => answer(alloc, first, description, Room::Exact).context("no value")?,
        (_, before) => {
            answer(alloc, first, description, Room::After(before)).context("no value")?
        }
    }
}

fn main(rt: HostRuntime) -> io::Result<()> {
    for line in rt.lines(rt.alloc()) {
        let line = line?;
        if line.is_empty() || line.as_str().starts_with('#') {
            println!(rt; "{line}")?;
            continue;
        }
        match answer_line(rt.alloc(), line.as_str()) {
            Ok(answer) => println!(rt; "{answer}")?,
            Err(error) => println!(rt; "{error}")?,
        }
    }
    Ok(())
}
