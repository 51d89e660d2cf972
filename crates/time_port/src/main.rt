//! Lines of a program that was written for the Rust crate `time`, in Rattle. The program prints each
//! text, and on the standard error a line with the time of now.
#![tactic(auto)]

use anyhow::Context;
use time::OffsetDateTime;
use time::format_description::Plan;
use time::format_description::well_known::iso8601::{Config, TimePrecision, ru8};
use time::format_description::well_known::{Iso8601, Rfc2822, Rfc3339};
use time::macros::{datetime, offset};
use time::prelude::*;

fn main(rt: HostRuntime) -> anyhow::Result<()> {
    let alloc = rt.alloc();
    let moment = datetime!(2026-11-22 9:55:06.12 -6);
    println!(rt; "{}", moment.format(alloc, &Rfc3339)?)?;
    println!(rt; "{}", moment.format(alloc, &Rfc2822)?)?;
    let milliseconds = Config::default().set_time_precision(TimePrecision::Second {
        decimal_digits: ru8::new(3),
    });
    println!(rt; "{}", moment.format(alloc, &Iso8601::new(milliseconds))?)?;

    // A format that the program has, and one that is read from a text.
    let day = text!(WEEKDAY, b", ", DAY, b" ", MONTH_LONG);
    println!(rt; "{}", moment.format(alloc, &day)?)?;
    let clock = Plan::parse(alloc, b"[hour repr:12 padding:none]:[minute] [period]")?;
    println!(rt; "{}", moment.format(alloc, &clock)?)?;

    // A moment that is read from a text, by the clocks of another place.
    let read = OffsetDateTime::parse("2026-11-22T09:55:06.12-06:00", &Rfc3339)?;
    let there = read.checked_to_offset(offset!(+5:30));
    let there = there.context("the year is out of range")?;
    println!(rt; "{}", there.format(alloc, &Rfc3339)?)?;

    let now = OffsetDateTime::now_utc(&rt)?;
    eprintln!(rt; "{} done", now.format(alloc, &Rfc3339)?)?;
    Ok(())
}
