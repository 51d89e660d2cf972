//! A program whose log lines begin with the time, as
//! `[2026-11-22T09:55:06.120Z INFO  log_example] started`.
#![tactic(auto)]

use log::{Level, Log, Logged, info};
use log_time::{Decimals, LogTime, Timed};

fn serve<R: Log>(rt: &R, id: u32) {
    let rt = rt.span("request").with("id", id);
    info!(rt; rows = 3; "done");
}

fn main(rt: HostRuntime) {
    let sink = Timed::new(rt, LogTime::utc(Decimals::Milliseconds), rt.stderr());
    let rt = Logged::new(rt, Level::Info, sink);
    info!(rt; "started");
    serve(&rt, 7);
}
