//! Runs the sessions of data/sessions.txt through `omosd_stdio`, over sources and sinks in memory,
//! and compares each reply and the status with what is wanted; and workloads through
//! `omosd_workload`. A line a session is printed: `ok NAME`, or the request whose reply is another,
//! with what was got.
//!
//! The wanted replies were worked out by hand from the rules of docs/FORMATS.md. A short session is
//! also read in pieces of 1, 7 and 4,096 bytes; a brief one that should end well is cut behind each
//! byte, and each of its reads and writes fails in turn: then it ends by the status that the
//! formats name, and its replies are those of the whole frames.
#![tactic(auto)]

mod outcome;
mod parts;
mod reply;
mod request;
mod session;
mod text;

use crate::session::Session;
use anyhow::{Context, Result};
use std::fs;

/// Runs a session of the table, and prints its line.
fn run_part(rt: &HostRuntime, part: &str) -> Result<()> {
    let session = Session::read(rt.alloc(), part)?;
    match session.fault(rt)? {
        None => println!(rt; "ok {}", session.name)?,
        Some(text) => println!(rt; "{}: {text}", session.name)?,
    }
    Ok(())
}

fn main(rt: HostRuntime) -> Result<()> {
    let table = fs::read_to_string(&rt, "sessions.txt").context("reading sessions.txt")?;
    for part in table.split("\n\n") {
        if !part.starts_with('#') {
            run_part(&rt, part.trim()).context(part)?;
        }
    }
    Ok(())
}
