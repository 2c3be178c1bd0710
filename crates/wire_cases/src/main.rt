//! Runs the table of cases in data/cases.txt: streams of requests through a decoder, in pieces of
//! several sizes; frames of replies, read, and written again; and runs of the client over memory.
//! What came of each is printed, a line a case.
//!
//! What must be printed was worked out by tests/wire.py from the formats of docs/FORMATS.md, with
//! no call of this program.
#![tactic(auto)]

mod client;
mod faults;
mod reply;
mod request;
mod stream;
mod text;

use crate::client::{Case, told};
use crate::faults::turns;
use crate::reply::reply_line;
use crate::stream::stream_line;
use crate::text::bytes_of;
use anyhow::{Context, Result, bail};
use std::alloc::Global;
use std::fs;

/// What came of a case of this kind, `stream SIZE..` or a word: its line without its name.
fn line_of(alloc: Global, kind: &str, rest: &str) -> Result<String> {
    let (word, sizes) = kind.split_once(' ').unwrap_or((kind, ""));
    match word {
        "stream" => stream_line(alloc, sizes, bytes_of(alloc, rest)?.as_slice()),
        "reply" => reply_line(alloc, bytes_of(alloc, rest)?.as_slice()),
        "client" => told(alloc, &Case::read(rest)?),
        "faults" => turns(alloc, &Case::read(rest)?),
        _ => bail!("no such kind"),
    }
}

/// Runs a case, `KIND | NAME | ..`, and prints its line.
fn run(rt: &HostRuntime, case: &str) -> Result<()> {
    let (kind, rest) = case.split_once('|').context("no name")?;
    let (name, rest) = rest.split_once('|').context("no case")?;
    let line = line_of(rt.alloc(), kind.trim(), rest.trim())?;
    println!(rt; "{}: {line}", name.trim())?;
    Ok(())
}

fn main(rt: HostRuntime) -> Result<()> {
    let table = fs::read_to_string(&rt, "cases.txt").context("reading cases.txt")?;
    for line in table.lines() {
        if !line.is_empty() && !line.starts_with('#') {
            run(&rt, line).context(line)?;
        }
    }
    Ok(())
}
