//! Runs the rows of data/rows.txt over stores, one part of the table over each, and compares what
//! each call answers with what is wanted. A line a row is printed: `ok ROW`, or `ROW: got ..`.
//!
//! The wanted answers were worked out by hand from the rules of docs/FORMATS.md.
#![tactic(auto)]

mod entry;
mod link;
mod row;

use crate::row::answer_of;
use anyhow::{Context, Result};
use hub_store::Store;
use omos_base::Limits;
use seeded_hash::Seed;
use std::fs;
use std::str::Lines;

/// The limits of `CACHE STEPS`.
fn limits_of(text: &str) -> Result<Limits> {
    let (cache, steps) = text.split_once(' ').context("the limits")?;
    Limits::of(cache.parse()?, steps.parse()?).context("the limits")
}

/// Runs a row, and prints its line.
fn run_row(rt: &HostRuntime, store: &mut Store, line: &str) -> Result<()> {
    let (row, wanted) = line.split_once('|').context("a row without an answer")?;
    let (row, wanted) = (row.trim(), wanted.trim());
    let answer = answer_of(rt, store, row)?;
    if answer.as_str() == wanted {
        println!(rt; "ok {row}")?;
    } else {
        println!(rt; "{row}: got {answer}")?;
    }
    Ok(())
}

fn run_rows(rt: &HostRuntime, store: &mut Store, rows: Lines<'_>) -> Result<()> {
    for row in rows {
        run_row(rt, store, row).context(row)?;
    }
    Ok(())
}

/// Runs the rows of a part over a fresh store of the limits in its first line.
fn run_part(rt: &HostRuntime, part: &str) -> Result<()> {
    let mut lines = part.trim().lines();
    let limits = limits_of(lines.next().unwrap_or(""))?;
    let mut store = Store::open(rt.alloc(), Seed::known(0), limits)?;
    run_rows(rt, &mut store, lines)
}

fn main(rt: HostRuntime) -> Result<()> {
    let table = fs::read_to_string(&rt, "rows.txt").context("reading rows.txt")?;
    for part in table.split("\n\n") {
        if !part.starts_with('#') {
            run_part(&rt, part)?;
        }
    }
    Ok(())
}
