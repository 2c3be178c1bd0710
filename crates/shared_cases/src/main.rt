//! Runs the cases of cases.txt: each has workers whose doors and gates stand in memory, so that
//! their sessions meet as the case says. What each session was sent, the line of the totals and the
//! status are compared with what is wanted; a line is printed for each.
//!
//! The wanted bytes were worked out by tests/shared.py from the rules of docs/FORMATS.md.
#![tactic(auto)]

mod case;
mod flags;
mod turns;
mod worker;

use crate::case::{Case, run_case};
use crate::turns::{Turns, run_turns};
use anyhow::{Context, Result};
use std::fs;

fn main(rt: HostRuntime) -> Result<()> {
    let table = fs::read_to_string(&rt, "cases.txt").context("reading cases.txt")?;
    for text in table.trim().split("\n\n") {
        if text.starts_with('#') {
            continue;
        }
        match Turns::of(text)? {
            Some(case) => run_turns(&rt, rt.alloc(), &case)?,
            None => run_case(&rt, rt.alloc(), &Case::of(text)?)?,
        }
    }
    Ok(())
}
