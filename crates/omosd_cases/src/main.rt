//! Runs the table of cases in data/cases.txt through the top calls, over sources and sinks in
//! memory, and prints a line a case: `ok NAME`, or what the case gave instead.
//!
//! It shows by example what contracts can't: that a call succeeds with ample memory, and that the
//! definitions give the bytes that were worked out by hand.
#![tactic(auto)]

mod case;
mod each;
mod input;
mod output;
mod run;

use crate::case::Case;
use crate::run::outcome_of;
use anyhow::{Context, Result};
use std::fs;

fn main(rt: HostRuntime) -> Result<()> {
    let table = fs::read_to_string(&rt, "cases.txt").context("reading cases.txt")?;
    for line in table.lines() {
        if line.is_empty() || line.starts_with('#') {
            continue;
        }
        let case = Case::read(line).context(line)?;
        let outcome = outcome_of(&rt, &case).context(case.name)?;
        rt.print(outcome)?;
        rt.println(case.name)?;
    }
    Ok(())
}
