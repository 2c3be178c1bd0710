//! Runs the table of cases in data/cases.txt: each publishes objects and blueprints on a version of
//! the namespace, asks for something there, and compares the answer with what is wanted. A line a
//! case is printed: `ok NAME`, or `NAME: wanted .. got ..`.
//!
//! The wanted bytes, texts and refusals were worked out by hand from the rules of docs/FORMATS.md,
//! or, under the headings of the table that say so, by scripts of tests/ that know nothing of this
//! program.
#![tactic(auto)]

mod answer;
mod case;
mod escape;
mod link;
mod publish;
mod rows;
mod text;
mod wanted;

use crate::answer::answer_of;
use crate::case::Case;
use crate::publish::version_of;
use crate::rows::rows_of;
use crate::wanted::is_wanted;
use anyhow::{Context, Result};
use omos_base::Bytes;
use std::fs;

/// The answer to a case, or the line of the text that is refused.
fn given(rt: &HostRuntime, case: &Case) -> Result<Bytes> {
    match version_of(rt, case.published)? {
        Ok(snap) => answer_of(rt.alloc(), &snap, case.asked),
        Err(line) => Ok(line),
    }
}

/// Runs a case, and prints its line.
fn run(rt: &HostRuntime, case: &Case) -> Result<()> {
    let answer = given(rt, case)?;
    let (name, wanted) = (case.name, case.wanted);
    if is_wanted(rt.alloc(), wanted, answer.as_slice())? {
        println!(rt; "ok {name}")?;
    } else {
        let got = str::from_utf8(answer.as_slice()).unwrap_or("an image");
        println!(rt; "{name}: wanted {wanted} got {}", got.trim_end())?;
    }
    Ok(())
}

fn main(rt: HostRuntime) -> Result<()> {
    let table = fs::read_to_string(&rt, "cases.txt").context("reading cases.txt")?;
    for row in &rows_of(rt.alloc(), &table)? {
        let case = Case::read(row).context(row.as_str())?;
        run(&rt, &case).context(case.name)?;
    }
    Ok(())
}
