//! Runs a case.

use crate::case::Case;
use crate::each;
use crate::input::source_of;
use crate::output::{is_output, sink_of};
use anyhow::{Context, Result};
use omos_outside::MemorySink;
use omosd_calls::omosd_once;
use seeded_hash::Seed;
use std::alloc::Global;

/// What a run came to.
#[derive(Drop)]
pub(crate) struct Ended {
    pub(crate) status: u8,
    pub(crate) sink: MemorySink,
}

/// The words of a command line; `none` for none.
fn words_of(alloc: Global, text: &str) -> Result<Vec<String>> {
    let mut words = Vec::new(alloc);
    for word in text.split_whitespace() {
        if word != "none" {
            words.push(String::from_str(alloc, word)?)?;
        }
    }
    Ok(words)
}

/// What the case comes to, over a source and a sink that these columns tell of.
pub(crate) fn run(rt: &HostRuntime, case: &Case, reads: &str, writes: &str) -> Result<Ended> {
    let alloc = rt.alloc();
    let words = words_of(alloc, case.words)?;
    let mut source = source_of(rt, case.input, reads)?;
    let mut sink = sink_of(alloc, writes)?;
    let status = omosd_once(alloc, Seed::known(0), &words, &mut source, &mut sink);
    Ok(Ended { status, sink })
}

/// What the case gave: `ok `, or what is wrong.
pub(crate) fn outcome_of(rt: &HostRuntime, case: &Case) -> Result<&'static str> {
    let want: u8 = case.status.parse().context("the status")?;
    if let Some(step) = case.reads.strip_suffix(" each") {
        return each::read(rt, case, want, step.parse().context(step)?);
    }
    if let Some(writes) = case.writes.strip_suffix(" each") {
        return each::write(rt, case, want, writes);
    }
    let ended = run(rt, case, case.reads, case.writes)?;
    if ended.status != want {
        return Ok("OTHER STATUS ");
    }
    if !is_output(rt, case.output, ended.sink.bytes())? {
        return Ok("OTHER OUTPUT ");
    }
    Ok("ok ")
}
