//! A run of a session.

use anyhow::{Context, Result, bail};
use omos_base::{Bytes, Row};
use omos_outside::{MemorySink, MemorySource};
use seeded_hash::Seed;
use session_calls::omosd_stdio;
use std::alloc::Global;
use workload_calls::omosd_workload;

/// How many bytes the output may have.
const ROOM: u32 = 160_000_000;

/// What a run gave.
#[derive(Drop)]
pub(crate) struct Outcome {
    pub(crate) status: u8,
    pub(crate) sink: MemorySink,
}

/// How a stream is read and the replies are written: how many bytes a call takes at most, the call
/// that fails, counted from 1, or 0 where none does, and how many bytes there may be in all.
#[derive(Clone, Copy)]
pub(crate) struct Way {
    pub(crate) read_step: u32,
    pub(crate) failing_read: u32,
    pub(crate) write_step: u32,
    pub(crate) failing_write: u32,
    pub(crate) room: u32,
}

/// The call that fails by `read CALL` or `write CALL`, if the fault is of this kind, or 0.
fn call_of(fault: &str, kind: &str) -> Result<u32> {
    match fault.split_once(' ') {
        Some((own, call)) if own == kind => call.parse().context("a call"),
        _ => Ok(0),
    }
}

impl Way {
    /// All at once, with this fault, or none.
    pub(crate) fn with(fault: &str) -> Result<Way> {
        Ok(Way {
            read_step: u32::MAX,
            failing_read: call_of(fault, "read")?,
            write_step: ROOM,
            failing_write: call_of(fault, "write")?,
            room: ROOM,
        })
    }
}

/// The calls that fail: this one, or none where it is 0.
fn failing(alloc: Global, call: u32) -> Result<Row<u32>> {
    let mut calls = Row::new(alloc);
    if call > 0 {
        calls.push(call)?;
    }
    Ok(calls)
}

/// The words of a command line.
fn words_of(alloc: Global, text: &str) -> Result<Vec<String>> {
    let mut words = Vec::new(alloc);
    for word in text.split_whitespace() {
        words.push(String::from_str(alloc, word)?)?;
    }
    Ok(words)
}

fn sink_of(alloc: Global, way: Way) -> Result<MemorySink> {
    if way.write_step == 0 {
        bail!("a write takes at least a byte");
    }
    Ok(MemorySink::new(
        alloc,
        way.room,
        way.write_step,
        failing(alloc, way.failing_write)?,
    )?)
}

/// Runs the words over a stream.
pub(crate) fn outcome_of(alloc: Global, words: &str, stream: &[u8], way: Way) -> Result<Outcome> {
    if way.read_step == 0 {
        bail!("a read gives at least a byte");
    }
    let words = words_of(alloc, words)?;
    let bytes = Bytes::from_slice(alloc, stream)?;
    let mut source = MemorySource::new(bytes, way.read_step, failing(alloc, way.failing_read)?);
    let mut sink = sink_of(alloc, way)?;
    let status = omosd_stdio(alloc, Seed::known(0), &words, &mut source, &mut sink);
    Ok(Outcome { status, sink })
}

/// Runs the words of a workload, with a fault, if any.
pub(crate) fn workload_of(alloc: Global, words: &str, fault: &str) -> Result<Outcome> {
    let words = words_of(alloc, words)?;
    let mut sink = sink_of(alloc, Way::with(fault)?)?;
    let (status, store) = omosd_workload(alloc, &words, &mut sink);
    if store.is_some() != (status == 0 || status == 4) {
        bail!("the store under status {status}");
    }
    Ok(Outcome { status, sink })
}
