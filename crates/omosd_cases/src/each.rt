//! Each read, or each write, of a case failing in turn.

use crate::case::Case;
use crate::input::{bytes_of, number_and_rest};
use crate::output::is_output;
use crate::run::run;
use anyhow::{Context, Result};

/// How many calls give or take so many bytes, each a step at most.
fn calls_for(bytes: usize, step: u32) -> u32 {
    let calls = bytes.div_ceil(step.max(1) as usize);
    u32::try_from(calls).unwrap_or(u32::MAX)
}

/// Whether the case comes to the same whichever of its reads fails, the one behind the last byte
/// among them.
pub(crate) fn read(rt: &HostRuntime, case: &Case, want: u8, step: u32) -> Result<&'static str> {
    let calls = calls_for(bytes_of(rt, case.input)?.len(), step);
    for before in 0..calls.saturating_add(1) {
        let call = before.saturating_add(1);
        let reads = format!(in rt.alloc(); "{step} {call}")?;
        let ended = run(rt, case, &reads, case.writes)?;
        if ended.status != want || !is_output(rt, case.output, ended.sink.bytes())? {
            return Ok("OTHER END AT A READ ");
        }
    }
    Ok("ok ")
}

/// Whether the case comes to this status whichever of its writes fails, with what the writes before
/// took of the file that is its output.
pub(crate) fn write(rt: &HostRuntime, case: &Case, want: u8, writes: &str) -> Result<&'static str> {
    let name = case.output.strip_prefix("file ").context("the output")?;
    let whole = bytes_of(rt, name)?;
    let (_, step) = number_and_rest(writes)?;
    let step: u32 = step.parse().context("the step")?;
    for before in 0..calls_for(whole.len(), step) {
        let call = before.saturating_add(1);
        let writes = format!(in rt.alloc(); "{writes} {call}")?;
        let ended = run(rt, case, case.reads, &writes)?;
        let taken = before.saturating_mul(step) as usize;
        if ended.status != want || whole.get(..taken) != Some(ended.sink.bytes()) {
            return Ok("OTHER END AT A WRITE ");
        }
    }
    Ok("ok ")
}
