//! The output of a case.

use crate::input::{bytes_of, number_and_rest, numbers};
use anyhow::{Context, Result, bail, ensure};
use omos_outside::MemorySink;
use std::alloc::Global;
use std::fs;
use std::rt::Files;

/// The sink of a case: it has room for `ROOM` bytes, and its writes take `STEP` bytes at most and
/// fail at the calls listed.
pub(crate) fn sink_of(alloc: Global, writes: &str) -> Result<MemorySink> {
    let (room, rest) = number_and_rest(writes)?;
    let (step, fails) = number_and_rest(rest)?;
    ensure!(step > 0, "a write takes at least a byte");
    Ok(MemorySink::new(alloc, room, step, numbers(alloc, fails)?)?)
}

/// The output is the case's: `nothing`, `line TEXT`, `file NAME` with changes as of an input, or
/// `first COUNT NAME`, the first bytes of a file.
pub(crate) fn is_output<R: Files + AllocGlobal>(rt: &R, text: &str, output: &[u8]) -> Result<bool> {
    let (kind, rest) = text.split_once(' ').unwrap_or((text, ""));
    match kind {
        "nothing" => Ok(output.is_empty()),
        "line" => Ok(output.split_last() == Some((&b'\n', rest.as_bytes()))),
        "file" => Ok(output == bytes_of(rt, rest)?.as_slice()),
        "first" => {
            let (count, name) = number_and_rest(rest)?;
            let file = fs::read(rt, name).context(name)?;
            Ok(file.get(..count as usize) == Some(output))
        }
        _ => bail!("no such output"),
    }
}
