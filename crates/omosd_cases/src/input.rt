//! The input of a case.

use anyhow::{Context, Result, bail, ensure};
use omos_base::{Bytes, Row};
use omos_outside::MemorySource;
use std::alloc::Global;
use std::fs;
use std::rt::Files;

/// The bytes of a case's file, or none, with its changes: `AT=VALUE` sets a byte, `cut=SIZE` keeps
/// the first bytes, and `pad=SIZE` appends zeros.
pub(crate) fn bytes_of<R: Files + AllocGlobal>(rt: &R, text: &str) -> Result<Vec<u8>> {
    let mut words = text.split_whitespace();
    let name = words.next().context("no input")?;
    let mut bytes = match name {
        "nothing" => Vec::new(rt.alloc()),
        _ => fs::read(rt, name).context(name)?,
    };
    for word in words {
        let (key, value) = word.split_once('=').context(word)?;
        let value: usize = value.parse().context(word)?;
        match key {
            "cut" => bytes.truncate(value),
            "pad" => bytes.resize(value, 0)?,
            _ => set_byte(&mut bytes, key.parse().context(word)?, value)?,
        }
    }
    Ok(bytes)
}

fn set_byte(bytes: &mut [u8], at: usize, value: usize) -> Result<()> {
    ensure!(at < bytes.len(), "there is no byte {at}");
    match u8::try_from(value) {
        Ok(value) => bytes[at] = value,
        Err(_) => bail!("{value} is no byte"),
    }
    Ok(())
}

/// Numbers with blanks between them.
pub(crate) fn numbers(alloc: Global, text: &str) -> Result<Row<u32>> {
    let mut row = Row::new(alloc);
    for word in text.split_whitespace() {
        row.push(word.parse().context(word)?)?;
    }
    Ok(row)
}

/// The first number of a text, and the text behind it.
pub(crate) fn number_and_rest(text: &str) -> Result<(u32, &str)> {
    let (first, rest) = text.split_once(' ').unwrap_or((text, ""));
    Ok((first.parse().context(first)?, rest))
}

/// The source of a case: its reads give `STEP` bytes at most and fail at the calls listed.
pub(crate) fn source_of<R: Files + AllocGlobal>(
    rt: &R,
    input: &str,
    reads: &str,
) -> Result<MemorySource> {
    let (step, fails) = number_and_rest(reads)?;
    ensure!(step > 0, "a read gives at least a byte");
    let bytes = Bytes::from_vec(bytes_of(rt, input)?);
    Ok(MemorySource::new(bytes, step, numbers(rt.alloc(), fails)?))
}
