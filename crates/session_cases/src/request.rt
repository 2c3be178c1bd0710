//! A request of the table, and the bytes that it puts into the stream.

use crate::text::bytes_of;
use anyhow::{Context, Result, bail};
use omos_base::Bytes;
use std::alloc::Global;
use std::fs;

/// A frame of this kind: its length, the kind byte, the path behind its own length, and the rest.
fn framed(alloc: Global, kind: u8, path: &str, rest: &[u8]) -> Result<Bytes> {
    let size = path.len().saturating_add(rest.len()).saturating_add(3);
    let mut frame = Bytes::new(alloc);
    frame.push_u32(u32::try_from(size).context("a long frame")?)?;
    frame.push_slice(&[kind])?;
    frame.push_u16(u16::try_from(path.len()).context("a long path")?)?;
    frame.push_slice(path.as_bytes())?;
    frame.push_slice(rest)?;
    Ok(frame)
}

/// `PATH TEXT`, with blanks behind the text up to a size.
fn blueprint(alloc: Global, rest: &str, size: usize) -> Result<Bytes> {
    let (path, text) = rest.split_once(' ').context("a text")?;
    let mut bytes = Vec::from_slice(alloc, text.as_bytes())?;
    if bytes.len() < size {
        bytes.resize(size, b' ')?;
    }
    framed(alloc, 2, path, &bytes)
}

/// `PATH FILE`
fn object(rt: &HostRuntime, rest: &str) -> Result<Bytes> {
    let (path, name) = rest.split_once(' ').context("a file")?;
    framed(rt.alloc(), 1, path, &fs::read(rt, name).context(name)?)
}

/// `SIZE PATH TEXT`
fn padded(alloc: Global, rest: &str) -> Result<Bytes> {
    let (size, rest) = rest.split_once(' ').context("a path")?;
    blueprint(alloc, rest, size.parse().context("a size")?)
}

/// The bytes of a request, as the head of data/sessions.txt explains them.
pub(crate) fn stream_of(rt: &HostRuntime, request: &str) -> Result<Bytes> {
    let alloc = rt.alloc();
    let (word, rest) = request.split_once(' ').unwrap_or((request, ""));
    match word {
        "put" => object(rt, rest),
        "blueprint" => blueprint(alloc, rest, 0),
        "padded" => padded(alloc, rest),
        "link" => framed(alloc, 3, rest, &[]),
        "where" => framed(alloc, 4, rest, &[]),
        "stats" => Ok(Bytes::from_slice(alloc, &[1, 0, 0, 0, 5])?),
        "flush" => framed(alloc, 6, rest, &[]),
        "end" => Ok(Bytes::from_slice(alloc, &[1, 0, 0, 0, 7])?),
        "bytes" => bytes_of(alloc, rest),
        _ => bail!("no such request"),
    }
}
