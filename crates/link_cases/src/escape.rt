//! Texts as the table writes them.

use anyhow::{Context, Result};
use omos_base::Bytes;
use std::alloc::Global;

/// The byte that an escape says, and what follows it: `n`, `r`, `t`, or `x` and two digits.
fn single(escape: &str) -> Option<(u8, &str)> {
    let (letter, rest) = escape.split_at_checked(1)?;
    match letter {
        "n" => Some((b'\n', rest)),
        "r" => Some((b'\r', rest)),
        "t" => Some((b'\t', rest)),
        "x" => {
            let (digits, rest) = rest.split_at_checked(2)?;
            Some((u8::from_str_radix(digits, 16).ok()?, rest))
        }
        _ => None,
    }
}

/// The count and the part of `3{ab}`, and what follows it.
fn repeated(escape: &str) -> Option<(u32, &str, &str)> {
    let (count, rest) = escape.split_once('{')?;
    let (part, rest) = rest.split_once('}')?;
    Some((count.parse().ok()?, part, rest))
}

/// Appends what stands behind a backslash.
fn push_escape(bytes: &mut Bytes, escape: &str) -> Result<()> {
    if let Some((byte, rest)) = single(escape) {
        bytes.push_slice(&[byte])?;
        bytes.push_slice(rest.as_bytes())?;
        return Ok(());
    }
    let (count, part, rest) = repeated(escape).context("an escape")?;
    for _ in 0..count {
        bytes.push_slice(part.as_bytes())?;
    }
    bytes.push_slice(rest.as_bytes())?;
    Ok(())
}

/// The bytes of a text: `\n`, `\r`, `\t` and `\x7f` are one byte each, and `\3{ab}` is `ababab`.
pub(crate) fn bytes_of(alloc: Global, text: &str) -> Result<Bytes> {
    let mut bytes = Bytes::new(alloc);
    let mut parts = text.split('\\');
    if let Some(plain) = parts.next() {
        bytes.push_slice(plain.as_bytes())?;
    }
    for escape in parts {
        push_escape(&mut bytes, escape)?;
    }
    Ok(bytes)
}
