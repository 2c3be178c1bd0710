//! What is wanted of an answer.

use crate::escape::bytes_of;
use anyhow::{Context, Result, bail};
use std::alloc::Global;

/// The byte of two hexadecimal digits.
fn byte_of(word: &str) -> Result<u8> {
    u8::from_str_radix(word, 16).context("a byte")
}

/// The bytes from this address on are these, where 0x400000 stands behind the header page.
fn has_bytes(answer: &[u8], text: &str) -> Result<bool> {
    let mut words = text.split_whitespace();
    let address = words.next().context("an address")?;
    let mut at = usize::from_str_radix(address, 16).context("an address")?;
    for word in words {
        if answer.get(at.wrapping_sub(0x3f_f000)) != Some(&byte_of(word)?) {
            return Ok(false);
        }
        at = at.wrapping_add(1);
    }
    Ok(true)
}

/// The answer meets each of these, between `&`: `line TEXT`, `text TEXT`, `size BYTES`,
/// `at ADDRESS BYTE..`, numbers but the size in hexadecimal.
pub(crate) fn is_wanted(alloc: Global, text: &str, answer: &[u8]) -> Result<bool> {
    for item in text.split('&') {
        let (kind, rest) = item.trim().split_once(' ').context("what is wanted")?;
        let met = match kind {
            "line" => answer.split_last() == Some((&b'\n', rest.as_bytes())),
            "text" => answer == bytes_of(alloc, rest)?.as_slice(),
            "size" => answer.len() == rest.parse().context("a size")?,
            "at" => has_bytes(answer, rest)?,
            _ => bail!("no such wish"),
        };
        if !met {
            return Ok(false);
        }
    }
    Ok(true)
}
