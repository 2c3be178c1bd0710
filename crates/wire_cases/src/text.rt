//! Bytes as the table writes them, and as lines show them.

use anyhow::{Context, Result, bail};
use std::alloc::Global;

/// How many bytes a line shows in full.
const SHOWN: usize = 24;

/// The byte of two hexadecimal digits.
fn byte_of(digits: &[u8]) -> Result<u8> {
    let digits = str::from_utf8(digits).context("digits")?;
    u8::from_str_radix(digits, 16).context("a byte")
}

/// Appends the bytes of hexadecimal digits.
fn push_hex(bytes: &mut Vec<u8>, digits: &str) -> Result<()> {
    for pair in digits.as_bytes().chunks(2) {
        bytes.push(byte_of(pair)?)?;
    }
    Ok(())
}

/// Appends a byte so many times.
fn push_fill(bytes: &mut Vec<u8>, count: &str, digits: &str) -> Result<()> {
    let count: usize = count.parse().context("a count")?;
    if count > 20_000_000 {
        bail!("the count {count}");
    }
    let size = bytes.len().saturating_add(count);
    bytes.resize(size, byte_of(digits.as_bytes())?)?;
    Ok(())
}

/// The bytes of words: hexadecimal digits, `COUNT*BYTE` for so many of one byte, or `-` for none.
pub(crate) fn bytes_of(alloc: Global, text: &str) -> Result<Vec<u8>> {
    let mut bytes = Vec::new(alloc);
    for word in text.split_whitespace() {
        match word.split_once('*') {
            Some((count, digits)) => push_fill(&mut bytes, count, digits)?,
            None if word == "-" => {}
            None => push_hex(&mut bytes, word)?,
        }
    }
    Ok(bytes)
}

/// The check sum Adler-32.
fn sum_of(bytes: &[u8]) -> u32 {
    let mut low = 1u32;
    let mut high = 0u32;
    for byte in bytes {
        low = low.wrapping_add(u32::from(*byte)) % 65_521;
        high = high.wrapping_add(low) % 65_521;
    }
    high.wrapping_shl(16) | low
}

/// Bytes in a line: how many, and then themselves in hexadecimal, or their check sum where there
/// are more than 24.
pub(crate) fn shown(alloc: Global, bytes: &[u8]) -> Result<String> {
    let mut text = format!(in alloc; "{}:", bytes.len())?;
    if bytes.len() > SHOWN {
        text.push_str(&format!(in alloc; "sum-{:08x}", sum_of(bytes))?)?;
        return Ok(text);
    }
    for byte in bytes {
        text.push_str(&format!(in alloc; "{byte:02x}")?)?;
    }
    Ok(text)
}
