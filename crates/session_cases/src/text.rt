//! Bytes as hexadecimal words.

use anyhow::{Context, Result};
use omos_base::Bytes;
use std::alloc::Global;

/// The byte of two hexadecimal digits.
pub(crate) fn byte_of(word: &str) -> Result<u8> {
    u8::from_str_radix(word, 16).context("a byte")
}

/// The bytes with blanks between them.
pub(crate) fn bytes_of(alloc: Global, text: &str) -> Result<Bytes> {
    let mut bytes = Bytes::new(alloc);
    for word in text.split_whitespace() {
        bytes.push_slice(&[byte_of(word)?])?;
    }
    Ok(bytes)
}
