//! Canonical texts, and what they are read as.

use anyhow::{Result, bail};
use bp_tree::{parse, print};
use name_tree::Snap;
use omos_base::{Bytes, Fault, PathName};
use omos_model::{Entry, Image};
use std::alloc::Global;

/// Whether a text is read as an image with this canonical text.
fn is_canonical(alloc: Global, text: &[u8]) -> Result<bool> {
    match parse(alloc, text) {
        Ok(image) => Ok(print(alloc, &image)?.as_slice() == text),
        Err(Fault::Refused(_)) => Ok(false),
        Err(Fault::NoMemory) => bail!("no memory"),
    }
}

/// The canonical text of an image, where it is its own.
fn printed(alloc: Global, image: &Image) -> Result<Bytes> {
    let text = print(alloc, image)?;
    if is_canonical(alloc, text.as_slice())? {
        Ok(text)
    } else {
        Ok(Bytes::from_slice(alloc, b"a text that is read otherwise")?)
    }
}

/// The canonical text of the blueprint under a path.
pub(crate) fn text_at(alloc: Global, snap: &Snap, path: &PathName) -> Result<Bytes> {
    match snap.get(path).map(|stamped| stamped.entry.get()) {
        Some(Entry::Blueprint(image)) => printed(alloc, image),
        _ => bail!("no blueprint"),
    }
}
