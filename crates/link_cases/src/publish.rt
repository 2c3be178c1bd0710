//! What a case publishes.

use crate::escape::bytes_of;
use anyhow::{Context, Result, anyhow};
use bp_tree::parse;
use fragment_read::fragment;
use name_tree::Snap;
use omos_base::{Bytes, Fault, PathName, Shared};
use omos_model::Entry;
use refusal_lines::text_line;
use seeded_hash::Seed;
use std::alloc::Global;
use std::fs;

/// What was made, or the line of the text that is refused.
pub(crate) type OrLine<T> = std::result::Result<T, Bytes>;

/// The path with this text.
pub(crate) fn path_of(text: &str) -> Result<PathName> {
    PathName::read(text.as_bytes()).map_err(|_| anyhow!("{text} is no path"))
}

/// The object of a file.
fn object_of(rt: &HostRuntime, name: &str) -> Result<Entry> {
    let file = fs::read(rt, name).context(name)?;
    let object = fragment(rt.alloc(), &file);
    Ok(Entry::Object(object.map_err(|_| anyhow!("no object: {name}"))?))
}

/// The blueprint of a text.
fn blueprint_of(alloc: Global, text: &[u8]) -> Result<OrLine<Entry>> {
    match parse(alloc, text) {
        Ok(image) => Ok(Ok(Entry::Blueprint(image))),
        Err(Fault::Refused(fault)) => Ok(Err(Bytes::from_slice(
            alloc,
            text_line(fault).as_slice(),
        )?)),
        Err(Fault::NoMemory) => Err(anyhow!("no memory")),
    }
}

/// What ends in `.o` is the name of an object's file, all else a blueprint's text.
fn entry_of(rt: &HostRuntime, content: &str) -> Result<OrLine<Entry>> {
    if content.ends_with(".o") {
        return Ok(Ok(object_of(rt, content)?));
    }
    let text = bytes_of(rt.alloc(), content)?;
    blueprint_of(rt.alloc(), text.as_slice())
}

/// The next version, in which `PATH CONTENT` is published.
fn publish(rt: &HostRuntime, snap: &Snap, stamp: u64, item: &str) -> Result<OrLine<Snap>> {
    let (path, content) = item.split_once(' ').unwrap_or((item, ""));
    let entry = match entry_of(rt, content.trim())? {
        Ok(entry) => Shared::of(rt.alloc(), entry)?,
        Err(line) => return Ok(Err(line)),
    };
    Ok(Ok(snap.with(path_of(path)?, stamp, entry)?))
}

/// The version in which all of a case is published, one after the other.
pub(crate) fn version_of(rt: &HostRuntime, published: &str) -> Result<OrLine<Snap>> {
    let mut snap = Snap::empty(rt.alloc(), Seed::known(0))?;
    for (number, item) in published.split('&').enumerate() {
        match publish(rt, &snap, number as u64 + 1, item.trim())? {
            Ok(next) => snap = next,
            Err(line) => return Ok(Err(line)),
        }
    }
    Ok(Ok(snap))
}
