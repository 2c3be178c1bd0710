//! What a row publishes.

use anyhow::{Context, Result, anyhow};
use bp_tree::parse;
use fragment_read::fragment;
use omos_base::PathName;
use omos_model::Entry;
use std::fs;

/// The path with this text.
pub(crate) fn path_of(text: &str) -> Result<PathName> {
    PathName::read(text.as_bytes()).map_err(|_| anyhow!("{text} is no path"))
}

/// The object of the file, where the name ends in `.o`; all else is a blueprint's text.
pub(crate) fn entry_of(rt: &HostRuntime, content: &str) -> Result<Entry> {
    if content.ends_with(".o") {
        let file = fs::read(rt, content).context(content)?;
        let object = fragment(rt.alloc(), &file);
        return Ok(Entry::Object(object.map_err(|_| anyhow!("no object: {content}"))?));
    }
    let image = parse(rt.alloc(), content.as_bytes());
    Ok(Entry::Blueprint(image.map_err(|_| anyhow!("no text: {content}"))?))
}
