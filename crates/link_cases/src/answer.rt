//! The answer to what a case asks.

use crate::link::linked;
use crate::publish::path_of;
use crate::text::text_at;
use anyhow::Result;
use name_tree::Snap;
use omos_base::{Bytes, Row};
use omos_model::Stamped;
use std::alloc::Global;

/// A line for each entry: `/a 3`, the path and the number of the publish.
fn lines_of(alloc: Global, entries: &[Stamped]) -> Result<Bytes> {
    let mut lines = Bytes::new(alloc);
    for entry in entries {
        lines.push_slice(entry.path.get().as_bytes())?;
        let stamp = entry.stamp;
        lines.push_slice(format!(in alloc; " {stamp}\n")?.as_bytes())?;
    }
    Ok(lines)
}

/// A line for each branch of the version's tree, ` 32 33`: the counts of entries of its pages.
fn count_lines(alloc: Global, branches: &[Row<u32>]) -> Result<Bytes> {
    let mut lines = Bytes::new(alloc);
    for pages in branches {
        push_counts(&mut lines, alloc, pages.as_slice())?;
    }
    Ok(lines)
}

fn push_counts(lines: &mut Bytes, alloc: Global, counts: &[u32]) -> Result<()> {
    for count in counts {
        lines.push_slice(format!(in alloc; " {count}")?.as_bytes())?;
    }
    lines.push_slice(b"\n")?;
    Ok(())
}

/// The link of `PATH`, the canonical text of `text PATH`, the entries by `list`, or the counts of
/// entries by `pages`.
pub(crate) fn answer_of(alloc: Global, snap: &Snap, asked: &str) -> Result<Bytes> {
    if asked == "list" {
        return lines_of(alloc, snap.list()?.as_slice());
    }
    if asked == "pages" {
        return count_lines(alloc, snap.pages()?.as_slice());
    }
    match asked.strip_prefix("text ") {
        Some(path) => text_at(alloc, snap, &path_of(path)?),
        None => linked(alloc, snap, &path_of(asked)?),
    }
}
