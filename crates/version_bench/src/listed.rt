//! Versions as plain lists, beside which the trees are compared.

use crate::paths::{nothing, path_of};
use anyhow::Result;
use omos_base::{PathName, Shared};
use omos_model::{Entry, Stamped};
use std::alloc::Global;

/// How many entries are below a path, by halves.
fn count_below(list: &[Stamped], path: &PathName) -> usize {
    list.partition_point(|entry| entry.path.get() < path)
}

/// Appends second owners of the entries.
fn append(list: &mut Vec<Stamped>, more: &[Stamped]) -> Result<()> {
    for entry in more {
        list.push(entry.twin()?)?;
    }
    Ok(())
}

/// The next version, whose path is new.
#[inline(never)]
fn publish(
    alloc: Global,
    list: &[Stamped],
    number: u32,
    entry: &Shared<Entry>,
) -> Result<Vec<Stamped>> {
    let path = path_of(number)?;
    let at = count_below(list, &path).min(list.len());
    let (below, above) = list.split_at(at);
    let mut next = Vec::with_capacity(alloc, list.len())?;
    append(&mut next, below)?;
    next.push(Stamped {
        path: Shared::of(alloc, path)?,
        stamp: u64::from(number),
        entry: entry.twin()?,
    })?;
    append(&mut next, above)?;
    Ok(next)
}

/// How many paths the last version has.
pub(crate) fn last_of(alloc: Global, count: u32) -> Result<usize> {
    let entry = nothing(alloc)?;
    let mut list = Vec::new(alloc);
    for number in 0..count {
        list = publish(alloc, list.as_slice(), number, &entry)?;
    }
    Ok(list.len())
}
