//! Versions as trees.

use crate::paths::{nothing, path_of};
use anyhow::Result;
use name_tree::Snap;
use omos_base::Shared;
use omos_model::Entry;
use seeded_hash::Seed;
use std::alloc::Global;

/// The next version.
#[inline(never)]
fn publish(snap: &Snap, number: u32, entry: &Shared<Entry>) -> Result<Snap> {
    Ok(snap.with(path_of(number)?, u64::from(number), entry.twin()?)?)
}

/// Makes a version of the one before.
fn step(snap: &mut Snap, number: u32, entry: &Shared<Entry>) -> Result<()> {
    *snap = publish(snap, number, entry)?;
    Ok(())
}

/// How many paths the last version has.
pub(crate) fn last_of(alloc: Global, count: u32) -> Result<usize> {
    let entry = nothing(alloc)?;
    let mut snap = Snap::empty(alloc, Seed::known(0))?;
    for number in 0..count {
        step(&mut snap, number, &entry)?;
    }
    Ok(snap.count())
}

/// Keeps a version, and makes the next.
fn keep(kept: &mut Vec<Snap>, snap: &mut Snap, number: u32, entry: &Shared<Entry>) -> Result<()> {
    kept.push(snap.copy()?)?;
    step(snap, number, entry)
}

/// The same, where all versions are kept until the end.
pub(crate) fn kept_of(alloc: Global, count: u32) -> Result<usize> {
    let entry = nothing(alloc)?;
    let mut kept = Vec::new(alloc);
    let mut snap = Snap::empty(alloc, Seed::known(0))?;
    for number in 0..count {
        keep(&mut kept, &mut snap, number, &entry)?;
    }
    Ok(snap.count())
}
