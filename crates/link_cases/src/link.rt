//! The answer of a link.

use anyhow::{Result, anyhow};
use link_plan::link_path;
use name_tree::Snap;
use omos_base::{Bytes, Fault, PathName};
use omos_model::Refusal;
use refusal_lines::link_line;
use std::alloc::Global;

const BASE: u64 = 0x40_0000;

/// The line of a refusal.
fn line_of(alloc: Global, fault: Fault<Refusal>) -> Result<Bytes> {
    match fault {
        Fault::Refused(refusal) => Ok(Bytes::from_slice(alloc, link_line(&refusal).as_slice())?),
        Fault::NoMemory => Err(anyhow!("no memory")),
    }
}

/// The image of a path at 0x400000, or the line of its refusal.
pub(crate) fn linked(alloc: Global, snap: &Snap, path: &PathName) -> Result<Bytes> {
    match link_path(alloc, snap, path, BASE) {
        Ok(linked) => Ok(Bytes::from_slice(alloc, linked.bytes())?),
        Err(fault) => line_of(alloc, fault),
    }
}
