//! Publishes so many paths one after another, for bench/publish.sh: `version_bench tree COUNT` by
//! versions as trees, of which the last is kept; `kept COUNT` the same, with every version kept;
//! and `list COUNT` by plain lists in the order of paths, each copied from the one before. It
//! prints how many paths the last version has. COUNT is at most 65,536.
#![tactic(auto)]

mod listed;
mod paths;
mod trees;

use anyhow::{Context, Result, bail};
use std::env;

/// How many paths the last version has, where the versions are of this kind.
fn count_of(rt: &HostRuntime, kind: &str, count: u32) -> Result<usize> {
    let alloc = rt.alloc();
    match kind {
        "tree" => trees::last_of(alloc, count),
        "kept" => trees::kept_of(alloc, count),
        "list" => listed::last_of(alloc, count),
        _ => bail!("the kind is none of tree, kept and list"),
    }
}

fn main(rt: HostRuntime) -> Result<()> {
    let mut words = env::args(&rt)?.skip(1);
    let kind = words.next().context("the kind is missing")?;
    let count = words.next().context("the count is missing")?;
    let count = count.as_str().parse::<u32>().context("the count")?;
    if count > 65_536 {
        bail!("more than 65,536 paths");
    }
    let paths = count_of(&rt, kind.as_str(), count)?;
    println!(rt; "{paths} paths")?;
    Ok(())
}
