//! The flags of a case.

use anyhow::{Context, Result};
use omos_outside::Flag;
use std::alloc::Global;

/// Two flags that are down at first, `a` and `b`, and one that is up, `up`.
#[derive(Drop)]
pub(crate) struct Flags {
    a: Flag,
    b: Flag,
    up: Flag,
}

impl Flags {
    pub(crate) fn new(alloc: Global) -> Result<Flags> {
        let up = Flag::new(alloc)?;
        up.raise();
        Ok(Flags {
            a: Flag::new(alloc)?,
            b: Flag::new(alloc)?,
            up,
        })
    }

    /// A second owner of the flag with this name.
    pub(crate) fn named(&self, name: &str) -> Result<Flag> {
        let flag = match name {
            "a" => Some(&self.a),
            "b" => Some(&self.b),
            "up" => Some(&self.up),
            _ => None,
        };
        Ok(flag.context("a flag is a, b or up")?.twin()?)
    }
}
