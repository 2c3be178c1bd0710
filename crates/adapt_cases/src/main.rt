//! Shows the real outside at work: files and a socket file in the folder that it is run in. It
//! prints a line a case, `ok NAME` or `WRONG NAME`, and leaves nothing behind.
//!
//! No contract says what the system does, so these cases are all that is known of it.
#![tactic(auto)]

mod files;
mod sockets;

use anyhow::Result;

/// Prints a case's line.
pub(crate) fn report(rt: &HostRuntime, name: &str, holds: bool) -> Result<()> {
    if holds {
        println!(rt; "ok {name}")?;
    } else {
        println!(rt; "WRONG {name}")?;
    }
    Ok(())
}

fn main(rt: HostRuntime) -> Result<()> {
    files::run(&rt)?;
    sockets::run(&rt)
}
