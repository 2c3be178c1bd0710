//! Prints what the linker keeps of an object file: a line for each piece, export and fixup, or the
//! line of its refusal.
//!
//!     piece 0 code align 16 size 6
//!     export _start 0+0
//!     fixup 0+1 PLT32 -4 name puts
//!
//! The file's path is the one word of the command line. tests/real.py compares the lines with what
//! readelf prints.
#![tactic(auto)]

mod lines;

use crate::lines::{export_line, fixup_line, piece_line};
use anyhow::{Context, Result};
use fragment_read::fragment;
use omos_base::Fault;
use omos_model::Fragment;
use refusal_lines::object_line;
use std::{env, fs};

fn print_fragment(rt: &HostRuntime, fragment: &Fragment) -> Result<()> {
    for (number, piece) in fragment.pieces().iter().enumerate() {
        rt.println(piece_line(rt.alloc(), number, piece)?.as_str())?;
    }
    for export in fragment.exports() {
        rt.println(export_line(rt.alloc(), export)?.as_str())?;
    }
    let fixups = fragment.fixups();
    for (place, field) in fixups.fields().iter().enumerate() {
        let aim = fixups.aims().get(place);
        rt.println(fixup_line(rt.alloc(), field, aim)?.as_str())?;
    }
    Ok(())
}

fn main(rt: HostRuntime) -> Result<()> {
    let path = env::args(&rt)?
        .nth(1)
        .context("usage: omos_fragment OBJECT")?;
    let file = fs::read(&rt, path.as_str()).context("reading the object")?;
    match fragment(rt.alloc(), &file) {
        Ok(fragment) => print_fragment(&rt, &fragment),
        Err(Fault::Refused(fault)) => {
            rt.print(str::from_utf8(object_line(&fault).as_slice())?)?;
            Ok(())
        }
        Err(Fault::NoMemory) => Err(anyhow::Error::msg("no memory")),
    }
}
