//! The lines of pieces, exports and fixups.

use anyhow::Result;
use omos_base::SymName;
use omos_model::{Aim, Export, Field, Group, Kind, Piece, Spot};
use std::alloc::Global;

fn group_name(group: Group) -> &'static str {
    match group {
        Group::Code => "code",
        Group::Consts => "consts",
        Group::Vars => "vars",
        Group::Zeros => "zeros",
    }
}

/// The psABI's name, without `R_X86_64_`.
fn kind_name(kind: Kind) -> &'static str {
    match kind {
        Kind::Abs64 => "64",
        Kind::Pc32 => "PC32",
        Kind::Plt32 => "PLT32",
        Kind::GotPcRel => "GOTPCREL",
        Kind::Abs32 => "32",
        Kind::Abs32S => "32S",
        Kind::Pc64 => "PC64",
        Kind::GotPcRelX => "GOTPCRELX",
        Kind::RexGotPcRelX => "REX_GOTPCRELX",
    }
}

fn name_text(name: &SymName) -> &str {
    str::from_utf8(name.as_bytes()).unwrap_or("(not UTF-8)")
}

/// A piece and an offset in it, or a number.
fn spot_text(alloc: Global, spot: Spot) -> Result<String> {
    match spot {
        Spot::Inside { piece, offset } => Ok(format!(in alloc; "{piece}+{offset}")?),
        Spot::Fixed { value } => Ok(format!(in alloc; "{value}")?),
    }
}

fn aim_text(alloc: Global, aim: &Aim) -> Result<String> {
    match aim {
        Aim::At(spot) => {
            let spot = spot_text(alloc, *spot)?;
            Ok(format!(in alloc; "at {spot}")?)
        }
        Aim::Name { name, weak } => {
            let word = if *weak { "weak" } else { "name" };
            let name = name_text(name);
            Ok(format!(in alloc; "{word} {name}")?)
        }
    }
}

/// The line of a piece, with its number.
pub(crate) fn piece_line(alloc: Global, number: usize, piece: &Piece) -> Result<String> {
    let group = group_name(piece.group);
    let (align, size) = (piece.align, piece.size);
    Ok(format!(in alloc; "piece {number} {group} align {align} size {size}")?)
}

/// The line of an export.
pub(crate) fn export_line(alloc: Global, export: &Export) -> Result<String> {
    let name = name_text(&export.name);
    let spot = spot_text(alloc, export.spot)?;
    Ok(format!(in alloc; "export {name} {spot}")?)
}

/// The line of a fixup.
pub(crate) fn fixup_line(alloc: Global, field: &Field, aim: &Aim) -> Result<String> {
    let (piece, offset, addend) = (field.piece, field.offset, field.addend);
    let kind = kind_name(field.kind);
    let aim = aim_text(alloc, aim)?;
    Ok(format!(in alloc; "fixup {piece}+{offset} {kind} {addend} {aim}")?)
}
