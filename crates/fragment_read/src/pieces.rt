//! The pieces: the kept sections by number, then the common symbols by number.

ghost use Rattle.std.specs.Prelude.{◌≡◌, ◌<◌, ◌≤◌, ◌/◌, ◌%◌, ◌==◌, ◌||◌, ◌++◌, None, IfOk, IsTrue};
ghost use Rattle.std.specs.Prelude.{OnOk, filter, map};
ghost use Rattle.omos_model.specs.FragmentParts.{is_alignment};
ghost use Rattle.omos_model.specs.ElfFields.{e_shnum, symbol_count, symbols};
ghost use Rattle.omos_model.specs.ElfFaults.{is_kept, object_fault};
ghost use Rattle.omos_model.specs.FragmentOf.{alignment_of, group_of, is_common, kept_sections};
ghost use Rattle.omos_model.specs.FragmentOf.{piece_of_common, piece_of_section, pieces_of};

use crate::symbols::is_common;
use elf_object::Tables;
use elf_words::values::{SHF_EXECINSTR, SHF_WRITE, SHT_NOBITS};
use omos_base::{NoMemory, Part, Row};
use omos_model::{Group, Piece};
use std::alloc::Global;

/// The flag, which is a power of two, is set.
fn has(flags: u64, flag: u64) -> bool
    requires { 0 < flag }
    ensures { result ≡ (flags / flag % 2 == 1) }
{
    flags / flag % 2 == 1
}

fn group_of(tables: &Tables<'_>, i: u32) -> Group
    requires { i < e_shnum tables.now }
    ensures { result ≡ group_of tables.now i }
{
    let header = tables.header(i);
    if header.sh_type == SHT_NOBITS {
        Group::Zeros
    } else if has(header.sh_flags, SHF_EXECINSTR) {
        Group::Code
    } else if has(header.sh_flags, SHF_WRITE) {
        Group::Vars
    } else {
        Group::Consts
    }
}

/// An alignment of 0 is 1.
#[tactic(auto, using(crate::proofs::Right::small_alignment))]
fn alignment_of(align: u64) -> u32
    requires { IsTrue (align == 0 || is_alignment align) }
    ensures { result ≡ alignment_of align }
{
    if align == 0 { 1 } else { align as u32 }
}

fn piece_of_section(file: &Part, tables: &Tables<'_>, i: u32) -> Result<Piece, NoMemory>
    requires right { object_fault tables.now ≡ None }
    requires same { file.now ≡ tables.now }
    requires kept { IsTrue (is_kept tables.now i) }
    ensures { IfOk result (λ p. p ≡ piece_of_section tables.now i) }
{
    let header = tables.header(i);
    let bytes = tables.bytes_at(i);
    Ok(Piece {
        group: group_of(tables, i),
        align: alignment_of(header.sh_addralign),
        size: header.sh_size as u32,
        bytes: file.cut(bytes.at, bytes.size)?,
    })
}

fn section_pieces(alloc: Global, file: &Part, tables: &Tables<'_>) -> Result<Row<Piece>, NoMemory>
    requires right { object_fault tables.now ≡ None }
    requires same { file.now ≡ tables.now }
    ensures { IfOk result
        (λ ps. ps ≡ map (piece_of_section tables.now) (kept_sections tables.now)) }
{
    let mut pieces = Row::new(alloc);
    for i in 1..tables.sections() {
        if tables.kept(i) {
            pieces.push(piece_of_section(file, tables, i)?)?;
        }
    }
    Ok(pieces)
}

/// The zeros of a common symbol, whose value is its alignment. They have no bytes in the file.
fn piece_of_common(file: &Part, tables: &Tables<'_>, k: u32) -> Result<Piece, NoMemory>
    requires right { object_fault tables.now ≡ None }
    requires counted { 1 ≤ k }
    requires there { k < symbol_count tables.now }
    requires common { IsTrue (is_common tables.now k) }
    ensures { IfOk result (λ p. p ≡ piece_of_common tables.now k) }
{
    let symbol = tables.symbol(k);
    Ok(Piece {
        group: Group::Zeros,
        align: alignment_of(symbol.st_value),
        size: symbol.st_size as u32,
        bytes: file.cut(0, 0)?,
    })
}

fn push_commons(file: &Part, tables: &Tables<'_>, pieces: &mut Row<Piece>) -> Result<(), NoMemory>
    requires { object_fault tables.now ≡ None }
    ensures { OnOk result (pieces.new ≡ pieces.old
        ++ map (piece_of_common tables.now) (filter (is_common tables.now) (symbols tables.now))) }
{
    for k in 1..tables.symbols() {
        if is_common(tables, k) {
            pieces.push(piece_of_common(file, tables, k)?)?;
        }
    }
    Ok(())
}

/// The pieces of an object file. Their bytes are the file's.
pub(crate) fn pieces(
    alloc: Global,
    file: &Part,
    tables: &Tables<'_>,
) -> Result<Row<Piece>, NoMemory>
    requires right { object_fault tables.now ≡ None }
    requires same { file.now ≡ tables.now }
    ensures { IfOk result (λ ps. ps ≡ pieces_of tables.now) }
{
    let mut pieces = section_pieces(alloc, file, tables)?;
    push_commons(file, tables, &mut pieces)?;
    Ok(pieces)
}
