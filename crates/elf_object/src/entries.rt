//! Relocations (System V gABI, chapter 4, "Relocation"; x86-64 psABI, "Relocation Types"), and
//! the first that is wrong.

ghost use Rattle.std.specs.Prelude.{◌≡◌, ◌+◌, ◌*◌, ◌/◌, ◌%◌, ◌^◌, ◌<◌, ◌==◌, ◌&&◌, false, not};
ghost use Rattle.std.specs.Prelude.{nat_le, None};
ghost use Rattle.std.specs.List.{find};
ghost use Rattle.std.specs.Option.{option_map_or};
ghost use Rattle.omos_model.specs.FragmentParts.{width};
ghost use Rattle.omos_model.specs.Numbers.{numbers_from};
ghost use Rattle.omos_model.specs.ElfFields.{sections};
ghost use Rattle.omos_model.specs.ElfFaults.{entries, entry_count, is_aim_of, is_wrong_entry};
ghost use Rattle.omos_model.specs.ElfFaults.{is_wrong_rela, kind_of};
ghost use Rattle.elf_object.specs.Stages.{HasHeaders, IsReadable};
ghost use Rattle.elf_object.specs.TablesOf.{AreKeptSections, AreSymbols};

use crate::kept::{is_kept, is_section};
use crate::reads::{count_of_sections, section};
use crate::relas::{RELA_SIZE, is_used};
use crate::symbols::symbol;
use crate::symtab::Symbols;
use elf_words::values::{
    R_X86_64_32, R_X86_64_32S, R_X86_64_64, R_X86_64_GOTPCREL, R_X86_64_GOTPCRELX, R_X86_64_NONE,
    R_X86_64_PC32, R_X86_64_PC64, R_X86_64_PLT32, R_X86_64_REX_GOTPCRELX, STB_LOCAL,
};
use elf_words::{Record, Rela};
use omos_model::Kind;

/// The kind of field that a relocation type stands for, where it is supported and isn't NONE.
pub fn kind_of(r_type: u32) -> Option<Kind>
    ensures { result ≡ kind_of r_type }
{
    match r_type {
        R_X86_64_64 => Some(Kind::Abs64),
        R_X86_64_PC32 => Some(Kind::Pc32),
        R_X86_64_PLT32 => Some(Kind::Plt32),
        R_X86_64_GOTPCREL => Some(Kind::GotPcRel),
        R_X86_64_32 => Some(Kind::Abs32),
        R_X86_64_32S => Some(Kind::Abs32S),
        R_X86_64_PC64 => Some(Kind::Pc64),
        R_X86_64_GOTPCRELX => Some(Kind::GotPcRelX),
        R_X86_64_REX_GOTPCRELX => Some(Kind::RexGotPcRelX),
        _ => None,
    }
}

/// How many bytes a field has.
fn width(kind: Kind) -> u64
    ensures { result ≡ width kind }
{
    match kind {
        Kind::Abs64 | Kind::Pc64 => 8,
        _ => 4,
    }
}

/// The field lies in a target of this size.
fn is_in_target(r_type: u32, r_offset: u64, size: u64) -> bool
    ensures { result ≡ option_map_or (λ kind. nat_le (r_offset + width kind) size)
        (kind_of r_type) false }
{
    match kind_of(r_type) {
        Some(kind) => match r_offset.checked_add(width(kind)) {
            Some(end) => end <= size,
            None => false,
        },
        None => false,
    }
}

/// A symbol by its number, 0 among them, that isn't a LOCAL one of a section that isn't kept.
fn is_aim(file: &[u8], kept: &[bool], table: Symbols<'_>, k: u32) -> bool
    requires headers { HasHeaders file.now }
    requires sections { AreKeptSections file.now kept.now }
    requires right { AreSymbols file.now table.count table.at table.strings.now }
    ensures { result ≡ is_aim_of file.now k }
{
    if k >= table.count {
        return false;
    }
    if k == 0 {
        return true;
    }
    let symbol = symbol(file, table, k);
    let index = symbol.st_shndx as usize;
    symbol.st_info / 16 != STB_LOCAL || is_kept(file, kept, index) || !is_section(file, index)
}

/// A relocation of another type than NONE whose type, field or symbol is wrong.
fn is_wrong(file: &[u8], kept: &[bool], table: Symbols<'_>, size: u64, entry: Rela) -> bool
    requires headers { HasHeaders file.now }
    requires sections { AreKeptSections file.now kept.now }
    requires right { AreSymbols file.now table.count table.at table.strings.now }
    ensures { let r_type = entry.r_info % 2 ^ 32 in
        result ≡ (not (r_type == 0)
        && not (option_map_or (λ kind. nat_le (entry.r_offset + width kind) size)
        (kind_of r_type) false && is_aim_of file.now (entry.r_info / 2 ^ 32))) }
{
    let r_type = (entry.r_info % 0x1_0000_0000) as u32;
    let r_sym = (entry.r_info / 0x1_0000_0000) as u32;
    r_type != R_X86_64_NONE
        && !(is_in_target(r_type, entry.r_offset, size) && is_aim(file, kept, table, r_sym))
}

/// The first relocation of a section that is wrong.
fn first_in(file: &[u8], kept: &[bool], table: Symbols<'_>, i: usize) -> Option<u32>
    requires headers { HasHeaders file.now }
    requires sections { AreKeptSections file.now kept.now }
    requires right { AreSymbols file.now table.count table.at table.strings.now }
    requires readable { IsReadable file.now i }
    ensures { result ≡ find (λ j. is_wrong_entry file.now (i, j))
        (numbers_from 0 (entry_count file.now i)) }
{
    let header = section(file, i);
    let size = section(file, header.sh_info as usize).sh_size;
    let at = header.sh_offset as usize;
    for j in 0..(header.sh_size / RELA_SIZE) as u32 {
        let entry = Rela::read_at(file, at + 24 * j as usize);
        if is_wrong(file, kept, table, size, entry) {
            return Some(j);
        }
    }
    None
}

/// The first relocation that is wrong, by its section and its number in that.
pub(crate) fn first_wrong(file: &[u8], kept: &[bool], table: Symbols<'_>) -> Option<(u32, u32)>
    requires headers { HasHeaders file.now }
    requires sections { AreKeptSections file.now kept.now }
    requires right { AreSymbols file.now table.count table.at table.strings.now }
    requires relas { find (is_wrong_rela file.now) (sections file.now) ≡ None }
    ensures { result ≡ find (is_wrong_entry file.now) (entries file.now) }
{
    for i in 1..count_of_sections(file) {
        if is_used(file, kept, i) {
            if let Some(j) = first_in(file, kept, table, i) {
                return Some((i as u32, j));
            }
        }
    }
    None
}
