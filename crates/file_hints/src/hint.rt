//! What the section, symbol or relocation is called of which a refusal has the number.

use crate::elf::{relocation, section, section_name, symbol, symbol_name, symbol_table};
use crate::numbers::relocation_name;
use elf_words::{Shdr, Sym};
use std::fmt;

const SHT_GROUP: u32 = 17;

const SHF_TLS: u64 = 0x400;

const SHF_COMPRESSED: u64 = 0x800;

const STT_TLS: u8 = 6;

const STT_GNU_IFUNC: u8 = 10;

const STB_GNU_UNIQUE: u8 = 10;

/// A name behind a number.
#[derive(Drop)]
pub(crate) enum Hint<'a> {
    /// A section of this name. What is said of it stands behind, or nothing.
    Section {
        number: u32,
        name: &'a str,
        is: &'static str,
    },
    /// A group of sections, with the name of the symbol that it is for.
    Group {
        number: u32,
        symbol: &'a str,
    },
    /// A symbol.
    Symbol {
        number: u32,
        name: &'a str,
        is: &'static str,
    },
    /// A relocation of a section.
    Relocation {
        number: u32,
        section: &'a str,
        kind: &'static str,
        symbol: &'a str,
    },
}

impl fmt::Display for Hint<'_> {
    fn fmt<W: fmt::Write>(&self, f: &mut fmt::Formatter<W>) -> fmt::Result {
        match self {
            Hint::Section { number, name, is } => write!(f, "Section {number} is `{name}`{is}."),
            Hint::Group { number, symbol } => {
                write!(f, "Section {number} is the COMDAT group of `{symbol}`.")
            }
            Hint::Symbol { number, name, is } => write!(f, "Symbol {number} is `{name}`{is}."),
            Hint::Relocation {
                number,
                section,
                kind,
                symbol,
            } => write!(
                f,
                "Relocation {number} of `{section}` is {kind}, against `{symbol}`."
            ),
        }
    }
}

/// The flag, which is a power of two, is set.
fn has(flags: u64, flag: u64) -> bool {
    flags & flag != 0
}

/// What makes a section one that isn't linked.
fn kind_of_section(header: &Shdr) -> &'static str {
    if has(header.sh_flags, SHF_TLS) {
        ", which is thread-local"
    } else if has(header.sh_flags, SHF_COMPRESSED) {
        ", which is compressed"
    } else {
        ""
    }
}

/// The name of the symbol that a group of sections is for.
fn group_name<'a>(file: &'a [u8], header: &Shdr) -> Option<&'a str> {
    let table = section(file, header.sh_link)?;
    let symbol = symbol(file, &table, header.sh_info)?;
    symbol_name(file, &table, &symbol)
}

/// What a section is called.
pub(crate) fn of_section(file: &[u8], number: u32) -> Option<Hint<'_>> {
    let header = section(file, number)?;
    if header.sh_type == SHT_GROUP {
        return Some(Hint::Group {
            number,
            symbol: group_name(file, &header)?,
        });
    }
    Some(Hint::Section {
        number,
        name: section_name(file, number)?,
        is: kind_of_section(&header),
    })
}

/// What makes a symbol one that isn't linked.
fn kind_of_symbol(symbol: &Sym) -> &'static str {
    match symbol.st_info % 16 {
        STT_TLS => return ", which is thread-local",
        STT_GNU_IFUNC => return ", an indirect function (ifunc)",
        _ => {}
    }
    if symbol.st_info / 16 == STB_GNU_UNIQUE {
        ", which is unique (STB_GNU_UNIQUE)"
    } else {
        ""
    }
}

/// What a symbol is called.
pub(crate) fn of_symbol(file: &[u8], number: u32) -> Option<Hint<'_>> {
    let table = symbol_table(file)?;
    let symbol = symbol(file, &table, number)?;
    Some(Hint::Symbol {
        number,
        name: symbol_name(file, &table, &symbol)?,
        is: kind_of_symbol(&symbol),
    })
}

/// What a relocation of a section is, and against which symbol.
pub(crate) fn of_relocation(file: &[u8], number: u32, entry: u32) -> Option<Hint<'_>> {
    let header = section(file, number)?;
    let rela = relocation(file, &header, entry)?;
    let table = section(file, header.sh_link)?;
    let symbol = symbol(file, &table, (rela.r_info >> 32) as u32)?;
    Some(Hint::Relocation {
        number: entry,
        section: section_name(file, number)?,
        kind: relocation_name((rela.r_info % (1 << 32)) as u32),
        symbol: symbol_name(file, &table, &symbol)?,
    })
}
