//! The symbol table (System V gABI, chapter 4, "Symbol Table"): which section it is, and whether
//! it can be read. Nothing here reads a symbol.

ghost use Rattle.std.specs.Prelude.{◌≡◌, ◌+◌, ◌*◌, ◌/◌, ◌%◌, ◌<◌, ◌≤◌, true, false, MatchResult};
ghost use Rattle.std.specs.Option.{option_to_list};
ghost use Rattle.omos_model.specs.ElfFields.{e_shnum, is_symtab, section_bytes, sh_link, sh_offset};
ghost use Rattle.omos_model.specs.ElfFields.{sh_size, symtabs};
ghost use Rattle.omos_model.specs.ElfFaults.{are_right_symtabs, is_right_symtab, is_strtab};
ghost use Rattle.elf_object.specs.Stages.{HasHeaders, IsSymbolsFault};
ghost use Rattle.elf_object.specs.TablesOf.{AreSymbols, StandsAt};

use crate::kept::{is_section, lies_in_file};
use crate::reads::{bytes_of, count_of_sections, section};
use elf_words::values::{SHT_STRTAB, SHT_SYMTAB};
use omos_model::ObjectFault;

/// The size of a symbol.
const SYM_SIZE: u64 = 24;

const MAX_SYMBOLS: u64 = 65_535;

/// The symbols of a file.
#[derive(Clone, Copy)]
pub(crate) struct Symbols<'a> {
    /// How many there are, symbol 0 among them.
    pub(crate) count: u32,
    /// Where symbol 0 begins.
    pub(crate) at: usize,
    /// Their string table.
    pub(crate) strings: &'a [u8],
    /// Where the string table begins in the file.
    pub(crate) strings_at: usize,
}

/// A section, by its number, that is a symbol table.
pub(crate) fn is_symtab(file: &[u8], i: usize) -> bool
    requires { HasHeaders file.now }
    ensures { result ≡ is_symtab file.now i }
{
    is_section(file, i) && section(file, i).sh_type == SHT_SYMTAB
}

/// A section, by its number, that is a string table and lies in the file.
fn is_strtab(file: &[u8], i: usize) -> bool
    requires { HasHeaders file.now }
    ensures { result ≡ is_strtab file.now i }
{
    is_section(file, i) && section(file, i).sh_type == SHT_STRTAB && lies_in_file(file, i)
}

/// A symbol table of at most 65,535 entries that lies in the file, as its string table does.
fn is_right_symtab(file: &[u8], i: usize) -> bool
    requires headers { HasHeaders file.now }
    requires there { i < e_shnum file.now }
    ensures { result ≡ is_right_symtab file.now i }
{
    let header = section(file, i);
    header.sh_entsize == SYM_SIZE
        && header.sh_size % SYM_SIZE == 0
        && header.sh_size / SYM_SIZE <= MAX_SYMBOLS
        && lies_in_file(file, i)
        && is_strtab(file, header.sh_link as usize)
}

/// The symbol table's number, where there is one. Two of them are a fault.
fn only_symtab(file: &[u8]) -> Result<Option<usize>, ObjectFault>
    requires { HasHeaders file.now }
    ensures { MatchResult result (λ found. symtabs file.now ≡ option_to_list found)
        (IsSymbolsFault file.now) }
{
    let mut found = None;
    for i in 1..count_of_sections(file) {
        if is_symtab(file, i) {
            if found.is_some() {
                return Err(ObjectFault::Symbols);
            }
            found = Some(i);
        }
    }
    Ok(found)
}

/// The symbols of a right symbol table.
fn lend(file: &[u8], table: usize) -> Symbols<'_>
    requires headers { HasHeaders file.now }
    requires there { table < e_shnum file.now }
    requires right { is_right_symtab file.now table ≡ true }
    ensures count { result.count ≡ sh_size file.now table / 24 }
    ensures at { result.at ≡ sh_offset file.now table }
    ensures strings { result.strings.now ≡ section_bytes file.now (sh_link file.now table) }
    ensures stand { StandsAt file.now result.strings_at result.strings.now }
{
    let header = section(file, table);
    let names = header.sh_link as usize;
    Symbols {
        count: (header.sh_size / SYM_SIZE) as u32,
        at: header.sh_offset as usize,
        strings: bytes_of(file, names),
        strings_at: section(file, names).sh_offset as usize,
    }
}

/// The symbols of a file, none where it has no symbol table.
pub(crate) fn symbols_of(file: &[u8]) -> Result<Symbols<'_>, ObjectFault>
    requires { HasHeaders file.now }
    ensures { MatchResult result
        (λ s. AreSymbols file.now s.count s.at s.strings.now
        × (are_right_symtabs file.now (symtabs file.now) ≡ true)
        × StandsAt file.now s.strings_at s.strings.now)
        (IsSymbolsFault file.now) }
{
    let Some(table) = only_symtab(file)? else {
        return Ok(Symbols {
            count: 0,
            at: 0,
            strings: &[],
            strings_at: 0,
        });
    };
    if is_right_symtab(file, table) {
        Ok(lend(file, table))
    } else {
        Err(ObjectFault::Symbols)
    }
}
