//! The tables of an object file without a fault.

ghost use Rattle.std.specs.Prelude.{◌≡◌, ◌+◌, ◌*◌, ◌/◌, ◌<◌, ◌≤◌, ◌==◌, [], None, IsTrue, length};
ghost use Rattle.std.specs.Prelude.{if◌then◌else◌};
ghost use Rattle.omos_base.specs.Fault.{MatchFault};
ghost use Rattle.omos_base.specs.Runs.{run_of};
ghost use Rattle.omos_model.specs.Names.{is_symbol_name};
ghost use Rattle.omos_model.specs.ElfFields.{e_shnum, header_at, name_of, section_bytes, sh_offset};
ghost use Rattle.omos_model.specs.ElfFields.{is_section, st_info, symbol_at, symbol_count};
ghost use Rattle.omos_model.specs.ElfFaults.{entry_count, has_name, is_kept, is_nobits};
ghost use Rattle.omos_model.specs.ElfFaults.{is_used_rela};
ghost use Rattle.omos_model.specs.ElfFaults.{object_fault};
ghost use Rattle.elf_words.specs.Shdr.{shdr_at};
ghost use Rattle.elf_words.specs.Sym.{sym_at};
ghost use Rattle.elf_object.specs.TablesOf.{AreTables};

use crate::kept::{is_kept, is_nobits};
use crate::reads::{count_of_sections, section};
use crate::relas::{RELA_SIZE, is_used};
use crate::symbols::{name, symbol};
use crate::symtab::Symbols;
use elf_words::{Shdr, Sym};
use omos_base::Row;
use std::marker::Model;

/// A run of bytes of a file.
#[derive(Clone, Copy)]
pub struct Run {
    /// Where it begins.
    pub at: u32,
    /// How many bytes there are.
    pub size: u32,
}

/// The tables of an object file without a fault, that contracts see as the file's bytes. They
/// lend these bytes; nothing is copied.
#[derive(Drop)]
pub struct Tables<'a> {
    file: &'a [u8],
    /// By a section's number whether it is kept.
    kept: Row<bool>,
    symbols: Symbols<'a>,
}

impl<'a> Model for Tables<'a> {
    ghost use Rattle.std.specs.Prelude.{List, ℕ};

    ghost Value = { List ℕ };

    ghost use Rattle.elf_object.specs.TablesOf.{AreTables};

    ghost view = { λ t. t.file.now };

    ghost invariant = { λ t.
        AreTables t.file.now t.kept t.symbols.count
        t.symbols.at t.symbols.strings_at t.symbols.strings.now };
}

impl<'a> Tables<'a> {
    /// The tables of a file that was found to have no fault.
    pub(crate) fn of(file: &'a [u8], kept: Row<bool>, symbols: Symbols<'a>) -> Tables<'a>
        requires { AreTables file.now kept symbols.count
            symbols.at symbols.strings_at symbols.strings.now }
        ensures { result ≡ file.now }
    {
        Tables {
            file,
            kept,
            symbols,
        }
    }
}

impl Tables<'_> {
    /// The file's bytes.
    pub fn file(&self) -> &[u8]
        ensures bytes { result.now ≡ self.now }
        ensures right { object_fault self.now ≡ None }
        ensures small { length self.now ≤ 1048576 }
    {
        self.file
    }

    /// How many sections there are, section 0 among them.
    pub fn sections(&self) -> u32
        ensures count { result ≡ e_shnum self.now }
        ensures few { result ≤ 4096 }
        ensures right { object_fault self.now ≡ None }
    {
        count_of_sections(self.file) as u32
    }

    /// The header of a section.
    pub fn header(&self, i: u32) -> Shdr
        requires { i < e_shnum self.now }
        ensures { result ≡ shdr_at self.now (header_at self.now i) }
    {
        section(self.file, i as usize)
    }

    /// Whether a section is kept: it is to be loaded, and of a form that can be.
    pub fn kept(&self, i: u32) -> bool
        ensures { result ≡ is_kept self.now i }
    {
        is_kept(self.file, self.kept.as_slice(), i as usize)
    }

    /// Where the bytes of a kept section stand, none where it is NOBITS.
    pub fn bytes_at(&self, i: u32) -> Run
        requires { IsTrue (is_kept self.now i) }
        ensures bytes { run_of result.at result.size self.now
            ≡ (if is_nobits self.now i then [] else section_bytes self.now i) }
        ensures inside { result.at + result.size ≤ length self.now }
    {
        if is_nobits(self.file, i as usize) {
            return Run { at: 0, size: 0 };
        }
        let header = section(self.file, i as usize);
        Run {
            at: header.sh_offset as u32,
            size: header.sh_size as u32,
        }
    }

    /// How many symbols there are, symbol 0 among them, and 0 without a symbol table.
    pub fn symbols(&self) -> u32
        ensures count { result ≡ symbol_count self.now }
        ensures right { object_fault self.now ≡ None }
    {
        self.symbols.count
    }

    /// A symbol.
    pub fn symbol(&self, k: u32) -> Sym
        requires { k < symbol_count self.now }
        ensures read { result ≡ sym_at self.now (symbol_at self.now k) }
        ensures info { result.st_info ≡ st_info self.now k }
    {
        symbol(self.file, self.symbols, k)
    }

    /// Where the name of a GLOBAL or WEAK symbol stands, which is a symbol name. It costs the
    /// name's bytes.
    pub fn name_at(&self, k: u32) -> Run
        requires counted { 1 ≤ k }
        requires there { k < symbol_count self.now }
        requires named { IsTrue (has_name self.now k) }
        ensures name { run_of result.at result.size self.now ≡ name_of self.now k }
        ensures lawful { IsTrue (is_symbol_name (name_of self.now k)) }
        ensures inside { result.at + result.size ≤ length self.now }
    {
        let name = name(self.file, self.symbols, k);
        Run {
            at: self.symbols.strings_at as u32 + symbol(self.file, self.symbols, k).st_name,
            size: name.len() as u32,
        }
    }

    /// Whether a section has relocations of a kept section.
    pub fn is_used(&self, i: u32) -> bool
        requires { i < e_shnum self.now }
        ensures { result ≡ is_used_rela self.now i }
    {
        is_used(self.file, self.kept.as_slice(), i as usize)
    }

    /// How many relocations there are in a section that has those of a kept section.
    pub fn entries(&self, i: u32) -> u32
        requires there { IsTrue (is_section self.now i) }
        requires used { IsTrue (is_used_rela self.now i) }
        ensures { result ≡ entry_count self.now i }
    {
        (section(self.file, i as usize).sh_size / RELA_SIZE) as u32
    }

    /// Where the relocations of a section that has those of a kept section begin in the file.
    pub fn entries_at(&self, i: u32) -> usize
        requires there { IsTrue (is_section self.now i) }
        requires used { IsTrue (is_used_rela self.now i) }
        ensures place { result ≡ sh_offset self.now i }
        ensures inside { result + 24 * entry_count self.now i ≤ length self.now }
        ensures small { length self.now ≤ 1048576 }
    {
        section(self.file, i as usize).sh_offset as usize
    }
}
