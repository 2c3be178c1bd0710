//! A section header (System V gABI, chapter 4, "Sections").

ghost use Rattle.elf_words.specs.Shdr.{shdr_at, shdr_bytes};
ghost use Rattle.std.proofs.Common.{rules};

use crate::fits::{fits_u32, fits_u64};
use crate::record::Record;
use omos_base::{put_u32, put_u64, u32_at, u64_at};

/// A section header.
#[derive(Clone, Copy, Debug, PartialEq, Eq)]
pub struct Shdr {
    /// Where its name begins in the string table of section names.
    pub sh_name: u32,
    /// What the section holds, as SHT_PROGBITS (1), SHT_SYMTAB (2) or SHT_RELA (4).
    pub sh_type: u32,
    /// Flags, as SHF_WRITE (1), SHF_ALLOC (2) and SHF_EXECINSTR (4).
    pub sh_flags: u64,
    /// The address in the process, or 0.
    pub sh_addr: u64,
    /// Where its bytes begin in the file.
    pub sh_offset: u64,
    /// How many bytes it has.
    pub sh_size: u64,
    /// The number of a section that it stands on, as a symbol table on its strings.
    pub sh_link: u32,
    /// Of relocations, the number of their target.
    pub sh_info: u32,
    /// 0, or a power of two that its address is a multiple of.
    pub sh_addralign: u64,
    /// The size of an entry, where it is a table, or 0.
    pub sh_entsize: u64,
}

impl Record for Shdr {
    ghost SIZE = { 64 };

    ghost record_at = { shdr_at };

    ghost bytes_of = { shdr_bytes };

    const SIZE: usize = 64;

    fn read_at(bytes: &[u8], place: usize) -> Self {
        Shdr {
            sh_name: u32_at(bytes, place),
            sh_type: u32_at(bytes, place + 4),
            sh_flags: u64_at(bytes, place + 8),
            sh_addr: u64_at(bytes, place + 16),
            sh_offset: u64_at(bytes, place + 24),
            sh_size: u64_at(bytes, place + 32),
            sh_link: u32_at(bytes, place + 40),
            sh_info: u32_at(bytes, place + 44),
            sh_addralign: u64_at(bytes, place + 48),
            sh_entsize: u64_at(bytes, place + 56),
        }
    }

    fn write(&self, into: &mut [u8]) {
        put_u32(into, 0, self.sh_name);
        put_u32(into, 4, self.sh_type);
        put_u64(into, 8, self.sh_flags);
        put_u64(into, 16, self.sh_addr);
        put_u64(into, 24, self.sh_offset);
        put_u64(into, 32, self.sh_size);
        put_u32(into, 40, self.sh_link);
        put_u32(into, 44, self.sh_info);
        put_u64(into, 48, self.sh_addralign);
        put_u64(into, 56, self.sh_entsize);
    }

    fn reads_back(&self, rest: &[u8]) {
        fits_u32(self.sh_name);
        fits_u32(self.sh_type);
        fits_u64(self.sh_flags);
        fits_u64(self.sh_addr);
        fits_u64(self.sh_offset);
        fits_u64(self.sh_size);
        fits_u32(self.sh_link);
        fits_u32(self.sh_info);
        fits_u64(self.sh_addralign);
        fits_u64(self.sh_entsize);
    }

    ghost small = { Prim.search rules };
}
