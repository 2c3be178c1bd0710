//! The ELF header, at the beginning of a file (System V gABI, chapter 4, "ELF Header").

ghost use Rattle.elf_words.specs.Ehdr.{ehdr_at, ehdr_bytes};
ghost use Rattle.std.proofs.Common.{rules};

use crate::fits::{fits_u16, fits_u32, fits_u64};
use crate::put::put_bytes;
use crate::record::Record;
use omos_base::{put_u16, put_u32, put_u64, u16_at, u32_at, u64_at};

/// The ELF header, at the beginning of a file.
#[derive(Clone, Copy, Debug, PartialEq, Eq)]
pub struct Ehdr {
    /// 7F and `ELF`, the class, the encoding, the version, the ABI, and zeros.
    pub e_ident: [u8; 16],
    /// ET_REL (1), ET_EXEC (2), ET_DYN (3) or ET_CORE (4).
    pub e_type: u16,
    /// The architecture, as EM_X86_64 (62).
    pub e_machine: u16,
    /// EV_CURRENT (1).
    pub e_version: u32,
    /// The address at which the process starts, or 0.
    pub e_entry: u64,
    /// Where the program headers begin in the file, or 0.
    pub e_phoff: u64,
    /// Where the section headers begin in the file, or 0.
    pub e_shoff: u64,
    /// Flags of the architecture; x86-64 has none.
    pub e_flags: u32,
    /// The size of this header, 64.
    pub e_ehsize: u16,
    /// The size of a program header, 56.
    pub e_phentsize: u16,
    /// How many program headers there are.
    pub e_phnum: u16,
    /// The size of a section header, 64.
    pub e_shentsize: u16,
    /// How many section headers there are.
    pub e_shnum: u16,
    /// The number of the section with the names of sections, or 0.
    pub e_shstrndx: u16,
}

impl Record for Ehdr {
    ghost SIZE = { 64 };

    ghost record_at = { ehdr_at };

    ghost bytes_of = { ehdr_bytes };

    const SIZE: usize = 64;

    fn read_at(bytes: &[u8], place: usize) -> Self {
        let mut e_ident = [0; 16];
        e_ident.copy_from_slice(&bytes[place..place + 16]);
        Ehdr {
            e_ident,
            e_type: u16_at(bytes, place + 16),
            e_machine: u16_at(bytes, place + 18),
            e_version: u32_at(bytes, place + 20),
            e_entry: u64_at(bytes, place + 24),
            e_phoff: u64_at(bytes, place + 32),
            e_shoff: u64_at(bytes, place + 40),
            e_flags: u32_at(bytes, place + 48),
            e_ehsize: u16_at(bytes, place + 52),
            e_phentsize: u16_at(bytes, place + 54),
            e_phnum: u16_at(bytes, place + 56),
            e_shentsize: u16_at(bytes, place + 58),
            e_shnum: u16_at(bytes, place + 60),
            e_shstrndx: u16_at(bytes, place + 62),
        }
    }

    fn write(&self, into: &mut [u8]) {
        put_bytes(into, 0, &self.e_ident);
        put_u16(into, 16, self.e_type);
        put_u16(into, 18, self.e_machine);
        put_u32(into, 20, self.e_version);
        put_u64(into, 24, self.e_entry);
        put_u64(into, 32, self.e_phoff);
        put_u64(into, 40, self.e_shoff);
        put_u32(into, 48, self.e_flags);
        put_u16(into, 52, self.e_ehsize);
        put_u16(into, 54, self.e_phentsize);
        put_u16(into, 56, self.e_phnum);
        put_u16(into, 58, self.e_shentsize);
        put_u16(into, 60, self.e_shnum);
        put_u16(into, 62, self.e_shstrndx);
    }

    fn reads_back(&self, rest: &[u8]) {
        let _e_ident = self.e_ident;
        fits_u16(self.e_type);
        fits_u16(self.e_machine);
        fits_u32(self.e_version);
        fits_u64(self.e_entry);
        fits_u64(self.e_phoff);
        fits_u64(self.e_shoff);
        fits_u32(self.e_flags);
        fits_u16(self.e_ehsize);
        fits_u16(self.e_phentsize);
        fits_u16(self.e_phnum);
        fits_u16(self.e_shentsize);
        fits_u16(self.e_shnum);
        fits_u16(self.e_shstrndx);
    }

    ghost small = { Prim.search rules };
}
