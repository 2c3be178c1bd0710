//! A program header (System V gABI, chapter 5, "Program Header").

ghost use Rattle.elf_words.specs.Phdr.{phdr_at, phdr_bytes};
ghost use Rattle.std.proofs.Common.{rules};

use crate::record::Record;
use omos_base::{put_u32, put_u64, u32_at, u64_at};

/// A program header.
#[derive(Clone, Copy, Debug, PartialEq, Eq)]
pub struct Phdr {
    /// What the segment is, as PT_LOAD (1) or PT_GNU_STACK (6474E551).
    pub p_type: u32,
    /// PF_X (1), PF_W (2) and PF_R (4).
    pub p_flags: u32,
    /// Where its bytes begin in the file.
    pub p_offset: u64,
    /// The address in the process.
    pub p_vaddr: u64,
    /// The physical address, where one is meant.
    pub p_paddr: u64,
    /// How many bytes it has in the file.
    pub p_filesz: u64,
    /// How many bytes it has in the process.
    pub p_memsz: u64,
    /// A power of two; addresses and offsets agree modulo it. 0 and 1 ask for nothing.
    pub p_align: u64,
}

impl Record for Phdr {
    ghost SIZE = { 56 };

    ghost record_at = { phdr_at };

    ghost bytes_of = { phdr_bytes };

    const SIZE: usize = 56;

    fn read_at(bytes: &[u8], place: usize) -> Self {
        Phdr {
            p_type: u32_at(bytes, place),
            p_flags: u32_at(bytes, place + 4),
            p_offset: u64_at(bytes, place + 8),
            p_vaddr: u64_at(bytes, place + 16),
            p_paddr: u64_at(bytes, place + 24),
            p_filesz: u64_at(bytes, place + 32),
            p_memsz: u64_at(bytes, place + 40),
            p_align: u64_at(bytes, place + 48),
        }
    }

    fn write(&self, into: &mut [u8]) {
        put_u32(into, 0, self.p_type);
        put_u32(into, 4, self.p_flags);
        put_u64(into, 8, self.p_offset);
        put_u64(into, 16, self.p_vaddr);
        put_u64(into, 24, self.p_paddr);
        put_u64(into, 32, self.p_filesz);
        put_u64(into, 40, self.p_memsz);
        put_u64(into, 48, self.p_align);
    }

    fn reads_back(&self, rest: &[u8]) {
        let Phdr {
            p_type: _p_type,
            p_flags: _p_flags,
            p_offset: _p_offset,
            p_vaddr: _p_vaddr,
            p_paddr: _p_paddr,
            p_filesz: _p_filesz,
            p_memsz: _p_memsz,
            p_align: _p_align,
        } = *self;
    }

    ghost small = { Prim.search rules };
}
