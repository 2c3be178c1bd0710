//! A relocation with an addend (System V gABI, chapter 4, "Relocation").

ghost use Rattle.elf_words.specs.Rela.{rela_at, rela_bytes};
ghost use Rattle.std.proofs.Common.{rules};

use crate::record::Record;
use omos_base::{put_u64, u64_at};

/// A relocation with an addend.
#[derive(Clone, Copy, Debug, PartialEq, Eq)]
pub struct Rela {
    /// Where the field begins in the section.
    pub r_offset: u64,
    /// The number of the symbol times 2 to the 32nd, and the relocation's type.
    pub r_info: u64,
    /// What is added to the symbol's address.
    pub r_addend: i64,
}

impl Record for Rela {
    ghost SIZE = { 24 };

    ghost record_at = { rela_at };

    ghost bytes_of = { rela_bytes };

    const SIZE: usize = 24;

    fn read_at(bytes: &[u8], place: usize) -> Self {
        Rela {
            r_offset: u64_at(bytes, place),
            r_info: u64_at(bytes, place + 8),
            r_addend: u64_at(bytes, place + 16).cast_signed(),
        }
    }

    fn write(&self, into: &mut [u8]) {
        put_u64(into, 0, self.r_offset);
        put_u64(into, 8, self.r_info);
        put_u64(into, 16, self.r_addend.cast_unsigned());
    }

    fn reads_back(&self, rest: &[u8]) {
        let Rela {
            r_offset: _r_offset,
            r_info: _r_info,
            r_addend: _r_addend,
        } = *self;
    }

    ghost small = { Prim.search rules };
}
