//! A symbol (System V gABI, chapter 4, "Symbol Table").

ghost use Rattle.elf_words.specs.Sym.{sym_at, sym_bytes};
ghost use Rattle.std.proofs.Common.{rules};

use crate::put::put_bytes;
use crate::record::Record;
use omos_base::{put_u16, put_u32, put_u64, u16_at, u32_at, u64_at};

/// A symbol.
#[derive(Clone, Copy, Debug, PartialEq, Eq)]
pub struct Sym {
    /// Where its name begins in the string table, or 0.
    pub st_name: u32,
    /// The binding, as STB_GLOBAL (1), times 16, and the type, as STT_FUNC (2).
    pub st_info: u8,
    /// The visibility, STV_DEFAULT (0) to STV_PROTECTED (3).
    pub st_other: u8,
    /// The number of its section, or SHN_UNDEF (0), SHN_ABS (FFF1) or SHN_COMMON (FFF2).
    pub st_shndx: u16,
    /// Its offset in the section, its value or its alignment.
    pub st_value: u64,
    /// How many bytes it names, or 0.
    pub st_size: u64,
}

impl Record for Sym {
    ghost SIZE = { 24 };

    ghost record_at = { sym_at };

    ghost bytes_of = { sym_bytes };

    const SIZE: usize = 24;

    fn read_at(bytes: &[u8], place: usize) -> Self {
        Sym {
            st_name: u32_at(bytes, place),
            st_info: bytes[place + 4],
            st_other: bytes[place + 5],
            st_shndx: u16_at(bytes, place + 6),
            st_value: u64_at(bytes, place + 8),
            st_size: u64_at(bytes, place + 16),
        }
    }

    fn write(&self, into: &mut [u8]) {
        put_u32(into, 0, self.st_name);
        put_bytes(into, 4, &[self.st_info, self.st_other]);
        put_u16(into, 6, self.st_shndx);
        put_u64(into, 8, self.st_value);
        put_u64(into, 16, self.st_size);
    }

    fn reads_back(&self, rest: &[u8]) {
        let Sym {
            st_name: _st_name,
            st_info: _st_info,
            st_other: _st_other,
            st_shndx: _st_shndx,
            st_value: _st_value,
            st_size: _st_size,
        } = *self;
    }

    ghost small = { Prim.search rules };
}
