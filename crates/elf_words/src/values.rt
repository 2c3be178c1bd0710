//! Values of fields, in the standards' own names and notation (System V gABI, chapter 4; x86-64
//! psABI, "Special Sections" and "Relocation Types").

/// Types of sections, in `sh_type`.
pub const SHT_PROGBITS: u32 = 1;

pub const SHT_SYMTAB: u32 = 2;

pub const SHT_STRTAB: u32 = 3;

pub const SHT_RELA: u32 = 4;

pub const SHT_NOTE: u32 = 7;

pub const SHT_NOBITS: u32 = 8;

pub const SHT_REL: u32 = 9;

pub const SHT_INIT_ARRAY: u32 = 14;

pub const SHT_FINI_ARRAY: u32 = 15;

pub const SHT_GROUP: u32 = 17;

pub const SHT_SYMTAB_SHNDX: u32 = 18;

pub const SHT_X86_64_UNWIND: u32 = 0x7000_0001;

/// Flags of sections, in `sh_flags`.
pub const SHF_WRITE: u64 = 0x1;

pub const SHF_ALLOC: u64 = 0x2;

pub const SHF_EXECINSTR: u64 = 0x4;

pub const SHF_TLS: u64 = 0x400;

pub const SHF_COMPRESSED: u64 = 0x800;

/// What stands in `st_shndx` in place of a section's number.
pub const SHN_UNDEF: u16 = 0;

pub const SHN_ABS: u16 = 0xfff1;

pub const SHN_COMMON: u16 = 0xfff2;

/// Bindings of symbols, in the upper four bits of `st_info`.
pub const STB_LOCAL: u8 = 0;

pub const STB_GLOBAL: u8 = 1;

pub const STB_WEAK: u8 = 2;

/// The type of a common symbol, in the lower four bits of `st_info`. Thread-local ones come next.
pub const STT_COMMON: u8 = 5;

/// Types of relocations, in the lower half of `r_info`.
pub const R_X86_64_NONE: u32 = 0;

pub const R_X86_64_64: u32 = 1;

pub const R_X86_64_PC32: u32 = 2;

pub const R_X86_64_PLT32: u32 = 4;

pub const R_X86_64_GOTPCREL: u32 = 9;

pub const R_X86_64_32: u32 = 10;

pub const R_X86_64_32S: u32 = 11;

pub const R_X86_64_PC64: u32 = 24;

pub const R_X86_64_GOTPCRELX: u32 = 41;

pub const R_X86_64_REX_GOTPCRELX: u32 = 42;
