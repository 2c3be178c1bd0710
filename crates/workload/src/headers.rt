//! The headers of a plain object.

ghost use Rattle.std.specs.Prelude.{◌≡◌, IfOk};
ghost use Rattle.workload.specs.Headers.{file_header, section_header, section_headers};

use crate::plan::{Part, Plan};
use elf_words::{Ehdr, Shdr, push_record};
use omos_base::{Bytes, NoMemory};
use std::alloc::Global;

/// 7F and `ELF`, ELFCLASS64, ELFDATA2LSB, EV_CURRENT and zeros.
const E_IDENT: [u8; 16] = [0x7f, b'E', b'L', b'F', 2, 1, 1, 0, 0, 0, 0, 0, 0, 0, 0, 0];

const ET_REL: u16 = 1;

const EM_X86_64: u16 = 62;

const EV_CURRENT: u32 = 1;

const SHT_PROGBITS: u32 = 1;

const SHT_SYMTAB: u32 = 2;

const SHT_STRTAB: u32 = 3;

const SHT_RELA: u32 = 4;

/// SHF_ALLOC and SHF_EXECINSTR.
const CODE_FLAGS: u64 = 6;

const SHF_INFO_LINK: u64 = 0x40;

/// The ELF header of an object with five section headers at this offset.
pub(crate) fn ehdr_for(headers: u64) -> Ehdr
    ensures { result ≡ file_header headers }
{
    Ehdr {
        e_ident: E_IDENT,
        e_type: ET_REL,
        e_machine: EM_X86_64,
        e_version: EV_CURRENT,
        e_entry: 0,
        e_phoff: 0,
        e_shoff: headers,
        e_flags: 0,
        e_ehsize: 64,
        e_phentsize: 0,
        e_phnum: 0,
        e_shentsize: 64,
        e_shnum: 5,
        e_shstrndx: 0,
    }
}

/// The header of a section without a name and an address.
fn shdr_for(
    sh_type: u32,
    sh_flags: u64,
    part: Part,
    sh_link: u32,
    sh_info: u32,
    sh_addralign: u64,
    sh_entsize: u64,
) -> Shdr
    ensures { result ≡
        section_header sh_type sh_flags part sh_link sh_info sh_addralign sh_entsize }
{
    Shdr {
        sh_name: 0,
        sh_type,
        sh_flags,
        sh_addr: 0,
        sh_offset: part.offset,
        sh_size: part.size,
        sh_link,
        sh_info,
        sh_addralign,
        sh_entsize,
    }
}

/// The five section headers.
pub(crate) fn headers_for(alloc: Global, plan: Plan, align: u32) -> Result<Bytes, NoMemory>
    ensures { IfOk result (λ bytes. bytes ≡ section_headers plan align) }
{
    let nothing = Part { offset: 0, size: 0 };
    let align = u64::from(align);
    let mut bytes = Bytes::with_capacity(alloc, 320)?;
    push_record(&mut bytes, &shdr_for(0, 0, nothing, 0, 0, 0, 0))?;
    push_record(
        &mut bytes,
        &shdr_for(SHT_PROGBITS, CODE_FLAGS, plan.code, 0, 0, align, 0),
    )?;
    push_record(
        &mut bytes,
        &shdr_for(SHT_RELA, SHF_INFO_LINK, plan.relas, 3, 1, 8, 24),
    )?;
    push_record(
        &mut bytes,
        &shdr_for(SHT_SYMTAB, 0, plan.symbols, 4, 1, 8, 24),
    )?;
    push_record(
        &mut bytes,
        &shdr_for(SHT_STRTAB, 0, plan.strings, 0, 0, 1, 0),
    )?;
    Ok(bytes)
}
