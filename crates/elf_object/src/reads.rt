//! Single fields of a file, and the tests of its header that decide whether it is an object.

ghost use Rattle.std.specs.Prelude.{◌≡◌, ◌<◌, ◌≤◌, ◌+◌, ◌*◌, ◌/◌, ◌%◌, ◌==◌, length, MatchOption};
ghost use Rattle.std.specs.Prelude.{nat_le, true};
ghost use Rattle.std.specs.List.{list_any};
ghost use Rattle.omos_base.specs.Fields.{number_at};
ghost use Rattle.omos_model.specs.ElfFields.{e_shnum, header_at, section_bytes};
ghost use Rattle.omos_model.specs.ElfFaults.{has_headers, is_elf, is_relocatable, lies_in_file};
ghost use Rattle.elf_words.specs.Shdr.{shdr_at};
ghost use Rattle.elf_object.specs.Stages.{HasHeaders, IsHeaderFault};

use elf_words::{Record, Shdr};
use omos_base::{u16_at, u32_at, u64_at};
use omos_model::ObjectFault;

/// `e_ident` up to its version: the magic bytes, ELFCLASS64, ELFDATA2LSB, EV_CURRENT.
const IDENTIFICATION: [u8; 7] = [0x7f, b'E', b'L', b'F', 2, 1, 1];

/// The byte at a place.
#[tactic(auto, unfolding(omos_base::specs::Fields::number_at))]
pub(crate) fn byte_at(file: &[u8], at: usize) -> u8
    requires { at < length file.now }
    ensures { result ≡ number_at 1 at file.now }
{
    file[at]
}

fn is_elf(file: &[u8]) -> bool
    requires { 64 ≤ length file.now }
    ensures { result ≡ is_elf file.now }
{
    file[..7] == IDENTIFICATION[..] && (byte_at(file, 7) == 0 || byte_at(file, 7) == 3)
}

fn is_relocatable(file: &[u8]) -> bool
    requires { 64 ≤ length file.now }
    ensures { result ≡ is_relocatable file.now }
{
    u16_at(file, 16) == 1 && u16_at(file, 18) == 62 && u32_at(file, 20) == 1
}

/// So many bytes from this offset on end within the file.
pub(crate) fn ends_within(file: &[u8], offset: u64, size: u64) -> bool
    ensures { result ≡ nat_le (offset + size) (length file.now) }
{
    match offset.checked_add(size) {
        Some(end) => end <= file.len() as u64,
        None => false,
    }
}

fn has_headers(file: &[u8]) -> bool
    requires { 64 ≤ length file.now }
    ensures { result ≡ has_headers file.now }
{
    let count = u16_at(file, 60);
    u16_at(file, 58) == 64
        && 0 < count
        && count <= 4096
        && ends_within(file, u64_at(file, 40), 64 * count as u64)
}

/// What is wrong with the header first, if anything is.
pub(crate) fn header_fault(file: &[u8]) -> Option<ObjectFault>
    ensures { MatchOption result (HasHeaders file.now) (IsHeaderFault file.now) }
{
    if file.len() < 64 || file.len() > 1_048_576 {
        return Some(ObjectFault::Length);
    }
    if !is_elf(file) {
        return Some(ObjectFault::NotElf);
    }
    if !is_relocatable(file) {
        return Some(ObjectFault::Kind);
    }
    if !has_headers(file) {
        return Some(ObjectFault::Headers);
    }
    None
}

/// How many sections there are.
pub(crate) fn count_of_sections(file: &[u8]) -> usize
    requires { 64 ≤ length file.now }
    ensures { result ≡ e_shnum file.now }
{
    u16_at(file, 60) as usize
}

/// The header of a section.
pub(crate) fn section(file: &[u8], number: usize) -> Shdr
    requires headers { HasHeaders file.now }
    requires there { number < e_shnum file.now }
    ensures { result ≡ shdr_at file.now (header_at file.now number) }
{
    Shdr::read_at(file, u64_at(file, 40) as usize + 64 * number)
}

/// The bytes of a section that lies in the file.
pub(crate) fn bytes_of(file: &[u8], number: usize) -> &[u8]
    requires headers { HasHeaders file.now }
    requires there { number < e_shnum file.now }
    requires inside { lies_in_file file.now number ≡ true }
    ensures { result.now ≡ section_bytes file.now number }
{
    let header = section(file, number);
    let from = header.sh_offset as usize;
    &file[from..from + header.sh_size as usize]
}
