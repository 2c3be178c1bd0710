//! The header page (System V gABI, chapters 4 and 5).

ghost use Rattle.std.specs.Prelude.{◌≡◌, [], ◌∷◌, ◌+◌, ◌++◌, ◌^◌, ◌≤◌, length, IfOk, OnOk};
ghost use Rattle.std.specs.List.{flat_map};
ghost use Rattle.elf_words.specs.Phdr.{phdr_bytes};
ghost use Rattle.omos_model.specs.declared.fragment.Group.{Group};
ghost use Rattle.link_model.specs.ImageBytes.{file_size, flags_of, stack};
ghost use Rattle.link_model.specs.Groups.{bytes_of};
ghost use Rattle.image_write.specs.inside.Headers.{ehdr_with, headers_in, load_in, loads_in};
ghost use Rattle.image_write.specs.inside.Headers.{page_in};

use elf_words::{Ehdr, Phdr, push_record};
use link_model::Groups;
use omos_base::{Bytes, NoMemory, Row};
use omos_model::Group;
use std::alloc::Global;

const PAGE: usize = 4096;

const GROUPS: [Group; 4] = [Group::Code, Group::Consts, Group::Vars, Group::Zeros];

/// 7F and `ELF`, ELFCLASS64, ELFDATA2LSB, EV_CURRENT.
const IDENTIFICATION: [u8; 16] = [0x7f, b'E', b'L', b'F', 2, 1, 1, 0, 0, 0, 0, 0, 0, 0, 0, 0];

/// PF_R and PF_X; PF_R; PF_R and PF_W.
fn flags_of(group: Group) -> u32
    ensures { result ≡ flags_of group }
{
    match group {
        Group::Code => 5,
        Group::Consts => 4,
        Group::Vars | Group::Zeros => 6,
    }
}

/// How much of a group of this size stands in the file.
fn file_size(group: Group, size: u64) -> u64
    ensures { result ≡ file_size group size }
{
    match group {
        Group::Zeros => 0,
        _ => size,
    }
}

/// PT_LOAD of a group.
fn load_in(groups: &Groups, base: u64, group: Group) -> Phdr
    requires near { (g : Group) → bytes_of groups.now.begins g ≤ 2 ^ 52 }
    requires base { base ≤ 2 ^ 47 }
    ensures { result ≡ load_in groups.now base group }
{
    let begin = groups.begins.get(group);
    let size = groups.sizes.get(group);
    Phdr {
        p_type: 1,
        p_flags: flags_of(group),
        p_offset: 4096 + begin,
        p_vaddr: base + begin,
        p_paddr: base + begin,
        p_filesz: file_size(group, size),
        p_memsz: size,
        p_align: 4096,
    }
}

/// PT_GNU_STACK (a GNU extension): no code stands on the stack.
fn stack() -> Phdr
    ensures { result ≡ stack }
{
    Phdr {
        p_type: 0x6474_E551,
        p_flags: 6,
        p_offset: 0,
        p_vaddr: 0,
        p_paddr: 0,
        p_filesz: 0,
        p_memsz: 0,
        p_align: 16,
    }
}

/// Appends PT_LOAD of a group that isn't of size 0.
fn push_load(
    headers: &mut Row<Phdr>,
    groups: &Groups,
    base: u64,
    group: Group,
) -> Result<(), NoMemory>
    requires near { (g : Group) → bytes_of groups.now.begins g ≤ 2 ^ 52 }
    requires base { base ≤ 2 ^ 47 }
    ensures added { OnOk result
        (headers.new ≡ headers.old ++ loads_in groups.now base (group ∷ [])) }
    ensures few { OnOk result (length headers.new ≤ length headers.old + 1) }
{
    if groups.sizes.get(group) != 0 {
        headers.push(load_in(groups, base, group))?;
    }
    Ok(())
}

/// The program headers: one for each group that isn't of size 0, and the stack's.
fn headers_in(alloc: Global, groups: &Groups, base: u64) -> Result<Row<Phdr>, NoMemory>
    requires near { (g : Group) → bytes_of groups.now.begins g ≤ 2 ^ 52 }
    requires base { base ≤ 2 ^ 47 }
    ensures headers { IfOk result (λ headers. headers ≡ headers_in groups.now base) }
    ensures few { IfOk result (λ headers. length headers ≤ 5) }
{
    let mut headers = Row::new(alloc);
    for group in &GROUPS {
        push_load(&mut headers, groups, base, *group)?;
    }
    headers.push(stack())?;
    Ok(headers)
}

/// ET_EXEC for EM_X86_64, with so many program headers right behind.
fn ehdr_with(entry: u64, count: u16) -> Ehdr
    ensures { result ≡ ehdr_with entry count }
{
    Ehdr {
        e_ident: IDENTIFICATION,
        e_type: 2,
        e_machine: 62,
        e_version: 1,
        e_entry: entry,
        e_phoff: 64,
        e_shoff: 0,
        e_flags: 0,
        e_ehsize: 64,
        e_phentsize: 56,
        e_phnum: count,
        e_shentsize: 0,
        e_shnum: 0,
        e_shstrndx: 0,
    }
}

fn push_headers(bytes: &mut Bytes, headers: &[Phdr]) -> Result<(), NoMemory>
    ensures { OnOk result (bytes.new ≡ bytes.old ++ flat_map phdr_bytes headers.now) }
{
    for header in headers {
        push_record(bytes, header)?;
    }
    Ok(())
}

/// The header page of a program that starts at this address, or of one without a start at 0.
pub fn page_in(alloc: Global, groups: &Groups, base: u64, entry: u64) -> Result<Bytes, NoMemory>
    requires near { (g : Group) → bytes_of groups.now.begins g ≤ 2 ^ 52 }
    requires base { base ≤ 2 ^ 47 }
    ensures { IfOk result (λ bytes. bytes ≡ page_in groups.now base entry) }
{
    let headers = headers_in(alloc, groups, base)?;
    let mut bytes = Bytes::with_capacity(alloc, PAGE)?;
    push_record(&mut bytes, &ehdr_with(entry, headers.len() as u16))?;
    push_headers(&mut bytes, headers.as_slice())?;
    bytes.push_zeros(PAGE.saturating_sub(bytes.len()))?;
    Ok(bytes)
}
