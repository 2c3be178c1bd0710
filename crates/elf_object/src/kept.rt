//! Which sections are loaded, and the faults of sections (System V gABI, chapter 4, "Sections").

ghost use Rattle.std.specs.Prelude.{◌≡◌, ◌<◌, ◌≤◌, ◌/◌, ◌%◌, ◌==◌, [], ◌∷◌, IfOk};
ghost use Rattle.std.specs.List.{find, list_any};
ghost use Rattle.omos_model.specs.ElfFields.{e_shnum, has_flag, is_section, sections};
ghost use Rattle.omos_model.specs.ElfFaults.{is_alloc, is_kept, is_nobits, is_supported};
ghost use Rattle.omos_model.specs.ElfFaults.{is_unsupported, is_wrong_section, lies_in_file};
ghost use Rattle.omos_model.specs.ElfFaults.{loaded_types};
ghost use Rattle.omos_model.specs.FragmentParts.{is_alignment};
ghost use Rattle.elf_object.specs.Stages.{HasHeaders};
ghost use Rattle.elf_object.specs.inside.Checks.{fails};
ghost use Rattle.elf_object.specs.TablesOf.{AreKeptSections};

use crate::reads::{count_of_sections, ends_within, section};
use elf_words::values::{
    SHF_ALLOC, SHF_COMPRESSED, SHF_EXECINSTR, SHF_TLS, SHF_WRITE, SHT_FINI_ARRAY, SHT_GROUP,
    SHT_INIT_ARRAY, SHT_NOBITS, SHT_NOTE, SHT_PROGBITS, SHT_REL, SHT_SYMTAB_SHNDX,
    SHT_X86_64_UNWIND,
};
use omos_base::{NoMemory, Row};
use std::alloc::Global;

/// The largest kept section, in bytes.
const MAX_SIZE: u64 = 8_388_608;

const ALIGNMENTS: [u64; 13] = [1, 2, 4, 8, 16, 32, 64, 128, 256, 512, 1024, 2048, 4096];

/// The flag, which is a power of two, is set.
fn has(flags: u64, flag: u64) -> bool
    requires { 0 < flag }
    ensures { result ≡ (flags / flag % 2 == 1) }
{
    flags / flag % 2 == 1
}

/// A type of section that can be loaded.
fn is_loaded(sh_type: u32) -> bool
    ensures { result ≡ list_any (λ t. t == sh_type) loaded_types }
{
    sh_type == SHT_PROGBITS
        || sh_type == SHT_NOTE
        || sh_type == SHT_NOBITS
        || sh_type == SHT_INIT_ARRAY
        || sh_type == SHT_FINI_ARRAY
        || sh_type == SHT_X86_64_UNWIND
}

/// A power of two from 1 to 4,096.
pub(crate) fn is_alignment(align: u64) -> bool
    ensures { result ≡ is_alignment align }
{
    ALIGNMENTS.iter().any(|a| *a == align)
}

/// A section's number; section 0 is none.
pub(crate) fn is_section(file: &[u8], i: usize) -> bool
    requires { HasHeaders file.now }
    ensures { result ≡ is_section file.now i }
{
    0 < i && i < count_of_sections(file)
}

/// A section that is to be loaded.
fn is_alloc(file: &[u8], i: usize) -> bool
    requires headers { HasHeaders file.now }
    requires there { i < e_shnum file.now }
    ensures { result ≡ is_alloc file.now i }
{
    has(section(file, i).sh_flags, SHF_ALLOC)
}

/// Of a type that can be loaded, neither TLS nor COMPRESSED, and no code that is written or NOBITS.
fn is_supported(file: &[u8], i: usize) -> bool
    requires headers { HasHeaders file.now }
    requires there { i < e_shnum file.now }
    ensures { result ≡ is_supported file.now i }
{
    let header = section(file, i);
    is_loaded(header.sh_type)
        && !has(header.sh_flags, SHF_TLS)
        && !has(header.sh_flags, SHF_COMPRESSED)
        && !(has(header.sh_flags, SHF_EXECINSTR)
            && (has(header.sh_flags, SHF_WRITE) || header.sh_type == SHT_NOBITS))
}

/// A section, by its number, that is loaded, as its header says it.
fn is_loaded_section(file: &[u8], i: usize) -> bool
    requires { HasHeaders file.now }
    ensures { result ≡ is_kept file.now i }
{
    is_section(file, i) && is_alloc(file, i) && is_supported(file, i)
}

/// By a section's number whether it is loaded, so that each header is tested once.
pub(crate) fn kept_sections(alloc: Global, file: &[u8]) -> Result<Row<bool>, NoMemory>
    requires { HasHeaders file.now }
    ensures { IfOk result (λ kept. AreKeptSections file.now kept) }
{
    let count = count_of_sections(file);
    let mut kept = Row::from_vec(Vec::with_capacity(alloc, count)?);
    for i in 0..count {
        kept.push(is_loaded_section(file, i))?;
    }
    Ok(kept)
}

/// A section, by its number, that is loaded.
#[tactic(auto, using(crate::proofs::KeptTable::kept_past))]
pub(crate) fn is_kept(file: &[u8], kept: &[bool], i: usize) -> bool
    requires { AreKeptSections file.now kept.now }
    ensures { result ≡ is_kept file.now i }
{
    i < kept.len() && kept[i]
}

/// A section that has no bytes in the file.
pub(crate) fn is_nobits(file: &[u8], i: usize) -> bool
    requires headers { HasHeaders file.now }
    requires there { i < e_shnum file.now }
    ensures { result ≡ is_nobits file.now i }
{
    section(file, i).sh_type == SHT_NOBITS
}

/// The section's bytes end within the file.
pub(crate) fn lies_in_file(file: &[u8], i: usize) -> bool
    requires headers { HasHeaders file.now }
    requires there { i < e_shnum file.now }
    ensures { result ≡ lies_in_file file.now i }
{
    let header = section(file, i);
    ends_within(file, header.sh_offset, header.sh_size)
}

/// A kept section whose alignment, size or place is wrong.
fn is_wrong_section(file: &[u8], kept: &[bool], i: usize) -> bool
    requires headers { HasHeaders file.now }
    requires sections { AreKeptSections file.now kept.now }
    requires there { i < e_shnum file.now }
    ensures { result ≡ is_wrong_section file.now i }
{
    let header = section(file, i);
    is_kept(file, kept, i)
        && (!(header.sh_addralign == 0 || is_alignment(header.sh_addralign))
            || MAX_SIZE < header.sh_size
            || (!is_nobits(file, i) && !lies_in_file(file, i)))
}

/// REL, GROUP and SYMTAB_SHNDX.
fn is_unsupported_type(sh_type: u32) -> bool
    ensures { result ≡ list_any (λ t. t == sh_type) (9 ∷ 17 ∷ 18 ∷ []) }
{
    sh_type == SHT_REL || sh_type == SHT_GROUP || sh_type == SHT_SYMTAB_SHNDX
}

/// A section of a form that can't be taken, or one that is to be loaded and can't be.
fn is_unsupported(file: &[u8], i: usize) -> bool
    requires headers { HasHeaders file.now }
    requires there { i < e_shnum file.now }
    ensures { result ≡ is_unsupported file.now i }
{
    is_unsupported_type(section(file, i).sh_type) || (is_alloc(file, i) && !is_supported(file, i))
}

/// What a section may fail.
#[derive(Clone, Copy, Debug, PartialEq, Eq)]
pub(crate) enum Check {
    /// A kept section has a wrong alignment, size or place.
    Kept,
    /// The section is of a form that isn't supported.
    Supported,
}

fn fails(check: Check, file: &[u8], kept: &[bool], i: usize) -> bool
    requires headers { HasHeaders file.now }
    requires sections { AreKeptSections file.now kept.now }
    requires there { i < e_shnum file.now }
    ensures { result ≡ fails check file.now i }
{
    match check {
        Check::Kept => is_wrong_section(file, kept, i),
        Check::Supported => is_unsupported(file, i),
    }
}

/// The first section that fails the check.
pub(crate) fn first_failing(check: Check, file: &[u8], kept: &[bool]) -> Option<u32>
    requires headers { HasHeaders file.now }
    requires sections { AreKeptSections file.now kept.now }
    ensures { result ≡ find (fails check file.now) (sections file.now) }
{
    for i in 1..count_of_sections(file) {
        if fails(check, file, kept, i) {
            return Some(i as u32);
        }
    }
    None
}
