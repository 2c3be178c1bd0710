//! Relocation sections (System V gABI, chapter 4, "Relocation"), and the first that is wrong.

ghost use Rattle.std.specs.Prelude.{◌≡◌, ◌+◌, ◌-◌, ◌*◌, ◌/◌, ◌%◌, ◌<◌, ◌≤◌, false, true};
ghost use Rattle.std.specs.Prelude.{MatchOption};
ghost use Rattle.std.specs.List.{find};
ghost use Rattle.omos_model.specs.ElfFields.{e_shnum, sections, sh_info};
ghost use Rattle.omos_model.specs.ElfFaults.{entries_up_to, entry_count, is_right_rela};
ghost use Rattle.omos_model.specs.ElfFaults.{is_used_rela};
ghost use Rattle.omos_model.specs.ElfFaults.{is_wrong_rela};
ghost use Rattle.elf_object.specs.Stages.{HasHeaders};
ghost use Rattle.elf_object.specs.TablesOf.{AreKeptSections};

use crate::kept::{is_kept, is_nobits, lies_in_file};
use crate::reads::{count_of_sections, section};
use crate::symtab::is_symtab;
use elf_words::values::SHT_RELA;

/// The size of a relocation.
pub(crate) const RELA_SIZE: u64 = 24;

const MAX_ENTRIES: u64 = 65_535;

/// A relocation section whose target is kept.
pub(crate) fn is_used(file: &[u8], kept: &[bool], i: usize) -> bool
    requires headers { HasHeaders file.now }
    requires sections { AreKeptSections file.now kept.now }
    requires there { i < e_shnum file.now }
    ensures { result ≡ is_used_rela file.now i }
{
    let header = section(file, i);
    header.sh_type == SHT_RELA && is_kept(file, kept, header.sh_info as usize)
}

/// The relocations of a kept section can be read, and with those of the sections before they are
/// at most 65,535.
fn is_right_rela(file: &[u8], i: usize, before: u64) -> bool
    requires headers { HasHeaders file.now }
    requires there { i < e_shnum file.now }
    requires target { sh_info file.now i < e_shnum file.now }
    requires few { before ≤ 65535 }
    requires sum { entries_up_to file.now i ≡ before + entry_count file.now i }
    ensures { result ≡ is_right_rela file.now i }
{
    let header = section(file, i);
    header.sh_entsize == RELA_SIZE
        && header.sh_size % RELA_SIZE == 0
        && lies_in_file(file, i)
        && is_symtab(file, header.sh_link as usize)
        && (!is_nobits(file, header.sh_info as usize) || header.sh_size == 0)
        && before + header.sh_size / RELA_SIZE <= MAX_ENTRIES
}

/// The entries of the used sections up to and with this one; none where it is wrong.
fn entries_after(file: &[u8], kept: &[bool], i: usize, before: u64) -> Option<u64>
    requires headers { HasHeaders file.now }
    requires sections { AreKeptSections file.now kept.now }
    requires counted { 1 ≤ i }
    requires there { i < e_shnum file.now }
    requires few { before ≤ 65535 }
    requires sum { before ≡ entries_up_to file.now (i - 1) }
    ensures { MatchOption result (is_wrong_rela file.now i ≡ true)
        (λ sum. (is_wrong_rela file.now i ≡ false) × (sum ≡ entries_up_to file.now i)
        × (sum ≤ 65535)) }
{
    let header = section(file, i);
    if header.sh_type != SHT_RELA {
        return Some(before);
    }
    if header.sh_info as usize >= count_of_sections(file) {
        return None;
    }
    if !is_kept(file, kept, header.sh_info as usize) {
        return Some(before);
    }
    if !is_right_rela(file, i, before) {
        return None;
    }
    Some(before + header.sh_size / RELA_SIZE)
}

/// The first section that is wrong.
pub(crate) fn first_wrong(file: &[u8], kept: &[bool]) -> Option<u32>
    requires headers { HasHeaders file.now }
    requires sections { AreKeptSections file.now kept.now }
    ensures { result ≡ find (is_wrong_rela file.now) (sections file.now) }
{
    let mut entries = 0;
    for i in 1..count_of_sections(file) {
        match entries_after(file, kept, i, entries) {
            Some(sum) => entries = sum,
            None => return Some(i as u32),
        }
    }
    None
}
