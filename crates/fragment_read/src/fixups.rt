//! The fixups: the relocations of kept sections, by section and entry (System V gABI, chapter 4,
//! "Relocation"; x86-64 psABI, "Relocation Types").

ghost use Rattle.std.specs.Prelude.{◌≡◌, ◌<◌, ◌≤◌, ◌==◌, ◌&&◌, ◌/◌, ◌^◌, ◌∷◌, ◌++◌};
ghost use Rattle.std.specs.Prelude.{[], None, IfOk, IsTrue, OnOk, map, true};
ghost use Rattle.std.specs.List.{filter_map, list_all};
ghost use Rattle.omos_model.specs.ElfValues.{shn_undef, stb_weak};
ghost use Rattle.omos_model.specs.ElfFields.{binding, is_section, st_shndx, symbol_count};
ghost use Rattle.omos_model.specs.ElfFaults.{entries, entry_count, is_aim_of, is_used_rela};
ghost use Rattle.omos_model.specs.ElfFaults.{kind_of};
ghost use Rattle.omos_model.specs.ElfFaults.{object_fault};
ghost use Rattle.omos_model.specs.FixupParts.{fixup_at};
ghost use Rattle.omos_model.specs.FragmentOf.{aim_of, fixup_of};
ghost use Rattle.omos_model.specs.Numbers.{numbers_from};
ghost use Rattle.omos_model.specs.declared.fragment.Aim.{Aim};
ghost use Rattle.fragment_read.specs.inside.Gathered.{AreGathered, gathered};
ghost use Rattle.fragment_read.specs.inside.Numbered.{ArePieceNumbers, fixup_with};

use crate::names::name;
use crate::spots::spot_of;
use crate::symbols::{binding, index, is_local};
use crate::used::{self, Used};
use dict_row::DictRow;
use elf_object::{Tables, kind_of};
use elf_words::values::{SHN_UNDEF, STB_WEAK};
use elf_words::{Record, Rela};
use omos_base::{NoMemory, Part, Row, Shared};
use omos_model::{Aim, Field, Fixups, Kind, Spot};
use std::alloc::Global;

/// Whether a symbol is WEAK, and defined elsewhere or nowhere.
fn is_weak_reference(tables: &Tables<'_>, k: u32) -> bool
    requires { k < symbol_count tables.now }
    ensures { result
        ≡ ((st_shndx tables.now k == shn_undef) && (binding tables.now k == stb_weak)) }
{
    index(tables, k) == SHN_UNDEF && binding(tables, k) == STB_WEAK
}

/// Symbol 0 is the number 0, a LOCAL one its spot, any other its name.
fn aim_of(file: &Part, tables: &Tables<'_>, numbers: &[u32], k: u32) -> Result<Aim, NoMemory>
    requires right { object_fault tables.now ≡ None }
    requires there { IsTrue (is_aim_of tables.now k) }
    requires numbered { ArePieceNumbers tables.now numbers.now }
    requires same { file.now ≡ tables.now }
    ensures { IfOk result (λ aim. aim ≡ aim_of tables.now k) }
{
    if k == 0 {
        return Ok(Aim::At(Spot::Fixed { value: 0 }));
    }
    if is_local(tables, k) {
        return Ok(Aim::At(spot_of(tables, numbers, k, 0)));
    }
    Ok(Aim::Name {
        name: name(file, tables, k)?,
        weak: is_weak_reference(tables, k),
    })
}

/// The field of a relocation of this piece.
#[inline(always)]
fn field_with(piece: u32, entry: Rela, kind: Kind) -> Field
    requires { entry.r_offset ≤ 8388608 }
    ensures { (aim : Aim) → fixup_at (result, aim)
        ≡ fixup_with piece entry.r_offset entry.r_addend aim kind }
{
    Field {
        piece,
        offset: entry.r_offset as u32,
        kind,
        addend: entry.r_addend,
    }
}

/// Appends the fixup of a relocation of this piece.
#[inline(always)]
fn push_fixup(
    tables: &Tables<'_>,
    piece: u32,
    entry: Rela,
    kind: Kind,
    fields: &mut Row<Field>,
    used: &mut Used,
) -> Result<(), NoMemory>
    requires near { entry.r_offset ≤ 8388608 }
    requires there { IsTrue (is_aim_of tables.now (entry.r_info / 2 ^ 32)) }
    requires gathered { AreGathered tables.now fields.old used.old }
    ensures right { OnOk result (AreGathered tables.now fields.new used.new) }
    ensures more { OnOk result (gathered tables.now fields.new used.new
        ≡ gathered tables.now fields.old used.old ++ fixup_with piece entry.r_offset entry.r_addend
        (aim_of tables.now (entry.r_info / 2 ^ 32)) kind ∷ []) }
{
    used::name(used, (entry.r_info / (1 << 32)) as u32)?;
    fields.push(field_with(piece, entry, kind))?;
    Ok(())
}

/// Appends the fixups of a section's relocations; one of type NONE has none. A function of its own,
/// so that its loop has the registers.
#[inline(never)]
fn push_fixups(
    tables: &Tables<'_>,
    numbers: &[u32],
    i: u32,
    fields: &mut Row<Field>,
    used: &mut Used,
) -> Result<(), NoMemory>
    requires right { object_fault tables.now ≡ None }
    requires there { IsTrue (is_section tables.now i) }
    requires used { IsTrue (is_used_rela tables.now i) }
    requires numbered { ArePieceNumbers tables.now numbers.now }
    requires gathered { AreGathered tables.now fields.old used.old }
    ensures right { OnOk result (AreGathered tables.now fields.new used.new) }
    ensures more { OnOk result (gathered tables.now fields.new used.new
        ≡ gathered tables.now fields.old used.old ++ filter_map (fixup_of tables.now)
        (map (λ j. (i, j)) (numbers_from 0 (entry_count tables.now i)))) }
{
    let file = tables.file();
    let at = tables.entries_at(i);
    let piece = numbers[tables.header(i).sh_info as usize];
    for j in 0..tables.entries(i) {
        let entry = Rela::read_at(file, at + 24 * j as usize);
        if let Some(kind) = kind_of((entry.r_info % (1 << 32)) as u32) {
            push_fixup(tables, piece, entry, kind, fields, used)?;
        }
    }
    Ok(())
}

/// How many relocations of kept sections there are, those of type NONE among them.
fn count_of_entries(tables: &Tables<'_>) -> usize
    requires { object_fault tables.now ≡ None }
{
    let mut count = 0usize;
    for i in 1..tables.sections() {
        if tables.is_used(i) {
            count = count.saturating_add(tables.entries(i) as usize);
        }
    }
    count
}

/// Appends the fixups of all kept sections.
fn push_all(
    tables: &Tables<'_>,
    numbers: &[u32],
    fields: &mut Row<Field>,
    used: &mut Used,
) -> Result<(), NoMemory>
    requires right { object_fault tables.now ≡ None }
    requires numbered { ArePieceNumbers tables.now numbers.now }
    requires gathered { AreGathered tables.now fields.old used.old }
    requires none { gathered tables.now fields.old used.old ≡ [] }
    ensures right { OnOk result (AreGathered tables.now fields.new used.new) }
    ensures all { OnOk result (gathered tables.now fields.new used.new
        ≡ filter_map (fixup_of tables.now) (entries tables.now)) }
{
    for i in 1..tables.sections() {
        if tables.is_used(i) {
            push_fixups(tables, numbers, i, fields, used)?;
        }
    }
    Ok(())
}

/// What the symbols are as aims, in order.
fn aims(
    alloc: Global,
    file: &Part,
    tables: &Tables<'_>,
    numbers: &[u32],
    symbols: &[u32],
) -> Result<Row<Aim>, NoMemory>
    requires right { object_fault tables.now ≡ None }
    requires there { list_all (is_aim_of tables.now) symbols.now ≡ true }
    requires numbered { ArePieceNumbers tables.now numbers.now }
    requires same { file.now ≡ tables.now }
    ensures { IfOk result (λ aims. aims ≡ map (aim_of tables.now) symbols.now) }
{
    let mut aims = Row::from_vec(Vec::with_capacity(alloc, symbols.len())?);
    for k in symbols {
        aims.push(aim_of(file, tables, numbers, *k)?)?;
    }
    Ok(aims)
}

/// The fixups of an object file. What a symbol is as an aim is found once, at its first use.
pub(crate) fn fixups(
    alloc: Global,
    file: &Part,
    tables: &Tables<'_>,
    numbers: &[u32],
) -> Result<Fixups, NoMemory>
    requires right { object_fault tables.now ≡ None }
    requires numbered { ArePieceNumbers tables.now numbers.now }
    requires same { file.now ≡ tables.now }
    ensures { IfOk result (λ xs. xs ≡ filter_map (fixup_of tables.now) (entries tables.now)) }
{
    let count = count_of_entries(tables);
    let mut fields = Row::from_vec(Vec::with_capacity(alloc, count)?);
    let mut used = used::none(alloc, tables.symbols(), count)?;
    push_all(tables, numbers, &mut fields, &mut used)?;
    let aims = aims(alloc, file, tables, numbers, used.symbols.as_slice())?;
    Ok(Fixups::of(fields, DictRow::of(Shared::of(alloc, used.keys)?, aims)))
}
