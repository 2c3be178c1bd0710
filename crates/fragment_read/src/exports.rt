//! The exports: the GLOBAL and WEAK symbols that are defined, by number.

ghost use Rattle.std.specs.Prelude.{◌≡◌, ◌<◌, ◌≤◌, None, IfOk, IsTrue, true};
ghost use Rattle.omos_model.specs.ElfFields.{symbol_count};
ghost use Rattle.omos_model.specs.ElfFaults.{is_export, object_fault};
ghost use Rattle.omos_model.specs.FragmentOf.{common_piece, exports_of, is_common};
ghost use Rattle.omos_model.specs.FragmentParts.{max_entries, max_pieces};
ghost use Rattle.fragment_read.specs.inside.Numbered.{ArePieceNumbers, export_of};

use crate::names::name;
use crate::spots::spot_of;
use crate::symbols::{is_common, is_export};
use elf_object::Tables;
use omos_base::{NoMemory, Part, Row};
use omos_model::Export;
use std::alloc::Global;

fn export_of(
    file: &Part,
    tables: &Tables<'_>,
    numbers: &[u32],
    k: u32,
    common: u32,
) -> Result<Export, NoMemory>
    requires right { object_fault tables.now ≡ None }
    requires same { file.now ≡ tables.now }
    requires counted { 1 ≤ k }
    requires there { k < symbol_count tables.now }
    requires defined { IsTrue (is_export tables.now k) }
    requires numbered { ArePieceNumbers tables.now numbers.now }
    requires common { is_common tables.now k ≡ true → common ≡ common_piece tables.now k }
    ensures { IfOk result (λ x. x ≡ export_of tables.now k) }
{
    Ok(Export {
        name: name(file, tables, k)?,
        spot: spot_of(tables, numbers, k, common),
    })
}

/// The exports of an object file, whose first common symbol is the piece with this number.
#[inline(never)]
pub(crate) fn exports(
    alloc: Global,
    file: &Part,
    tables: &Tables<'_>,
    numbers: &[u32],
    first_common: u32,
) -> Result<Row<Export>, NoMemory>
    requires right { object_fault tables.now ≡ None }
    requires same { file.now ≡ tables.now }
    requires numbered { ArePieceNumbers tables.now numbers.now }
    requires first { first_common ≡ common_piece tables.now 1 }
    ensures { IfOk result (λ xs. xs ≡ exports_of tables.now) }
{
    let mut exports = Row::new(alloc);
    let mut common = first_common;
    for k in 1..tables.symbols() {
        if is_export(tables, k) {
            exports.push(export_of(file, tables, numbers, k, common)?)?;
        }
        if is_common(tables, k) {
            common += 1;
        }
    }
    Ok(exports)
}
