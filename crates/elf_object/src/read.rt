//! Reads the tables of an object file: one pass for each kind of fault, in the order of faults.

ghost use Rattle.std.specs.Prelude.{◌≡◌, Some, None, IfOk};
ghost use Rattle.omos_base.specs.Fault.{MatchFault};
ghost use Rattle.omos_model.specs.ElfFaults.{object_fault};
ghost use Rattle.elf_object.specs.Stages.{HasHeaders, rela_fault, section_fault, symbol_fault};
ghost use Rattle.elf_object.specs.TablesOf.{AreKeptSections, AreSymbols};

use crate::kept::{Check, first_failing, kept_sections};
use crate::reads::header_fault;
use crate::symtab::{Symbols, symbols_of};
use crate::tables::Tables;
use crate::{entries, exports, relas, symbols};
use omos_base::{Fault, NoMemory};
use omos_model::ObjectFault;
use std::alloc::Global;

fn section_fault(file: &[u8], kept: &[bool]) -> Option<ObjectFault>
    requires headers { HasHeaders file.now }
    requires sections { AreKeptSections file.now kept.now }
    ensures { result ≡ section_fault file.now }
{
    if let Some(i) = first_failing(Check::Kept, file, kept) {
        return Some(ObjectFault::Section(i));
    }
    match first_failing(Check::Supported, file, kept) {
        Some(i) => Some(ObjectFault::Unsupported(i)),
        None => None,
    }
}

fn symbol_fault(
    alloc: Global,
    file: &[u8],
    kept: &[bool],
    table: Symbols<'_>,
) -> Result<Option<ObjectFault>, NoMemory>
    requires headers { HasHeaders file.now }
    requires sections { AreKeptSections file.now kept.now }
    requires right { AreSymbols file.now table.count table.at table.strings.now }
    ensures { IfOk result (λ x. x ≡ symbol_fault file.now) }
{
    let mut exports = 0;
    if let Some(k) = symbols::first_wrong(file, kept, table, &mut exports) {
        return Ok(Some(ObjectFault::Symbol(k)));
    }
    exports::twice(alloc, file, table, exports)
}

fn rela_fault(file: &[u8], kept: &[bool], table: Symbols<'_>) -> Option<ObjectFault>
    requires headers { HasHeaders file.now }
    requires sections { AreKeptSections file.now kept.now }
    requires right { AreSymbols file.now table.count table.at table.strings.now }
    ensures { result ≡ rela_fault file.now }
{
    if let Some(i) = relas::first_wrong(file, kept) {
        return Some(ObjectFault::Relas(i));
    }
    match entries::first_wrong(file, kept, table) {
        Some((i, j)) => Some(ObjectFault::Rela(i, j)),
        None => None,
    }
}

/// Reads the tables of an object file. The refusal is the file's first fault: O1 to O4 of its
/// header, O5 and O6 of its sections, O7 of its symbol table, O8 and O9 of its symbols, O10 and
/// O11 of its relocations, in this order, each of the least section, symbol and entry.
///
/// It costs a pass over the section headers for each of O5, O6, O7, O10 and O11 and one to find the
/// kept ones, two over the symbols, two over the names of exports, and one over the relocations.
/// Whatever the names are, an export costs a number of comparisons that grows with the logarithm of
/// their count. The memory is a byte a section and, given back, 32 bytes an export and what a set
/// of those names takes whose place is taken.
pub fn read_tables(alloc: Global, file: &[u8]) -> Result<Tables<'_>, Fault<ObjectFault>>
    ensures tables { MatchFault result
        (λ t. (t ≡ file.now) × (object_fault file.now ≡ None))
        (λ x. object_fault file.now ≡ Some x) }
{
    if let Some(fault) = header_fault(file) {
        return Err(Fault::Refused(fault));
    }
    let kept = kept_sections(alloc, file)?;
    if let Some(fault) = section_fault(file, kept.as_slice()) {
        return Err(Fault::Refused(fault));
    }
    let table = match symbols_of(file) {
        Ok(table) => table,
        Err(fault) => return Err(Fault::Refused(fault)),
    };
    if let Some(fault) = symbol_fault(alloc, file, kept.as_slice(), table)? {
        return Err(Fault::Refused(fault));
    }
    if let Some(fault) = rela_fault(file, kept.as_slice(), table) {
        return Err(Fault::Refused(fault));
    }
    Ok(Tables::of(file, kept, table))
}
