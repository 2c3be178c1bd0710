//! Names that a file defines for other objects, and the first that it defines twice.

ghost use Rattle.std.specs.Prelude.{◌≡◌, ◌+◌, ◌*◌, ◌<◌, ◌≤◌, None, IfOk, replicate};
ghost use Rattle.std.specs.List.{find};
ghost use Rattle.std.specs.Option.{option_map};
ghost use Rattle.omos_model.specs.ElfFields.{name_of, symbols};
ghost use Rattle.omos_model.specs.ElfFaults.{is_again, is_export, is_wrong_symbol};
ghost use Rattle.omos_model.specs.declared.refusal.ObjectFault.TheVariants.{Twice};
ghost use Rattle.elf_object.specs.TablesOf.{AreSymbols};

use crate::seen::is_new;
use crate::symbols::{is_export, name};
use crate::symtab::Symbols;
use omos_base::{Fault, NoMemory, SymName};
use omos_model::ObjectFault;
use std::alloc::Global;
use std::collections::BTreeSet;

/// A table of this many free places.
fn free_places(alloc: Global, count: usize) -> Result<Vec<u32>, NoMemory>
    ensures { IfOk result (λ places. places.items ≡ replicate count 0) }
{
    let mut places = Vec::new(alloc);
    places.resize(count, 0)?;
    Ok(places)
}

/// The first symbol that defines a name that a lower one defines too. About so many symbols define
/// one; the places are taken by that.
#[inline(never)]
pub(crate) fn first_again(
    alloc: Global,
    file: &[u8],
    table: Symbols<'_>,
    count: usize,
) -> Result<Option<u32>, NoMemory>
    requires { AreSymbols file.now table.count table.at table.strings.now }
    ensures { IfOk result (λ k. k ≡ find (is_again file.now) (symbols file.now)) }
{
    let mut places = free_places(alloc, count.saturating_mul(8).saturating_add(1))?;
    let mut others = BTreeSet::new(alloc);
    for k in 1..table.count {
        if is_export(file, table, k) {
            if !is_new(file, table, k, &mut places, &mut others)? {
                return Ok(Some(k));
            }
        }
    }
    Ok(None)
}

/// The fault of the first name that is defined twice, where no symbol is wrong by itself.
pub(crate) fn twice(
    alloc: Global,
    file: &[u8],
    table: Symbols<'_>,
    count: usize,
) -> Result<Option<ObjectFault>, NoMemory>
    requires right { AreSymbols file.now table.count table.at table.strings.now }
    requires lawful { find (is_wrong_symbol file.now) (symbols file.now) ≡ None }
    ensures { IfOk result (λ x. x ≡ option_map (λ k. Twice (name_of file.now k))
        (find (is_again file.now) (symbols file.now))) }
{
    let Some(k) = first_again(alloc, file, table, count)? else {
        return Ok(None);
    };
    match SymName::read(alloc, name(file, table, k)) {
        Ok(name) => Ok(Some(ObjectFault::Twice(name))),
        Err(Fault::Refused(_)) => unreachable!(),
        Err(Fault::NoMemory) => Err(NoMemory),
    }
}
