//! The definitions of a further table.

ghost use Rattle.std.specs.Prelude.{◌≡◌, if◌then◌else◌, IfOk, OnOk, Some};
ghost use Rattle.std.specs.Option.{option_map};
ghost use Rattle.omos_model.specs.Names.{Name, same_name};
ghost use Rattle.module_table.specs.TableParts.{meaning_in};
ghost use Rattle.module_share.specs.Shifted.{shifted_target};

use crate::numbers;
use indexmap::IndexMap;
use module_table::Definitions;
use omos_base::{NoMemory, SymName};
use omos_model::Target;
use std::alloc::Global;

/// Puts one definition, whose name is shared.
fn put(into: &mut Definitions, name: &SymName, target: Target, shift: u32) -> Result<(), NoMemory>
    ensures { OnOk result ((n : Name) → meaning_in into.new.entries n
        ≡ (if same_name name.now n then Some (shifted_target shift target)
        else meaning_in into.old.entries n)) }
{
    into.insert(name.copy()?, numbers::target(target, shift))?;
    Ok(())
}

/// The definitions, in leaves of raised numbers.
pub fn raised(alloc: Global, from: &Definitions, shift: u32) -> Result<Definitions, NoMemory>
    ensures { IfOk result (λ m. (n : Name) → meaning_in m.entries n
        ≡ option_map (shifted_target shift) (meaning_in from.now.entries n)) }
{
    let mut into = IndexMap::with_capacity_and_hasher(alloc, from.len(), *from.hasher())?;
    'entries: for (name, target) in from {
        put(&mut into, name, *target, shift)?;
    }
    Ok(into)
}
