//! The names of symbols.

ghost use Rattle.std.specs.Prelude.{◌≡◌, ◌<◌, ◌≤◌, None, IfOk, IsTrue};
ghost use Rattle.omos_model.specs.ElfFields.{name_of, symbol_count};
ghost use Rattle.omos_model.specs.ElfFaults.{has_name, object_fault};

use elf_object::Tables;
use omos_base::{NoMemory, Part, SymName};
use omos_model::laws;

/// The name of a symbol that has one: a run of the file's bytes, which were tested.
pub(crate) fn name(file: &Part, tables: &Tables<'_>, k: u32) -> Result<SymName, NoMemory>
    requires right { object_fault tables.now ≡ None }
    requires same { file.now ≡ tables.now }
    requires counted { 1 ≤ k }
    requires there { k < symbol_count tables.now }
    requires has { IsTrue (has_name tables.now k) }
    ensures { IfOk result (λ name. name ≡ name_of tables.now k) }
{
    laws::names_are_tested();
    let name = tables.name_at(k);
    Ok(SymName::of(file.cut(name.at, name.size)?))
}
