//! What the references of a table land on at the root, and what its names are.

ghost use Rattle.std.specs.Prelude.{◌≡◌, IfOk, map};
ghost use Rattle.omos_model.specs.Names.{Name};
ghost use Rattle.omos_model.specs.State.{landed};
ghost use Rattle.module_table.specs.TableParts.{defined_in};
ghost use Rattle.link_model.specs.Module.{found};

use dict_row::DictRow;
use link_model::Found;
use module_table::Table;
use omos_base::{NoMemory, Row, Shared};
use omos_model::{Entry, Landing, Mark, MarkRow};
use std::alloc::Global;

fn landing_of(table: &Table, mark: &Mark) -> Result<Landing, NoMemory>
    ensures { IfOk result (λ x. x ≡ landed (defined_in table.now) mark.now) }
{
    match mark {
        Mark::Bound(target) => Ok(Landing::On(*target)),
        Mark::Open(name) => match table.find(name) {
            Some(target) => Ok(Landing::On(target)),
            None => Ok(Landing::Nothing(name.copy()?)),
        },
    }
}

fn landings_of_marks(alloc: Global, table: &Table, marks: &[Mark]) -> Result<Row<Landing>, NoMemory>
    ensures { IfOk result (λ xs. xs ≡ map (landed (defined_in table.now)) marks.now) }
{
    let mut landings = Row::from_vec(Vec::with_capacity(alloc, marks.len())?);
    for mark in marks {
        landings.push(landing_of(table, mark)?)?;
    }
    Ok(landings)
}

/// What the references of a leaf land on. They share the keys of the marks.
fn landings_of_leaf(
    alloc: Global,
    table: &Table,
    row: &MarkRow,
) -> Result<DictRow<Landing>, NoMemory>
    ensures { IfOk result (λ xs. xs ≡ map (landed (defined_in table.now)) row.now.marks) }
{
    let marks = row.marks.parts();
    let landings = landings_of_marks(alloc, table, marks.values)?;
    Ok(DictRow::of(marks.keys.twin()?, landings))
}

/// What each reference lands on, leaf by leaf: a look-up for each distinct reference of a leaf that
/// is open.
pub(crate) fn landings(alloc: Global, table: &Table) -> Result<Row<DictRow<Landing>>, NoMemory>
    ensures { IfOk result
        (λ xs. xs ≡ map (λ r. map (landed (defined_in table.now)) r.marks) table.now.rows) }
{
    let mut landings = Row::from_vec(Vec::with_capacity(alloc, table.rows().len())?);
    for row in table.rows() {
        landings.push(landings_of_leaf(alloc, table, row)?)?;
    }
    Ok(landings)
}

/// The objects, from left to right. They are shared.
pub(crate) fn leaves(alloc: Global, table: &Table) -> Result<Row<Shared<Entry>>, NoMemory>
    ensures { IfOk result (λ xs. xs ≡ map (λ r. r.entry) table.now.rows) }
{
    let mut leaves = Row::from_vec(Vec::with_capacity(alloc, table.rows().len())?);
    for row in table.rows() {
        leaves.push(row.entry.twin()?)?;
    }
    Ok(leaves)
}

/// The names that are defined, each with what it is, in no order that counts.
pub(crate) fn names(alloc: Global, table: &Table) -> Result<Row<Found>, NoMemory>
    ensures { IfOk result (λ xs. (n : Name) → found xs n ≡ defined_in table.now n) }
{
    let definitions = table.definitions();
    let mut names = Row::from_vec(Vec::with_capacity(alloc, definitions.len())?);
    for (name, target) in definitions {
        names.push(Found {
            name: name.copy()?,
            target: *target,
        })?;
    }
    Ok(names)
}
