//! The number of each section's piece.

ghost use Rattle.std.specs.Prelude.{◌≡◌, None, IfOk};
ghost use Rattle.omos_model.specs.ElfFaults.{object_fault};
ghost use Rattle.omos_model.specs.FragmentOf.{common_piece};
ghost use Rattle.fragment_read.specs.inside.Numbered.{ArePieceNumbers};

use elf_object::Tables;
use omos_base::{NoMemory, Row};
use std::alloc::Global;

/// By a section's number, how many kept sections stand before it: the number of its own piece.
pub(crate) fn piece_numbers(alloc: Global, tables: &Tables<'_>) -> Result<Row<u32>, NoMemory>
    requires { object_fault tables.now ≡ None }
    ensures { IfOk result (λ numbers. ArePieceNumbers tables.now numbers) }
{
    let mut numbers = Row::from_vec(Vec::with_capacity(alloc, tables.sections() as usize)?);
    let mut count = 0u32;
    for i in 0..tables.sections() {
        numbers.push(count)?;
        if tables.kept(i) {
            count += 1;
        }
    }
    Ok(numbers)
}

/// How many sections are kept.
pub(crate) fn kept_count(tables: &Tables<'_>) -> u32
    requires { object_fault tables.now ≡ None }
    ensures { result ≡ common_piece tables.now 1 }
{
    let mut count = 0u32;
    for i in 1..tables.sections() {
        if tables.kept(i) {
            count += 1;
        }
    }
    count
}
