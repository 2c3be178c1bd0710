//! The fragment of an object file.

ghost use Rattle.std.specs.Prelude.{◌≡◌, None, IfOk, Ok, Err};
ghost use Rattle.omos_base.specs.Fault.{MatchFault};
ghost use Rattle.omos_model.specs.FragmentOf.{fragment_of, parts_of_file};
ghost use Rattle.omos_model.specs.ElfFaults.{object_fault};

use crate::exports::exports;
use crate::fixups::fixups;
use crate::numbers::{kept_count, piece_numbers};
use crate::pieces::pieces;
use elf_object::{Tables, read_tables};
use omos_base::{Fault, NoMemory, Part};
use omos_model::{Fragment, ObjectFault, laws};
use std::alloc::Global;

fn parts_of_file(alloc: Global, file: &Part, tables: &Tables<'_>) -> Result<Fragment, NoMemory>
    requires right { object_fault tables.now ≡ None }
    requires same { file.now ≡ tables.now }
    ensures { IfOk result (λ f. f ≡ parts_of_file tables.now) }
{
    let numbers = piece_numbers(alloc, tables)?;
    let pieces = pieces(alloc, file, tables)?;
    let first_common = kept_count(tables);
    let exports = exports(alloc, file, tables, numbers.as_slice(), first_common)?;
    let fixups = fixups(alloc, file, tables, numbers.as_slice())?;
    laws::files_hold_fragments();
    Ok(Fragment::from_parts(pieces, exports, fixups))
}

/// The fragment of an object file, or its first fault, O1 to O11.
///
/// The file is copied once, and its names and the bytes of its sections are runs of that copy,
/// whatever they have in common. It costs the file's tables, and a look-up among the exports for
/// each of them.
pub fn fragment(alloc: Global, file: &[u8]) -> Result<Fragment, Fault<ObjectFault>>
    ensures { MatchFault result
        (λ f. fragment_of file.now ≡ Ok f) (λ x. fragment_of file.now ≡ Err x) }
{
    match read_tables(alloc, file) {
        Ok(tables) => {
            let copy = Part::from_slice(alloc, tables.file())?;
            Ok(parts_of_file(alloc, &copy, &tables)?)
        }
        Err(fault) => Err(fault),
    }
}

/// The fragment of an object file, as `fragment` reads it. Its names and the bytes of its sections
/// are runs of the file that is given, which is not copied.
pub fn fragment_in(alloc: Global, file: &Part) -> Result<Fragment, Fault<ObjectFault>>
    ensures { MatchFault result
        (λ f. fragment_of file.now ≡ Ok f) (λ x. fragment_of file.now ≡ Err x) }
{
    match read_tables(alloc, file.as_slice()) {
        Ok(tables) => Ok(parts_of_file(alloc, file, &tables)?),
        Err(fault) => Err(fault),
    }
}
