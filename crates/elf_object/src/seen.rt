//! The names of exports that were met so far.
//!
//! Most stand in a table with eight places for each symbol, by a number made of the name's bytes;
//! those whose place is taken stand in an ordered set. So names that were chosen to share one place
//! cost what the set costs, a number of comparisons that grows with the logarithm of their count.

ghost use Rattle.std.specs.Prelude.{◌≡◌, ◌+◌, ◌<◌, ◌≤◌, true, not, IfOk, IsTrue, refl};
ghost use Rattle.std.specs.BTreeSet.{contains};
ghost use Rattle.std.specs.Cmp.Rules.{comparing};
ghost use Rattle.std.specs.Ordering.{as_partial_cmp, eq_by_cmp};
ghost use Rattle.std.proofs.Common.{rules};
ghost use Rattle.omos_model.specs.ElfFaults.{is_again, is_export};
ghost use Rattle.elf_object.specs.inside.Seen.{HaveSeen, digest, name_order};
ghost use Rattle.elf_object.specs.TablesOf.{AreSymbols};

use crate::symbols::name;
use crate::symtab::Symbols;
use omos_base::NoMemory;
use std::cmp::Ordering;
use std::collections::BTreeSet;
use std::hash::{FoldHasher, Hasher};
use std::marker::Model;

/// The name of an export, that contracts see as its bytes. Names are ordered by their numbers,
/// which mostly differ, and then by their bytes.
#[derive(Drop)]
pub(crate) struct ExportName<'a> {
    /// The number that stands for the name.
    number: u64,
    bytes: &'a [u8],
}

impl<'a> Model for ExportName<'a> {
    ghost use Rattle.std.specs.Prelude.{◌≡◌, List, ℕ};

    ghost Value = { List ℕ };

    ghost use Rattle.elf_object.specs.inside.Seen.{digest};

    ghost view = { λ name. name.bytes.now };

    ghost invariant = { λ name. name.number ≡ digest name.bytes.now };
}

impl<'a> PartialEq for ExportName<'a> {
    ghost eq = { eq_by_cmp name_order };

    ghost laws = { Prim.search (comparing, rules) };

    fn eq(&self, other: &ExportName<'a>) -> bool {
        self.cmp(other).is_eq()
    }
}

impl<'a> Eq for ExportName<'a> {
    ghost laws = { Prim.search (comparing, rules) };
}

impl<'a> PartialOrd for ExportName<'a> {
    ghost partial_cmp = { as_partial_cmp name_order };

    ghost laws = { Prim.search (comparing, rules) };

    fn partial_cmp(&self, other: &ExportName<'a>) -> Option<Ordering> {
        Some(self.cmp(other))
    }
}

impl<'a> Ord for ExportName<'a> {
    ghost cmp = { name_order };

    ghost total = { Prim.search (comparing, rules) };

    ghost matches_partial_cmp = { λ x y. refl };

    ghost matches_eq = { λ x y. refl };

    fn cmp(&self, other: &ExportName<'a>) -> Ordering {
        match self.number.cmp(&other.number) {
            Ordering::Equal => self.bytes.cmp(other.bytes),
            apart => apart,
        }
    }
}

/// The number that stands for a name.
#[tactic(auto, unfolding(crate::specs::inside::Seen::digest))]
fn digest(name: &[u8]) -> u64
    ensures { result ≡ digest name.now }
{
    let mut hasher = FoldHasher::default();
    hasher.write(name);
    hasher.finish()
}

/// Whether no lower symbol defines the name of this export, which is then one of those seen.
pub(crate) fn is_new<'a>(
    file: &[u8],
    table: Symbols<'a>,
    k: u32,
    places: &mut Vec<u32>,
    others: &mut BTreeSet<ExportName<'a>>,
) -> Result<bool, NoMemory>
    requires right { AreSymbols file.now table.count table.at table.strings.now }
    requires counted { 1 ≤ k }
    requires there { k < table.count }
    requires export { is_export file.now k ≡ true }
    requires seen { HaveSeen file.now k places.old.items (contains name_order others.old) }
    ensures { IfOk result (λ new. (is_again file.now k ≡ not new)
        × (IsTrue new → HaveSeen file.now (k + 1) places.new.items
        (contains name_order others.new))) }
{
    let bytes = name(file, table, k);
    let number = digest(bytes);
    let place = (number % places.len() as u64) as usize;
    let other = places[place];
    if other == 0 {
        places[place] = k;
        return Ok(true);
    }
    if name(file, table, other) == bytes {
        return Ok(false);
    }
    Ok(others.insert(ExportName { number, bytes })?)
}
