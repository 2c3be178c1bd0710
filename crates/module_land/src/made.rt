//! Evaluated modules that are made from tables.

ghost use Rattle.std.specs.Prelude.{◌≡◌, IfOk};
ghost use Rattle.omos_model.specs.FragmentParts.{FragmentParts, IsFragment};
ghost use Rattle.module_table.specs.Stands.{IsObject};
ghost use Rattle.link_model.specs.Module.{alone, terms_with};
ghost use Rattle.module_land.specs.Land.{IsTableOf};

use crate::landed;
use link_model::{Evaluated, usual_start};
use module_table::Table;
use omos_base::{NoMemory, PathName, Row, Shared};
use omos_model::{Entry, Stamped, Start};
use seeded_hash::Seed;
use std::alloc::Global;

/// An entry's object is a fragment. Nothing is run.
fn holds_fragment(entry: &Entry)
    requires { IsObject entry.now }
    ensures { (f : FragmentParts) × (entry.now ≡ Entry.Object f) × IsFragment f }
{
    let Entry::Object(fragment) = entry else {
        unreachable!()
    };
    let _pieces = fragment.pieces();
}

/// The evaluation of a path on the namespace that its footprint lists, by the table of its
/// term, whose seed it keeps. It costs a look-up for each distinct reference of a leaf that is
/// open, and an owner for each name.
pub fn land(
    alloc: Global,
    path: PathName,
    table: &Table,
    footprint: Row<Stamped>,
    start: Start,
    lo: u64,
    hi: u64,
) -> Result<Evaluated, NoMemory>
    requires { IsTableOf table.now path footprint (terms_with start lo hi) }
    ensures { IfOk result (λ m. (m.path ≡ path) × (m.footprint ≡ footprint)) }
{
    let leaves = landed::leaves(alloc, table)?;
    let landings = landed::landings(alloc, table)?;
    let names = landed::names(alloc, table)?;
    let footprint = Shared::of(alloc, footprint)?;
    let seed = *table.definitions().hasher();
    Ok(Evaluated::of(
        path, leaves, landings, names, footprint, start, lo, hi, seed,
    ))
}

/// The evaluation of an object's path on the namespace that holds it alone, with stamp 1. The
/// seed is that of its table.
pub fn lone(
    alloc: Global,
    seed: Seed,
    path: PathName,
    entry: Shared<Entry>,
) -> Result<Evaluated, NoMemory>
    requires { IsObject entry }
    ensures { IfOk result (λ m. (m.path ≡ path) × (m.footprint ≡ alone path entry)) }
{
    holds_fragment(entry.get());
    let table = Table::leaf(alloc, seed, 0, entry.twin()?)?;
    let mut footprint = Row::new(alloc);
    footprint.push(Stamped {
        path: Shared::of(alloc, path.copy())?,
        stamp: 1,
        entry,
    })?;
    let start = Start::Named(usual_start(alloc)?);
    land(
        alloc,
        path,
        &table,
        footprint,
        start,
        0x40_0000,
        0x4000_0000,
    )
}
