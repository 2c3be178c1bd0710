//! How often each path is named by the blueprints that a walk may go through.
//!
//! Each of them is gone through once with its operators applied. So a path that they name once is
//! used once, and its table need not be kept.

ghost use Rattle.std.specs.Prelude.{◌≡◌, [], false, true, IfOk, List, OnOk};
ghost use Rattle.omos_model.specs.Names.{Name};
ghost use Rattle.omos_model.specs.Namespace.{Space};
ghost use Rattle.module_eval.specs.declared.memo.Kept.{Kept};
ghost use Rattle.module_eval.specs.inside.Plans.{AreCounts, IsUsedOnce, IsPlanned, StayCounted};
ghost use Rattle.module_eval.specs.inside.Plans.{IsCounted, with_uses};
ghost use Rattle.module_eval.specs.inside.Times.{never, occurs_among};
ghost use Rattle.module_eval.specs.inside.Walks.{space_of};

use crate::counts::Counts;
use crate::operands::Operands;
use crate::outermost::{Outer, outer_of};
use crate::read_path::ReadPath;
use crate::walk::Place;
use indexmap::IndexMap;
use name_tree::Snap;
use omos_base::{NoMemory, PathName};
use omos_model::{Entry, Stamped};
use seeded_hash::Seed;
use sqlite_items::Items;
use std::alloc::Global;

/// After so many steps no more is counted, and each table is kept. All that an expansion within its
/// limits names takes fewer.
const MAX_STEPS: u32 = 16_384;

/// What is known of the uses that paths will have.
#[derive(Drop)]
pub enum Plan<'a> {
    /// Nothing was counted yet.
    Unmade,
    /// How often each path is named by the blueprints of these paths.
    Counted(IndexMap<ReadPath<'a>, u32, Seed>),
    /// There was too much to count.
    Unknown,
}

/// The path is named so many times more. Its blueprint waits where it wasn't named before.
fn count<'a>(
    snap: &'a Snap,
    path: &'a PathName,
    occurs: u32,
    counts: &mut IndexMap<ReadPath<'a>, u32, Seed>,
    waiting: &mut Items<Operands<'a>>,
) -> Result<(), NoMemory>
    requires { AreCounts snap.now.entries (with_uses occurs path.now) counts.old.entries
        waiting.old }
    ensures counts { OnOk result
        (AreCounts snap.now.entries never counts.new.entries waiting.new) }
    ensures here { OnOk result (IsCounted counts.new.entries path.now) }
    ensures stay { OnOk result (StayCounted counts.old.entries counts.new.entries) }
{
    if let Some(before) = counts.get(&ReadPath::of(path)) {
        let sum = before.saturating_add(occurs);
        counts.insert(ReadPath::of(path), sum)?;
        return Ok(());
    }
    counts.insert(ReadPath::of(path), occurs)?;
    let Some(found) = snap.get(path) else {
        return Ok(());
    };
    match found.entry.get() {
        Entry::Object(_) => Ok(()),
        Entry::Blueprint(image) => Ok(waiting.push(Operands::one(image.body()))?),
    }
}

/// Goes one node down in the first of these operands; what is below it and beside it waits.
fn go_on<'a>(
    snap: &'a Snap,
    operands: Operands<'a>,
    counts: &mut IndexMap<ReadPath<'a>, u32, Seed>,
    waiting: &mut Items<Operands<'a>>,
) -> Result<(), NoMemory>
    requires { AreCounts snap.now.entries (occurs_among operands) counts.old.entries
        waiting.old }
    ensures counts { OnOk result
        (AreCounts snap.now.entries never counts.new.entries waiting.new) }
    ensures stay { OnOk result (StayCounted counts.old.entries counts.new.entries) }
{
    let Some((first, others)) = operands.split_first() else {
        return Ok(());
    };
    waiting.push(others)?;
    match outer_of(first) {
        Outer::Path(path) => count(snap, path, 1, counts, waiting),
        Outer::Under(_, body) => Ok(waiting.push(Operands::one(body))?),
        Outer::Join(_, first, others) => {
            waiting.push(others)?;
            Ok(waiting.push(Operands::one(first))?)
        }
    }
}

/// Goes through all that waits, unless that is too much.
fn count_all<'a>(
    snap: &'a Snap,
    counts: &mut IndexMap<ReadPath<'a>, u32, Seed>,
    waiting: &mut Items<Operands<'a>>,
) -> Result<bool, NoMemory>
    requires { AreCounts snap.now.entries never counts.old.entries waiting.old }
    ensures counts { IfOk result (λ done. done ≡ true
        → AreCounts snap.now.entries never counts.new.entries []) }
    ensures stay { OnOk result (StayCounted counts.old.entries counts.new.entries) }
{
    'steps: for _ in 0..MAX_STEPS {
        let Some(operands) = waiting.pop() else {
            return Ok(true);
        };
        go_on(snap, operands, counts, waiting)?;
    }
    Ok(false)
}

/// Counts what may be gone through where these paths were read.
fn made<'a>(
    alloc: Global,
    snap: &'a Snap,
    read: &IndexMap<ReadPath<'a>, &'a Stamped, Seed>,
) -> Result<Plan<'a>, NoMemory>
    ensures { IfOk result (λ plan. (all : List (Name × Kept))
        → IsPlanned snap.now.entries Plan.Unmade read.now.entries all
        → IsPlanned snap.now.entries plan read.now.entries all) }
{
    let mut counts = IndexMap::with_hasher(alloc, *read.hasher());
    let mut waiting = Items::new(alloc);
    'read: for path in read.keys() {
        count(snap, path.get(), 0, &mut counts, &mut waiting)?;
    }
    if count_all(snap, &mut counts, &mut waiting)? {
        Ok(Plan::Counted(counts))
    } else {
        Ok(Plan::Unknown)
    }
}

impl<'a> Plan<'a> {
    /// Counts what may be gone through, if that wasn't done before.
    fn make(&mut self, place: &Place<'a>, counts: &Counts<'a>) -> Result<(), NoMemory>
        ensures planned { OnOk result ((all : List (Name × Kept))
            → IsPlanned (space_of place.now) self.old counts.now.read.entries all
            → IsPlanned (space_of place.now) self.new counts.now.read.entries all) }
    {
        let Plan::Unmade = self else {
            return Ok(());
        };
        *self = made(counts.alloc(), place.snap, &counts.read)?;
        Ok(())
    }

    /// Whether no more than one use of the path was counted.
    fn is_few(&self, path: &PathName) -> bool
        ensures { result ≡ true → IsUsedOnce self.now path.now }
    {
        match self {
            Plan::Counted(counts) => match counts.get(&ReadPath::of(path)) {
                Some(count) => *count <= 1,
                None => false,
            },
            Plan::Unmade | Plan::Unknown => false,
        }
    }

    /// Whether the path, whose blueprint was gone through for the first time, is used here alone.
    pub fn is_only_use(
        &mut self,
        place: &Place<'a>,
        counts: &Counts<'a>,
        path: &PathName,
    ) -> Result<bool, NoMemory>
        ensures planned { OnOk result ((all : List (Name × Kept))
            → IsPlanned (space_of place.now) self.old counts.now.read.entries all
            → IsPlanned (space_of place.now) self.new counts.now.read.entries all) }
        ensures few { IfOk result (λ only. only ≡ true → IsUsedOnce self.new path.now) }
        ensures idle { IfOk result (λ only. place.now.counting ≡ true → only ≡ false) }
    {
        if place.counting {
            return Ok(false);
        }
        self.make(place, counts)?;
        Ok(self.is_few(path))
    }
}
