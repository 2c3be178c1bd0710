//! The evaluation of a path.

ghost use Rattle.std.specs.Prelude.{◌≡◌, [], IfOk, OnOk, Some};
ghost use Rattle.std.specs.Map.{keys_of};
ghost use Rattle.omos_base.specs.Fault.{MatchFault};
ghost use Rattle.omos_model.specs.Expansion.{expansion, first_visit};
ghost use Rattle.link_model.specs.Module.{IsModule};
ghost use Rattle.module_eval.specs.Costs.{IsPaid};
ghost use Rattle.module_eval.specs.inside.Counted.{visit_of};
ghost use Rattle.module_eval.specs.Evaluations.{IsBuiltOn, IsEvaluatedOn, refusal_of};
ghost use Rattle.module_eval.specs.inside.Found.{AreFound};
ghost use Rattle.module_eval.specs.inside.Walked.{Expands};
ghost use Rattle.module_eval.specs.inside.Walks.{MayGoOn};

use crate::footprint::entries_of;
use crate::node::WalkFault;
use crate::part::{Part, built};
use crate::paths::visit_path;
use crate::plan::Plan;
use crate::read_path::ReadPath;
use crate::terms::{self, Terms};
use crate::walk::{Place, Walk};
use indexmap::IndexMap;
use link_model::Evaluated;
use module_land::land;
use module_table::{Steps, Table};
use name_tree::Snap;
use omos_base::{Fault, NoMemory, PathName};
use omos_model::{Refusal, Stamped};
use seeded_hash::Seed;
use std::alloc::Global;
use std::sync::ledger::Ledger;

/// Goes to the requested path, which is no node that is counted.
fn expand<'a, L: Ledger>(
    snap: &'a Snap,
    path: &'a PathName,
    walk: &mut Walk<'a>,
    steps: &mut Steps<L>,
) -> Result<Part, WalkFault>
    requires ready { MayGoOn snap.now.entries walk.old }
    requires first { visit_of walk.old.counts ≡ first_visit }
    requires closed { walk.old.above ≡ [] }
    requires unplanned { walk.old.plan ≡ Plan.Unmade }
    ensures walk { Expands result (expansion snap.now.entries path.now) walk.new.counts }
    ensures found { OnOk result (AreFound snap.now.entries walk.new.counts.read.entries) }
    ensures cost { IsPaid result steps.old steps.new snap.now.entries path.now }
{
    let place = Place {
        snap,
        at: path,
        counting: false,
    };
    visit_path(&place, false, path, walk, steps)
}

/// The module of a table, on the namespace that it was built on.
fn finish(
    alloc: Global,
    snap: &Snap,
    path: &PathName,
    table: &Table,
    read: &IndexMap<ReadPath, &Stamped, Seed>,
) -> Result<Evaluated, NoMemory>
    requires built { IsBuiltOn snap.now.entries path.now table.now (keys_of read.now.entries) }
    requires found { AreFound snap.now.entries read.now.entries }
    ensures { IfOk result (IsEvaluatedOn snap.now.entries path.now) }
{
    let Some(own) = snap.get(path) else {
        unreachable!()
    };
    let terms = terms::of_entry(alloc, own.entry.get())?;
    let entries = entries_of(alloc, read)?;
    let Terms { start, lo, hi } = terms;
    let module = land(alloc, path.copy(), table, entries, start, lo, hi)?;
    // What the module keeps.
    let _path = module.path();
    Ok(module)
}

/// The evaluation of a path on a version of the namespace, or its first refusal: L1 to L4 come
/// before any of L5 to L8, and these in post-order, left to right.
///
/// It reads each path once for each node that names it, and applies each operator once, to tables
/// that are moved; no object is copied. The nodes of a blueprint that have begun wait in a list, so
/// its calls go only as deep as blueprints stand inside one another: six calls at each of at most
/// 32.
pub fn evaluate<L: Ledger>(
    alloc: Global,
    snap: &Snap,
    path: &PathName,
    steps: &mut Steps<L>,
) -> Result<Evaluated, Fault<Refusal>>
    ensures cost { IsPaid result steps.old steps.new snap.now.entries path.now }
    ensures answers { MatchFault result
        (IsEvaluatedOn snap.now.entries path.now)
        (λ x. refusal_of (expansion snap.now.entries path.now) ≡ Some x) }
{
    let mut walk = Walk::new(alloc, snap.seed());
    match expand(snap, path, &mut walk, steps) {
        Ok(part) => match built(alloc, part)? {
            Some(Ok(table)) => { Ok(finish(alloc, snap, path, table.get(), &walk.counts.read)?) }
            Some(Err(refusal)) => Err(Fault::Refused(refusal.into_inner())),
            None => unreachable!(),
        },
        Err(Fault::Refused(refusal)) => Err(Fault::Refused(refusal.into_inner())),
        Err(Fault::NoMemory) => Err(Fault::NoMemory),
    }
}
