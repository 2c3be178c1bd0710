//! Where a walk through the expressions of blueprints stands, and how far it has come.
//!
//! The walk goes from left to right, outer before inner. Its steps call one another in a cycle:
//! to a path (paths.rt), into a blueprint (blueprints.rt), through an expression (exprs.rt).

ghost use Rattle.std.specs.Prelude.{◌≡◌, []};
ghost use Rattle.omos_model.specs.Expansion.{first_visit};
ghost use Rattle.omos_model.specs.Namespace.{Space};
ghost use Rattle.module_eval.specs.inside.Counted.{visit_of};
ghost use Rattle.module_eval.specs.inside.Walks.{MayGoOn};

use crate::counts::Counts;
use crate::memo::Memo;
use crate::plan::Plan;
use name_tree::Snap;
use omos_base::PathName;
use omos_model::{Image, Stamped};
use seeded_hash::Seed;
use sqlite_items::Items;
use std::alloc::Global;

/// Where a walk stands, which is the same at each node of a blueprint.
#[derive(Clone, Copy)]
pub struct Place<'a> {
    /// The version of the namespace on which paths are looked up.
    pub snap: &'a Snap,
    /// The blueprint whose nodes are gone through, or the requested path.
    pub at: &'a PathName,
    /// Whether nodes are only counted: then no operator is applied, and no table is made.
    pub counting: bool,
}

/// A blueprint that a node names, or the request.
#[derive(Clone, Copy)]
pub struct BlueprintAt<'a> {
    pub path: &'a PathName,
    /// What was found at its path.
    pub found: &'a Stamped,
    pub image: &'a Image,
}

/// How far a walk has come.
#[derive(Drop)]
pub struct Walk<'a> {
    /// The blueprints that are open, the outermost first.
    pub above: Items<PathName>,
    /// What became of those that were gone through.
    pub memo: Memo<'a>,
    pub counts: Counts<'a>,
    /// What is known of the uses to come.
    pub plan: Plan<'a>,
}

impl<'a> Walk<'a> {
    /// Nothing is open, kept or counted yet.
    pub fn new(alloc: Global, seed: Seed) -> Walk<'a>
        ensures ready { (ns : Space) → MayGoOn ns result }
        ensures first { visit_of result.counts ≡ first_visit }
        ensures closed { result.above ≡ [] }
        ensures unplanned { result.plan ≡ Plan.Unmade }
    {
        Walk {
            above: Items::new(alloc),
            memo: Memo::new(alloc, seed),
            counts: Counts::new(alloc, seed),
            plan: Plan::Unmade,
        }
    }
}
