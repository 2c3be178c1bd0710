//! What a blueprint adds to the counts, wherever it is used.

ghost use Rattle.std.specs.Prelude.{◌≡◌, ◌≤◌, ◌-◌, ◌↔◌, IsTrue, max};
ghost use Rattle.omos_model.specs.Expansion.{max_blueprints};
ghost use Rattle.module_eval.specs.inside.Counted.{AreCounted, visit_of};
ghost use Rattle.module_eval.specs.inside.Reaches.{Fits, added, with_added};
ghost use Rattle.module_eval.specs.inside.Reaches.{PassesNoLimit, tally_of_visit};

use crate::counts::{Counts, MAX_LEAVES, MAX_NODES, MAX_SUM};
use crate::opening::MAX_BLUEPRINTS;

/// The counts of an expansion that have limits.
#[derive(Clone, Copy)]
pub struct Tally {
    pub nodes: u32,
    pub leaves: u32,
    pub exports: u32,
    pub fixups: u32,
}

/// How high a blueprint stands, and what its expression adds to the counts.
#[derive(Clone, Copy)]
pub struct Reach {
    /// How many blueprints stand inside one another in it, itself among them, at most.
    pub height: u32,
    pub added: Tally,
}

impl Tally {
    /// The counts as they are.
    pub fn of(counts: &Counts<'_>) -> Tally
        ensures { result ≡ tally_of_visit (visit_of counts.now) }
    {
        Tally {
            nodes: counts.nodes,
            leaves: counts.leaves,
            exports: counts.exports,
            fixups: counts.fixups,
        }
    }

    /// What was added since.
    pub fn until(self, later: Tally) -> Tally
        ensures { result ≡ added self later }
    {
        Tally {
            nodes: later.nodes.saturating_sub(self.nodes),
            leaves: later.leaves.saturating_sub(self.leaves),
            exports: later.exports.saturating_sub(self.exports),
            fixups: later.fixups.saturating_sub(self.fixups),
        }
    }

    /// Whether no count passes its limit when so much is added.
    pub fn fits(&self, counts: &Counts<'_>) -> bool
        requires { AreCounted counts.now }
        ensures { IsTrue result ↔ Fits self.now (visit_of counts.now) }
    {
        self.nodes <= MAX_NODES - counts.nodes
            && self.leaves <= MAX_LEAVES - counts.leaves
            && self.exports <= MAX_SUM - counts.exports
            && self.fixups <= MAX_SUM - counts.fixups
    }

    /// Adds so much to the counts.
    pub fn add_to(self, counts: &mut Counts<'_>)
        requires counted { AreCounted counts.old }
        requires fits { Fits self (visit_of counts.old) }
        ensures sum { visit_of counts.new ≡ with_added self (visit_of counts.old) }
        ensures read { counts.new.read ≡ counts.old.read }
        ensures counted { AreCounted counts.new }
    {
        counts.nodes += self.nodes;
        counts.leaves += self.leaves;
        counts.exports += self.exports;
        counts.fixups += self.fixups;
    }
}

impl Reach {
    /// The reach of a blueprint of this height that went from these counts on.
    pub fn of(height: u32, before: Tally, counts: &Counts<'_>) -> Reach
        ensures height { result.height ≡ height }
        ensures added { result.added ≡ added before (tally_of_visit (visit_of counts.now)) }
    {
        Reach {
            height,
            added: before.until(Tally::of(counts)),
        }
    }

    /// Whether a use inside so many open blueprints passes no limit.
    pub fn has_room(&self, depth: usize, counts: &Counts<'_>) -> bool
        requires counted { AreCounted counts.now }
        requires depth { depth ≤ max_blueprints }
        ensures { IsTrue result ↔ PassesNoLimit self.now depth (visit_of counts.now) }
    {
        self.height as usize <= MAX_BLUEPRINTS - depth && self.added.fits(counts)
    }
}

/// How high a blueprint stands that was opened inside so many, where so many stood deepest.
pub fn height(depth: usize, deepest: usize) -> u32
    requires inside { depth ≤ deepest }
    requires low { deepest ≤ max_blueprints }
    ensures { result ≡ deepest - depth }
{
    (deepest - depth) as u32
}

/// The deeper of both.
pub fn deeper(one: usize, other: usize) -> usize
    ensures first { one ≤ result }
    ensures second { other ≤ result }
    ensures one_of { result ≡ max one other }
{
    if one < other { other } else { one }
}
