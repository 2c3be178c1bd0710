//! The walk to a path, by what stands there.

ghost use Rattle.std.specs.Prelude.{◌≡◌, ◌+◌, ◌≤◌, false, true, OnOk};
ghost use Rattle.module_eval.specs.inside.Plans.{IsPlannedFor};
ghost use Rattle.module_eval.specs.inside.Times.{never, once, away};
ghost use Rattle.module_eval.specs.inside.Walks.{ComesBack, CountOn, GoesTo, HasSpent, IsCharged};
ghost use Rattle.module_eval.specs.inside.Walks.{IsOwed, IsThere, MayGoOn, Uses, space_of};

use crate::blueprints::{visit_again, visit_first};
use crate::memo::Found;
use crate::node::WalkFault;
use crate::object::visit_object;
use crate::opening::{bar, no_entry};
use crate::part::Part;
use crate::walk::{BlueprintAt, Place, Walk};
use module_table::Steps;
use omos_base::{Fault, PathName};
use omos_model::Entry;
use std::sync::ledger::Ledger;

/// What is known of the table of a path, a use of which is owed: it is gone only where it won't be
/// wanted, and the path is among those that were counted.
#[inline(always)]
fn has_uses(place: &Place<'_>, counted: bool, path: &PathName, walk: &Walk<'_>)
    requires away { HasSpent (space_of place.now) walk.now }
    requires owed { IsOwed (space_of place.now) place.now.counting counted path.now walk.now }
    ensures planned { IsPlannedFor walk.now.plan path.now }
    ensures left { place.now.counting ≡ false → away walk.now.memo.kept.entries path.now ≡ 0 }
{
    walk.counts.each_once();
}

/// Goes to a path. The node that names it is counted, but for the requested path.
///
/// The functions that call one another in this cycle go only as deep as blueprints stand inside one
/// another, at most 32 times through all of them, however deep the nodes of each are nested.
#[cycle(visits)]
pub fn visit_path<'a, L: Ledger>(
    place: &Place<'a>,
    counted: bool,
    path: &'a PathName,
    walk: &mut Walk<'a>,
    steps: &mut Steps<L>,
) -> Result<Part, WalkFault>
    requires ready { MayGoOn (space_of place.now) walk.old }
    requires owed { IsOwed (space_of place.now) place.now.counting counted path.now walk.old }
    ensures walk { GoesTo place.now counted path.now result walk.old walk.new }
    ensures counts { CountOn walk.old.counts walk.new.counts }
    ensures back { OnOk result (ComesBack (space_of place.now) counted walk.old walk.new) }
    ensures more { counted ≡ true
        → OnOk result (walk.old.counts.nodes + 1 ≤ walk.new.counts.nodes) }
    ensures uses { counted ≡ true → OnOk result (Uses (space_of place.now) place.now.counting
        (λ p. once p path.now) never walk.old walk.new) }
    ensures cost { IsCharged (space_of place.now) 0 0 walk.old.counts walk.new.counts
        steps.old steps.new }
{
    let Some(found) = place.snap.get(path) else {
        return Err(no_entry(walk.counts.alloc(), place.at, walk.counts.node, path));
    };
    has_uses(place, counted, path, walk);
    match found.entry.get() {
        Entry::Object(_) => {
            visit_object(
                place.counting,
                counted,
                place.at,
                path,
                found,
                &mut walk.counts,
            )
        }
        Entry::Blueprint(image) => {
            let blueprint = BlueprintAt { path, found, image };
            visit_blueprint(place, counted, &blueprint, walk, steps)
        }
    }
}

/// Goes to a blueprint that may be opened: for the first time, or once more.
#[cycle(visits)]
fn visit_blueprint<'a, L: Ledger>(
    place: &Place<'a>,
    counted: bool,
    blueprint: &BlueprintAt<'a>,
    walk: &mut Walk<'a>,
    steps: &mut Steps<L>,
) -> Result<Part, WalkFault>
    requires ready { MayGoOn (space_of place.now) walk.old }
    requires there { IsThere (space_of place.now) blueprint.now }
    requires owed { IsOwed (space_of place.now) place.now.counting counted blueprint.now.path.now
        walk.old }
    requires planned { IsPlannedFor walk.old.plan blueprint.now.path.now }
    ensures walk { GoesTo place.now counted blueprint.now.path.now result walk.old walk.new }
    ensures counts { CountOn walk.old.counts walk.new.counts }
    ensures back { OnOk result (ComesBack (space_of place.now) counted walk.old walk.new) }
    ensures more { counted ≡ true
        → OnOk result (walk.old.counts.nodes + 1 ≤ walk.new.counts.nodes) }
    ensures uses { counted ≡ true → OnOk result (Uses (space_of place.now) place.now.counting
        (λ p. once p blueprint.now.path.now) never walk.old walk.new) }
    ensures cost { IsCharged (space_of place.now) 0 0 walk.old.counts walk.new.counts
        steps.old steps.new }
{
    let path = blueprint.path;
    if let Some(barred) = bar(
        walk.counts.alloc(),
        &walk.above,
        place.at,
        path,
        walk.counts.node,
    ) {
        return Err(barred);
    }
    has_uses(place, counted, path, walk);
    match walk.memo.find(walk.counts.alloc(), path) {
        Found::Kept(kept) => visit_again(place, counted, blueprint, kept, walk, steps),
        Found::Nothing => visit_first(place, counted, blueprint, walk, steps),
        Found::NoMemory => Err(Fault::NoMemory),
    }
}
