//! The walk into a blueprint that may be opened.
//!
//! A blueprint that is named again is only counted, so that the refusal is found that its expansion
//! may come to; what became of it is kept (memo.rt).

ghost use Rattle.std.specs.Prelude.{◌≡◌, ℕ, ◌+◌, ◌≤◌, true, false, OnOk};
ghost use Rattle.omos_model.specs.Tree.{tree_of};
ghost use Rattle.module_share.specs.Trails.{nested_on};
ghost use Rattle.module_eval.specs.Costs.{is_built, operators};
ghost use Rattle.module_eval.specs.inside.Counted.{visit_of};
ghost use Rattle.module_eval.specs.inside.Kept.{IsKept};
ghost use Rattle.module_eval.specs.inside.Walked.{IsFree, IsLimit, Walked, tree_in};
ghost use Rattle.module_eval.specs.inside.Plans.{IsPlannedFor};
ghost use Rattle.module_eval.specs.inside.Times.{moved, never, once, occurs};
ghost use Rattle.module_eval.specs.inside.Walks.{CanUse, Charges, ComesBack, CountOn, GoesTo};
ghost use Rattle.module_eval.specs.inside.Walks.{IsCharged, IsOwed, IsThere, MayGoOn, Uses};
ghost use Rattle.module_eval.specs.inside.Walks.{space_of};

use crate::exprs::visit_expr;
use crate::memo::Kept;
use crate::node::WalkFault;
use crate::opening::{enter_again, open, open_again};
use crate::part::Part;
use crate::reach::{Reach, Tally, deeper, height};
use crate::walk::{BlueprintAt, Place, Walk};
use module_table::Steps;
use omos_model::Image;
use std::sync::ledger::Ledger;

/// Goes through the expression of a blueprint for the first time, and keeps what became of it, but
/// for the requested one.
#[cycle(visits)]
pub fn visit_first<'a, L: Ledger>(
    place: &Place<'a>,
    counted: bool,
    blueprint: &BlueprintAt<'a>,
    walk: &mut Walk<'a>,
    steps: &mut Steps<L>,
) -> Result<Part, WalkFault>
    requires ready { MayGoOn (space_of place.now) walk.old }
    requires there { IsThere (space_of place.now) blueprint.now }
    requires free { IsFree walk.old.above blueprint.now.path.now }
    requires fresh { is_built walk.old.memo.kept.entries blueprint.now.path.now ≡ false }
    requires owed { IsOwed (space_of place.now) place.now.counting counted blueprint.now.path.now
        walk.old }
    requires planned { IsPlannedFor walk.old.plan blueprint.now.path.now }
    ensures walk { GoesTo place.now counted blueprint.now.path.now result walk.old walk.new }
    ensures counts { CountOn walk.old.counts walk.new.counts }
    ensures back { OnOk result (ComesBack (space_of place.now) counted walk.old walk.new) }
    ensures more { counted ≡ true
        → OnOk result (walk.old.counts.nodes + 1 ≤ walk.new.counts.nodes) }
    ensures uses { counted ≡ true → OnOk result (Uses (space_of place.now) place.now.counting
        (λ p. once p blueprint.now.path.now) never walk.old walk.new) }
    ensures cost { IsCharged (space_of place.now) 0 0 walk.old.counts walk.new.counts
        steps.old steps.new }
{
    let path = blueprint.path;
    let depth = walk.above.len();
    let outer = walk.memo.deepest;
    walk.memo.deepest = depth + 1;
    open(
        &mut walk.above,
        counted,
        place.at,
        path,
        blueprint.found,
        &mut walk.counts,
    )?;
    let first = walk.counts.leaves;
    let before = Tally::of(&walk.counts);
    let inside = Place {
        snap: place.snap,
        at: path,
        counting: false,
    };
    let part = visit_nested(&inside, blueprint.image, walk, steps)?;
    walk.above.pop();
    let height = height(depth, walk.memo.deepest);
    walk.memo.deepest = deeper(outer, walk.memo.deepest);
    if !counted {
        return Ok(part);
    }
    let reach = Reach::of(height, before, &walk.counts);
    let only = walk.plan.is_only_use(place, &walk.counts, path)?;
    Ok(
        walk.memo
            .keep(walk.counts.alloc(), path, first, reach, only, part)?,
    )
}

/// Uses a blueprint once more. Where it fits, its counts are added and nothing is walked; where a
/// limit would be passed, its expression is gone through again, counting, so that the refusal is
/// found.
#[cycle(visits)]
pub fn visit_again<'a, L: Ledger>(
    place: &Place<'a>,
    counted: bool,
    blueprint: &BlueprintAt<'a>,
    kept: Kept,
    walk: &mut Walk<'a>,
    steps: &mut Steps<L>,
) -> Result<Part, WalkFault>
    requires ready { MayGoOn (space_of place.now) walk.old }
    requires there { IsThere (space_of place.now) blueprint.now }
    requires free { IsFree walk.old.above blueprint.now.path.now }
    requires built { is_built walk.old.memo.kept.entries blueprint.now.path.now ≡ true }
    requires own { IsKept (space_of place.now) blueprint.now.path.now kept }
    requires left { place.now.counting ≡ false → moved kept.built ≡ 0 }
    requires owed { IsOwed (space_of place.now) place.now.counting counted blueprint.now.path.now
        walk.old }
    requires planned { IsPlannedFor walk.old.plan blueprint.now.path.now }
    ensures walk { GoesTo place.now counted blueprint.now.path.now result walk.old walk.new }
    ensures counts { CountOn walk.old.counts walk.new.counts }
    ensures back { OnOk result (ComesBack (space_of place.now) counted walk.old walk.new) }
    ensures more { counted ≡ true
        → OnOk result (walk.old.counts.nodes + 1 ≤ walk.new.counts.nodes) }
    ensures uses { counted ≡ true → OnOk result (Uses (space_of place.now) place.now.counting
        (λ p. once p blueprint.now.path.now) never walk.old walk.new) }
    ensures cost { IsCharged (space_of place.now) 0 0 walk.old.counts walk.new.counts
        steps.old steps.new }
{
    let path = blueprint.path;
    enter_again(counted, place.at, path, blueprint.found, &mut walk.counts)?;
    let depth = walk.above.len();
    if walk.memo.apart && kept.reach.has_room(depth, &walk.counts) {
        walk.memo.deepest = deeper(walk.memo.deepest, kept.reach.height as usize + depth);
        return Ok(kept.use_again(&mut walk.counts)?);
    }
    let first = walk.counts.leaves;
    walk.memo.apart = false;
    walk.memo.deepest = deeper(walk.memo.deepest, depth + 1);
    open_again(&mut walk.above, path)?;
    let inside = Place {
        snap: place.snap,
        at: path,
        counting: true,
    };
    visit_nested(&inside, blueprint.image, walk, steps)?;
    walk.above.pop();
    if place.counting {
        return Ok(Part::Counted);
    }
    Ok(kept.again(walk.counts.alloc(), first)?)
}

/// Goes through the expression of an open blueprint, whose nodes have numbers of their own.
#[cycle(visits)]
fn visit_nested<'a, L: Ledger>(
    place: &Place<'a>,
    image: &'a Image,
    walk: &mut Walk<'a>,
    steps: &mut Steps<L>,
) -> Result<Part, WalkFault>
    requires ready { MayGoOn (space_of place.now) walk.old }
    requires uses { CanUse (space_of place.now) place.now.counting
        (λ p. occurs p (tree_of image.now.body)) walk.old }
    ensures walk { (limit : ℕ) → IsLimit result walk.new.memo.deepest limit
        → Walked place.now.counting result (nested_on (tree_in (space_of place.now) limit
        walk.old.above place.now.at.now (tree_of image.now.body)) (visit_of walk.old.counts))
        walk.new.counts }
    ensures counts { CountOn walk.old.counts walk.new.counts }
    ensures back { OnOk result (ComesBack (space_of place.now) true walk.old walk.new) }
    ensures uses { OnOk result (Uses (space_of place.now) place.now.counting
        (λ p. occurs p (tree_of image.now.body)) never walk.old walk.new) }
    ensures cost { Charges (space_of place.now) place.now.counting
        (operators (tree_of image.now.body)) 0 walk.old.counts walk.new.counts
        steps.old steps.new }
{
    let node = walk.counts.node;
    walk.counts.node = 0;
    let part = visit_expr(place, image.body(), walk, steps)?;
    walk.counts.node = node;
    Ok(part)
}
