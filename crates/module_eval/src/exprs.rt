//! The walk through the expression of a blueprint, from left to right, outer before inner.

ghost use Rattle.std.specs.Prelude.{ℕ, ◌+◌, ◌≤◌, ◌∷◌, true, length, reverse, IsTrue, OnOk};
ghost use Rattle.omos_model.specs.Expansion.{site_of};
ghost use Rattle.omos_model.specs.ImageParts.{is_formed};
ghost use Rattle.omos_model.specs.Term.{Term};
ghost use Rattle.omos_model.specs.Tree.{tree_of};
ghost use Rattle.module_share.specs.Trails.{Trail};
ghost use Rattle.module_eval.specs.Costs.{joins, operators, owed, owed_by};
ghost use Rattle.module_eval.specs.inside.Counted.{visit_of};
ghost use Rattle.module_eval.specs.inside.Meant.{Means};
ghost use Rattle.module_eval.specs.inside.Pendings.{Comes, ComesTo, EndsAt, others_in};
ghost use Rattle.module_eval.specs.inside.Times.{never, occurs, occurs_among, occurs_at};
ghost use Rattle.module_eval.specs.inside.Times.{occurs_left};
ghost use Rattle.module_eval.specs.inside.Walked.{IsLimit, Walked, path_in, tree_in};
ghost use Rattle.module_eval.specs.inside.Walks.{CanUse, Charges, ComesBack, CountOn, EndsFrom};
ghost use Rattle.module_eval.specs.inside.Walks.{MayGoOn, Uses, space_of};

use crate::counts::begin_node;
use crate::node::WalkFault;
use crate::operands::Operands;
use crate::outermost::{Outer, outer_of};
use crate::part::{self, Join, Part};
use crate::paths::visit_path;
use crate::pending::Pending;
use crate::walk::{Place, Walk};
use module_table::Steps;
use omos_model::Expr;
use sqlite_items::Items;
use std::sync::ledger::Ledger;

/// Goes through an expression. The nodes that have begun wait in a list, so that it takes no deeper
/// stack where they are nested deeper.
#[cycle(visits)]
pub fn visit_expr<'a, L: Ledger>(
    place: &Place<'a>,
    expr: &'a Expr,
    walk: &mut Walk<'a>,
    steps: &mut Steps<L>,
) -> Result<Part, WalkFault>
    requires ready { MayGoOn (space_of place.now) walk.old }
    requires formed { IsTrue (is_formed expr.now) }
    requires uses { CanUse (space_of place.now) place.now.counting
        (λ p. occurs p (tree_of expr.now)) walk.old }
    ensures walk { (limit : ℕ) → IsLimit result walk.new.memo.deepest limit
        → Walked place.now.counting result (tree_in (space_of place.now) limit walk.old.above
        place.now.at.now (tree_of expr.now) (visit_of walk.old.counts)) walk.new.counts }
    ensures counts { CountOn walk.old.counts walk.new.counts }
    ensures back { OnOk result (ComesBack (space_of place.now) true walk.old walk.new) }
    ensures uses { OnOk result (Uses (space_of place.now) place.now.counting
        (λ p. occurs p (tree_of expr.now)) never walk.old walk.new) }
    ensures cost { Charges (space_of place.now) place.now.counting (operators (tree_of expr.now)) 0
        walk.old.counts walk.new.counts steps.old steps.new }
{
    let mut pending = Items::new(walk.counts.alloc());
    let mut part = descend(place, expr, &mut pending, walk, steps)?;
    'pending: while let Some(node) = pending.pop() {
        part = resume(place, node, part, &mut pending, walk, steps)?;
    }
    Ok(part)
}

/// Begins the nodes from an expression down to its first path, and goes there.
#[cycle(visits)]
fn descend<'a, L: Ledger>(
    place: &Place<'a>,
    expr: &'a Expr,
    pending: &mut Items<Pending<'a>>,
    walk: &mut Walk<'a>,
    steps: &mut Steps<L>,
) -> Result<Part, WalkFault>
    requires ready { MayGoOn (space_of place.now) walk.old }
    requires formed { IsTrue (is_formed expr.now) }
    requires uses { CanUse (space_of place.now) place.now.counting
        (λ p. occurs p (tree_of expr.now) + occurs_left pending.old p) walk.old }
    ensures walk { (limit : ℕ) (end : Trail Term) → IsLimit result walk.new.memo.deepest limit
        → Comes (tree_in (space_of place.now) limit walk.old.above place.now.at.now
        (tree_of expr.now) (visit_of walk.old.counts))
        (EndsFrom place.now limit walk.old pending.old) end
        → ComesTo place.now.counting result (EndsFrom place.now limit walk.old pending.new)
        walk.new.counts end }
    ensures counts { CountOn walk.old.counts walk.new.counts }
    ensures back { OnOk result (ComesBack (space_of place.now) true walk.old walk.new) }
    ensures begun { OnOk result (length pending.new + walk.old.counts.nodes + 1
        ≤ length pending.old + walk.new.counts.nodes) }
    ensures uses { OnOk result (Uses (space_of place.now) place.now.counting
        (λ p. occurs p (tree_of expr.now) + occurs_left pending.old p) (occurs_left pending.new)
        walk.old walk.new) }
    ensures cost { Charges (space_of place.now) place.now.counting
        (operators (tree_of expr.now) + owed pending.old) (owed pending.new)
        walk.old.counts walk.new.counts steps.old steps.new }
{
    let mut expr = expr;
    'nodes: loop {
        match outer_of(expr) {
            Outer::Path(path) => return visit_path(place, true, path, walk, steps),
            Outer::Under(operator, body) => {
                let node = begin_node(place.at, &mut walk.counts)?;
                pending.push(Pending::Under { node, operator })?;
                expr = body;
            }
            Outer::Join(join, first, others) => {
                let node = begin_node(place.at, &mut walk.counts)?;
                pending.push(Pending::First { node, join, others })?;
                expr = first;
            }
        }
    }
}

/// Goes on where the module of an operand has come to the pending node that waits for it.
#[cycle(visits)]
fn resume<'a, L: Ledger>(
    place: &Place<'a>,
    node: Pending<'a>,
    part: Part,
    pending: &mut Items<Pending<'a>>,
    walk: &mut Walk<'a>,
    steps: &mut Steps<L>,
) -> Result<Part, WalkFault>
    requires ready { MayGoOn (space_of place.now) walk.old }
    requires uses { CanUse (space_of place.now) place.now.counting
        (λ p. occurs_at p node + occurs_left pending.old p) walk.old }
    ensures walk { (limit : ℕ) (t : Term) (end : Trail Term)
        → IsLimit result walk.new.memo.deepest limit → Means place.now.counting part t
        → EndsAt place.now.counting (space_of place.now) limit walk.old.above place.now.at.now
        (node.entry ∷ reverse pending.old) t (visit_of walk.old.counts) end
        → ComesTo place.now.counting result (EndsFrom place.now limit walk.old pending.new)
        walk.new.counts end }
    ensures counts { CountOn walk.old.counts walk.new.counts }
    ensures back { OnOk result (ComesBack (space_of place.now) true walk.old walk.new) }
    ensures done { OnOk result (length pending.new + walk.old.counts.nodes
        ≤ length pending.old + walk.new.counts.nodes) }
    ensures uses { OnOk result (Uses (space_of place.now) place.now.counting
        (λ p. occurs_at p node.entry + occurs_left pending.old p) (occurs_left pending.new)
        walk.old walk.new) }
    ensures cost { Charges (space_of place.now) place.now.counting
        (owed_by node.entry + owed pending.old) (owed pending.new)
        walk.old.counts walk.new.counts steps.old steps.new }
{
    let alloc = walk.counts.alloc();
    match node {
        Pending::Under { node, operator } => {
            Ok(part::apply(alloc, place.counting, place.at, node, operator, part, steps)?)
        }
        Pending::First { node, join, others } => {
            visit_others(place, node, join, part, others, pending, walk, steps)
        }
        Pending::Right {
            node,
            join,
            left,
            others,
        } => {
            let (at, counting) = (place.at, place.counting);
            let left = part::combine(alloc, counting, join, at, node, left, part, steps)?;
            visit_others(place, node, join, left, others, pending, walk, steps)
        }
    }
}

/// Goes on with the further operands of a join; `left` is what stands to their left.
#[cycle(visits)]
fn visit_others<'a, L: Ledger>(
    place: &Place<'a>,
    node: u32,
    join: Join,
    left: Part,
    others: Operands<'a>,
    pending: &mut Items<Pending<'a>>,
    walk: &mut Walk<'a>,
    steps: &mut Steps<L>,
) -> Result<Part, WalkFault>
    requires ready { MayGoOn (space_of place.now) walk.old }
    requires uses { CanUse (space_of place.now) place.now.counting
        (λ p. occurs_among others p + occurs_left pending.old p) walk.old }
    ensures walk { (limit : ℕ) (t : Term) (end : Trail Term)
        → IsLimit result walk.new.memo.deepest limit → Means place.now.counting left t
        → Comes (others_in (path_in (space_of place.now) limit walk.old.above true place.now.at.now)
        place.now.at.now join (site_of place.now.at.now node) t others.entry
        (visit_of walk.old.counts))
        (EndsFrom place.now limit walk.old pending.old) end
        → ComesTo place.now.counting result (EndsFrom place.now limit walk.old pending.new)
        walk.new.counts end }
    ensures counts { CountOn walk.old.counts walk.new.counts }
    ensures back { OnOk result (ComesBack (space_of place.now) true walk.old walk.new) }
    ensures done { OnOk result (length pending.new + walk.old.counts.nodes
        ≤ length pending.old + walk.new.counts.nodes) }
    ensures uses { OnOk result (Uses (space_of place.now) place.now.counting
        (λ p. occurs_among others.entry p + occurs_left pending.old p) (occurs_left pending.new)
        walk.old walk.new) }
    ensures cost { Charges (space_of place.now) place.now.counting
        (joins others.entry + owed pending.old) (owed pending.new)
        walk.old.counts walk.new.counts steps.old steps.new }
{
    let Some((operand, others)) = others.split_first() else {
        return Ok(left);
    };
    pending.push(Pending::Right {
        node,
        join,
        left,
        others,
    })?;
    descend(place, operand, pending, walk, steps)
}
