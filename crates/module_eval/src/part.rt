//! What is known of a part of a term: its table, or why one of its operators is refused, or the
//! leaf that it is.

ghost use Rattle.std.specs.Prelude.{◌≡◌, ◌+◌, ◌≤◌, Bool, true, Err, IfOk, Option};
ghost use Rattle.omos_model.specs.Expansion.{site_of};
ghost use Rattle.omos_model.specs.Term.{Term, Merge, Override, Apply};
ghost use Rattle.omos_model.specs.declared.refusal.Refusal.{Refusal as Cause};
ghost use Rattle.omos_model.specs.declared.refusal.Site.{Site as Place};
ghost use Rattle.module_table.specs.Stands.{Answers, refusal_at};
ghost use Rattle.module_eval.specs.inside.Meant.{IsBuilt, Means, MeansWhere};
ghost use Rattle.module_eval.specs.inside.Operators.{op_of};
ghost use Rattle.module_eval.specs.inside.Walked.{term_with};

use crate::leaf::Leaf;
use crate::node::site;
use crate::operator::{Operator, operate};
use crate::table_box::TableBox;
use module_table::{Steps, Table, TableFault};
use omos_base::{Fault, NoMemory, PathName};
use omos_model::{Refusal, Site};
use sqlite_items::Boxed;
use std::alloc::Global;
use std::sync::ledger::Ledger;

/// A part of a term, all of whose operators were applied up to the first that is refused. It is
/// small, since one stands at each depth of a walk.
#[derive(Drop)]
pub enum Part {
    /// No operator is refused.
    Built(TableBox),
    /// The first refusal, in post-order, left to right.
    Failed(Boxed<Refusal>),
    /// An object, of which a merge needs no table where it stands on the right.
    Leaf(Leaf),
    /// A part that was only counted, where the walk counts.
    Counted,
}

/// How two modules are put together.
#[derive(Clone, Copy)]
pub enum Join {
    Merge,
    Override,
}

/// The refusal of a node.
fn refusal(site: Site, fault: TableFault) -> Refusal
    ensures { result ≡ refusal_at site fault }
{
    match fault {
        TableFault::Conflict(name) => Refusal::Conflict { site, name },
        TableFault::NoName(name) => Refusal::NoName { site, name },
        TableFault::NoDefinition(name) => Refusal::NoDefinition { site, name },
        TableFault::Taken(name) => Refusal::Taken { site, name },
    }
}

/// What is known of a module whose operator at a node of the blueprint `at` gave no table.
fn failed(
    alloc: Global,
    at: &PathName,
    node: u32,
    fault: Fault<TableFault>,
) -> Result<Part, NoMemory>
    ensures { (counting : Bool) (t : Term) (refused : Option Cause)
        → Answers (Err fault) (site_of at.now node) t refused
        → IfOk result (λ part. MeansWhere counting part t refused) }
{
    match fault {
        Fault::Refused(fault) => {
            let refusal = refusal(site(at, node), fault);
            Ok(Part::Failed(Boxed::new(alloc, refusal)?))
        }
        Fault::NoMemory => Err(NoMemory),
    }
}

/// What the operator at a node of the blueprint `at` answered, as a part. It is inlined, so that
/// tables aren't moved more often than they have to be.
#[inline(always)]
fn answered(
    alloc: Global,
    at: &PathName,
    node: u32,
    answer: Result<Table, Fault<TableFault>>,
) -> Result<Part, NoMemory>
    ensures { (counting : Bool) (t : Term) (refused : Option Cause)
        → Answers answer (site_of at.now node) t refused
        → IfOk result (λ part. MeansWhere counting part t refused) }
{
    match answer {
        Ok(table) => Ok(Part::Built(TableBox::new(alloc, table)?)),
        Err(fault) => failed(alloc, at, node, fault),
    }
}

/// The table of a part, or its refusal, or None where it was only counted.
pub fn built(
    alloc: Global,
    part: Part,
) -> Result<Option<Result<TableBox, Boxed<Refusal>>>, NoMemory>
    ensures { IfOk result (λ built. IsBuilt built part) }
{
    match part {
        Part::Built(table) => Ok(Some(Ok(table))),
        Part::Failed(refusal) => Ok(Some(Err(refusal))),
        Part::Leaf(leaf) => Ok(Some(Ok(TableBox::new(alloc, leaf.table(alloc)?)?))),
        Part::Counted => Ok(None),
    }
}

/// Both modules together.
#[inline(never)]
pub fn merge<L: Ledger>(
    alloc: Global,
    counting: bool,
    at: &PathName,
    node: u32,
    left: Part,
    right: Part,
    steps: &mut Steps<L>,
) -> Result<Part, NoMemory>
    ensures meant { (l r : Term) → Means counting left l → Means counting right r
        → IfOk result (λ part. Means counting part (Merge (site_of at.now node) l r)) }
    ensures cost { steps.new ≤ steps.old + 1 }
    ensures still { counting ≡ true → steps.new ≡ steps.old }
{
    if counting {
        return Ok(Part::Counted);
    }
    let mut table = match built(alloc, left)? {
        Some(Ok(table)) => table,
        Some(Err(refusal)) => return Ok(Part::Failed(refusal)),
        None => return Ok(Part::Counted),
    };
    match right {
        Part::Built(right) => {
            let answer = Table::merge(table.into_inner(), right.into_inner(), steps);
            answered(alloc, at, node, answer)
        }
        Part::Failed(refusal) => Ok(Part::Failed(refusal)),
        Part::Leaf(leaf) => match table.merge_leaf(leaf, steps) {
            Ok(()) => Ok(Part::Built(table)),
            Err(fault) => failed(alloc, at, node, fault),
        },
        Part::Counted => Ok(Part::Counted),
    }
}

/// Both modules, where the right one's definitions win.
fn override_by<L: Ledger>(
    alloc: Global,
    counting: bool,
    left: Part,
    right: Part,
    steps: &mut Steps<L>,
) -> Result<Part, NoMemory>
    ensures meant { (s : Place) (l r : Term) → Means counting left l → Means counting right r
        → IfOk result (λ part. Means counting part (Override s l r)) }
    ensures cost { steps.new ≤ steps.old + 1 }
    ensures still { counting ≡ true → steps.new ≡ steps.old }
{
    if counting {
        return Ok(Part::Counted);
    }
    let left = match built(alloc, left)? {
        Some(Ok(table)) => table,
        Some(Err(refusal)) => return Ok(Part::Failed(refusal)),
        None => return Ok(Part::Counted),
    };
    let right = match built(alloc, right)? {
        Some(Ok(table)) => table,
        Some(Err(refusal)) => return Ok(Part::Failed(refusal)),
        None => return Ok(Part::Counted),
    };
    let table = Table::override_by(left.into_inner(), right.into_inner(), steps)?;
    Ok(Part::Built(TableBox::new(alloc, table)?))
}

/// Both modules, joined so.
#[inline(never)]
pub fn combine<L: Ledger>(
    alloc: Global,
    counting: bool,
    join: Join,
    at: &PathName,
    node: u32,
    left: Part,
    right: Part,
    steps: &mut Steps<L>,
) -> Result<Part, NoMemory>
    ensures meant { (l r : Term) → Means counting left l → Means counting right r
        → IfOk result (λ part. Means counting part (term_with join (site_of at.now node) l r)) }
    ensures cost { steps.new ≤ steps.old + 1 }
    ensures still { counting ≡ true → steps.new ≡ steps.old }
{
    match join {
        Join::Merge => merge(alloc, counting, at, node, left, right, steps),
        Join::Override => override_by(alloc, counting, left, right, steps),
    }
}

/// The module under an operator.
#[inline(never)]
pub fn apply<L: Ledger>(
    alloc: Global,
    counting: bool,
    at: &PathName,
    node: u32,
    operator: Operator<'_>,
    part: Part,
    steps: &mut Steps<L>,
) -> Result<Part, NoMemory>
    ensures meant { (t : Term) → Means counting part t
        → IfOk result (λ p. Means counting p
        (Apply (site_of at.now node) (op_of operator.entry) t)) }
    ensures cost { steps.new ≤ steps.old + 1 }
    ensures still { counting ≡ true → steps.new ≡ steps.old }
{
    if counting {
        return Ok(Part::Counted);
    }
    match built(alloc, part)? {
        Some(Ok(table)) => {
            answered(
                alloc,
                at,
                node,
                operate(operator, table.into_inner(), steps),
            )
        }
        Some(Err(refusal)) => Ok(Part::Failed(refusal)),
        None => Ok(Part::Counted),
    }
}
