//! The plan of a path.

ghost use Rattle.std.specs.Prelude.{◌≡◌, ◌<◌, Some};
ghost use Rattle.omos_base.specs.Fault.{MatchFault};
ghost use Rattle.omos_model.specs.Expansion.{expansion};
ghost use Rattle.module_eval.specs.Evaluations.{IsEvaluatedOn, refusal_of};
ghost use Rattle.link_plan.specs.Plans.{Plans};

use link_layout::lay;
use link_model::{Evaluated, Planned, laws};
use module_eval::evaluate;
use module_table::Steps;
use name_tree::Snap;
use omos_base::{Fault, PathName};
use omos_model::Refusal;
use std::alloc::Global;
use std::marker::Brand;
use std::sync::ledger::{Blank, Ledger};

/// The evaluation of a path, with a counter of its own.
fn count<L: Ledger>(
    alloc: Global,
    snap: &Snap,
    path: &PathName,
    blank: Blank,
) -> Result<Evaluated, Fault<Refusal>>
    requires name { blank.name ≡ L.name }
    requires parts { blank.parts ≡ L.parts }
    requires some { 0 < blank.parts }
    ensures { MatchFault result
        (IsEvaluatedOn snap.now.entries path.now)
        (λ x. refusal_of (expansion snap.now.entries path.now) ≡ Some x) }
{
    let mut steps = Steps::<L>::new(blank);
    evaluate(alloc, snap, path, &mut steps)
}

/// The evaluation of a path, of whose steps nobody is told.
fn evaluated(alloc: Global, snap: &Snap, path: &PathName) -> Result<Evaluated, Fault<Refusal>>
    ensures { MatchFault result
        (IsEvaluatedOn snap.now.entries path.now)
        (λ x. refusal_of (expansion snap.now.entries path.now) ≡ Some x) }
{
    count::<Brand>(alloc, snap, path, Blank::new(1))
}

/// The plan of a path on a version of the namespace: all of its image but the base. It refuses for
/// the first of L1 to L11.
///
/// It costs the evaluation of the path and the layout of its module.
pub fn plan(alloc: Global, snap: &Snap, path: &PathName) -> Result<Planned, Fault<Refusal>>
    ensures planned { Plans result snap.now.entries path.now }
{
    laws::modules_have_their_plan();
    let module = evaluated(alloc, snap, path)?;
    // What the module keeps.
    let _path = module.path();
    let layout = lay(alloc, &module)?;
    Ok(Planned::of(module, layout))
}
