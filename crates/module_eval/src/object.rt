//! The leaf of an object's path.

ghost use Rattle.std.specs.Prelude.{◌≡◌, ◌+◌, ◌≤◌, true, List, OnOk, Some};
ghost use Rattle.omos_model.specs.Expansion.{add_read};
ghost use Rattle.module_share.specs.Trails.{and_on, begin_path_on, leaf_on};
ghost use Rattle.omos_model.specs.FragmentParts.{FragmentParts};
ghost use Rattle.module_table.specs.Stands.{IsObject};
ghost use Rattle.module_eval.specs.inside.Counted.{AreCounted, visit_of};
ghost use Rattle.omos_model.specs.Namespace.{Space, look_up};
ghost use Rattle.module_eval.specs.Costs.{IsReadAlone, StayRead, read_of};
ghost use Rattle.module_eval.specs.inside.Found.{AreFound};
ghost use Rattle.module_eval.specs.inside.Plans.{AreSpent, IsPlannedFor};
ghost use Rattle.module_eval.specs.inside.Times.{occurs_read};
ghost use Rattle.module_eval.specs.declared.memo.Kept.{Kept};
ghost use Rattle.module_eval.specs.declared.plan.Plan.{Plan};
ghost use Rattle.omos_model.specs.Names.{Name};
ghost use Rattle.module_eval.specs.inside.Walked.{Walked};

use crate::counts::{Counts, count_leaf, enter};
use crate::leaf::Leaf;
use crate::node::WalkFault;
use crate::part::Part;
use omos_base::PathName;
use omos_model::{Entry, Stamped};

/// The object of a path as a leaf, of which no table is made yet.
#[inline(never)]
pub fn visit_object<'a>(
    counting: bool,
    counted: bool,
    at: &PathName,
    path: &'a PathName,
    found: &'a Stamped,
    counts: &mut Counts<'a>,
) -> Result<Part, WalkFault>
    requires object { IsObject found.now.entry }
    requires counted { AreCounted counts.old }
    ensures walk { (f : FragmentParts) → found.now.entry ≡ Entry.Object f → Walked counting result
        (and_on (begin_path_on counted at.now (add_read path.now (visit_of counts.old)))
        (leaf_on f)) counts.new }
    ensures counted { AreCounted counts.new }
    ensures least { counts.old.nodes ≤ counts.new.nodes }
    ensures more { counted ≡ true → OnOk result (counts.new.nodes ≡ counts.old.nodes + 1) }
    ensures found { OnOk result ((ns : Space) → look_up ns path.now ≡ Some found.now
        → AreFound ns counts.old.read.entries → AreFound ns counts.new.read.entries) }
    ensures grown { (ns : Space) → read_of ns counts.old.read.entries
        ≤ read_of ns counts.new.read.entries }
    ensures occurs { (ns : Space) (p : Name) → occurs_read ns counts.old.read.entries p
        ≤ occurs_read ns counts.new.read.entries p }
    ensures away { OnOk result ((ns : Space) (plan : Plan) (all : List (Name × Kept))
        → IsPlannedFor plan path.now → AreSpent ns plan counts.old.read.entries all
        → AreSpent ns plan counts.new.read.entries all) }
    ensures alone { OnOk result
        (IsReadAlone counts.old.read.entries counts.new.read.entries path.now) }
    ensures stay { OnOk result (StayRead counts.old.read.entries counts.new.read.entries) }
{
    let Entry::Object(fragment) = found.entry.get() else {
        unreachable!()
    };
    let node = enter(counted, at, path, found, counts)?;
    let number = count_leaf(at, node, fragment, counts)?;
    if counting {
        return Ok(Part::Counted);
    }
    Ok(Part::Leaf(Leaf::of(counts.seed(), number, found.entry.twin()?)))
}
