//! The image of a path at a base, in one call.

ghost use Rattle.std.specs.Prelude.{◌≡◌, ◌+◌, ◌*◌, ◌%◌, ◌^◌, ◌≤◌};
ghost use Rattle.link_model.specs.Plan.{max_pages};
ghost use Rattle.link_plan.specs.Images.{LinksPath};

use crate::image::link;
use crate::planning::plan;
use link_model::{Linked, laws};
use name_tree::Snap;
use omos_base::{Fault, PathName};
use omos_model::Refusal;
use std::alloc::Global;

/// The image of a path on a version of the namespace at a base: its plan, and the plan's image. The
/// base is a whole page, and 2,047 pages from there end at 2^47 at most.
///
/// It is the answer of uncached evaluation. It refuses for the first of L1 to L11, or for L13.
pub fn link_path(
    alloc: Global,
    snap: &Snap,
    path: &PathName,
    base: u64,
) -> Result<Linked, Fault<Refusal>>
    requires page { base % 4096 ≡ 0 }
    requires range { base + 4096 * max_pages ≤ 2 ^ 47 }
    ensures answered { LinksPath result snap.now.entries path.now base }
{
    laws::footprints_decide();
    let planned = plan(alloc, snap, path)?;
    // There are 2,047 at most.
    let _pages = planned.pages();
    link(alloc, &planned, base)
}
