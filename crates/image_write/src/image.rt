//! The image of a module at a base, in one call.

ghost use Rattle.std.specs.Prelude.{◌≡◌, ◌+◌, ◌*◌, ◌%◌, ◌^◌, ◌≤◌};
ghost use Rattle.link_model.specs.Plan.{max_pages};
ghost use Rattle.image_write.specs.Written.{IsImageAnswer};

use crate::file::write;
use link_layout::lay;
use link_model::{Evaluated, laws};
use omos_base::{Bytes, Fault};
use omos_model::Refusal;
use std::alloc::Global;

/// The image of a module at a base, which is a whole page and from which on 2,047 pages end at 2^47
/// at most. It is laid out, and then written.
///
/// It is the answer for the module's path on the namespace that its footprint lists. It refuses for
/// the first of L9 to L11, or else for L13.
pub fn image_at(alloc: Global, evaluated: &Evaluated, base: u64) -> Result<Bytes, Fault<Refusal>>
    requires page { base % 4096 ≡ 0 }
    requires range { base + 4096 * max_pages ≤ 2 ^ 47 }
    ensures answered { IsImageAnswer evaluated.now base result }
{
    // What the plan's law asks is what the module keeps.
    let _path = evaluated.path();
    laws::modules_have_their_plan();
    match lay(alloc, evaluated) {
        Ok(layout) => write(alloc, evaluated, &layout, base),
        Err(fault) => Err(fault),
    }
}
