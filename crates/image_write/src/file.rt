//! The whole file.

ghost use Rattle.std.specs.Prelude.{◌≡◌, ◌+◌, ◌*◌, ◌%◌, ◌^◌, ◌≤◌};
ghost use Rattle.image_write.specs.inside.Addresses.{AreLow, max_place};
ghost use Rattle.image_write.specs.Written.{IsLayoutOf, Writes};
ghost use Rattle.image_write.specs.inside.Filled.{entry_in};

use crate::addresses::address_in;
use crate::body::fill;
use crate::fields::Ground;
use crate::groups::groups_in;
use crate::headers::page_in;
use link_model::{Evaluated, Layout};
use omos_base::{Bytes, Fault, Row};
use omos_model::Refusal;
use std::alloc::Global;

/// The address of the start, or 0 where there is none.
fn entry_in(layout: &Layout, places: &[Row<u64>], base: u64) -> u64
    requires low { AreLow places.now }
    requires base { base ≤ max_place }
    ensures { result ≡ entry_in places.now base layout.now.entry }
{
    match layout.entry() {
        Some(target) => address_in(places, base, target),
        None => 0,
    }
}

/// The file of a laid out module at a base: a static executable (System V gABI, chapters 4 and 5).
///
/// The layout is the module's, the base is a whole page, and the pages end at 2^47 at most. It
/// refuses the first field whose value doesn't fit: L13. Sizes, places and the start are read from
/// the layout. The cost is that of the file's bytes and of the references, with one look-up for
/// each that asks for a slot.
pub fn write(
    alloc: Global,
    evaluated: &Evaluated,
    layout: &Layout,
    base: u64,
) -> Result<Bytes, Fault<Refusal>>
    requires laid { IsLayoutOf evaluated.now layout.now }
    requires page { base % 4096 ≡ 0 }
    requires range { base + 4096 * layout.now.pages ≤ 2 ^ 47 }
    ensures written { Writes evaluated.now base result }
{
    let groups = groups_in(evaluated, layout);
    let ground = Ground {
        layout,
        places: layout.places(),
        base,
    };
    let entry = entry_in(layout, ground.places, base);
    let mut page = page_in(alloc, groups, base, entry)?;
    let head = page.len();
    page.push_zeros(groups.begins.zeros as usize)?;
    let mut bytes = page.into_vec();
    match fill(&mut bytes, head, &ground, groups, evaluated) {
        Ok(()) => Ok(Bytes::from_vec(bytes)),
        Err(refusal) => Err(Fault::Refused(refusal)),
    }
}
