//! The pages of a file behind its header page.

ghost use Rattle.std.specs.Prelude.{◌≡◌, ◌+◌, ◌≤◌, length};
ghost use Rattle.link_model.specs.Module.{parts_of_module};
ghost use Rattle.image_write.specs.inside.Addresses.{max_place, slot_in};
ghost use Rattle.image_write.specs.inside.Groups.{bytes_in_file};
ghost use Rattle.image_write.specs.inside.Plans.{plan_with};
ghost use Rattle.image_write.specs.inside.Sound.{IsSound};
ghost use Rattle.image_write.specs.inside.Filled.{FillsBehind};

use crate::fields::{Ground, patch_fields};
use crate::sections::copy_sections;
use crate::slots::write_slots;
use link_model::{Evaluated, Groups};
use omos_model::Refusal;

/// Writes the pieces, the slots and the fields over the bytes behind the head, which are as many as
/// the module's pages in a file have; or refuses the first field whose value doesn't fit: L13.
pub fn fill(
    bytes: &mut Vec<u8>,
    head: usize,
    ground: &Ground,
    groups: &Groups,
    evaluated: &Evaluated,
) -> Result<(), Refusal>
    requires sound { IsSound groups.now evaluated.now ground.now.layout.now }
    requires size { length bytes.old.items
        ≡ head + bytes_in_file (parts_of_module evaluated.now) }
    requires places { ground.now.places.now ≡ ground.now.layout.now.places }
    requires base { ground.now.base ≤ max_place }
    ensures { FillsBehind head (plan_with evaluated.now ground.now.layout.now) ground.now.base
        (slot_in
        ground.now.layout.now ground.now.base) evaluated.now.leaves result
        bytes.new.items bytes.old.items }
{
    let (_, body) = bytes.as_mut_slice().split_at_mut(head);
    copy_sections(body, ground.places, evaluated.leaves());
    let slots = ground.layout.slots();
    write_slots(
        body,
        ground.places,
        ground.base,
        slots,
        groups.slots as usize,
    );
    patch_fields(body, ground, evaluated.leaves(), evaluated.landings())
}
