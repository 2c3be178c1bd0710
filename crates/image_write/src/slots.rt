//! The bytes of the slots.

ghost use Rattle.std.specs.Prelude.{◌+◌, ◌*◌, ◌≤◌, length};
ghost use Rattle.image_write.specs.inside.Addresses.{AreLow, max_place, slots_byte};
ghost use Rattle.image_write.specs.inside.Painted.{Painted};

use crate::addresses::address_in;
use link_model::Slot;
use omos_base::{Row, put_u64};

/// Writes the slots, which begin at this place: each holds its target's address.
pub fn write_slots(body: &mut [u8], places: &[Row<u64>], base: u64, slots: &[Slot], begin: usize)
    requires low { AreLow places.now }
    requires base { base ≤ max_place }
    requires inside { begin + 8 * length slots.now ≤ length body.old }
    ensures { Painted body.new
        (slots_byte places.now base slots.now begin (length slots.now)) body.old }
{
    for number in 0..slots.len() {
        let address = address_in(places, base, slots[number].target());
        put_u64(body, begin + 8 * number, address);
    }
}
