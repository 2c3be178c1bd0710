//! The fields, in order of leaf and number: where two have a byte in common, the last has it.

ghost use Rattle.std.specs.Prelude.{◌≡◌, ◌+◌, ◌<◌, ◌≤◌, List, [], ◌∷◌, Some, All, length, map};
ghost use Rattle.std.specs.List.{slice_get, zip};
ghost use Rattle.dict_row.specs.Keys.{AreKeys, decoded};
ghost use Rattle.omos_model.specs.FixupParts.{field_of, fixup_at};
ghost use Rattle.omos_model.specs.FragmentParts.{max_entries};
ghost use Rattle.omos_model.specs.declared.fragment.Aim.{Aim};
ghost use Rattle.omos_model.specs.declared.fragment.Fixup.{Fixup};
ghost use Rattle.link_model.specs.Field.{field_value};
ghost use Rattle.link_model.specs.Layout.{target_at};
ghost use Rattle.link_model.specs.Module.{part_with};
ghost use Rattle.link_model.specs.Program.{reference_of, references};
ghost use Rattle.image_write.specs.inside.Addresses.{AreLow, address_in, max_place, row_in};
ghost use Rattle.image_write.specs.inside.Addresses.{slot_in};
ghost use Rattle.image_write.specs.inside.Fields.{AreFieldsInside, IsFieldInside, Patches};
ghost use Rattle.image_write.specs.inside.Fields.{references_of};

use crate::addresses::{address_in, place_at, row_in};
use dict_row::DictRow;
use link_layout::{fields_in, is_got, target_at};
use link_model::Layout;
use omos_base::{Row, Shared};
use omos_model::{Entry, Field, Landing, Refusal};

/// What fields are computed from.
#[derive(Clone, Copy)]
pub struct Ground<'a> {
    pub layout: &'a Layout,
    /// Those of the layout, at hand.
    pub places: &'a [Row<u64>],
    pub base: u64,
}

/// The address of what a reference lands on.
fn address_at(ground: &Ground, landing: &Landing) -> u64
    requires low { AreLow ground.now.places.now }
    requires base { ground.now.base ≤ max_place }
    ensures { result ≡ address_in ground.now.places.now ground.now.base (target_at landing.now) }
{
    match landing {
        Landing::On(target) => address_in(ground.places, ground.base, *target),
        Landing::Nothing(_) => 0,
    }
}

/// The number that a field at this address gets, if the value fits. Its kind asks for the address
/// of the target or of the target's slot; the other isn't looked up, and counts as 0.
fn value_at(ground: &Ground, p: u64, field: &Field, landing: &Landing) -> Option<u64>
    requires low { AreLow ground.now.places.now }
    requires base { ground.now.base ≤ max_place }
    ensures { let target = target_at landing.now in
        result ≡ field_value field.now.kind
        (address_in ground.now.places.now ground.now.base target)
        field.now.addend p (slot_in ground.now.layout.now ground.now.base target) }
{
    let kind = field.kind;
    if is_got(kind) {
        let g = ground.base + ground.layout.slot(target_at(landing));
        reloc_x64::value(kind, 0, field.addend, p, g)
    } else {
        let s = address_at(ground, landing);
        reloc_x64::value(kind, s, field.addend, p, 0)
    }
}

/// Writes the field of a reference of a leaf whose pieces stand there, or refuses a value that
/// doesn't fit: L13. What the reference aims at isn't asked for.
fn patch(
    body: &mut [u8],
    ground: &Ground,
    row: &[u64],
    leaf: u32,
    number: u32,
    field: &Field,
    landing: &Landing,
) -> Result<(), Refusal>
    requires low { AreLow ground.now.places.now }
    requires row { row.now ≡ row_in ground.now.places.now leaf }
    requires base { ground.now.base ≤ max_place }
    requires inside { IsFieldInside (length body.old) ground.now.places.now leaf field.now }
    ensures { (aim : Aim) → Patches ground.now.places.now
        (slot_in ground.now.layout.now ground.now.base) ground.now.base
        (reference_of leaf (number, (fixup_at (field.now, aim), landing.now)) ∷ [])
        result body.new body.old }
{
    let place = place_at(row, field.piece) + u64::from(field.offset);
    let Some(value) = value_at(ground, ground.base + place, field, landing) else {
        return Err(Refusal::Overflow {
            leaf,
            fixup: number,
        });
    };
    reloc_x64::put(body, place as usize, field.kind, value);
    Ok(())
}

/// The landing at a place.
#[inline(always)]
fn landing_at<'a>(keys: &[u32], values: &'a [Landing], place: usize) -> &'a Landing
    requires keys { AreKeys keys.now (length values.now) }
    requires place { place < length keys.now }
    ensures { slice_get (decoded values.now keys.now) place ≡ Some result.now }
{
    &values[keys[place] as usize]
}

/// Writes the fields of a leaf, whose references land on these values by these keys. It isn't
/// inlined, so that its loop keeps its values in registers.
#[inline(never)]
fn patch_leaf(
    body: &mut [u8],
    ground: &Ground,
    leaf: u32,
    fields: &[Field],
    keys: &[u32],
    values: &[Landing],
) -> Result<(), Refusal>
    requires low { AreLow ground.now.places.now }
    requires base { ground.now.base ≤ max_place }
    requires few { length fields.now ≤ max_entries }
    requires inside { All (IsFieldInside (length body.old) ground.now.places.now leaf) fields.now }
    requires keys { AreKeys keys.now (length values.now) }
    ensures { (fixups : List Fixup) → map field_of fixups ≡ fields.now
        → Patches ground.now.places.now
        (slot_in ground.now.layout.now ground.now.base) ground.now.base
        (references_of leaf fixups (decoded values.now keys.now)) result body.new body.old }
{
    let row = row_in(ground.places, leaf);
    for number in 0..fields.len().min(keys.len()) {
        patch(
            body,
            ground,
            row,
            leaf,
            number as u32,
            &fields[number],
            landing_at(keys, values, number),
        )?;
    }
    Ok(())
}

/// Writes the fields of all leaves, or refuses the first whose value doesn't fit: L13.
pub fn patch_fields(
    body: &mut [u8],
    ground: &Ground,
    leaves: &[Shared<Entry>],
    landings: &[DictRow<Landing>],
) -> Result<(), Refusal>
    requires low { AreLow ground.now.places.now }
    requires base { ground.now.base ≤ max_place }
    requires few { length leaves.now ≤ 256 }
    requires count { length landings.now ≡ length leaves.now }
    requires inside { AreFieldsInside (length body.old) ground.now.places.now leaves.now }
    ensures { Patches ground.now.places.now
        (slot_in ground.now.layout.now ground.now.base) ground.now.base
        (references (map part_with (zip leaves.now landings.now))) result body.new body.old }
{
    for leaf in 0..leaves.len() {
        let row = landings[leaf].parts();
        patch_leaf(
            body,
            ground,
            leaf as u32,
            fields_in(&leaves[leaf]),
            row.keys.get().as_slice(),
            row.values,
        )?;
    }
    Ok(())
}
