//! The slots of a module: one of 8 bytes for each distinct target of a GOT fixup.

ghost use Rattle.std.specs.Prelude.{◌≡◌, ◌<◌, ◌≤◌, [], Some, fold, length, map, IfOk, OnOk};
ghost use Rattle.std.specs.List.{slice_get, zip};
ghost use Rattle.omos_model.specs.FixupParts.{field_of};
ghost use Rattle.omos_model.specs.FragmentParts.{max_entries};
ghost use Rattle.link_layout.specs.Slots.{fixups_in, slots_with_leaf};
ghost use Rattle.link_layout.specs.inside.Fields.{slots_with_field};

use crate::slot::{is_got, target_at};
use dict_row::DictRow;
use indexmap::IndexSet;
use link_model::Slot;
use omos_base::{NoMemory, Shared};
use omos_model::{Entry, Field, Landing};
use seeded_hash::Seed;
use std::alloc::Global;

/// The fields of a leaf, in order. A leaf is an object; a blueprint would have none.
pub fn fields_in(leaf: &Shared<Entry>) -> &[Field]
    ensures fields { result.now ≡ map field_of (fixups_in leaf.now) }
    ensures few { length result.now ≤ max_entries }
{
    match leaf.get() {
        Entry::Object(fragment) => fragment.fixups().fields(),
        Entry::Blueprint(_) => &[],
    }
}

/// Adds the slot of the field at a place, where it needs one that isn't there. Other fields'
/// landings aren't looked at.
fn add_slot(
    slots: &mut IndexSet<Slot, Seed>,
    field: &Field,
    landings: &DictRow<Landing>,
    place: usize,
) -> Result<(), NoMemory>
    requires { place < length landings.now }
    ensures { OnOk result ((landing : Landing) → slice_get landings.now place ≡ Some landing
        → slots.new.keys ≡ slots_with_field slots.old.keys (field.now, landing)) }
{
    if is_got(field.kind) {
        slots.insert(Slot::of(target_at(landings.get(place))))?;
    }
    Ok(())
}

/// Adds the slots of a leaf's references.
fn add_slots(
    slots: &mut IndexSet<Slot, Seed>,
    fields: &[Field],
    landings: &DictRow<Landing>,
) -> Result<(), NoMemory>
    ensures { OnOk result
        (slots.new.keys ≡ fold slots_with_field slots.old.keys (zip fields.now landings.now)) }
{
    for place in 0..fields.len().min(landings.len()) {
        add_slot(slots, &fields[place], landings, place)?;
    }
    Ok(())
}

/// Adds the slots of all references, by leaf and number.
fn fill_slots(
    slots: &mut IndexSet<Slot, Seed>,
    leaves: &[Shared<Entry>],
    landings: &[DictRow<Landing>],
) -> Result<(), NoMemory>
    ensures { OnOk result
        (slots.new.keys ≡ fold slots_with_leaf slots.old.keys (zip leaves.now landings.now)) }
{
    for (leaf, row) in leaves.iter().zip(landings) {
        add_slots(slots, fields_in(leaf), row)?;
    }
    Ok(())
}

/// The slots, in order of first use. It passes over the fields once. The table hashes by the
/// seed.
pub fn slots_of(
    alloc: Global,
    seed: Seed,
    leaves: &[Shared<Entry>],
    landings: &[DictRow<Landing>],
) -> Result<IndexSet<Slot, Seed>, NoMemory>
    ensures { IfOk result (λ slots.
        slots.keys ≡ fold slots_with_leaf [] (zip leaves.now landings.now)) }
{
    let mut slots = IndexSet::with_hasher(alloc, seed);
    fill_slots(&mut slots, leaves, landings)?;
    Ok(slots)
}
