//! What laying a module out finds.

ghost use Rattle.std.specs.Prelude.{◌≡◌, ◌+◌, ◌*◌, ◌^◌, ◌≤◌, IsSome, Some, length};
ghost use Rattle.link_model.specs.Layout.{slot_number};
ghost use Rattle.link_model.specs.Module.{Placing, piece_place};

use crate::groups::Groups;
use crate::slot::Slot;
use indexmap::IndexSet;
use omos_base::Row;
use omos_model::Target;
use seeded_hash::Seed;
use std::marker::Model;

/// Where the groups, the pieces and the slots of a module stand, counted from the base, and what
/// its start is: all that an image is written from but the module itself and the base.
///
/// It keeps that the slots end within 2^56 bytes.
#[derive(Drop)]
pub struct Layout {
    pages: u32,
    groups: Groups,
    places: Row<Row<u64>>,
    slots: IndexSet<Slot, Seed>,
    entry: Option<Target>,
}

impl Model for Layout {
    ghost use Rattle.std.specs.Prelude.{◌+◌, ◌*◌, ◌^◌, ◌≤◌, length};
    ghost use Rattle.link_model.specs.Module.{Placing};

    ghost Value = { Placing };

    ghost view = { λ l. record {
      pages = l.pages;
      groups = l.groups;
      places = l.places;
      slots = l.slots.keys;
      entry = l.entry;
    } };

    ghost invariant = { λ l. l.groups.slots + 8 * length l.slots.keys ≤ 2 ^ 56 };
}

impl Layout {
    /// A layout of so many pages, with where its groups stand, the place of each piece by leaf and
    /// number, the slots in their order, and what the start is, if there is one. It takes no
    /// memory.
    pub fn of(
        pages: u32,
        groups: Groups,
        places: Row<Row<u64>>,
        slots: IndexSet<Slot, Seed>,
        entry: Option<Target>,
    ) -> Layout
        requires { groups.slots + 8 * length slots.keys ≤ 2 ^ 56 }
        ensures { result ≡ record {
          pages = pages;
          groups = groups;
          places = places;
          slots = slots.keys;
          entry = entry;
        } }
    {
        Layout {
            pages,
            groups,
            places,
            slots,
            entry,
        }
    }

    /// How many pages of 4,096 bytes there are, at least one.
    pub fn pages(&self) -> u32
        ensures { result ≡ self.now.pages }
    {
        self.pages
    }

    /// How large the groups are, where each begins, and where the slots do.
    pub fn groups(&self) -> &Groups
        ensures { result.now ≡ self.now.groups }
    {
        &self.groups
    }

    /// Where a piece of a leaf stands, in bytes from the base.
    pub fn place(&self, leaf: u32, piece: u32) -> u64
        requires { IsSome (piece_place self.now leaf piece) }
        ensures { piece_place self.now leaf piece ≡ Some result }
    {
        self.places.as_slice()[leaf as usize].as_slice()[piece as usize]
    }

    /// Where the pieces stand: for each leaf, the place of each of its pieces, in order.
    pub fn places(&self) -> &[Row<u64>]
        ensures { result.now ≡ self.now.places }
    {
        self.places.as_slice()
    }

    /// The slots, in their order.
    pub fn slots(&self) -> &[Slot]
        ensures { result.now ≡ self.now.slots }
    {
        self.slots.as_slice()
    }

    /// Where the slot of a target stands, in bytes from the base: one look-up. One that has none
    /// counts as if it followed the last. It isn't inlined, so that a loop over references stays
    /// short where few ask for a slot.
    #[inline(never)]
    pub fn slot(&self, target: Target) -> u64
        ensures place { result ≡ self.now.groups.slots + 8 * slot_number self.now.slots target }
        ensures near { result ≤ 2 ^ 56 }
    {
        self.groups.slots + 8 * number_in(&self.slots, target) as u64
    }

    /// What the start is, if there is one.
    pub fn entry(&self) -> Option<Target>
        ensures { result ≡ self.now.entry }
    {
        self.entry
    }
}

/// The number of a target's slot among these, or how many there are where it has none.
fn number_in(slots: &IndexSet<Slot, Seed>, target: Target) -> usize
    ensures number { result ≡ slot_number slots.now.keys target }
    ensures within { result ≤ length slots.now.keys }
{
    match slots.get_index_of(&Slot::of(target)) {
        Some(number) => number,
        None => slots.len(),
    }
}
