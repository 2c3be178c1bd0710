//! Addresses, from the base and the places of the pieces.

ghost use Rattle.std.specs.Prelude.{◌≡◌, ◌≤◌};
ghost use Rattle.image_write.specs.inside.Addresses.{AreLow, address_in, max_place, place_in_row};
ghost use Rattle.image_write.specs.inside.Addresses.{row_in};

use omos_base::Row;
use omos_model::Target;

/// Where the pieces of a leaf stand, counted from the base; a leaf that isn't there has none.
pub fn row_in(places: &[Row<u64>], leaf: u32) -> &[u64]
    ensures { result.now ≡ row_in places.now leaf }
{
    match places.get(leaf as usize) {
        Some(row) => row.as_slice(),
        None => &[],
    }
}

/// Where a piece of a row stands, counted from the base; a piece that isn't there stands at 0.
pub fn place_at(row: &[u64], piece: u32) -> u64
    ensures { result ≡ place_in_row row.now piece }
{
    match row.get(piece as usize) {
        Some(place) => *place,
        None => 0,
    }
}

/// The address of a target.
pub fn address_in(places: &[Row<u64>], base: u64, target: Target) -> u64
    requires low { AreLow places.now }
    requires base { base ≤ max_place }
    ensures { result ≡ address_in places.now base target }
{
    match target {
        Target::Inside {
            leaf,
            piece,
            offset,
        } => base + place_at(row_in(places, leaf), piece) + u64::from(offset),
        Target::Fixed { value } => value,
    }
}
