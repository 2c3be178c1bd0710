//! Where the pieces stand, counted from the base.

ghost use Rattle.std.specs.Prelude.{◌≡◌, ◌+◌, ◌^◌, ◌≤◌, [], List, fold, length, IfOk, OnOk};
ghost use Rattle.omos_model.specs.declared.fragment.Group.{Group};
ghost use Rattle.omos_model.specs.declared.fragment.Piece.{Piece};
ghost use Rattle.link_model.specs.Layout.{end_with, places_behind};
ghost use Rattle.link_model.specs.Program.{Parts};
ghost use Rattle.link_model.specs.Groups.{bytes_of};
ghost use Rattle.link_layout.specs.Layout.{AreBegins, AreEnds, places_over};
ghost use Rattle.link_layout.specs.Pieces.{AreBounded};

use crate::pieces::{lay_piece, pieces_in};
use link_model::ByGroup;
use omos_base::{NoMemory, Row, Shared};
use omos_model::{Entry, Piece};
use std::alloc::Global;

/// Lays the pieces of a leaf behind those before, and says where they stand.
fn place_leaf(
    alloc: Global,
    begins: &ByGroup,
    ends: &mut ByGroup,
    pieces: &[Piece],
) -> Result<Row<u64>, NoMemory>
    requires bounded { AreBounded pieces.now }
    requires begins { (g : Group) → bytes_of begins.now g ≤ 2 ^ 52 }
    requires room { (g : Group) → bytes_of ends.old g ≤ 2 ^ 50 }
    ensures places { IfOk result (λ places. (parts : Parts) (before : List Piece)
        → AreBegins begins.now parts → AreEnds ends.old before
        → places ≡ places_behind parts before pieces.now) }
    ensures ends { OnOk result ((g : Group) →
        bytes_of ends.new g ≡ fold (end_with g) (bytes_of ends.old g) pieces.now) }
    ensures near { OnOk result ((g : Group) →
        bytes_of ends.new g ≤ bytes_of ends.old g + 2 ^ 40) }
{
    let mut places = Vec::with_capacity(alloc, pieces.len())?;
    for piece in pieces {
        let begin = lay_piece(ends, piece);
        places.push(begins.get(piece.group) + begin)?;
    }
    Ok(Row::from_vec(places))
}

/// Where the pieces of each leaf stand. It passes over the pieces once.
pub fn places_of(
    alloc: Global,
    begins: &ByGroup,
    leaves: &[Shared<Entry>],
) -> Result<Row<Row<u64>>, NoMemory>
    requires few { length leaves.now ≤ 256 }
    requires begins { (g : Group) → bytes_of begins.now g ≤ 2 ^ 52 }
    ensures { IfOk result (λ places. (parts : Parts) → AreBegins begins.now parts
        → places ≡ places_over parts [] leaves.now) }
{
    let mut places = Vec::with_capacity(alloc, leaves.len())?;
    let mut ends = ByGroup::EMPTY;
    for leaf in leaves {
        places.push(place_leaf(alloc, begins, &mut ends, pieces_in(leaf))?)?;
    }
    Ok(Row::from_vec(places))
}
