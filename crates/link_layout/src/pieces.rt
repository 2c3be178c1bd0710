//! How far the pieces of leaves reach in each group.

ghost use Rattle.std.specs.Prelude.{◌≡◌, ◌+◌, ◌^◌, ◌≤◌, All, fold, length};
ghost use Rattle.omos_model.specs.declared.fragment.Group.{Group};
ghost use Rattle.link_model.specs.Layout.{begin_of, end_with};
ghost use Rattle.link_model.specs.Groups.{bytes_of};
ghost use Rattle.link_layout.specs.Layout.{AreEnds};
ghost use Rattle.link_layout.specs.Pieces.{AreBounded, IsBoundedPiece, IsLawful, all_pieces};
ghost use Rattle.link_layout.specs.Pieces.{pieces_in};

use crate::offsets::aligned;
use link_model::ByGroup;
use omos_base::Shared;
use omos_model::{Entry, Piece};

/// The pieces of a leaf, in order. A leaf is an object; a blueprint would have none.
///
/// They are those of a lawful fragment, so there are few, and each is of bounded size.
pub fn pieces_in(leaf: &Shared<Entry>) -> &[Piece]
    ensures pieces { result.now ≡ pieces_in leaf.now }
    ensures bounded { AreBounded result.now }
    ensures lawful { IsLawful leaf.now }
{
    match leaf.get() {
        Entry::Object(fragment) => fragment.pieces(),
        Entry::Blueprint(_) => &[],
    }
}

/// Lays a piece behind those of its group, and says where it begins, counted from where the group
/// does.
pub fn lay_piece(ends: &mut ByGroup, piece: &Piece) -> u64
    requires bounded { IsBoundedPiece piece.now }
    requires room { bytes_of ends.old piece.now.group ≤ 2 ^ 55 }
    ensures begin { result ≡ begin_of (bytes_of ends.old piece.now.group) piece.now }
    ensures ends { (g : Group) → bytes_of ends.new g ≡ end_with g (bytes_of ends.old g) piece.now }
    ensures near { (g : Group) → bytes_of ends.new g ≤ bytes_of ends.old g + 8392704 }
{
    let begin = aligned(u64::from(piece.align), ends.get(piece.group));
    ends.set(piece.group, begin + u64::from(piece.size));
    begin
}

/// Lays the pieces of a leaf behind those of the leaves before.
fn lay_pieces(ends: &mut ByGroup, pieces: &[Piece])
    requires bounded { AreBounded pieces.now }
    requires room { (g : Group) → bytes_of ends.old g ≤ 2 ^ 50 }
    ensures ends { (g : Group) →
        bytes_of ends.new g ≡ fold (end_with g) (bytes_of ends.old g) pieces.now }
    ensures near { (g : Group) → bytes_of ends.new g ≤ bytes_of ends.old g + 2 ^ 40 }
{
    for piece in pieces {
        lay_piece(ends, piece);
    }
}

/// Where the groups end that have the pieces of these leaves, each counted from where the group
/// begins: the pieces stand behind one another by leaf and number, each aligned. It passes over the
/// pieces once.
pub fn ends_of(leaves: &[Shared<Entry>]) -> ByGroup
    requires { length leaves.now ≤ 256 }
    ensures ends { AreEnds result (all_pieces leaves.now) }
    ensures near { (g : Group) → bytes_of result g ≤ 2 ^ 48 }
{
    let mut ends = ByGroup::EMPTY;
    for leaf in leaves {
        lay_pieces(&mut ends, pieces_in(leaf));
    }
    ends
}

/// The leaves' objects are lawful fragments, as the type of each keeps it. Nothing is computed.
pub fn are_lawful(leaves: &[Shared<Entry>])
    ensures { All IsLawful leaves.now }
{
    for leaf in leaves {
        let _pieces = pieces_in(leaf);
    }
}
