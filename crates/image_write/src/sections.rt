//! The pieces' bytes, copied to their places.
//!
//! The pieces are copied from the last to the first, so that where two had a byte in common it
//! would be the first one's. None have: this only spares the proof from saying so.

ghost use Rattle.std.specs.Prelude.{◌≡◌, ◌+◌, ◌≤◌, ◌++◌, All, drop, length, take};
ghost use Rattle.std.specs.List.{zip};
ghost use Rattle.image_write.specs.inside.Painted.{Painted, run_at};
ghost use Rattle.image_write.specs.inside.Sections.{AreInside, IsInside, first_byte, placed_in};

use link_layout::pieces_in;
use omos_base::{Row, Shared};
use omos_model::{Entry, Piece};

/// Writes the part over the bytes from a place on.
fn put_bytes(into: &mut [u8], at: usize, part: &[u8])
    requires { at + length part.now ≤ length into.old }
    ensures { into.new ≡ take at into.old ++ part.now ++ drop (at + length part.now) into.old }
{
    into[at..at + part.len()].copy_from_slice(part);
}

/// Copies the bytes of a piece, if it has some, to its place.
fn copy_piece(body: &mut [u8], place: u64, piece: &Piece)
    requires { IsInside (length body.old) (place, piece.now) }
    ensures { Painted body.new (run_at place piece.now.bytes) body.old }
{
    let bytes = piece.bytes.as_slice();
    if !bytes.is_empty() {
        put_bytes(body, place as usize, bytes);
    }
}

/// Copies the pieces of a leaf.
fn copy_leaf(body: &mut [u8], places: &[u64], pieces: &[Piece])
    requires count { length places.now ≡ length pieces.now }
    requires inside { All (IsInside (length body.old)) (zip places.now pieces.now) }
    ensures { Painted body.new (first_byte (zip places.now pieces.now)) body.old }
{
    let mut at = pieces.len();
    while at > 0 {
        at -= 1;
        copy_piece(body, places[at], &pieces[at]);
    }
}

/// Copies the pieces of all leaves.
pub fn copy_sections(body: &mut [u8], places: &[Row<u64>], leaves: &[Shared<Entry>])
    requires { AreInside (length body.old) places.now leaves.now }
    ensures { Painted body.new (first_byte (placed_in places.now leaves.now)) body.old }
{
    let mut at = leaves.len();
    while at > 0 {
        at -= 1;
        copy_leaf(body, places[at].as_slice(), pieces_in(&leaves[at]));
    }
}
