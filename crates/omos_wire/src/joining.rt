//! Replies joined to one piece, so that one write sends them.

ghost use Rattle.std.specs.Prelude.{◌≡◌, ◌+◌, ◌*◌, ◌≤◌, ◌++◌, length, map, true};
ghost use Rattle.omos_wire.specs.Answer.{Places, longest_reply, reply_frame, span_bytes, wire_span};

use crate::heads::{places_head, put_span};
use arrayvec::ArrayVec;
use omos_model::Placement;

/// Fills the room with both pieces, one behind the other. It is false where there is no memory.
pub(crate) fn join(room: &mut Vec<u8>, first: &[u8], second: &[u8]) -> bool
    ensures { result ≡ true → room.new.items ≡ first.now ++ second.now }
{
    room.clear();
    room.extend_from_slice(first).is_ok() && room.extend_from_slice(second).is_ok()
}

/// Appends a placement's bytes. It is false where there is no memory.
fn push_span(room: &mut Vec<u8>, placement: &Placement) -> bool
    ensures { result ≡ true
        → room.new.items ≡ room.old.items ++ span_bytes (wire_span placement.now) }
{
    let mut bytes = ArrayVec::<u8, 12>::new();
    put_span(&mut bytes, placement);
    room.extend_from_slice(bytes.as_slice()).is_ok()
}

/// Fills the room with the frame of a list of placements. It is false where there is no memory.
pub(crate) fn join_places(room: &mut Vec<u8>, placements: &[Placement]) -> bool
    requires { 5 + 12 * length placements.now ≤ longest_reply }
    ensures { result ≡ true → room.new.items ≡ reply_frame (Places (map wire_span placements.now)) }
{
    if !join(room, places_head(placements).as_slice(), &[]) {
        return false;
    }
    for placement in placements {
        if !push_span(room, placement) {
            return false;
        }
    }
    true
}
