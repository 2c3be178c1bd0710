//! Writes replies, and the lines of what is refused, to a sink.

ghost use Rattle.std.specs.Prelude.{◌≡◌, ◌+◌, ◌*◌, ◌^◌, ◌<◌, ◌≤◌, ◌++◌, length, map};
ghost use Rattle.std.specs.List.{flat_map};
ghost use Rattle.omos_outside.specs.Faults.{Rose};
ghost use Rattle.omos_wire.specs.Answer.{IsSendable, answer_of, reply_frame, span_bytes};
ghost use Rattle.omos_wire.specs.Answer.{longest_reply, Places, wire_span};
ghost use Rattle.omos_wire.specs.Answer as answer;
ghost use Rattle.omos_outside.specs.Sent.{Wrote};
ghost use Rattle.refusal_lines.specs.Codes.{coded_line, row_of};

use crate::heads::{head_of, places_head, spans_of};
use crate::joining::{join, join_places};
use crate::refused_head::refused_head;
use crate::reply::Reply;
use omos_model::Placement;
use omos_outside::{Sent, Sink, write_all, write_both};
use refusal_lines::{Refused, line_of};

/// How many placements are written at a time, where there is no memory for all.
const PLACEMENTS: usize = 64;

/// How long the file of an image may be that is joined to its head.
const JOINED: usize = 16_363;

/// Writes placements, some at a time.
fn write_spans<K: Sink>(sink: &mut K, placements: &[Placement]) -> Sent
    ensures wrote { Wrote result (K.held sink.old) (K.held sink.new)
        (flat_map span_bytes (map wire_span placements.now)) }
    ensures later { K.faults sink.old ≤ K.faults sink.new }
    ensures counts { K.faults sink.old < 2 ^ 64 → K.faults sink.new < 2 ^ 64 }
    ensures failed { result ≡ Sent.Failed → Rose (K.faults sink.old) (K.faults sink.new) }
{
    let mut done = 0;
    'placements: while done < placements.len() {
        let (_, rest) = placements.split_at(done);
        let (piece, _) = rest.split_at(PLACEMENTS.min(rest.len()));
        match write_all(sink, spans_of(piece).as_slice()) {
            Sent::All => done += piece.len(),
            Sent::Failed => return Sent::Failed,
        }
    }
    Sent::All
}

/// Writes the frame of a list of placements: its head, and then some at a time.
fn write_pieces<K: Sink>(sink: &mut K, placements: &[Placement]) -> Sent
    requires { 5 + 12 * length placements.now ≤ longest_reply }
    ensures wrote { Wrote result (K.held sink.old) (K.held sink.new)
        (reply_frame (Places (map wire_span placements.now))) }
    ensures later { K.faults sink.old ≤ K.faults sink.new }
    ensures counts { K.faults sink.old < 2 ^ 64 → K.faults sink.new < 2 ^ 64 }
    ensures failed { result ≡ Sent.Failed → Rose (K.faults sink.old) (K.faults sink.new) }
{
    match write_all(sink, places_head(placements).as_slice()) {
        Sent::All => write_spans(sink, placements),
        Sent::Failed => Sent::Failed,
    }
}

/// Writes the frame of a list of placements by one write, or some at a time where there is no
/// memory for joining them.
fn write_places<K: Sink>(sink: &mut K, room: &mut Vec<u8>, placements: &[Placement]) -> Sent
    requires { 5 + 12 * length placements.now ≤ longest_reply }
    ensures wrote { Wrote result (K.held sink.old) (K.held sink.new)
        (reply_frame (Places (map wire_span placements.now))) }
    ensures later { K.faults sink.old ≤ K.faults sink.new }
    ensures counts { K.faults sink.old < 2 ^ 64 → K.faults sink.new < 2 ^ 64 }
    ensures failed { result ≡ Sent.Failed → Rose (K.faults sink.old) (K.faults sink.new) }
{
    if join_places(room, placements) {
        return write_all(sink, room.as_slice());
    }
    write_pieces(sink, placements)
}

/// Writes the frame of an image: a short one by one write, else its head and then its file from
/// where it lies.
fn write_image<K: Sink>(sink: &mut K, room: &mut Vec<u8>, head: &[u8], file: &[u8]) -> Sent
    ensures wrote { Wrote result (K.held sink.old) (K.held sink.new) (head.now ++ file.now) }
    ensures later { K.faults sink.old ≤ K.faults sink.new }
    ensures counts { K.faults sink.old < 2 ^ 64 → K.faults sink.new < 2 ^ 64 }
    ensures failed { result ≡ Sent.Failed → Rose (K.faults sink.old) (K.faults sink.new) }
{
    if file.len() <= JOINED && join(room, head, file) {
        return write_all(sink, room.as_slice());
    }
    write_both(sink, head, file)
}

/// Writes the frame of what is refused. It stands apart, so that no other reply clears the room on
/// the stack that the longest refusal takes.
#[inline(never)]
fn write_refused<K: Sink>(sink: &mut K, refused: &Refused) -> Sent
    ensures wrote { Wrote result (K.held sink.old) (K.held sink.new)
        (reply_frame (answer.Refused refused.now)) }
    ensures later { K.faults sink.old ≤ K.faults sink.new }
    ensures counts { K.faults sink.old < 2 ^ 64 → K.faults sink.new < 2 ^ 64 }
    ensures failed { result ≡ Sent.Failed → Rose (K.faults sink.old) (K.faults sink.new) }
{
    write_all(sink, refused_head(refused).as_slice())
}

/// Writes the frame of a reply. One of at most 16 KiB is one write, joined in the room, whatever
/// that held, and so is a list of placements; a longer image is two, and its file goes to the sink
/// from where it lies. Where there is no memory for joining, placements go 64 at a time.
pub fn write_reply<K: Sink>(reply: &Reply<'_>, room: &mut Vec<u8>, sink: &mut K) -> Sent
    requires { IsSendable (answer_of reply.now) }
    ensures wrote { Wrote result (K.held sink.old) (K.held sink.new)
        (reply_frame (answer_of reply.now)) }
    ensures later { K.faults sink.old ≤ K.faults sink.new }
    ensures counts { K.faults sink.old < 2 ^ 64 → K.faults sink.new < 2 ^ 64 }
    ensures failed { result ≡ Sent.Failed → Rose (K.faults sink.old) (K.faults sink.new) }
{
    match reply {
        Reply::Refused(refused) => write_refused(sink, refused),
        Reply::Image { bytes, .. } => write_image(sink, room, head_of(reply).as_slice(), bytes),
        Reply::Places(placements) => write_places(sink, room, placements),
        _ => write_all(sink, head_of(reply).as_slice()),
    }
}

/// Writes the line of what is refused, by one write. It takes no memory.
pub fn write_line<K: Sink>(refused: &Refused, sink: &mut K) -> Sent
    ensures wrote { Wrote result (K.held sink.old) (K.held sink.new)
        (coded_line (row_of refused.now)) }
    ensures later { K.faults sink.old ≤ K.faults sink.new }
    ensures counts { K.faults sink.old < 2 ^ 64 → K.faults sink.new < 2 ^ 64 }
    ensures failed { result ≡ Sent.Failed → Rose (K.faults sink.old) (K.faults sink.new) }
{
    write_all(sink, line_of(refused).as_slice())
}
