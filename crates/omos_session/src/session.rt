//! One session, from its first frame to its end.

ghost use Rattle.std.specs.Prelude.{◌≡◌, ◌^◌, ◌≤◌, ◌<◌, ◌↔◌, length, IsTrue};
ghost use Rattle.omos_outside.specs.Faults.{Rose};
ghost use Rattle.omos_wire.specs.Message.{End, message_of};
ghost use Rattle.omos_session.specs.inside.Parts.{IsServed};
ghost use Rattle.omos_session.specs.Session.{IsSession};
ghost use Rattle.omos_session.specs.inside.Parts.{ending_of, IsPieceRead};
ghost use Rattle.omos_hub.specs.Standing.{CanCross, CanTurn};

use crate::answering::answer;
use crate::desk::Desk;
use omos_outside::{Got, Sent, Sink, Source};
use omos_wire::{Decoder, Found, FrameCause, Request, write_reply};
use std::alloc::Global;

/// How many frames a session may have.
const FRAMES: u32 = 65_536;

/// How many bytes are read at a time.
const PIECE: usize = 16_384;

/// How a session ended.
#[derive(Clone, Copy, Debug, PartialEq, Eq)]
pub enum SessionEnd {
    /// The end was read, and Bye was written.
    Ended,
    /// The source ended between frames.
    Closed,
    /// It ended so many bytes into what begins a frame.
    Truncated(u32),
    /// At this place of the stream no frame begins.
    BadFrame(u64, FrameCause),
    /// The source failed.
    ReadFault,
    /// The sink failed.
    WriteFault,
    /// One frame more than a session may have was read.
    TooMany,
    /// There was no memory for what waits.
    NoMemory,
}

/// What came of a frame.
enum Served {
    Next,
    Ended,
    Failed,
}

/// What came of a read.
enum Piece {
    Fed,
    End,
    Failed,
    NoMemory,
}

fn is_end(request: &Request<'_>) -> bool
    ensures { IsTrue result ↔ (message_of request.now ≡ End) }
{
    match request {
        Request::End => true,
        _ => false,
    }
}

/// Answers a frame, and writes the reply. The room is for joining its parts.
fn serve_frame<D: Desk, K: Sink>(
    alloc: Global,
    desk: &mut D,
    request: Request<'_>,
    room: &mut Vec<u8>,
    sink: &mut K,
) -> Served
    requires turns { CanTurn 4 (D.standing desk.old) }
    requires gate { CanCross 1 (D.standing desk.old).crossed }
    ensures served { IsServed result D.alone (D.standing desk.old) (D.standing desk.new)
        (message_of request.entry) (K.held sink.old) (K.held sink.new) }
    ensures lenders { D.lenders desk.new ≡ D.lenders desk.old }
    ensures later { K.faults sink.old ≤ K.faults sink.new }
    ensures failed { result ≡ Served.Failed → Rose (K.faults sink.old) (K.faults sink.new) }
{
    let ends = is_end(&request);
    let given = answer(alloc, desk, request);
    match write_reply(&given.reply(), room, sink) {
        Sent::All => {
            if ends {
                return Served::Ended;
            }
            Served::Next
        }
        Sent::Failed => Served::Failed,
    }
}

/// Reads a piece of the stream.
fn read_piece<S: Source>(decoder: &mut Decoder, source: &mut S, buffer: &mut [u8]) -> Piece
    requires { 0 < length buffer.old }
    ensures read { IsPieceRead result (S.told source.old) (S.told source.new)
        decoder.old decoder.new }
    ensures later { S.faults source.old ≤ S.faults source.new }
    ensures failed { result ≡ Piece.Failed → Rose (S.faults source.old) (S.faults source.new) }
{
    match source.read(buffer) {
        Got::Bytes(count) => {
            if decoder.feed(&buffer[..count]).is_err() {
                return Piece::NoMemory;
            }
            Piece::Fed
        }
        Got::End => Piece::End,
        Got::Failed => Piece::Failed,
    }
}

/// The end of a session whose source has ended.
fn at_end(waiting: u32) -> SessionEnd
    ensures { result ≡ ending_of waiting }
{
    if waiting == 0 {
        SessionEnd::Closed
    } else {
        SessionEnd::Truncated(waiting)
    }
}

/// Serves one seat from a source to a sink: reads whole frames in order, and answers each before it
/// looks at the next.
pub fn serve<D: Desk, S: Source, K: Sink>(
    alloc: Global,
    desk: &mut D,
    source: &mut S,
    sink: &mut K,
) -> SessionEnd
    requires turns { CanTurn (2 ^ 18) (D.standing desk.old) }
    requires gate { CanCross (2 ^ 16) (D.standing desk.old).crossed }
    ensures session { IsSession D.alone (D.standing desk.old) (D.standing desk.new)
        (S.told source.old) (S.told source.new) (K.held sink.old) (K.held sink.new) result }
    ensures lenders { D.lenders desk.new ≡ D.lenders desk.old }
    ensures source_later { S.faults source.old ≤ S.faults source.new }
    ensures sink_later { K.faults sink.old ≤ K.faults sink.new }
    ensures read_fault { result ≡ SessionEnd.ReadFault
        → Rose (S.faults source.old) (S.faults source.new) }
    ensures write_fault { result ≡ SessionEnd.WriteFault
        → Rose (K.faults sink.old) (K.faults sink.new) }
{
    let mut decoder = Decoder::new(alloc);
    let mut buffer = [0; PIECE];
    let mut room = Vec::new(alloc);
    let mut count = 0;
    'frames: loop {
        match decoder.next() {
            Found::Request(request) => {
                if count == FRAMES {
                    return SessionEnd::TooMany;
                }
                count += 1;
                match serve_frame(alloc, desk, request, &mut room, sink) {
                    Served::Next => {}
                    Served::Ended => return SessionEnd::Ended,
                    Served::Failed => return SessionEnd::WriteFault,
                }
            }
            Found::More => match read_piece(&mut decoder, source, &mut buffer) {
                Piece::Fed => {}
                Piece::End => return at_end(decoder.waiting()),
                Piece::Failed => return SessionEnd::ReadFault,
                Piece::NoMemory => return SessionEnd::NoMemory,
            },
            Found::Bad { place, cause } => return SessionEnd::BadFrame(place, cause),
        }
    }
}
