//! What comes from the server: the reply to the request, and Bye.

ghost use Rattle.std.specs.Prelude.{◌≡◌, ◌↔◌, ◌≤◌, Err, IsTrue};
ghost use Rattle.omos_outside.specs.Faults.{Rose};
ghost use Rattle.omos_wire.specs.Answer as reply;
ghost use Rattle.omos_wire.specs.Read.{answer_in};
ghost use Rattle.omos_client.specs.Replies.{Hears, Receives, ReceivesBye, cause_of, may_have};

use crate::errand::Command;
use omos_base::{Fault, u32_at};
use omos_outside::Source;
use omos_wire::{ReplyParts, read_reply};
use std::alloc::Global;
use stream_reads::{Unread, read_exactly};

/// The longest length that a reply may have.
const LONGEST: u32 = 16_777_216;

/// Why the two replies weren't read.
#[derive(Clone, Copy, Debug, PartialEq, Eq)]
pub enum Unheard {
    /// The source failed.
    SourceFailed,
    /// The source ended inside or before the two replies.
    Ended,
    /// The bytes are no reply, or one that the request can't have, or not Bye.
    NotReply,
    /// There was no memory.
    NoMemory,
}

/// What a read that came to too few bytes means for the reply.
fn cause_of(unread: Unread) -> Unheard
    ensures { result ≡ cause_of unread }
{
    match unread {
        Unread::Ended => Unheard::Ended,
        Unread::Failed => Unheard::SourceFailed,
        Unread::NoMemory => Unheard::NoMemory,
    }
}

/// Reads one reply: four bytes of length, and that many bytes.
fn receive<S: Source>(alloc: Global, source: &mut S) -> Result<ReplyParts, Unheard>
    ensures received { Receives result (S.told source.old) (S.told source.new) }
    ensures later { S.faults source.old ≤ S.faults source.new }
    ensures failed { result ≡ Err Unheard.SourceFailed
        → Rose (S.faults source.old) (S.faults source.new) }
{
    let mut frame = Vec::new(alloc);
    if let Err(unread) = read_exactly(source, &mut frame, 4) {
        return Err(cause_of(unread));
    }
    let size = u32_at(&frame, 0);
    if size == 0 || size > LONGEST {
        return Err(Unheard::NotReply);
    }
    if let Err(unread) = read_exactly(source, &mut frame, 4 + size as usize) {
        return Err(cause_of(unread));
    }
    match read_reply(alloc, &frame) {
        Ok(parts) => Ok(parts),
        Err(Fault::Refused(_)) => Err(Unheard::NotReply),
        Err(Fault::NoMemory) => Err(Unheard::NoMemory),
    }
}

/// The request may have this reply.
fn may_have(command: Command, reply: &ReplyParts) -> bool
    ensures { result ≡ may_have command (answer_in reply.now) }
{
    match (command, reply) {
        (Command::Put | Command::Blueprint, ReplyParts::Published(_) | ReplyParts::KeptFull)
        | (Command::Link, ReplyParts::Image { .. })
        | (Command::Where, ReplyParts::Places(_))
        | (Command::Stats, ReplyParts::Counts(_))
        | (Command::Flush, ReplyParts::Flushed(_)) => true,
        (_, ReplyParts::Full) => true,
        (Command::Stats, _) => false,
        (_, ReplyParts::Refused(_)) => true,
        (Command::Flush, _) => false,
        (_, ReplyParts::NoMemory) => true,
        _ => false,
    }
}

/// The reply is Bye.
fn is_bye(parts: &ReplyParts) -> bool
    ensures { IsTrue result ↔ (answer_in parts.now ≡ reply.Bye) }
{
    matches!(parts, ReplyParts::Bye)
}

/// Reads Bye.
fn receive_bye<S: Source>(alloc: Global, source: &mut S) -> Result<(), Unheard>
    ensures received { ReceivesBye result (S.told source.old) (S.told source.new) }
    ensures later { S.faults source.old ≤ S.faults source.new }
    ensures failed { result ≡ Err Unheard.SourceFailed
        → Rose (S.faults source.old) (S.faults source.new) }
{
    match receive(alloc, source) {
        Ok(reply) if is_bye(&reply) => Ok(()),
        Ok(_) => Err(Unheard::NotReply),
        Err(unheard) => Err(unheard),
    }
}

/// Reads the reply to a request of this command, and Bye behind it.
pub(crate) fn hear<S: Source>(
    alloc: Global,
    source: &mut S,
    command: Command,
) -> Result<ReplyParts, Unheard>
    ensures heard { Hears result command (S.told source.old) (S.told source.new) }
    ensures later { S.faults source.old ≤ S.faults source.new }
    ensures failed { result ≡ Err Unheard.SourceFailed
        → Rose (S.faults source.old) (S.faults source.new) }
{
    let reply = match receive(alloc, source) {
        Ok(reply) => reply,
        Err(unheard) => return Err(unheard),
    };
    if !may_have(command, &reply) {
        return Err(Unheard::NotReply);
    }
    match receive_bye(alloc, source) {
        Ok(()) => Ok(reply),
        Err(unheard) => Err(unheard),
    }
}
