//! The frames of requests, for who sends them.

ghost use Rattle.std.specs.Prelude.{◌≡◌, ◌+◌, ◌<◌, ◌≤◌, ◌++◌, ◌∷◌, length, IfOk};
ghost use Rattle.omos_base.specs.Endian.{little_bytes};
ghost use Rattle.omos_wire.specs.Message.{frame, message_of, HasFrame};
ghost use Rattle.omos_wire.specs.Fielded.{field};

use crate::request::Request;
use omos_base::{Bytes, NoMemory};
use std::alloc::Global;

/// The frame of a request with a path: the kind byte, the path and what follows it.
fn framed(alloc: Global, kind: u8, path: &[u8], rest: &[u8]) -> Result<Bytes, NoMemory>
    requires path { length path.now < 65536 }
    requires size { 3 + length path.now + length rest.now ≤ 2097152 }
    ensures { IfOk result (λ bytes. bytes
        ≡ little_bytes 4 (3 + length path.now + length rest.now)
        ++ kind ∷ field path.now ++ rest.now) }
{
    let size = 3 + path.len() + rest.len();
    let mut frame = Bytes::with_capacity(alloc, 4 + size)?;
    frame.push_u32(size as u32)?;
    frame.push_slice(&[kind])?;
    frame.push_u16(path.len() as u16)?;
    frame.push_slice(path)?;
    frame.push_slice(rest)?;
    Ok(frame)
}

/// The frame of a request.
///
/// A decoder that is fed it hands out the request, whatever follows: that is the law
/// `frames_are_seen`.
#[tactic(auto, unfolding(crate::specs::Message::frame))]
pub fn request_frame(alloc: Global, request: &Request<'_>) -> Result<Bytes, NoMemory>
    requires { HasFrame (message_of request.now) }
    ensures { IfOk result (λ bytes. bytes ≡ frame (message_of request.now)) }
{
    match request {
        Request::PutObject { path, object } => framed(alloc, 1, path, object),
        Request::PutBlueprint { path, text } => framed(alloc, 2, path, text),
        Request::Link { path } => framed(alloc, 3, path, &[]),
        Request::Places { path } => framed(alloc, 4, path, &[]),
        Request::Stats => Bytes::from_slice(alloc, &[1, 0, 0, 0, 5]),
        Request::Flush { path } => framed(alloc, 6, path, &[]),
        Request::End => Bytes::from_slice(alloc, &[1, 0, 0, 0, 7]),
    }
}
