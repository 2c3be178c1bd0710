//! What stands at the front of bytes.

ghost use Rattle.std.specs.Prelude.{◌≡◌, ◌≤◌, length};
ghost use Rattle.omos_wire.specs.Found.{Sees};
ghost use Rattle.omos_wire.specs.Message.{message_of};
ghost use Rattle.omos_wire.specs.Sight.{sight, sight_of, message, with_size, with_kind, with_path};
ghost use Rattle.omos_wire.specs.Sight.{IsLookWithin};

use crate::request::{FrameCause, Request};
use omos_base::{u16_at, u32_at};

/// The front of some bytes.
#[derive(Clone, Copy)]
pub(crate) enum Look<'a> {
    /// A request, and how many bytes its frame has.
    Whole(Request<'a>, usize),
    /// Less than a frame.
    Short,
    /// No frame.
    Bad(FrameCause),
}

/// The request of this kind, which has a path.
fn request_of<'a>(kind: u8, path: &'a [u8], rest: &'a [u8]) -> Request<'a>
    ensures { message_of result ≡ message kind path.now rest.now }
{
    match kind {
        1 => Request::PutObject { path, object: rest },
        2 => Request::PutBlueprint { path, text: rest },
        3 => Request::Link { path },
        4 => Request::Places { path },
        _ => Request::Flush { path },
    }
}

#[tactic(auto, unfolding(crate::specs::Sight::with_path))]
fn with_path_of(size: usize, kind: u8, count: usize, bytes: &[u8]) -> Look<'_>
    requires kinds { kind ≤ 7 }
    requires sizes { size ≤ 2097152 }
    requires long { 7 ≤ length bytes.now }
    requires counts { count ≤ 65535 }
    ensures sight { sight_of result ≡ with_path size kind count bytes.now }
    ensures within { IsLookWithin result (length bytes.now) }
{
    if size < 3 + count || (2 < kind && 3 + count < size) {
        return Look::Bad(FrameCause::Shape);
    }
    if bytes.len() < 4 + size {
        return Look::Short;
    }
    let path = &bytes[7..7 + count];
    let rest = &bytes[7 + count..4 + size];
    Look::Whole(request_of(kind, path, rest), 4 + size)
}

#[tactic(auto, unfolding(crate::specs::Sight::with_kind))]
fn with_kind_of(size: usize, kind: u8, bytes: &[u8]) -> Look<'_>
    requires sizes { size ≤ 2097152 }
    requires long { 5 ≤ length bytes.now }
    ensures sight { sight_of result ≡ with_kind size kind bytes.now }
    ensures within { IsLookWithin result (length bytes.now) }
{
    if kind == 0 || 7 < kind {
        return Look::Bad(FrameCause::Kind);
    }
    if kind == 5 || kind == 7 {
        if size != 1 {
            return Look::Bad(FrameCause::Shape);
        }
        if kind == 5 {
            return Look::Whole(Request::Stats, 5);
        }
        return Look::Whole(Request::End, 5);
    }
    if size < 3 {
        return Look::Bad(FrameCause::Shape);
    }
    if bytes.len() < 7 {
        return Look::Short;
    }
    with_path_of(size, kind, usize::from(u16_at(bytes, 5)), bytes)
}

#[tactic(auto, unfolding(crate::specs::Sight::sight, crate::specs::Sight::with_size))]
fn look_at(bytes: &[u8]) -> Look<'_>
    ensures sight { sight_of result ≡ sight bytes.now }
    ensures within { IsLookWithin result (length bytes.now) }
{
    if bytes.len() < 4 {
        return Look::Short;
    }
    let size = u32_at(bytes, 0) as usize;
    if size == 0 || 2_097_152 < size {
        return Look::Bad(FrameCause::Length);
    }
    if bytes.len() < 5 {
        return Look::Short;
    }
    with_kind_of(size, bytes[4], bytes)
}

/// The front of the bytes, found at the earliest byte.
pub(crate) fn front(bytes: &[u8]) -> Look<'_>
    ensures sees { Sees result bytes.now }
    ensures within { IsLookWithin result (length bytes.now) }
{
    look_at(bytes)
}
