//! Parts of a session: its stream cut at each byte, and each read and each write failing in turn.

use crate::outcome::{Outcome, Way, outcome_of};
use crate::session::cut;
use anyhow::Result;
use std::alloc::Global;

/// How long replies may be that are written byte by byte, each write failing in turn.
const FEW: usize = 500;

/// How many bytes the replies of a brief session may have.
const ROOM: u32 = 1_000_000;

/// All at once, with room for the replies of a brief session.
fn brief() -> Result<Way> {
    let mut way = Way::with("")?;
    way.room = ROOM;
    Ok(way)
}

/// The call that comes behind so many calls of a byte each, counted from 1.
fn call_behind(bytes: usize) -> u32 {
    u32::try_from(bytes).unwrap_or(u32::MAX).saturating_add(1)
}

/// What a run over the first bytes of a stream has to come to: whether it ends between two frames
/// or behind the end, and how many bytes of the whole run's replies it writes. Each whole frame has
/// one reply, and none behind the end has any.
fn wanted_of(stream: &[u8], replies: &[u8], bytes: usize) -> (bool, usize) {
    let mut left = bytes;
    let mut requests = stream;
    let mut rest = replies;
    for _ in 0..65_536u32 {
        if left == 0 || rest.is_empty() {
            break;
        }
        let (Some((frame, behind)), Some((_, unread))) = (cut(requests), cut(rest)) else {
            break;
        };
        if frame.len() > left {
            break;
        }
        left -= frame.len();
        requests = behind;
        rest = unread;
    }
    let is_between = left == 0 || rest.is_empty();
    (is_between, replies.len().saturating_sub(rest.len()))
}

/// Whether a run ended so, with so many of the whole run's replies.
fn is_part(outcome: &Outcome, status: u8, replies: &[u8], bytes: usize) -> bool {
    outcome.status == status && Some(outcome.sink.bytes()) == replies.get(..bytes)
}

/// Whether the stream, cut behind its first bytes, ends as it must.
fn ends_when_cut(
    alloc: Global,
    words: &str,
    stream: &[u8],
    replies: &[u8],
    bytes: usize,
) -> Result<bool> {
    let (is_between, written) = wanted_of(stream, replies, bytes);
    let front = stream.get(..bytes).unwrap_or(stream);
    let outcome = outcome_of(alloc, words, front, brief()?)?;
    let status = if is_between { 0 } else { 5 };
    Ok(is_part(&outcome, status, replies, written))
}

/// Whether a session of which each read gives a byte, and the one behind so many bytes fails, ends
/// as it must: behind an end nothing is read.
fn ends_when_unread(
    alloc: Global,
    words: &str,
    stream: &[u8],
    replies: &[u8],
    bytes: usize,
) -> Result<bool> {
    let mut way = brief()?;
    way.read_step = 1;
    way.failing_read = call_behind(bytes);
    let (_, written) = wanted_of(stream, replies, bytes);
    let outcome = outcome_of(alloc, words, stream, way)?;
    let status = if written == replies.len() { 0 } else { 3 };
    Ok(is_part(&outcome, status, replies, written))
}

/// Whether a session of which each write takes a byte, and the one behind so many fails, ends as it
/// must.
fn ends_when_unwritten(
    alloc: Global,
    words: &str,
    stream: &[u8],
    replies: &[u8],
    bytes: usize,
) -> Result<bool> {
    let mut way = brief()?;
    way.write_step = 1;
    way.failing_write = call_behind(bytes);
    let outcome = outcome_of(alloc, words, stream, way)?;
    Ok(is_part(&outcome, 4, replies, bytes))
}

/// What is wrong with a session that ends as it should when some of it is missing, if anything. It
/// ends by the request to end.
pub(crate) fn fault_of_parts(alloc: Global, words: &str, stream: &[u8]) -> Result<Option<String>> {
    let whole = outcome_of(alloc, words, stream, brief()?)?;
    let replies = whole.sink.bytes();
    for bytes in 0..stream.len() {
        if !ends_when_cut(alloc, words, stream, replies, bytes)? {
            return Ok(Some(format!(in alloc; "cut behind {bytes} bytes")?));
        }
        if !ends_when_unread(alloc, words, stream, replies, bytes)? {
            return Ok(Some(format!(in alloc; "a failing read behind {bytes} bytes")?));
        }
    }
    if replies.len() > FEW {
        return Ok(None);
    }
    for bytes in 0..replies.len() {
        if !ends_when_unwritten(alloc, words, stream, replies, bytes)? {
            return Ok(Some(format!(in alloc; "a failing write behind {bytes} bytes")?));
        }
    }
    Ok(None)
}
