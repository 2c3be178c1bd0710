//! A reply that is read, told in words, and written again.

ghost use Rattle.omos_wire.specs.Answer.{IsSendable, answer_of};

use crate::text::shown;
use anyhow::{Context, Result, bail};
use hub_store::Counts;
use omos_base::{Fault, PathName, Row};
use omos_model::Placement;
use omos_outside::{MemorySink, Sent};
use omos_wire::{Reply, ReplyParts, Span, read_reply, write_reply};
use refusal_lines::{Refused, line_of};
use std::alloc::Global;

/// A word, and numbers behind it.
fn numbered(alloc: Global, word: &str, numbers: &[u64]) -> Result<String> {
    let mut text = String::from_str(alloc, word)?;
    for number in numbers {
        text.push_str(&format!(in alloc; " {number}")?)?;
    }
    Ok(text)
}

fn counts_text(alloc: Global, n: &Counts) -> Result<String> {
    let numbers = [
        n.version,
        n.paths,
        n.placements,
        n.asked,
        n.hits,
        n.stored,
        n.evicted,
        n.held,
        n.steps,
    ];
    numbered(alloc, "counts", &numbers)
}

fn places_text(alloc: Global, spans: &[Span]) -> Result<String> {
    let mut text = String::from_str(alloc, "places")?;
    for span in spans {
        text = numbered(alloc, &text, &[span.base, u64::from(span.pages)])?;
    }
    Ok(text)
}

/// The line that is printed of it, or its bytes where they are no text.
fn refused_text(alloc: Global, refused: &Refused) -> Result<String> {
    let line = line_of(refused);
    match str::from_utf8(line.as_slice()) {
        Ok(text) if line.as_slice().len() < 80 => Ok(String::from_str(alloc, text.trim_end())?),
        _ => shown(alloc, line.as_slice()),
    }
}

fn image_text(alloc: Global, version: u64, base: u64, bytes: &[u8]) -> Result<String> {
    let numbers = numbered(alloc, "image", &[version, base])?;
    let bytes = shown(alloc, bytes)?;
    Ok(format!(in alloc; "{numbers} {bytes}")?)
}

/// A reply in words.
fn words_of(alloc: Global, reply: &ReplyParts) -> Result<String> {
    match reply {
        ReplyParts::Published(version) => numbered(alloc, "published", &[*version]),
        ReplyParts::Image {
            version,
            base,
            bytes,
        } => image_text(alloc, *version, *base, bytes.as_slice()),
        ReplyParts::Refused(refused) => refused_text(alloc, refused),
        ReplyParts::Places(spans) => places_text(alloc, spans.as_slice()),
        ReplyParts::Counts(counts) => counts_text(alloc, counts),
        ReplyParts::Flushed(held) => numbered(alloc, "flushed", &[u64::from(*held)]),
        ReplyParts::Bye => numbered(alloc, "bye", &[]),
        ReplyParts::NoMemory => numbered(alloc, "no memory", &[]),
        ReplyParts::Full => numbered(alloc, "full", &[]),
        ReplyParts::KeptFull => numbered(alloc, "kept full", &[]),
    }
}

/// The spans as placements, of a path that the reply leaves out.
fn placements_of(alloc: Global, spans: &[Span]) -> Result<Row<Placement>> {
    let path = PathName::read(b"/a").context("a path")?;
    let mut placements = Row::new(alloc);
    for span in spans {
        placements.push(Placement {
            path: path.copy(),
            base: span.base,
            pages: span.pages,
        })?;
    }
    Ok(placements)
}

fn put(alloc: Global, reply: &Reply<'_>, sink: &mut MemorySink) -> Sent
    requires { IsSendable (answer_of reply.now) }
{
    write_reply(reply, &mut Vec::new(alloc), sink)
}

/// Writes an image of this version and address.
fn put_image(
    alloc: Global,
    (version, base): (u64, u64),
    bytes: &[u8],
    sink: &mut MemorySink,
) -> Result<Sent> {
    if bytes.len() > 16_777_199 {
        bail!("an image of {} bytes", bytes.len());
    }
    let reply = Reply::Image {
        version,
        base,
        bytes,
    };
    Ok(put(alloc, &reply, sink))
}

fn put_places(alloc: Global, spans: &[Span], sink: &mut MemorySink) -> Result<Sent> {
    let placements = placements_of(alloc, spans)?;
    if placements.len() > 1_000_000 {
        bail!("{} placements", placements.len());
    }
    Ok(put(alloc, &Reply::Places(placements.as_slice()), sink))
}

/// Writes a reply that was read.
fn send(alloc: Global, parts: &ReplyParts, sink: &mut MemorySink) -> Result<Sent> {
    Ok(match parts {
        ReplyParts::Published(version) => put(alloc, &Reply::Published(*version), sink),
        ReplyParts::Image {
            version,
            base,
            bytes,
        } => put_image(alloc, (*version, *base), bytes.as_slice(), sink)?,
        ReplyParts::Refused(refused) => put(alloc, &Reply::Refused(refused), sink),
        ReplyParts::Places(spans) => put_places(alloc, spans.as_slice(), sink)?,
        ReplyParts::Counts(counts) => put(alloc, &Reply::Counts(*counts), sink),
        ReplyParts::Flushed(held) => put(alloc, &Reply::Flushed(*held), sink),
        ReplyParts::Bye => put(alloc, &Reply::Bye, sink),
        ReplyParts::NoMemory => put(alloc, &Reply::NoMemory, sink),
        ReplyParts::Full => put(alloc, &Reply::Full, sink),
        ReplyParts::KeptFull => put(alloc, &Reply::KeptFull, sink),
    })
}

/// What is written of a reply whose frame this is, by a sink that fails at a call, counted from 1.
fn written(alloc: Global, frame: &[u8], parts: &ReplyParts, call: u32) -> Result<&'static str> {
    let room = u32::try_from(frame.len()).context("a long frame")?;
    let mut fails = Row::new(alloc);
    fails.push(call)?;
    let mut sink = MemorySink::new(alloc, room, u32::MAX, fails)?;
    let sent = send(alloc, parts, &mut sink)?;
    let bytes = sink.bytes();
    Ok(match sent {
        Sent::All if bytes == frame => "whole",
        Sent::Failed if frame.starts_with(bytes) && bytes.len() < frame.len() => "part",
        _ => "WRONG",
    })
}

/// A reply in words, and what is written of it where the first, second or third write fails.
fn told(alloc: Global, frame: &[u8], parts: &ReplyParts) -> Result<String> {
    let mut line = words_of(alloc, parts)?;
    line.push_str("; written")?;
    for call in [1, 2, 3] {
        line.push_str(" ")?;
        line.push_str(written(alloc, frame, parts, call)?)?;
    }
    Ok(line)
}

/// The line of a frame: the reply that it is, and how that is written again; or that it is none.
pub(crate) fn reply_line(alloc: Global, frame: &[u8]) -> Result<String> {
    match read_reply(alloc, frame) {
        Ok(parts) => told(alloc, frame, &parts),
        Err(Fault::Refused(_)) => Ok(String::from_str(alloc, "no reply")?),
        Err(Fault::NoMemory) => bail!("no memory"),
    }
}
