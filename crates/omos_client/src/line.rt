//! What the client prints of a reply.

ghost use Rattle.std.specs.Prelude.{◌≡◌, ◌++◌, IfOk, OnOk};
ghost use Rattle.std.specs.List.{flat_map};
ghost use Rattle.omos_wire.specs.Answer as answer;
ghost use Rattle.omos_wire.specs.Read.{answer_in};
ghost use Rattle.omos_client.specs.Lines.{counts_line, image_line, line_for, span_line, hex_word};

use count_lines::push_count;
use hub_store::Counts;
use omos_base::{Bytes, NoMemory};
use omos_wire::{ReplyParts, Span};
use refusal_lines::line_of;
use std::alloc::Global;

/// Appends a number as `0x` and lower-case digits.
fn push_hex(alloc: Global, line: &mut Bytes, number: u64) -> Result<(), NoMemory>
    ensures { OnOk result (line.new ≡ line.old ++ hex_word number) }
{
    let digits = format!(in alloc; "{number:x}")?;
    line.push_slice(b"0x")?;
    line.push_slice(digits.as_bytes())
}

/// A placement's line, as `0x400000 1`.
fn span_line(alloc: Global, span: &Span) -> Result<Bytes, NoMemory>
    ensures { IfOk result (λ line. line ≡ span_line span.now) }
{
    let mut line = Bytes::new(alloc);
    push_hex(alloc, &mut line, span.base)?;
    push_count(&mut line, b" ", u64::from(span.pages))?;
    line.push_slice(b"\n")?;
    Ok(line)
}

/// A line for each placement, in order of placing.
fn span_lines(alloc: Global, spans: &[Span]) -> Result<Bytes, NoMemory>
    ensures { IfOk result (λ lines. lines ≡ flat_map span_line spans.now) }
{
    let mut lines = Bytes::new(alloc);
    'spans: for span in spans {
        lines.push_slice(span_line(alloc, span)?.as_slice())?;
    }
    Ok(lines)
}

/// `published 1`.
fn published_line(alloc: Global, version: u64) -> Result<Bytes, NoMemory>
    ensures { IfOk result (λ line. line ≡ line_for (answer.Published version)) }
{
    let mut line = Bytes::new(alloc);
    push_count(&mut line, b"published ", version)?;
    line.push_slice(b"\n")?;
    Ok(line)
}

/// `image version 1 base 0x400000 bytes 8192`.
fn image_line(alloc: Global, version: u64, base: u64, size: usize) -> Result<Bytes, NoMemory>
    ensures { IfOk result (λ line. line ≡ image_line version base size) }
{
    let mut line = Bytes::new(alloc);
    push_count(&mut line, b"image version ", version)?;
    line.push_slice(b" base ")?;
    push_hex(alloc, &mut line, base)?;
    push_count(&mut line, b" bytes ", size as u64)?;
    line.push_slice(b"\n")?;
    Ok(line)
}

/// `version V paths P placements L asked A hits H stored T evicted E held D steps S`.
fn counts_line(alloc: Global, counts: &Counts) -> Result<Bytes, NoMemory>
    ensures { IfOk result (λ line. line ≡ counts_line counts.now) }
{
    let mut line = Bytes::new(alloc);
    push_count(&mut line, b"version ", counts.version)?;
    push_count(&mut line, b" paths ", counts.paths)?;
    push_count(&mut line, b" placements ", counts.placements)?;
    push_count(&mut line, b" asked ", counts.asked)?;
    push_count(&mut line, b" hits ", counts.hits)?;
    push_count(&mut line, b" stored ", counts.stored)?;
    push_count(&mut line, b" evicted ", counts.evicted)?;
    push_count(&mut line, b" held ", counts.held)?;
    push_count(&mut line, b" steps ", counts.steps)?;
    line.push_slice(b"\n")?;
    Ok(line)
}

/// The lines of a reply: `published 1`, `image version 1 base 0x400000 bytes 8192`,
/// `refused L10 _start`, a line a placement, the counts, `flushed 1`, `no memory`, `full` or
/// `kept full`.
pub(crate) fn line_for(alloc: Global, reply: &ReplyParts) -> Result<Bytes, NoMemory>
    ensures { IfOk result (λ line. line ≡ line_for (answer_in reply.now)) }
{
    match reply {
        ReplyParts::Published(version) => published_line(alloc, *version),
        ReplyParts::Image {
            version,
            base,
            bytes,
        } => image_line(alloc, *version, *base, bytes.len()),
        ReplyParts::Refused(refused) => Bytes::from_slice(alloc, line_of(refused).as_slice()),
        ReplyParts::Places(spans) => span_lines(alloc, spans.as_slice()),
        ReplyParts::Counts(counts) => counts_line(alloc, counts),
        ReplyParts::Flushed(true) => Bytes::from_slice(alloc, b"flushed 1\n"),
        ReplyParts::Flushed(false) => Bytes::from_slice(alloc, b"flushed 0\n"),
        ReplyParts::Bye => Ok(Bytes::new(alloc)),
        ReplyParts::NoMemory => Bytes::from_slice(alloc, b"no memory\n"),
        ReplyParts::Full => Bytes::from_slice(alloc, b"full\n"),
        ReplyParts::KeptFull => Bytes::from_slice(alloc, b"kept full\n"),
    }
}
