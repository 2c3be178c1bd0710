//! A reply as it was got, and what is wanted of it.

use crate::text::{byte_of, bytes_of};
use anyhow::{Context, Result, anyhow, bail};
use hub_store::Counts;
use omos_wire::{ReplyParts, Span, read_reply};
use refusal_lines::{Refused, line_of};
use std::alloc::Global;
use std::fs;

fn counts_text(alloc: Global, n: &Counts) -> Result<String> {
    let first = format!(in alloc; "counts {} {} {}", n.version, n.paths, n.placements)?;
    let links = format!(in alloc; "{} {} {}", n.asked, n.hits, n.stored)?;
    Ok(format!(in alloc; "{first} {links} {} {} {}", n.evicted, n.held, n.steps)?)
}

fn places_text(alloc: Global, spans: &[Span]) -> Result<String> {
    let mut text = String::from_str(alloc, "places")?;
    for span in spans {
        text.push_str(&format!(in alloc; " {:#x} {}", span.base, span.pages)?)?;
    }
    Ok(text)
}

fn refused_text(alloc: Global, refused: &Refused) -> Result<String> {
    let line = line_of(refused);
    let text = str::from_utf8(line.as_slice()).context("a line")?;
    Ok(String::from_str(alloc, text.trim_end())?)
}

/// A reply in words, an image without its file.
fn words_of(alloc: Global, reply: &ReplyParts) -> Result<String> {
    match reply {
        ReplyParts::Published(version) => Ok(format!(in alloc; "published {version}")?),
        ReplyParts::Image { version, base, .. } => Ok(format!(in alloc;
            "image {version} {base:#x}"
        )?),
        ReplyParts::Refused(refused) => refused_text(alloc, refused),
        ReplyParts::Places(spans) => places_text(alloc, spans.as_slice()),
        ReplyParts::Counts(counts) => counts_text(alloc, counts),
        ReplyParts::Flushed(held) => Ok(format!(in alloc; "flushed {}", u8::from(*held))?),
        ReplyParts::Bye => Ok(String::from_str(alloc, "bye")?),
        ReplyParts::NoMemory => Ok(String::from_str(alloc, "no memory")?),
        ReplyParts::Full => Ok(String::from_str(alloc, "full")?),
        ReplyParts::KeptFull => Ok(String::from_str(alloc, "kept full")?),
    }
}

/// The file has these bytes from an address on, where `base` stands behind its first 4,096 bytes.
fn has_bytes(file: &[u8], base: u64, text: &str) -> Result<bool> {
    let mut words = text.split_whitespace();
    let address = words.next().context("an address")?;
    let address = u64::from_str_radix(address, 16).context("an address")?;
    let mut at = address.wrapping_sub(base).wrapping_add(4_096) as usize;
    for word in words {
        if file.get(at) != Some(&byte_of(word)?) {
            return Ok(false);
        }
        at = at.wrapping_add(1);
    }
    Ok(true)
}

/// An image's file is so: `file NAME`, `size BYTES` or `at ADDRESS BYTE..`.
fn is_file(rt: &HostRuntime, file: &[u8], base: u64, item: &str) -> Result<bool> {
    let (kind, rest) = item.split_once(' ').context("what is wanted")?;
    match kind {
        "file" => Ok(fs::read(rt, rest).context("a file")?.as_slice() == file),
        "size" => Ok(rest.parse::<usize>().context("a size")? == file.len()),
        "at" => has_bytes(file, base, rest),
        _ => bail!("no such wish"),
    }
}

/// Each item of an image's wish is met.
fn are_met(rt: &HostRuntime, reply: &ReplyParts, items: &str) -> Result<bool> {
    let ReplyParts::Image { base, bytes, .. } = reply else {
        bail!("a wish for an image");
    };
    for item in items.split('&') {
        if !is_file(rt, bytes.as_slice(), *base, item.trim())? {
            return Ok(false);
        }
    }
    Ok(true)
}

/// The words are those wanted, or begin as these do up to a `..`.
fn are_words(words: &str, wanted: &str) -> bool {
    match wanted.strip_suffix("..") {
        Some(front) => words.starts_with(front),
        None => words == wanted,
    }
}

/// What is wrong with a reply's frame, if anything.
pub(crate) fn fault_of(rt: &HostRuntime, frame: &[u8], wanted: &str) -> Result<Option<String>> {
    let alloc = rt.alloc();
    if let Some(text) = wanted.strip_prefix("bytes ") {
        let right = bytes_of(alloc, text)?.as_slice() == frame;
        return Ok(if right {
            None
        } else {
            Some(String::from_str(alloc, "other bytes")?)
        });
    }
    let reply = read_reply(alloc, frame).map_err(|_| anyhow!("no reply"))?;
    let words = words_of(alloc, &reply)?;
    let (head, items) = wanted.split_once(" & ").unwrap_or((wanted, ""));
    if are_words(&words, head) && (items.is_empty() || are_met(rt, &reply, items)?) {
        return Ok(None);
    }
    Ok(Some(words))
}
