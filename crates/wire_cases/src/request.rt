//! A request in words.

use crate::text::shown;
use anyhow::Result;
use omos_wire::{FrameCause, Request};
use std::alloc::Global;

/// `WORD PATH`
fn pathed(alloc: Global, word: &str, path: &[u8]) -> Result<String> {
    let path = shown(alloc, path)?;
    Ok(format!(in alloc; "{word} {path}")?)
}

/// `WORD PATH CONTENT`
fn filled(alloc: Global, word: &str, path: &[u8], content: &[u8]) -> Result<String> {
    let content = shown(alloc, content)?;
    let front = pathed(alloc, word, path)?;
    Ok(format!(in alloc; "{front} {content}")?)
}

/// The request as a line shows it.
pub(crate) fn words_of(alloc: Global, request: &Request<'_>) -> Result<String> {
    match request {
        Request::PutObject { path, object } => filled(alloc, "put", path, object),
        Request::PutBlueprint { path, text } => filled(alloc, "blueprint", path, text),
        Request::Link { path } => pathed(alloc, "link", path),
        Request::Places { path } => pathed(alloc, "where", path),
        Request::Stats => Ok(String::from_str(alloc, "stats")?),
        Request::Flush { path } => pathed(alloc, "flush", path),
        Request::End => Ok(String::from_str(alloc, "end")?),
    }
}

/// The cause in a word.
pub(crate) fn cause_word(cause: FrameCause) -> &'static str {
    match cause {
        FrameCause::Length => "length",
        FrameCause::Kind => "kind",
        FrameCause::Shape => "shape",
    }
}
