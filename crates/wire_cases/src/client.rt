//! A run of the client over what comes, goes, is printed and lies in memory.

ghost use Rattle.std.specs.Prelude.{◌<◌};

use crate::text::{bytes_of, shown};
use anyhow::{Context, Result};
use omos_base::{Bytes, Row};
use omos_client::client;
use omos_files::{FileBox, FileRead, MemoryFiles};
use omos_outside::{MemorySink, MemorySource};
use std::alloc::Global;

/// The only file that there may be.
const FILE: &str = "f";

/// A case: the words of the command line, what the file `f` holds, or `none`, and what comes from
/// the server.
#[derive(Clone, Copy)]
pub(crate) struct Case<'a> {
    words: &'a str,
    file: &'a str,
    pub(crate) incoming: &'a str,
}

/// The calls that fail, counted from 1, of the link's two ends, the files and the output; and how
/// many bytes come before the link ends.
#[derive(Clone, Copy)]
pub(crate) struct Outside {
    pub(crate) read: u32,
    pub(crate) write: u32,
    pub(crate) file: u32,
    pub(crate) print: u32,
    pub(crate) comes: usize,
}

/// Nothing fails.
pub(crate) const WELL: Outside = Outside {
    read: 0,
    write: 0,
    file: 0,
    print: 0,
    comes: usize::MAX,
};

/// What came of a run.
#[derive(Drop)]
pub(crate) struct Outcome {
    pub(crate) status: u8,
    pub(crate) sent: MemorySink,
    pub(crate) printed: MemorySink,
    pub(crate) file: Option<Bytes>,
}

impl<'a> Case<'a> {
    /// The case of `WORDS | FILE | INCOMING`.
    pub(crate) fn read(text: &'a str) -> Result<Case<'a>> {
        let (words, rest) = text.split_once('|').context("no file")?;
        let (file, incoming) = rest.split_once('|').context("nothing comes")?;
        Ok(Case {
            words: words.trim(),
            file: file.trim(),
            incoming,
        })
    }

    /// What the file holds before a run.
    pub(crate) fn file(&self, alloc: Global) -> Result<Option<Bytes>> {
        if self.file == "none" {
            return Ok(None);
        }
        Ok(Some(Bytes::from_vec(bytes_of(alloc, self.file)?)))
    }
}

/// The words of a command line. One with a star in it is so many of one byte, as in a frame.
fn words_of(alloc: Global, text: &str) -> Result<Vec<String>> {
    let mut words = Vec::new(alloc);
    for word in text.split_whitespace() {
        if word.contains('*') {
            let bytes = bytes_of(alloc, word)?;
            let filled = str::from_utf8(bytes.as_slice()).context("a word")?;
            words.push(String::from_str(alloc, filled)?)?;
        } else {
            words.push(String::from_str(alloc, word)?)?;
        }
    }
    Ok(words)
}

fn only(alloc: Global, call: u32) -> Result<Row<u32>> {
    let mut calls = Row::new(alloc);
    calls.push(call)?;
    Ok(calls)
}

/// How many bytes a call moves at most: one where a call is to fail.
fn step_for(call: u32) -> u32
    ensures { 0 < result }
{
    if call == 0 { u32::MAX } else { 1 }
}

/// What comes, a byte a call where a call is to fail.
fn source_of(alloc: Global, incoming: &str, outside: Outside) -> Result<MemorySource> {
    let mut bytes = bytes_of(alloc, incoming)?;
    bytes.truncate(outside.comes);
    let fails = only(alloc, outside.read)?;
    let bytes = Bytes::from_vec(bytes);
    Ok(MemorySource::new(bytes, step_for(outside.read), fails))
}

/// A sink, which takes a byte a call where a call is to fail.
fn sink_of(alloc: Global, room: u32, call: u32) -> Result<MemorySink> {
    let fails = only(alloc, call)?;
    Ok(MemorySink::new(alloc, room, step_for(call), fails)?)
}

fn files_of(alloc: Global, content: Option<Bytes>, call: u32) -> Result<MemoryFiles> {
    let mut files = Row::new(alloc);
    if let Some(bytes) = content {
        files.push((Bytes::from_slice(alloc, FILE.as_bytes())?, bytes))?;
    }
    Ok(MemoryFiles::new(alloc, files, only(alloc, call)?))
}

/// What the file holds, if it is there.
fn content_of(files: &mut MemoryFiles) -> Option<Bytes> {
    match files.read_all(FILE, u32::MAX) {
        FileRead::Whole(bytes) => Some(bytes),
        _ => None,
    }
}

/// Runs a case.
pub(crate) fn run(alloc: Global, case: &Case<'_>, outside: Outside) -> Result<Outcome> {
    let words = words_of(alloc, case.words)?;
    let mut from = source_of(alloc, case.incoming, outside)?;
    let mut to = sink_of(alloc, 2_200_000, outside.write)?;
    let mut files = files_of(alloc, case.file(alloc)?, outside.file)?;
    let mut out = sink_of(alloc, 10_000, outside.print)?;
    let status = client(alloc, &words, &mut from, &mut to, &mut files, &mut out);
    Ok(Outcome {
        status,
        sent: to,
        printed: out,
        file: content_of(&mut files),
    })
}

/// What came of a run, in words.
pub(crate) fn text_of(alloc: Global, run: &Outcome) -> Result<String> {
    let status = run.status;
    let sent = shown(alloc, run.sent.bytes())?;
    let printed = str::from_utf8(run.printed.bytes()).context("a line")?;
    let file = match &run.file {
        Some(bytes) => shown(alloc, bytes.as_slice())?,
        None => String::from_str(alloc, "none")?,
    };
    Ok(format!(in alloc; "status {status}, sent {sent}, printed {printed:?}, file {file}")?)
}

/// The line of a case in which nothing fails.
pub(crate) fn told(alloc: Global, case: &Case<'_>) -> Result<String> {
    text_of(alloc, &run(alloc, case, WELL)?)
}
