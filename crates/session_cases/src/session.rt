//! A session of the table.

use crate::outcome::{Way, outcome_of, workload_of};
use crate::parts::fault_of_parts;
use crate::reply::fault_of;
use crate::request::stream_of;
use anyhow::{Context, Result};
use omos_base::{Bytes, u32_at};
use std::alloc::Global;

/// How long a session may be that is read in small pieces too.
const SHORT: usize = 20_000;

/// How long one may be that is also cut at each byte, and whose calls fail one after the other.
const BRIEF: usize = 2_000;

/// A request, how often it stands in the stream, and the reply that is wanted each time, or none.
#[derive(Clone, Copy)]
struct Line<'a> {
    times: u32,
    request: &'a str,
    wanted: &'a str,
}

/// A session: its first line `NAME | WORDS | STATUS`, and perhaps `| FAULT`, and its requests.
#[derive(Drop)]
pub(crate) struct Session<'a> {
    pub(crate) name: &'a str,
    words: &'a str,
    status: u8,
    fault: &'a str,
    lines: Vec<Line<'a>>,
}

/// The next column, and what follows it.
fn column(line: &str) -> (&str, &str) {
    let (text, rest) = line.split_once('|').unwrap_or((line, ""));
    (text.trim(), rest)
}

/// `REQUEST | REPLY`, or `COUNT times REQUEST | REPLY`.
fn line_of(line: &str) -> Result<Line<'_>> {
    let (request, wanted) = column(line);
    let wanted = wanted.trim();
    match request.split_once(" times ") {
        Some((count, request)) => Ok(Line {
            times: count.parse().context("a count")?,
            request,
            wanted,
        }),
        None => Ok(Line {
            times: 1,
            request,
            wanted,
        }),
    }
}

/// The frame at the front of a stream or of replies, and what follows it.
pub(crate) fn cut(replies: &[u8]) -> Option<(&[u8], &[u8])> {
    if replies.len() < 4 {
        return None;
    }
    let size = (u32_at(replies, 0) as usize).checked_add(4)?;
    replies.split_at_checked(size)
}

impl<'a> Session<'a> {
    /// The session of a part of the table.
    pub(crate) fn read(alloc: Global, part: &'a str) -> Result<Session<'a>> {
        let (head, rest) = part.split_once('\n').unwrap_or((part, ""));
        let (name, columns) = column(head);
        let (words, columns) = column(columns);
        let (status, fault) = column(columns);
        let mut lines = Vec::new(alloc);
        for line in rest.lines() {
            lines.push(line_of(line).context(line)?)?;
        }
        Ok(Session {
            name,
            words,
            status: status.parse().context("a status")?,
            fault: fault.trim(),
            lines,
        })
    }

    /// The stream of its requests.
    fn stream(&self, rt: &HostRuntime) -> Result<Bytes> {
        let mut stream = Bytes::new(rt.alloc());
        for line in self.lines.iter() {
            let frame = stream_of(rt, line.request).context(line.request)?;
            for _ in 0..line.times {
                stream.push_slice(frame.as_slice())?;
            }
        }
        Ok(stream)
    }

    /// What is wrong with the replies, if anything.
    fn fault_in(&self, rt: &HostRuntime, replies: &[u8]) -> Result<Option<String>> {
        let alloc = rt.alloc();
        let mut rest = replies;
        for line in self.lines.iter() {
            if line.wanted.is_empty() {
                continue;
            }
            for _ in 0..line.times {
                let Some((frame, behind)) = cut(rest) else {
                    return Ok(Some(format!(in alloc; "{}: no reply", line.request)?));
                };
                if let Some(got) = fault_of(rt, frame, line.wanted).context(line.request)? {
                    return Ok(Some(format!(in alloc; "{}: got {got}", line.request)?));
                }
                rest = behind;
            }
        }
        if rest.is_empty() {
            return Ok(None);
        }
        Ok(Some(format!(in alloc; "{} bytes more", rest.len())?))
    }

    /// What is wrong with a run over the whole stream, if anything.
    fn fault_by(&self, rt: &HostRuntime, stream: &[u8], way: Way) -> Result<Option<String>> {
        let alloc = rt.alloc();
        let outcome = outcome_of(alloc, self.words, stream, way)?;
        if outcome.status != self.status {
            return Ok(Some(format!(in alloc; "status {}", outcome.status)?));
        }
        self.fault_in(rt, outcome.sink.bytes())
    }

    /// What is wrong with runs in small pieces, if anything.
    fn fault_in_pieces(&self, rt: &HostRuntime, stream: &[u8]) -> Result<Option<String>> {
        let mut way = Way::with(self.fault)?;
        for step in [1, 7, 4_096] {
            way.read_step = step;
            if let Some(text) = self.fault_by(rt, stream, way)? {
                return Ok(Some(text));
            }
        }
        Ok(None)
    }

    /// What is wrong with a workload, if anything: its output is the lines that are wanted.
    fn workload_fault(&self, alloc: Global) -> Result<Option<String>> {
        let outcome = workload_of(alloc, self.words, self.fault)?;
        let mut wanted = Bytes::new(alloc);
        for line in self.lines.iter() {
            wanted.push_slice(line.wanted.as_bytes())?;
            wanted.push_slice(b"\n")?;
        }
        if outcome.status == self.status && outcome.sink.bytes() == wanted.as_slice() {
            return Ok(None);
        }
        let got = str::from_utf8(outcome.sink.bytes()).context("a line")?;
        Ok(Some(format!(in alloc; "status {}, got {}", outcome.status, got.trim_end())?))
    }

    /// What is wrong with the session, if anything.
    pub(crate) fn fault(&self, rt: &HostRuntime) -> Result<Option<String>> {
        if self.words.starts_with("workload") {
            return self.workload_fault(rt.alloc());
        }
        let stream = self.stream(rt)?;
        let stream = stream.as_slice();
        if let Some(text) = self.fault_by(rt, stream, Way::with(self.fault)?)? {
            return Ok(Some(text));
        }
        if stream.len() > SHORT {
            return Ok(None);
        }
        if let Some(text) = self.fault_in_pieces(rt, stream)? {
            return Ok(Some(text));
        }
        if self.status == 0 && self.fault.is_empty() && stream.len() <= BRIEF {
            return fault_of_parts(rt.alloc(), self.words, stream);
        }
        Ok(None)
    }
}
