//! A session at a door of which each read, and then each write, fails in turn.

ghost use Rattle.std.specs.Prelude.{◌≡◌, false, All, IfOk};

use crate::case::{report, words_of};
use crate::flags::Flags;
use crate::worker::{MemorySlot, ROOM};
use anyhow::{Context, Result};
use omos_base::{Bytes, Row};
use omos_outside::{HoldGate, MemoryDoor, MemorySink, MemorySource};
use seeded_hash::Seed;
use session_calls::{Slot, omosd_socket};
use std::alloc::Global;
use std::fs;
use std::rt::Files;
use std::sync::Wait;
use std::thread::Threads;

/// The text of a case: its name, the words of the command, the session's files NAME.in and
/// NAME.out, and where each request and its reply end in them.
#[derive(Clone, Copy)]
pub(crate) struct Turns<'a> {
    name: &'a str,
    words: &'a str,
    file: &'a str,
    ends: &'a str,
}

impl<'a> Turns<'a> {
    /// The case of a text whose lines are `NAME`, `turns WORDS` and `FILE REQUEST:REPLY ..`; none
    /// where the second begins otherwise.
    pub(crate) fn of(text: &'a str) -> Result<Option<Turns<'a>>> {
        let (name, rest) = text.split_once('\n').context("a name")?;
        let Some(rest) = rest.strip_prefix("turns ") else {
            return Ok(None);
        };
        let (words, session) = rest.split_once('\n').context("a session")?;
        let (file, ends) = session.split_once(' ').context("its ends")?;
        Ok(Some(Turns {
            name,
            words,
            file,
            ends,
        }))
    }

    /// How many bytes a session is sent of whose requests so many bytes are read.
    fn sent_after(&self, bytes: usize) -> Result<usize> {
        let mut sent = 0;
        for end in self.ends.split(' ') {
            let (request, reply) = end.split_once(':').context(end)?;
            if request.parse::<usize>()? <= bytes {
                sent = reply.parse::<usize>()?;
            }
        }
        Ok(sent)
    }
}

/// A list of one number.
fn one(alloc: Global, number: u32) -> Result<Row<u32>> {
    let mut row = Row::new(alloc);
    row.push(number)?;
    Ok(row)
}

/// A slot at whose door one session comes, which gives and takes a byte a call, and of which the
/// read and the write of these numbers fail, from 1; at 0 none does.
fn slot_of(alloc: Global, frames: &[u8], read: u32, write: u32) -> Result<MemorySlot>
    ensures { IfOk result (λ slot. (slot.door.is_shut ≡ false) × (slot.door.links ≡ 0)
        × (slot.door.faults ≡ 0) × (slot.gate.crossings ≡ 0)) }
{
    let source = MemorySource::new(Bytes::from_slice(alloc, frames)?, 1, one(alloc, read)?);
    let sink = MemorySink::new(alloc, ROOM, 1, one(alloc, write)?)?;
    let mut links = Row::new(alloc);
    links.push((source, sink))?;
    let flags = Flags::new(alloc)?;
    let door = MemoryDoor::new(alloc, links, None, Row::new(alloc))?;
    Ok(Slot::new(door, HoldGate::new(flags.named("up")?, flags.named("up")?)))
}

/// The slots of a server with one such worker.
fn slots_of(alloc: Global, frames: &[u8], read: u32, write: u32) -> Result<Vec<MemorySlot>>
    ensures { IfOk result (λ slots. All (λ slot. (slot.door.is_shut ≡ false)
        × (slot.door.links ≡ 0) × (slot.door.faults ≡ 0) × (slot.gate.crossings ≡ 0))
        slots.items) }
{
    let mut slots = Vec::new(alloc);
    slots.push(slot_of(alloc, frames, read, write)?)?;
    Ok(slots)
}

/// Whether a session of which these calls fail is sent these bytes and no others, and the server
/// serves on.
fn is_sent<R: Threads + Wait + Sync>(
    rt: &R,
    alloc: Global,
    words: &[String],
    frames: &[u8],
    fails: (u32, u32),
    wanted: &[u8],
) -> Result<bool> {
    let mut slots = slots_of(alloc, frames, fails.0, fails.1)?;
    let mut sink = MemorySink::new(alloc, 4096, 4096, Row::new(alloc))?;
    let status = omosd_socket(rt, alloc, Seed::known(0), words, &mut slots, &mut sink);
    let sent = slots.iter().all(|slot| {
        slot.door()
            .sinks()
            .first()
            .is_some_and(|sink| sink.bytes() == wanted)
    });
    Ok(status == 0 && sent)
}

/// The call that comes behind so many of a byte each, counted from 1.
fn call_behind(bytes: usize) -> u32 {
    u32::try_from(bytes).unwrap_or(u32::MAX).saturating_add(1)
}

/// Runs a case: the session once for each read of it that fails, and once for each write. It prints
/// a line for the reads and one for the writes.
pub(crate) fn run_turns<R: Threads + Wait + Sync + Files + Alloc<A = Global> + Print>(
    rt: &R,
    alloc: Global,
    case: &Turns<'_>,
) -> Result<()> {
    let name = case.file;
    let frames = fs::read(rt, format!(in alloc; "{name}.in")?.as_str()).context(name)?;
    let replies = fs::read(rt, format!(in alloc; "{name}.out")?.as_str()).context(name)?;
    let words = words_of(alloc, case.words)?;
    let mut reads = true;
    for read in 0..frames.len() {
        let wanted = replies.get(..case.sent_after(read)?).context(case.ends)?;
        let fails = (call_behind(read), 0);
        reads = reads && is_sent(rt, alloc, &words, &frames, fails, wanted)?;
    }
    report(rt, case.name, "reads", reads)?;
    let mut writes = true;
    for write in 0..replies.len() {
        let wanted = replies.get(..write).unwrap_or_default();
        let fails = (0, call_behind(write));
        writes = writes && is_sent(rt, alloc, &words, &frames, fails, wanted)?;
    }
    report(rt, case.name, "writes", writes)
}
