//! A case, and its run.

ghost use Rattle.std.specs.Prelude.{◌≡◌, ◌<◌, false, All, IfOk};

use crate::flags::Flags;
use crate::worker::{MemorySlot, slot_of};
use anyhow::{Context, Result};
use omos_base::Row;
use omos_outside::MemorySink;
use seeded_hash::Seed;
use session_calls::omosd_socket;
use std::alloc::Global;
use std::fs;
use std::rt::Files;
use std::sync::Wait;
use std::thread::Threads;

/// The text of a case: its name, the words of the command, the status, how many bytes of the totals
/// are taken, their line, and a part for each worker.
#[derive(Drop)]
pub(crate) struct Case<'a> {
    name: &'a str,
    words: &'a str,
    status: u8,
    room: u32,
    totals: &'a str,
    workers: &'a str,
}

impl<'a> Case<'a> {
    /// The case of a text whose first lines are `NAME`, `WORDS` and `STATUS ROOM TOTALS`, followed
    /// by the workers.
    pub(crate) fn of(text: &'a str) -> Result<Case<'a>> {
        let (name, rest) = text.split_once('\n').context("a name")?;
        let (words, rest) = rest.split_once('\n').context("the words")?;
        let (end, workers) = rest.split_once('\n').context("the totals")?;
        let (status, end) = end.split_once(' ').context("a status")?;
        let (room, totals) = end.split_once(' ').context("the room")?;
        Ok(Case {
            name,
            words,
            status: status.parse()?,
            room: room.parse()?,
            totals,
            workers: workers.strip_prefix("worker ").context("a worker")?,
        })
    }
}

/// The words as owned strings.
pub(crate) fn words_of(alloc: Global, text: &str) -> Result<Vec<String>> {
    let mut words = Vec::new(alloc);
    for word in text.split(' ') {
        words.push(String::from_str(alloc, word)?)?;
    }
    Ok(words)
}

/// The slots of all workers.
fn slots_of<R: Files + Alloc<A = Global>>(
    rt: &R,
    alloc: Global,
    flags: &Flags,
    workers: &str,
) -> Result<Vec<MemorySlot>>
    ensures { IfOk result (λ slots. All (λ slot. (slot.door.is_shut ≡ false)
        × (slot.door.links ≡ 0) × (slot.door.faults ≡ 0) × (slot.gate.crossings ≡ 0))
        slots.items) }
{
    let mut slots = Vec::new(alloc);
    'workers: for text in workers.split("\nworker ") {
        slots.push(slot_of(rt, alloc, flags, text)?)?;
    }
    Ok(slots)
}

/// Prints whether something of a case is as it is wanted.
pub(crate) fn report<R: Print>(rt: &R, case: &str, what: &str, holds: bool) -> Result<()> {
    let word = if holds { "ok" } else { "WRONG" };
    println!(rt; "{word} {case}: {what}")?;
    Ok(())
}

/// Compares what the sessions of a worker were sent with the files NAME.out of its rows.
fn compare_worker<R: Files + Alloc<A = Global> + Print>(
    rt: &R,
    alloc: Global,
    case: &Case<'_>,
    slot: &MemorySlot,
    text: &str,
) -> Result<()> {
    let (_, rows) = text.split_once('\n').context("the rows of a worker")?;
    let sinks = slot.door().sinks();
    for (place, row) in rows.lines().enumerate() {
        let name = row.split(' ').next().context("a name")?;
        let wanted = fs::read(rt, format!(in alloc; "{name}.out")?.as_str()).context(name)?;
        let sent = sinks
            .get(place)
            .is_some_and(|sink| sink.bytes() == wanted.as_slice());
        report(rt, case.name, name, sent)?;
    }
    if slot.gate().gave_up() {
        report(rt, case.name, "a gate waited in vain", false)?;
    }
    Ok(())
}

/// Runs a case, and prints a line for each of its sessions and one for the totals.
pub(crate) fn run_case<R: Threads + Wait + Sync + Files + Alloc<A = Global> + Print>(
    rt: &R,
    alloc: Global,
    case: &Case<'_>,
) -> Result<()> {
    let flags = Flags::new(alloc)?;
    let mut slots = slots_of(rt, alloc, &flags, case.workers)?;
    let words = words_of(alloc, case.words)?;
    let mut sink = MemorySink::new(alloc, case.room, 4096, Row::new(alloc))?;
    let status = omosd_socket(rt, alloc, Seed::known(0), &words, &mut slots, &mut sink);
    for (slot, text) in slots.iter().zip(case.workers.split("\nworker ")) {
        compare_worker(rt, alloc, case, slot, text)?;
    }
    let line = format!(in alloc; "{}\n", case.totals)?;
    let wanted = line.as_bytes().iter().take(case.room as usize);
    report(rt, case.name, "status", status == case.status)?;
    report(rt, case.name, "totals", sink.bytes().iter().eq(wanted))
}
