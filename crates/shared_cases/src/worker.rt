//! A worker of a case: its door, its gate and the sessions that come at the door.

ghost use Rattle.std.specs.Prelude.{◌≡◌, false, IfOk};
ghost use Rattle.std.specs.List.{AllByRecursion};
ghost use Rattle.omos_outside.specs.ScriptedDoor.{IsFreshPair};

use crate::flags::Flags;
use anyhow::{Context, Result, bail};
use omos_base::{Bytes, Row};
use omos_outside::{HoldGate, MemoryDoor, MemorySink, MemorySource};
use session_calls::Slot;
use std::alloc::Global;
use std::fs;
use std::rt::Files;

/// How many bytes a session may be sent.
pub(crate) const ROOM: u32 = 6_000_000;

/// A slot in memory.
pub(crate) type MemorySlot = Slot<MemoryDoor, HoldGate>;

/// The two ends of a session's link, from a row `NAME STEP` or `NAME STEP FLAG AT`: frames come
/// from the file NAME.in, at most STEP bytes a read, and FLAG goes up once AT bytes were sent.
fn link_of<R: Files + Alloc<A = Global>>(
    rt: &R,
    alloc: Global,
    flags: &Flags,
    row: &str,
) -> Result<(MemorySource, MemorySink)>
    ensures { IfOk result IsFreshPair }
{
    let mut words = row.split(' ');
    let name = words.next().context("a name")?;
    let step: u32 = words.next().context("a step")?.parse()?;
    if step == 0 {
        bail!("a step is at least 1");
    }
    let frames = fs::read(rt, format!(in alloc; "{name}.in")?.as_str()).context(name)?;
    let source = MemorySource::new(Bytes::from_vec(frames), step, Row::new(alloc));
    let sink = MemorySink::new(alloc, ROOM, step, Row::new(alloc))?;
    match (words.next(), words.next()) {
        (Some(flag), Some(at)) => Ok((source, sink.raising(at.parse()?, flags.named(flag)?))),
        _ => Ok((source, sink)),
    }
}

/// The links of all rows.
fn links_of<R: Files + Alloc<A = Global>>(
    rt: &R,
    alloc: Global,
    flags: &Flags,
    rows: &str,
) -> Result<Row<(MemorySource, MemorySink)>>
    ensures { IfOk result (AllByRecursion IsFreshPair) }
{
    let mut links = Row::new(alloc);
    'rows: for row in rows.lines() {
        links.push(link_of(rt, alloc, flags, row)?)?;
    }
    Ok(links)
}

/// A worker's slot, from a line `FLAG FAILS REACHED UNTIL` and a row for each session: the door
/// waits for FLAG and fails when it is asked for the FAILS-th time, at 0 never; at its first
/// crossing the gate raises REACHED and waits for UNTIL.
pub(crate) fn slot_of<R: Files + Alloc<A = Global>>(
    rt: &R,
    alloc: Global,
    flags: &Flags,
    text: &str,
) -> Result<MemorySlot>
    ensures { IfOk result (λ slot. (slot.door.is_shut ≡ false) × (slot.door.links ≡ 0)
        × (slot.door.faults ≡ 0) × (slot.gate.crossings ≡ 0)) }
{
    let (head, rows) = text.split_once('\n').context("the rows of a worker")?;
    let mut words = head.split(' ');
    let after = flags.named(words.next().context("a door's flag")?)?;
    let mut fails = Row::new(alloc);
    fails.push(words.next().context("a number of a call")?.parse::<u32>()?)?;
    let reached = flags.named(words.next().context("a gate's first flag")?)?;
    let until = flags.named(words.next().context("a gate's second flag")?)?;
    let links = links_of(rt, alloc, flags, rows)?;
    let door = MemoryDoor::new(alloc, links, Some(after), fails)?;
    Ok(Slot::new(door, HoldGate::new(reached, until)))
}
