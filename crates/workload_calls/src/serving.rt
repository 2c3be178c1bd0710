//! The session of a workload, over a source and a sink in memory.

ghost use Rattle.std.specs.Prelude.{◌≡◌, ◌≤◌, ◌<◌, IfOk, List, []};
ghost use Rattle.std.specs.List.{AllByRecursion};
ghost use Rattle.hub_store.specs.Parts.{store_of};
ghost use Rattle.omos_wire.specs.Answer.{Answer};
ghost use Rattle.workload_calls.specs.Replies.{HasFigures, replies_bytes};
ghost use Rattle.workload_calls.specs.Stream.{stream_bytes, workload};
ghost use Rattle.workload_calls.specs.Workload.{HasTalked, cache, room, IsServedWorkload};
ghost use Rattle.workload_calls.specs.Lines.{TellsFigures};
ghost use Rattle.omos_wire.specs.Message.{HasFrame};

use crate::frames::stream;
use crate::line::line_of;
use crate::replies::sums_of;
use hub_store::Store;
use omos_base::{Bytes, Limits, NoMemory, Row};
use omos_outside::{MemorySink, MemorySource};
use omos_session::{SessionEnd, serve_owned};
use seeded_hash::Seed;
use std::alloc::Global;

/// How many images the cache holds.
const CACHE: u32 = 64;

/// How many steps the record holds.
const STEPS: u32 = 4_096;

/// How many bytes the replies may have. Those of 200 objects have 3.3 million.
const ROOM: u32 = 4_194_304;

/// What a workload leaves.
#[derive(Drop)]
pub(crate) struct Work {
    /// The store that it was served on.
    pub(crate) store: Store,
    /// The line that says what its replies come to.
    pub(crate) line: Bytes,
}

/// An empty store of the limits that a workload has.
fn open_store(alloc: Global) -> Result<Store, NoMemory>
    ensures { IfOk result (λ store. store ≡ store_of [] cache room) }
{
    let Some(limits) = Limits::of(CACHE, STEPS) else {
        unreachable!()
    };
    // The objects are the workload's own, so no stranger chooses their names.
    Store::open(alloc, Seed::known(0), limits)
}

/// Serves the frames of workload `n` as seat 1. The error is want of memory, for a buffer or for
/// the replies: whole frames up to an end leave no other.
fn talk(alloc: Global, store: &mut Store, n: u32, frames: Bytes) -> Result<MemorySink, NoMemory>
    requires empty { store.old ≡ store_of [] cache room }
    requires stream { frames ≡ stream_bytes n }
    requires fits { AllByRecursion HasFrame (workload n) }
    ensures { IfOk result (λ sink. HasTalked n store.new sink.held) }
{
    let mut source = MemorySource::new(frames, u32::MAX, Row::new(alloc));
    let mut sink = MemorySink::new(alloc, ROOM, u32::MAX, Row::new(alloc))?;
    match serve_owned(alloc, store, 1, &mut source, &mut sink) {
        SessionEnd::Ended => Ok(sink),
        _ => Err(NoMemory),
    }
}

/// The line of replies whose frames are these bytes. The error is want of memory, here or in a
/// reply. It also stands for replies without counts, which come only where the record is full, and
/// for 4 GiB of them, for which there is no room.
fn told(alloc: Global, n: u32, written: &[u8]) -> Result<Bytes, NoMemory>
    ensures { IfOk result (λ line. (answers : List Answer) → written.now ≡ replies_bytes answers
        → AllByRecursion HasFigures answers → TellsFigures n answers line) }
{
    if written.len() > ROOM as usize {
        return Err(NoMemory);
    }
    let sums = sums_of(written);
    match sums.figures {
        Some(figures) if !sums.lacked => line_of(alloc, n, &sums, &figures),
        _ => Err(NoMemory),
    }
}

/// Serves workload `n` as seat 1 on a store of its own.
pub(crate) fn serve_workload(alloc: Global, n: u32) -> Result<Work, NoMemory>
    requires some { 1 ≤ n }
    requires few { n ≤ 200 }
    ensures { IfOk result (λ work. IsServedWorkload n work.store work.line) }
{
    let mut store = open_store(alloc)?;
    let frames = stream(alloc, n)?;
    let sink = talk(alloc, &mut store, n, frames)?;
    let line = told(alloc, n, sink.bytes())?;
    let _ = store.record_len();
    Ok(Work { store, line })
}
