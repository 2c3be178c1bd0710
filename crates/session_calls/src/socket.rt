//! Workers that serve the links which come at their doors, on one store.

ghost use Rattle.std.specs.Prelude.{◌≡◌, ◌↔◌, ◌⊎◌, IfSome, None, length, map, string_bytes};
ghost use Rattle.command_words.specs.Words.{AreWithin};
ghost use Rattle.omos_outside.specs.Faults.{Rose};
ghost use Rattle.omosd_slots.specs.Slots.{AreOpen, slot_states};
ghost use Rattle.session_calls.specs.Socket.{HasRun, status_by, socket_said};

use crate::totals::totals_line;
use command_words::{SocketWords, socket_words};
use omos_base::{Limits, NoMemory};
use omos_outside::{Door, Gate, Sent, Sink, write_all};
use omosd_slots::{Slot, serve_slots};
use seeded_hash::Seed;
use std::alloc::Global;
use std::sync::Wait;
use std::thread::Threads;

/// The status of a run: a door's failure counts before the sink's.
fn status_by(failed: bool, answer: Sent) -> u8
    ensures { result ≡ status_by failed answer }
{
    match answer {
        _ if failed => 9,
        Sent::All => 0,
        Sent::Failed => 4,
    }
}

/// What the words say of so many slots.
fn said_of(words: &[String], slots: usize) -> Option<SocketWords>
    ensures said { result ≡ socket_said (map string_bytes words.now) slots }
    ensures within { IfSome result (λ w. AreWithin w × (w.workers ≡ slots)) }
{
    let said = socket_words(words)?;
    if said.workers as usize == slots {
        Some(said)
    } else {
        None
    }
}

/// Each slot's worker accepts links at its door, one for each session that it draws, and serves
/// each with a pass of its own on one store; when all have stopped, the line of the totals is
/// written: `sessions N requests R version V placements L hits H stored T evicted E`.
///
/// The words are `socket PATH WORKERS SESSIONS CACHE STEPS`, with as many workers as there are
/// slots. The path is `main`'s: it makes the doors, and draws the seed by which tables of names
/// hash. The result is the status: 0 all is done; 2 the words are others; 4 the sink failed; 8
/// there was no memory, and then no door was asked; 9 a door failed. A session's own end changes no
/// status.
pub fn omosd_socket<
    R: Threads + Wait + Sync,
    D: Door + Send + Drop,
    G: Gate + Send + Drop,
    K: Sink,
>(
    rt: &R,
    alloc: Global,
    seed: Seed,
    words: &[String],
    slots: &mut Vec<Slot<D, G>>,
    sink: &mut K,
) -> u8
where
    D::In: Send,
    D::Out: Send,
    requires doors { AreOpen (slot_states D.state G.crossings slots.old.items) }

    // The words alone decide, and then no door is asked and nothing is written.
    ensures usage { (result ≡ 2)
        ↔ (socket_said (map string_bytes words.now) (length slots.old.items) ≡ None) }
    ensures idle { result ≡ 2 → (slots.new.items ≡ slots.old.items) × (sink.new ≡ sink.old) }

    // There was no memory, and the same holds.
    ensures no_memory { result ≡ 8 → (slots.new.items ≡ slots.old.items) × (sink.new ≡ sink.old) }

    // Else the workers ran, and the line says counts over the closed, legal record.
    ensures ran { (result ≡ 2) ⊎ (result ≡ 8)
        ⊎ HasRun result (socket_said (map string_bytes words.now) (length slots.old.items))
        (slot_states D.state G.crossings slots.old.items)
        (slot_states D.state G.crossings slots.new.items) (K.held sink.old) (K.held sink.new) }

    // The sink failed in this call.
    ensures sink_failed { result ≡ 4 → Rose (K.faults sink.old) (K.faults sink.new) }
{
    let Some(said) = said_of(words, slots.len()) else {
        return 2;
    };
    let Some(limits) = Limits::of(said.cache, said.steps) else {
        unreachable!()
    };
    match serve_slots(rt, alloc, seed, slots, limits, said.sessions) {
        Ok(run) => {
            let line = totals_line(run.sessions, &run.store.totals());
            status_by(run.failed, write_all(sink, line.as_slice()))
        }
        Err(NoMemory) => 8,
    }
}
