//! A run of all slots.

ghost use Rattle.std.specs.Prelude.{◌≡◌, ◌<◌, ◌≤◌, [], length, map, vec_capacity, All, IfOk, OnErr};
ghost use Rattle.worker_line.specs.Drawn.{IsNew};
ghost use Rattle.omos_hub.specs.Passes.{AreNew};
ghost use Rattle.omosd_slots.specs.Slots.{seated_from, slot_of, pass_of, draws_of};
ghost use Rattle.omosd_slots.specs.Slots.{links_of, failed_of, AreOpen, TellAll, Ran};
ghost use Rattle.omosd_slots.specs.Slots.{DrawsFrom, IsSeatTold, slot_states, slots_total};

use crate::moves::take_first;
use crate::slot::Slot;
use crate::worker::SlotWorker;
use history_book::Step;
use hub_store::Store;
use omos_base::{Limits, NoMemory};
use omos_hub::Hub;
use omos_outside::{Door, Gate};
use seeded_hash::Seed;
use std::alloc::Global;
use std::sync::Wait;
use std::thread::Threads;
use turn_lock::Pass;
use worker_line::{DrawSeat, Draws, Seated, run_workers};

/// What a run left: how many links were served, whether a door failed, and the closed store.
#[derive(Drop)]
pub struct Served {
    pub sessions: u64,
    pub failed: bool,
    pub store: Store,
}

/// Each slot's worker serves the links that come at its door, until all sessions are drawn or its
/// door gives no more. All memory but that of the sessions is taken before the first link. Tables
/// of names hash by the seed.
pub fn serve_slots<R: Threads + Wait + Sync, D: Door + Send + Drop, G: Gate + Send + Drop>(
    rt: &R,
    alloc: Global,
    seed: Seed,
    slots: &mut Vec<Slot<D, G>>,
    limits: Limits,
    sessions: u32,
) -> Result<Served, NoMemory>
where
    D::In: Send,
    D::Out: Send,
    requires slots { (1 ≤ length slots.old.items) × (length slots.old.items ≤ 16) }
    requires sessions { (1 ≤ sessions) × (sessions ≤ 1000000) }
    requires doors { AreOpen (slot_states D.state G.crossings slots.old.items) }
    ensures kept { OnErr result (slots.new.items ≡ slots.old.items) }
    ensures ran { IfOk result (λ r. Ran limits.cache limits.steps sessions
        (slot_states D.state G.crossings slots.old.items)
        (slot_states D.state G.crossings slots.new.items) r.sessions r.failed r.store) }
{
    // What the limits keep.
    let _steps = limits.steps();
    let workers = slots.len() as u32;
    let mut seated = Vec::with_capacity(alloc, slots.len())?;
    let (draws, mut seats) = Draws::new(alloc, sessions, workers)?;
    let (hub, mut passes) = Hub::open(alloc, seed, limits, workers)?;
    seat_all(
        rt,
        alloc,
        &hub,
        limits,
        &draws,
        slots,
        &mut passes,
        &mut seats,
        &mut seated,
    );
    run_workers(rt, &hub, &draws, &mut seated);
    let (sessions, failed) = unseat_all(&mut seated, slots, &mut passes, &mut seats);
    tell_all(&draws, seats, workers);
    let store = hub.close(passes);
    Ok(Served {
        sessions,
        failed: failed > 0,
        store,
    })
}

// Gives each slot a worker, with a pass and a seat.
fn seat_all<'a, R: Wait, D: Door + Drop, G: Gate + Drop>(
    rt: &'a R,
    alloc: Global,
    hub: &Hub,
    limits: Limits,
    draws: &Draws,
    slots: &mut Vec<Slot<D, G>>,
    passes: &mut Vec<Pass<Step>>,
    seats: &mut Vec<DrawSeat>,
    seated: &mut Vec<Seated<SlotWorker<'a, R, D, G>>>,
)
    requires passes { (length passes.old.items ≡ length slots.old.items)
        × AreNew hub.now limits.cache limits.steps passes.old.items }
    requires seats { (length seats.old.items ≡ length slots.old.items)
        × All (IsNew draws.now (length slots.old.items)) seats.old.items }
    requires seated { (seated.old.items ≡ [])
        × (length slots.old.items ≤ vec_capacity seated.old) }
    ensures seated { seated.new.items
        ≡ seated_from hub.now limits.cache limits.steps (length slots.old.items) draws.now 1
        (slot_states D.state G.crossings slots.old.items) }
    ensures slots { (slots.new.items ≡ []) × (vec_capacity slots.new ≡ vec_capacity slots.old) }
    ensures passes { (passes.new.items ≡ []) × (vec_capacity passes.new ≡ vec_capacity passes.old) }
    ensures seats { (seats.new.items ≡ []) × (vec_capacity seats.new ≡ vec_capacity seats.old) }
{
    'slots: while !slots.is_empty() {
        let slot = take_first(slots);
        let pass = take_first(passes);
        let seat = take_first(seats);
        let worker = SlotWorker::start(rt, alloc, slot, pass);
        seated.push(Seated { seat, worker }).unwrap();
    }
}

// Takes the workers apart, in order: how many links they served, and how many doors failed.
fn unseat_all<R: Wait, D: Door + Drop, G: Gate + Drop>(
    seated: &mut Vec<Seated<SlotWorker<'_, R, D, G>>>,
    slots: &mut Vec<Slot<D, G>>,
    passes: &mut Vec<Pass<Step>>,
    seats: &mut Vec<DrawSeat>,
) -> (u64, u64)
    requires few { length seated.old.items ≤ 16 }
    requires slots { (slots.old.items ≡ [])
        × (length seated.old.items ≤ vec_capacity slots.old) }
    requires passes { (passes.old.items ≡ [])
        × (length seated.old.items ≤ vec_capacity passes.old) }
    requires seats { (seats.old.items ≡ [])
        × (length seated.old.items ≤ vec_capacity seats.old) }
    ensures slots { slot_states D.state G.crossings slots.new.items ≡ map slot_of seated.old.items }
    ensures passes { passes.new.items ≡ map pass_of seated.old.items }
    ensures seats { seats.new.items ≡ map draws_of seated.old.items }
    ensures links { result.0 ≡ slots_total links_of seated.old.items }
    ensures failed { result.1 ≡ slots_total failed_of seated.old.items }
{
    let mut links = 0u64;
    let mut failed = 0u64;
    'seated: while !seated.is_empty() {
        let Seated { seat, worker } = take_first(seated);
        let (slot, pass, served, fault) = worker.take_apart();
        slots.push(slot).unwrap();
        passes.push(pass).unwrap();
        seats.push(seat).unwrap();
        links += u64::from(served);
        failed += u64::from(fault);
    }
    (links, failed)
}

// What all seats have drawn together.
fn tell_all(draws: &Draws, mut seats: Vec<DrawSeat>, workers: u32)
    requires some { 0 < length seats.items }
    requires each { All (DrawsFrom draws.now workers) seats.items }
    requires told { All IsSeatTold seats.items }
    ensures { TellAll draws.now workers seats.items }
{
    let mut all = take_first(&mut seats);
    'seats: while !seats.is_empty() {
        let seat = take_first(&mut seats);
        draws.join(&mut all, seat);
    }
}
