//! A worker over a slot.

ghost use Rattle.std.specs.Prelude.{◌≡◌, ◌+◌, ◌^◌, ◌<◌, ◌≤◌, false, length, IfSome};
ghost use Rattle.omos_outside.specs.Links.{GivenBack, HasOut, IsFresh, after_done};
ghost use Rattle.history_book.specs.Legal.{IsLegal};
ghost use Rattle.omosd_slots.specs.Visits.{HasVisit};

use crate::slot::Slot;
use history_book::Step;
use omos_hub::Hub;
use omos_outside::{Came, Door, Gate, Sink, Source};
use omos_session::serve_shared;
use std::alloc::Global;
use std::marker::Model;
use std::sync::Wait;
use turn_lock::Pass;
use worker_line::{Next, Worker};

/// Accepts links at its door, and serves each with its pass.
#[derive(Drop)]
pub struct SlotWorker<'a, R: Wait, D: Door + Drop, G: Gate + Drop> {
    pub(crate) rt: &'a R,
    pub(crate) alloc: Global,
    pub(crate) pass: Pass<Step>,
    pub(crate) slot: Slot<D, G>,
    pub(crate) tally: Tally,
}

/// How often a worker was called, how many links it served, whether it has stopped, and whether
/// since its door failed.
#[derive(Drop)]
pub(crate) struct Tally {
    calls: u32,
    links: u32,
    stopped: bool,
    failed: bool,
}

impl<'a, R: Wait, D: Door + Drop, G: Gate + Drop> Model for SlotWorker<'a, R, D, G> {
    ghost use Rattle.omos_model.specs.contracts.expr.Expr as expr;
    ghost use Rattle.std.specs.Coded.{codes};
    ghost use Rattle.omosd_slots.specs.Fits.{WorkerState};

    ghost Value = { WorkerState };

    ghost coded = { Prim.hlevel (codes, expr.the_row.coded) };

    ghost view = { λ w. record {
      pass = w.pass;
      door = D.state w.slot.door;
      crossed = G.crossings w.slot.gate;
      calls = w.tally.calls;
      links = w.tally.links;
      stopped = w.tally.stopped;
      failed = w.tally.failed;
    } };
}

impl<'a, R: Wait, D: Door + Drop, G: Gate + Drop> SlotWorker<'a, R, D, G> {
    ghost use Rattle.omosd_slots.specs.Slots.{new_worker};

    /// The slot's worker, which wasn't called yet.
    pub fn start(
        rt: &'a R,
        alloc: Global,
        slot: Slot<D, G>,
        pass: Pass<Step>,
    ) -> SlotWorker<'a, R, D, G>
        ensures { result ≡ new_worker pass (D.state slot.door) (G.crossings slot.gate) }
    {
        SlotWorker {
            rt,
            alloc,
            pass,
            slot,
            tally: Tally {
                calls: 0,
                links: 0,
                stopped: false,
                failed: false,
            },
        }
    }

    /// The slot and the pass, how many links were served, and whether the door failed.
    pub fn take_apart(self) -> (Slot<D, G>, Pass<Step>, u32, bool)
        ensures slot { (D.state result.0.door ≡ self.entry.door)
            × (G.crossings result.0.gate ≡ self.entry.crossed) }
        ensures pass { result.1 ≡ self.entry.pass }
        ensures links { result.2 ≡ self.entry.links }
        ensures failed { result.3 ≡ self.entry.failed }
    {
        let SlotWorker {
            rt: _,
            alloc: _,
            pass,
            slot,
            tally,
        } = self;
        (slot, pass, tally.links, tally.failed)
    }
}

impl<'a, R: Wait, D: Door + Drop, G: Gate + Drop> Worker<Hub> for SlotWorker<'a, R, D, G> {
    ghost use Rattle.omosd_slots.specs.Fits.{FitsHub, kept_of};

    ghost calls = { λ w. w.calls };

    ghost marked = { λ w. w.stopped };

    ghost kept = { kept_of };

    ghost fits = { FitsHub };

    fn serve(&mut self, shared: &Hub, session: u32) -> Next {
        let _ = session;
        self.tally.calls += 1;
        match self.slot.door.accept() {
            Came::Link(source, sink) => {
                serve_link(
                    self.rt,
                    self.alloc,
                    shared,
                    &mut self.pass,
                    &mut self.slot.door,
                    &mut self.slot.gate,
                    source,
                    sink,
                );
                self.tally.links += 1;
                Next::More
            }
            Came::Shut => {
                self.tally.stopped = true;
                Next::Stop
            }
            Came::Failed => {
                self.tally.stopped = true;
                self.tally.failed = true;
                Next::Stop
            }
        }
    }
}

// Serves a link, and gives it back.
fn serve_link<R: Wait, D: Door, G: Gate>(
    rt: &R,
    alloc: Global,
    hub: &Hub,
    pass: &mut Pass<Step>,
    door: &mut D,
    gate: &mut G,
    source: D::In,
    sink: D::Out,
)
    requires hub { pass.old.lock ≡ hub.now }
    requires idle { pass.old.holds_turn ≡ false }
    requires number { 0 < pass.old.number }
    requires room { pass.old.second ≤ 65536 }
    requires turns { length pass.old.turns + 262144 ≤ 2 ^ 40 }
    requires legal { IsLegal pass.old.first pass.old.second pass.old.seen }
    requires gate { G.crossings gate.old + 65536 ≤ 2 ^ 63 }
    requires out { HasOut 1 (D.state door.old) }
    requires fresh { IsFresh (D.state door.old).back (D.In.told source) (D.Out.held sink)
        (D.In.faults source) (D.Out.faults sink) }
    ensures pass { pass.new
        ≡ record pass.old { seen = pass.new.seen; turns = pass.new.turns } }
    ensures legal { IsLegal pass.old.first pass.old.second pass.new.seen }
    ensures turns { length pass.new.turns ≤ length pass.old.turns + 262144 }
    ensures gate { G.crossings gate.new ≤ G.crossings gate.old + 65536 }
    ensures link { (link : GivenBack) × (D.state door.new ≡ after_done link (D.state door.old))
        × IfSome (D.state door.old).back (λ _. HasVisit pass.old pass.new link) }
{
    let mut source = source;
    let mut sink = sink;
    serve_shared(rt, alloc, hub, pass, &mut source, &mut sink, gate);
    door.done(source, sink);
}
