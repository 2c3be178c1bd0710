//! A pass of a store that several sessions share.

ghost use Rattle.std.specs.Prelude.{◌≡◌, ◌+◌, ◌^◌, ◌≤◌, ◌<◌, ◌∷◌, [], false, Some, length};
ghost use Rattle.history_book.specs.Legal.{IsLegal};
ghost use Rattle.omos_hub.specs.Standing.{CanTurn, seen_by};
ghost use Rattle.omos_outside.specs.Faults.{Rose};
ghost use Rattle.omos_session.specs.Session.{IsSession};

use crate::desk::{Desk, Publishing};
use crate::session::{SessionEnd, serve};
use history_book::Step;
use hub_store::{
    AskReply, FlushReply, Noted, Outcome, PlaceReply, PlacesReply, StatsReply, Ticket,
};
use link_model::Planned;
use omos_base::{PathName, Shared};
use omos_hub::{Hub, Pass};
use omos_model::Entry;
use omos_outside::{Gate, Sink, Source};
use std::alloc::Global;
use std::sync::Wait;

/// A hub, a pass of it, and the gate that its links go through.
#[derive(Drop)]
struct Line<'a, R: Wait, G> {
    rt: &'a R,
    hub: &'a Hub,
    pass: &'a mut Pass<Step>,
    gate: &'a mut G,
}

impl<'a, R: Wait, G: Gate> Desk for Line<'a, R, G> {
    ghost standing = { λ s. seen_by s.hub.now (Some (G.crossings s.gate.now)) s.pass.now };

    ghost lenders = { λ s. s.pass.ghost_name ∷ s.gate.ghost_name ∷ [] };

    ghost alone = { false };

    fn publish(&mut self, path: &PathName, entry: Shared<Entry>, size: u32) -> Publishing {
        self.hub.put(self.rt, self.pass, path, entry, size)
    }

    fn missed(&mut self) -> Noted {
        self.hub.missed(self.rt, self.pass)
    }

    fn ask(&mut self, path: &PathName) -> AskReply {
        self.hub.ask(self.rt, self.pass, path)
    }

    fn cross(&mut self, number: u64) {
        self.gate.cross(number);
    }

    fn place(&mut self, ticket: &Ticket, planned: &Planned) -> PlaceReply {
        self.hub.place(self.rt, self.pass, ticket, planned)
    }

    fn finish(&mut self, ticket: Ticket, outcome: Outcome) {
        self.hub.finish(self.rt, self.pass, ticket, outcome);
    }

    fn flush(&mut self, path: &PathName) -> FlushReply {
        self.hub.flush(self.rt, self.pass, path)
    }

    fn places(&mut self, path: &PathName) -> PlacesReply {
        self.hub.places(self.rt, self.pass, path)
    }

    fn stats(&mut self) -> StatsReply {
        self.hub.stats(self.rt, self.pass)
    }
}

/// The loop over a pass, and what it leaves of the pass and of the gate.
fn serve_line<R: Wait, S: Source, K: Sink, G: Gate>(
    alloc: Global,
    desk: &mut Line<'_, R, G>,
    source: &mut S,
    sink: &mut K,
) -> SessionEnd
    requires turns { CanTurn (2 ^ 18)
        (seen_by desk.old.hub.now (Some (G.crossings desk.old.gate.now)) desk.old.pass.now) }
    requires gate { G.crossings desk.old.gate.now + 2 ^ 16 ≤ 2 ^ 63 }
    ensures session { IsSession false
        (seen_by desk.old.hub.now (Some (G.crossings desk.old.gate.now)) desk.old.pass.now)
        (seen_by desk.new.hub.now (Some (G.crossings desk.new.gate.now)) desk.new.pass.now)
        (S.told source.old) (S.told source.new) (K.held sink.old) (K.held sink.new) result }
    ensures lenders { desk.new.pass.ghost_name ∷ desk.new.gate.ghost_name ∷ []
        ≡ desk.old.pass.ghost_name ∷ desk.old.gate.ghost_name ∷ [] }
    ensures kept { desk.new.pass.now
        ≡ record desk.old.pass.now {
          seen = desk.new.pass.now.seen;
          turns = desk.new.pass.now.turns;
        } }
    ensures turned { length desk.new.pass.now.turns ≤ length desk.old.pass.now.turns + 2 ^ 18 }
    ensures crossed { G.crossings desk.new.gate.now ≤ G.crossings desk.old.gate.now + 2 ^ 16 }
    ensures source_later { S.faults source.old ≤ S.faults source.new }
    ensures sink_later { K.faults sink.old ≤ K.faults sink.new }
    ensures read_fault { result ≡ SessionEnd.ReadFault
        → Rose (S.faults source.old) (S.faults source.new) }
    ensures write_fault { result ≡ SessionEnd.WriteFault
        → Rose (K.faults sink.old) (K.faults sink.new) }
{
    serve(alloc, desk, source, sink)
}

/// Serves a pass of a hub, from a source to a sink. No link is evaluated while the pass holds a
/// turn.
pub fn serve_shared<R: Wait, S: Source, K: Sink, G: Gate>(
    rt: &R,
    alloc: Global,
    hub: &Hub,
    pass: &mut Pass<Step>,
    source: &mut S,
    sink: &mut K,
    gate: &mut G,
) -> SessionEnd
    requires lock { pass.old.lock ≡ hub.now }
    requires idle { pass.old.holds_turn ≡ false }
    requires seat { 0 < pass.old.number }
    requires turns { length pass.old.turns + 2 ^ 18 ≤ 2 ^ 40 }
    requires gate { G.crossings gate.old + 2 ^ 16 ≤ 2 ^ 63 }
    requires room { pass.old.second ≤ 65536 }
    requires legal { IsLegal pass.old.first pass.old.second pass.old.seen }
    ensures session { IsSession false
        (seen_by hub.now (Some (G.crossings gate.old)) pass.old)
        (seen_by hub.now (Some (G.crossings gate.new)) pass.new)
        (S.told source.old) (S.told source.new) (K.held sink.old) (K.held sink.new) result }
    ensures idle { pass.new.holds_turn ≡ false }
    ensures kept { pass.new ≡ record pass.old { seen = pass.new.seen; turns = pass.new.turns } }
    ensures turned { length pass.new.turns ≤ length pass.old.turns + 2 ^ 18 }
    ensures crossed { G.crossings gate.new ≤ G.crossings gate.old + 2 ^ 16 }
    ensures source_later { S.faults source.old ≤ S.faults source.new }
    ensures sink_later { K.faults sink.old ≤ K.faults sink.new }
    ensures read_fault { result ≡ SessionEnd.ReadFault
        → Rose (S.faults source.old) (S.faults source.new) }
    ensures write_fault { result ≡ SessionEnd.WriteFault
        → Rose (K.faults sink.old) (K.faults sink.new) }
{
    let mut desk = Line {
        rt,
        hub,
        pass,
        gate,
    };
    serve_line(alloc, &mut desk, source, sink)
}
