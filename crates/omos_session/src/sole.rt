//! A store that one session has for itself.

ghost use Rattle.std.specs.Prelude.{◌≡◌, ◌≢◌, ◌≤◌, ◌∷◌, [], true};
ghost use Rattle.omos_outside.specs.Faults.{Rose};
ghost use Rattle.omos_session.specs.Session.{IsSession};
ghost use Rattle.omos_hub.specs.Standing.{standing_of};

use crate::desk::{Desk, Publishing};
use crate::session::{SessionEnd, serve};
use hub_store::{
    AskReply, FlushReply, Noted, Outcome, PlaceReply, PlacesReply, PutReply, StatsReply, Store,
    Ticket,
};
use link_model::Planned;
use omos_base::{PathName, Shared};
use omos_model::Entry;
use omos_outside::{Sink, Source};
use std::alloc::Global;

/// A store, and whose it is.
#[derive(Drop)]
struct Sole<'a> {
    store: &'a mut Store,
    seat: u32,
}

impl<'a> Desk for Sole<'a> {
    ghost standing = { λ s. standing_of s.store.now s.seat };

    ghost lenders = { λ s. s.store.ghost_name ∷ [] };

    ghost alone = { true };

    fn publish(&mut self, path: &PathName, entry: Shared<Entry>, size: u32) -> Publishing {
        let reply = match self.store.ready_put(path, entry, size) {
            Ok(ready) => match self.store.put(self.seat, ready) {
                PutReply::Published(version) => Publishing::Published(version),
                PutReply::KeptFull => Publishing::KeptFull,
                PutReply::Full => Publishing::Full,
            },
            Err(_) => match self.store.missed(self.seat) {
                Noted::Done => Publishing::NoMemory,
                Noted::Full => Publishing::Full,
            },
        };
        let _ = self.store.version();
        reply
    }

    fn missed(&mut self) -> Noted {
        let reply = self.store.missed(self.seat);
        let _ = self.store.version();
        reply
    }

    fn ask(&mut self, path: &PathName) -> AskReply {
        let reply = self.store.ask(self.seat, path);
        let _ = self.store.version();
        reply
    }

    fn cross(&mut self, number: u64) {
        let _ = number;
    }

    fn place(&mut self, ticket: &Ticket, planned: &Planned) -> PlaceReply {
        let reply = self.store.place(ticket, planned);
        let _ = self.store.version();
        reply
    }

    fn finish(&mut self, ticket: Ticket, outcome: Outcome) {
        self.store.finish(ticket, outcome);
        let _ = self.store.version();
    }

    fn flush(&mut self, path: &PathName) -> FlushReply {
        let reply = self.store.flush(self.seat, path);
        let _ = self.store.version();
        reply
    }

    fn places(&mut self, path: &PathName) -> PlacesReply {
        let reply = self.store.places(self.seat, path);
        let _ = self.store.version();
        reply
    }

    fn stats(&mut self) -> StatsReply {
        let reply = self.store.stats(self.seat);
        let _ = self.store.version();
        reply
    }
}

/// Serves a seat on a store that nobody shares, from a source to a sink. It waits for nobody.
pub fn serve_owned<S: Source, K: Sink>(
    alloc: Global,
    store: &mut Store,
    seat: u32,
    source: &mut S,
    sink: &mut K,
) -> SessionEnd
    requires seat { seat ≢ 0 }
    ensures session { IsSession true (standing_of store.old seat) (standing_of store.new seat)
        (S.told source.old) (S.told source.new) (K.held sink.old) (K.held sink.new) result }
    ensures source_later { S.faults source.old ≤ S.faults source.new }
    ensures sink_later { K.faults sink.old ≤ K.faults sink.new }
    ensures read_fault { result ≡ SessionEnd.ReadFault
        → Rose (S.faults source.old) (S.faults source.new) }
    ensures write_fault { result ≡ SessionEnd.WriteFault
        → Rose (K.faults sink.old) (K.faults sink.new) }
{
    let _ = store.version();
    let mut desk = Sole { store, seat };
    serve(alloc, &mut desk, source, sink)
}
