//! The store as the lock's value.

ghost use Rattle.std.specs.Prelude.{◌≡◌, ◌<◌, ◌≤◌, [], false, IfOk};
ghost use Rattle.history_book.specs.Steps.{seat_of};
ghost use Rattle.history_book.specs.Told.{is_placed};
ghost use Rattle.history_book.specs.Legal.{IsLegal};
ghost use Rattle.turn_lock.specs.Steps.{steps_by};
ghost use Rattle.hub_store.specs.Links.{AskGives, FinishGives, MayFinish, PlaceGives};
ghost use Rattle.hub_store.specs.Parts.{IsTicket};
ghost use Rattle.hub_store.specs.Requests.{FlushGives, MissedGives, PlacesGives, StatsGives};
ghost use Rattle.omos_hub.specs.Calls.{PublishGives, PlansTicket};
ghost use Rattle.omos_hub.specs.Passes.{Turned};

use crate::publishing::Publishing;
use history_book::Step;
use hub_store::{
    AskReply, FlushReply, Noted, Outcome, PlaceReply, PlacesReply, PutReply, StatsReply, Store,
    Ticket,
};
use link_model::Planned;
use omos_base::{Limits, NoMemory, PathName, Shared};
use omos_model::Entry;
use seeded_hash::Seed;
use std::alloc::Global;
use std::marker::Model;
use turn_lock::Told;

/// A store in whose record no step has the seat 0, so that all its steps are those of passes that
/// take turns.
///
/// It stands on the heap, so that a turn moves a pointer in and out of the lock and not the store.
#[derive(Drop)]
pub struct Held {
    store: Box<Store>,
}

impl Model for Held {
    ghost use Rattle.std.specs.Prelude.{◌≡◌, []};
    ghost use Rattle.omos_model.specs.contracts.expr.Expr as expr;
    ghost use Rattle.std.specs.Coded.{codes};
    ghost use Rattle.history_book.specs.Steps.{seat_of};
    ghost use Rattle.hub_store.specs.Parts.{StoreParts};
    ghost use Rattle.turn_lock.specs.Steps.{steps_by};

    ghost Value = { StoreParts };

    ghost coded = { Prim.hlevel (codes, expr.the_row.coded) };

    ghost view = { λ h. h.store.value };

    ghost invariant = { λ h. steps_by seat_of 0 h.store.value.steps ≡ [] };
}

impl Told for Held {
    ghost use Rattle.history_book.specs.Steps.{seat_of as seat_in};

    type Step = Step;

    ghost steps = { λ h. h.steps };

    ghost seat_of = { λ s. seat_in s };

    ghost first = { λ h. h.limits.cache };

    ghost second = { λ h. h.limits.steps };
}

impl Held {
    pub(crate) fn open(alloc: Global, seed: Seed, limits: Limits) -> Result<Held, NoMemory>
        ensures { IfOk result (λ h. h ≡ record { steps = []; limits = limits }) }
    {
        Ok(Held {
            store: Box::new(alloc, Store::open(alloc, seed, limits)?)?,
        })
    }

    /// What the type keeps, for those who call it.
    pub(crate) fn known(&self)
        ensures legal { IsLegal self.now.limits.cache self.now.limits.steps self.now.steps }
        ensures none { steps_by seat_of 0 self.now.steps ≡ [] }
    {
        let _ = self.store.version();
    }

    pub(crate) fn into_store(self) -> Store
        ensures store { result ≡ self }
        ensures none { steps_by seat_of 0 self.steps ≡ [] }
    {
        let Held { store } = self;
        Box::into_inner(store)
    }

    pub(crate) fn missed(&mut self, seat: u32) -> Noted
        requires { 0 < seat }
        ensures told { MissedGives self.old seat result self.new }
        ensures turned { Turned seat self.old self.new }
        ensures legal { IsLegal self.new.limits.cache self.new.limits.steps self.new.steps }
    {
        let reply = self.store.missed(seat);
        let _ = self.store.version();
        reply
    }

    pub(crate) fn ask(&mut self, seat: u32, path: &PathName) -> AskReply
        requires { 0 < seat }
        ensures told { AskGives self.old seat path.now result self.new }
        ensures turned { Turned seat self.old self.new }
        ensures legal { IsLegal self.new.limits.cache self.new.limits.steps self.new.steps }
    {
        let reply = self.store.ask(seat, path);
        let _ = self.store.version();
        reply
    }

    pub(crate) fn flush(&mut self, seat: u32, path: &PathName) -> FlushReply
        requires { 0 < seat }
        ensures told { FlushGives self.old seat path.now result self.new }
        ensures turned { Turned seat self.old self.new }
        ensures legal { IsLegal self.new.limits.cache self.new.limits.steps self.new.steps }
    {
        let reply = self.store.flush(seat, path);
        let _ = self.store.version();
        reply
    }

    pub(crate) fn places(&mut self, seat: u32, path: &PathName) -> PlacesReply
        requires { 0 < seat }
        ensures told { PlacesGives self.old seat path.now result self.new }
        ensures turned { Turned seat self.old self.new }
        ensures legal { IsLegal self.new.limits.cache self.new.limits.steps self.new.steps }
    {
        let reply = self.store.places(seat, path);
        let _ = self.store.version();
        reply
    }

    pub(crate) fn stats(&mut self, seat: u32) -> StatsReply
        requires { 0 < seat }
        ensures told { StatsGives self.old seat result self.new }
        ensures turned { Turned seat self.old self.new }
        ensures legal { IsLegal self.new.limits.cache self.new.limits.steps self.new.steps }
    {
        let reply = self.store.stats(seat);
        let _ = self.store.version();
        reply
    }

    pub(crate) fn put(
        &mut self,
        seat: u32,
        path: &PathName,
        entry: Shared<Entry>,
        size: u32,
    ) -> Publishing
        requires seat { 0 < seat }
        requires size { size ≤ 1048576 }
        ensures told { PublishGives seat path.now entry size result self.old self.new }
        ensures turned { Turned seat self.old self.new }
        ensures legal { IsLegal self.new.limits.cache self.new.limits.steps self.new.steps }
    {
        let Ok(ready) = self.store.ready_put(path, entry, size) else {
            return match self.missed(seat) {
                Noted::Done => Publishing::NoMemory,
                Noted::Full => Publishing::Full,
            };
        };
        let reply = self.store.put(seat, ready);
        let _ = self.store.version();
        match reply {
            PutReply::Published(version) => return Publishing::Published(version),
            PutReply::KeptFull => return Publishing::KeptFull,
            PutReply::Full => return Publishing::Full,
        }
    }

    pub(crate) fn place(&mut self, ticket: &Ticket, planned: &Planned) -> PlaceReply
        requires seat { 0 < ticket.now.seat }
        requires ticket { IsTicket self.old.steps ticket.now }
        requires unplaced { is_placed self.old.steps ticket.now.number ≡ false }
        requires planned { PlansTicket ticket.now planned.now }
        ensures told { PlaceGives self.old ticket.now planned.now result self.new }
        ensures turned { Turned ticket.now.seat self.old self.new }
        ensures legal { IsLegal self.new.limits.cache self.new.limits.steps self.new.steps }
    {
        let reply = self.store.place(ticket, planned);
        let _ = self.store.version();
        reply
    }

    pub(crate) fn finish(&mut self, ticket: Ticket, outcome: Outcome)
        requires seat { 0 < ticket.seat }
        requires ticket { IsTicket self.old.steps ticket }
        requires outcome { MayFinish self.old.steps ticket outcome }
        ensures told { FinishGives self.old ticket outcome self.new }
        ensures turned { Turned ticket.seat self.old self.new }
        ensures legal { IsLegal self.new.limits.cache self.new.limits.steps self.new.steps }
    {
        self.store.finish(ticket, outcome);
        let _ = self.store.version();
    }
}
