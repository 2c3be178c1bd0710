//! The hub: each call takes the lock's turn, makes one call of the store, and leaves the turn.

ghost use Rattle.std.specs.Prelude.{◌≡◌, ◌+◌, ◌-◌, ◌≤◌, length, [], false, None, IfOk};
ghost use Rattle.std.specs.Prelude.{slice_index_or};
ghost use Rattle.turn_lock.specs.Steps.{AllBelow, steps_by};
ghost use Rattle.turn_lock.specs.Knowledge.{Knowledge, newcomer};
ghost use Rattle.history_book.specs.Steps.{seat_of};
ghost use Rattle.history_book.specs.Told.{is_placed};
ghost use Rattle.history_book.specs.Legal.{IsLegal};
ghost use Rattle.history_book.specs.declared.step.Step.{Step};
ghost use Rattle.hub_store.specs.Links.{MayFinish};
ghost use Rattle.hub_store.specs.Parts.{IsTicket};
ghost use Rattle.omos_hub.specs.Calls.{Asks, Finishes, Flushes, Lists, Misses, PlacesAt, Publishes};
ghost use Rattle.omos_hub.specs.Calls.{CountsAtTurn, PlansTicket};
ghost use Rattle.omos_hub.specs.Passes.{AreNew, AreAll, HasAll};
ghost use Rattle.omos_hub.specs.Standing.{CanTurn, seen_by};

use crate::held::Held;
use crate::publishing::Publishing;
use history_book::Step;
use hub_store::{
    AskReply, FlushReply, Noted, Outcome, PlaceReply, PlacesReply, StatsReply, Store, Ticket,
};
use link_model::Planned;
use omos_base::{Limits, NoMemory, PathName, Shared};
use omos_model::Entry;
use seeded_hash::Seed;
use std::alloc::Global;
use std::marker::Model;
use std::sync::Wait;
use turn_lock::{Closing, Pass, TurnLock};

/// A store that several passes share. Contracts see which lock it has.
#[derive(Drop)]
pub struct Hub {
    lock: TurnLock<Held>,
}

impl Model for Hub {
    ghost use Rattle.turn_lock.specs.Knowledge.{TableId, table_id_coded};

    ghost Value = { TableId };

    ghost coded = { table_id_coded };

    ghost view = { λ h. h.lock };
}

/// So many passes, the first of which takes in the one that they are split from.
fn split_passes(
    alloc: Global,
    lock: &TurnLock<Held>,
    mut zero: Pass<Step>,
    workers: u32,
) -> Result<Vec<Pass<Step>>, NoMemory>
    requires some { (1 ≤ workers) × (workers ≤ 16) }
    requires zero { zero ≡ newcomer lock.now zero.first zero.second 0 [] }
    ensures count { IfOk result (λ r. length r.items ≡ workers) }
    ensures passes { IfOk result (λ r. AreNew lock.now zero.first zero.second r.items) }
{
    let mut passes = Vec::new(alloc);
    for _i in 0..workers {
        let pass = lock.split(&mut zero)?;
        passes.push(pass)?;
    }
    let first = &mut passes[0];
    lock.join(first, zero);
    Ok(passes)
}

impl Hub {
    /// A hub over an empty store, and its passes, numbered from 1. Tables of names hash by the
    /// seed.
    pub fn open(
        alloc: Global,
        seed: Seed,
        limits: Limits,
        workers: u32,
    ) -> Result<(Hub, Vec<Pass<Step>>), NoMemory>
        requires { (1 ≤ workers) × (workers ≤ 16) }
        ensures count { IfOk result (λ r. length r.1.items ≡ workers) }
        ensures passes { IfOk result (λ r. AreNew r.0 limits.cache limits.steps r.1.items) }
        ensures legal { IfOk result (λ r. IsLegal limits.cache limits.steps []) }
    {
        let held = Held::open(alloc, seed, limits)?;
        held.known();
        let (lock, zero) = TurnLock::new(alloc, held)?;
        let passes = split_passes(alloc, &lock, zero, workers)?;
        Ok((Hub { lock }, passes))
    }

    /// Records that a request came to nothing for want of memory; `Full` where there is no room.
    pub fn missed<R: Wait>(&self, rt: &R, pass: &mut Pass<Step>) -> Noted
        requires { CanTurn 1 (seen_by self.now None pass.old) }
        ensures { Misses false (seen_by self.now None pass.old)
            (seen_by self.now None pass.new) result }
    {
        let mut held = self.lock.take(rt, pass);
        let reply = held.missed(pass.number());
        self.lock.give(pass, held);
        reply
    }

    /// Asks for the image of a path: a hit of the cache, or a ticket to evaluate it on the version
    /// that the turn found.
    pub fn ask<R: Wait>(&self, rt: &R, pass: &mut Pass<Step>, path: &PathName) -> AskReply
        requires { CanTurn 1 (seen_by self.now None pass.old) }
        ensures { Asks false (seen_by self.now None pass.old)
            (seen_by self.now None pass.new) path.now result }
    {
        let mut held = self.lock.take(rt, pass);
        let reply = held.ask(pass.number(), path);
        self.lock.give(pass, held);
        reply
    }

    /// Lets go of the path's image, and says whether it was held.
    pub fn flush<R: Wait>(&self, rt: &R, pass: &mut Pass<Step>, path: &PathName) -> FlushReply
        requires { CanTurn 1 (seen_by self.now None pass.old) }
        ensures { Flushes false (seen_by self.now None pass.old)
            (seen_by self.now None pass.new) path.now result }
    {
        let mut held = self.lock.take(rt, pass);
        let reply = held.flush(pass.number(), path);
        self.lock.give(pass, held);
        reply
    }

    /// The placements of a path, in order of placing.
    pub fn places<R: Wait>(&self, rt: &R, pass: &mut Pass<Step>, path: &PathName) -> PlacesReply
        requires { CanTurn 1 (seen_by self.now None pass.old) }
        ensures { Lists false (seen_by self.now None pass.old)
            (seen_by self.now None pass.new) path.now result }
    {
        let mut held = self.lock.take(rt, pass);
        let reply = held.places(pass.number(), path);
        self.lock.give(pass, held);
        reply
    }

    /// The counts over the record that the turn found.
    pub fn stats<R: Wait>(&self, rt: &R, pass: &mut Pass<Step>) -> StatsReply
        requires { CanTurn 1 (seen_by self.now None pass.old) }
        ensures { CountsAtTurn false (seen_by self.now None pass.old)
            (seen_by self.now None pass.new) result }
    {
        let mut held = self.lock.take(rt, pass);
        let reply = held.stats(pass.number());
        self.lock.give(pass, held);
        reply
    }

    /// Publishes an entry of this size, in bytes, under the path, or notes that there was no
    /// memory.
    pub fn put<R: Wait>(
        &self,
        rt: &R,
        pass: &mut Pass<Step>,
        path: &PathName,
        entry: Shared<Entry>,
        size: u32,
    ) -> Publishing
        requires turn { CanTurn 1 (seen_by self.now None pass.old) }
        requires size { size ≤ 1048576 }
        ensures { Publishes false (seen_by self.now None pass.old) (seen_by self.now None pass.new)
            path.now entry size result }
    {
        let mut held = self.lock.take(rt, pass);
        let reply = held.put(pass.number(), path, entry, size);
        self.lock.give(pass, held);
        reply
    }

    /// The place of a plan: that of its path, or a new one, which is noted.
    pub fn place<R: Wait>(
        &self,
        rt: &R,
        pass: &mut Pass<Step>,
        ticket: &Ticket,
        planned: &Planned,
    ) -> PlaceReply
        requires turn { CanTurn 1 (seen_by self.now None pass.old) }
        requires seat { ticket.now.seat ≡ pass.old.number }
        requires ticket { IsTicket pass.old.seen ticket.now }
        requires unplaced { is_placed pass.old.seen ticket.now.number ≡ false }
        requires planned { PlansTicket ticket.now planned.now }
        ensures { PlacesAt false (seen_by self.now None pass.old) (seen_by self.now None pass.new)
            ticket.now planned.now result }
    {
        let mut held = self.lock.take(rt, pass);
        held.known();
        let reply = held.place(ticket, planned);
        self.lock.give(pass, held);
        reply
    }

    /// Ends a link request with its outcome, and stores an image that is to be stored.
    pub fn finish<R: Wait>(&self, rt: &R, pass: &mut Pass<Step>, ticket: Ticket, outcome: Outcome)
        requires turn { CanTurn 1 (seen_by self.now None pass.old) }
        requires seat { ticket.seat ≡ pass.old.number }
        requires ticket { IsTicket pass.old.seen ticket }
        requires outcome { MayFinish pass.old.seen ticket outcome }
        ensures { Finishes false (seen_by self.now None pass.old) (seen_by self.now None pass.new)
            ticket outcome }
    {
        let mut held = self.lock.take(rt, pass);
        held.known();
        held.finish(ticket, outcome);
        self.lock.give(pass, held);
    }

    /// Ends the hub once all its passes are back, and gives its store, whose record begins with
    /// what each pass had seen and holds no steps of others.
    pub fn close(self, mut passes: Vec<Pass<Step>>) -> Store
        requires { AreAll self passes.items }
        ensures all { HasAll passes.items result.steps }
        ensures seats { AllBelow seat_of (length passes.items + 1) result.steps }
        ensures none { steps_by seat_of 0 result.steps ≡ [] }
        ensures limits { (d : Knowledge Step)
            → (result.limits.cache
            ≡ (slice_index_or passes.items (length passes.items - 1) d).first)
            × (result.limits.steps
            ≡ (slice_index_or passes.items (length passes.items - 1) d).second) }
        ensures legal { IsLegal result.limits.cache result.limits.steps result.steps }
    {
        let Some(mut into) = passes.pop() else {
            unreachable!()
        };
        while let Some(other) = passes.pop() {
            self.lock.join(&mut into, other);
        }
        let Hub { lock } = self;
        match lock.close(into) {
            Closing::Value(held) => {
                held.known();
                held.into_store()
            }
            Closing::Held { drawn: _, left: _ } => unreachable!(),
        }
    }
}
