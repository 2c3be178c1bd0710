//! The store: its state, and the calls for publishes, flushes and looks. Link requests stand in
//! linking.

ghost use Rattle.std.specs.Prelude.{◌≡◌, ◌≤◌, [], IfOk, length};
ghost use Rattle.omos_base.specs.Limits.{AreLimits};
ghost use Rattle.history_book.specs.Told.{version_after};
ghost use Rattle.history_book.specs.Legal.{IsLegal};
ghost use Rattle.hub_store.specs.Requests.{PutGives, MissedGives, FlushGives, PlacesGives};
ghost use Rattle.hub_store.specs.Requests.{StatsGives, IsNext, next_put, counts_of, totals_of};

use crate::counts::{Counts, Totals};
use crate::reply::{FlushReply, Noted, PlacesReply, PutReply, StatsReply};
use crate::ticket::ReadyPut;
use history_book::Record;
use image_cache::Cache;
use name_tree::Snap;
use omos_base::{Limits, NoMemory, PathName, Shared};
use omos_model::Entry;
use place_book::Book;
use seeded_hash::Seed;
use std::alloc::Global;
use std::marker::Model;

/// The published bytes in all that a store may hold.
const MAX_KEPT: u64 = 268_435_456;

/// The whole state of a server, that contracts see as the steps of its record and its limits.
///
/// It keeps that its limits are lawful and the record is legal, and that the namespace, the book
/// and the cache are what the record says.
#[derive(Drop)]
pub struct Store {
    pub(crate) alloc: Global,
    pub(crate) history: Record,
    pub(crate) snap: Snap,
    pub(crate) book: Book,
    pub(crate) cache: Cache,
}

impl Model for Store {
    ghost use Rattle.std.specs.Prelude.{◌≡◌, ◌≤◌};
    ghost use Rattle.omos_model.specs.contracts.expr.Expr as expr;
    ghost use Rattle.std.specs.Coded.{codes};
    ghost use Rattle.omos_base.specs.Limits.{AreLimits};
    ghost use Rattle.hub_store.specs.Parts.{StoreParts, store_of, limits_of};
    ghost use Rattle.hub_store.specs.Keeps.{IsStore};

    ghost Value = { StoreParts };

    ghost coded = { Prim.hlevel (codes, expr.the_row.coded) };

    ghost view = { λ s. store_of s.history.steps s.cache.capacity s.history.capacity };

    ghost invariant = { λ s.
        IsStore (limits_of s.cache.capacity s.history.capacity) s.history.steps s.snap.entries
        s.book.placements s.cache.items
        × (s.book.capacity ≡ s.history.capacity)
        × AreLimits s.cache.capacity s.history.capacity };
}

impl Store {
    /// An empty store, of version 0. It takes the memory of its record and book. Tables of names
    /// that are made from its versions hash by the seed.
    pub fn open(alloc: Global, seed: Seed, limits: Limits) -> Result<Store, NoMemory>
        ensures { IfOk result (λ s. s ≡ record { steps = []; limits = limits }) }
    {
        Ok(Store {
            alloc,
            history: Record::new(alloc, limits.steps())?,
            snap: Snap::empty(alloc, seed)?,
            book: Book::new(alloc, limits.steps())?,
            cache: Cache::new(limits.cache()),
        })
    }

    /// The present version.
    pub fn version(&self) -> u64
        ensures version { result ≡ version_after self.now.steps }
        ensures legal { IsLegal self.now.limits.cache self.now.limits.steps self.now.steps }
        ensures lawful { AreLimits self.now.limits.cache self.now.limits.steps }
    {
        self.history.tally().version
    }

    /// How many steps the record has.
    pub fn record_len(&self) -> u32
        ensures len { result ≡ length self.now.steps }
        ensures legal { IsLegal self.now.limits.cache self.now.limits.steps self.now.steps }
        ensures lawful { AreLimits self.now.limits.cache self.now.limits.steps }
    {
        self.history.len()
    }

    fn counts(&self) -> Counts
        ensures { result ≡ counts_of self.now.steps }
    {
        let tally = self.history.tally();
        Counts {
            version: tally.version,
            paths: self.snap.count() as u64,
            placements: u64::from(self.book.len()),
            asked: tally.asked,
            hits: tally.hits,
            stored: tally.stored,
            evicted: tally.evicted,
            held: u64::from(self.cache.len()),
            steps: u64::from(self.history.len()),
        }
    }

    /// The counts over the record. They are kept, and nothing is counted here.
    pub fn totals(&self) -> Totals
        ensures { result ≡ totals_of self.now.steps }
    {
        Totals {
            requests: self.history.tally().requests,
            counts: self.counts(),
        }
    }

    /// A publish with the version of the namespace that it makes.
    pub fn ready_put(
        &self,
        path: &PathName,
        entry: Shared<Entry>,
        size: u32,
    ) -> Result<ReadyPut, NoMemory>
        requires { size ≤ 1048576 }
        ensures { IfOk result (λ ready. ready ≡ next_put self.now.steps path.now entry size) }
    {
        let held = entry.twin()?;
        let snap = self
            .snap
            .with(path.copy(), self.history.tally().version + 1, held)?;
        Ok(ReadyPut {
            path: path.copy(),
            entry,
            size,
            snap,
        })
    }

    /// Publishes what was made ready for this store as it is. It takes no memory.
    pub fn put(&mut self, seat: u32, ready: ReadyPut) -> PutReply
        requires { IsNext self.old.steps ready }
        ensures { PutGives self.old seat ready result self.new }
    {
        let ReadyPut {
            path,
            entry,
            size,
            snap,
        } = ready;
        let tally = self.history.tally();
        if MAX_KEPT < tally.kept + u64::from(size) {
            return PutReply::KeptFull;
        }
        if !self.history.room() {
            return PutReply::Full;
        }
        self.history
            .push_put(seat, tally.requests, &path, entry, size);
        self.snap = snap;
        PutReply::Published(tally.version + 1)
    }

    /// Notes a request that came to nothing for want of memory. It takes none.
    pub fn missed(&mut self, seat: u32) -> Noted
        ensures { MissedGives self.old seat result self.new }
    {
        if !self.history.room() {
            return Noted::Full;
        }
        let number = self.history.tally().requests;
        self.history.push_missed(seat, number);
        Noted::Done
    }

    /// Takes the path's image out of the cache. It takes no memory.
    pub fn flush(&mut self, seat: u32, path: &PathName) -> FlushReply
        ensures { FlushGives self.old seat path.now result self.new }
    {
        if !self.history.room() {
            return FlushReply::Full;
        }
        let number = self.history.tally().requests;
        let held = self.cache.flush(path);
        self.history.push_flushed(seat, number, path, held);
        if !held {
            return FlushReply::Flushed(false);
        }
        self.history.push_evicted(seat, number, path);
        FlushReply::Flushed(true)
    }

    /// The placements of a path, in order of placing.
    pub fn places(&mut self, seat: u32, path: &PathName) -> PlacesReply
        ensures { PlacesGives self.old seat path.now result self.new }
    {
        if !self.history.room() {
            return PlacesReply::Full;
        }
        let number = self.history.tally().requests;
        let Ok(found) = self.book.of_path(self.alloc, path) else {
            self.history.push_missed(seat, number);
            return PlacesReply::NoMemory;
        };
        self.history.push_places(seat, number, path);
        PlacesReply::Places(found)
    }

    /// The counts before this call. It takes no memory.
    pub fn stats(&mut self, seat: u32) -> StatsReply
        ensures { StatsGives self.old seat result self.new }
    {
        if !self.history.room() {
            return StatsReply::Full;
        }
        let counts = self.counts();
        let number = self.history.tally().requests;
        self.history.push_stats(seat, number);
        StatsReply::Counts(counts)
    }
}
