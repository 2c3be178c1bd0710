//! The placements of a store.

ghost use Rattle.std.specs.Prelude.{◌≡◌, ◌+◌, ◌*◌, ◌<◌, ◌≤◌, List, [], ◌∷◌, ◌++◌, length};
ghost use Rattle.std.specs.Prelude.{slice_index_or, IfOk, OnOk, IsTrue, filter, cond, map};
ghost use Rattle.std.specs.List.{All, find, position_or_len};
ghost use Rattle.std.specs.Option.{option_map};
ghost use Rattle.omos_model.specs.ImageParts.{is_range};
ghost use Rattle.omos_model.specs.Places.{place_for, serves, is_of, past_of, CanJoin, Stands};
ghost use Rattle.place_book.specs.Books.{IsPlacement};
ghost use Rattle.place_book.specs.Keys.{key_of_placement};

use crate::key::{key_of, next_of};
use crate::span::{Span, least_base, position_after};
use omos_base::{NoMemory, PathName, Row};
use omos_model::{Place, Placement};
use std::alloc::Global;
use std::marker::Model;

/// Placements in order of placing, of which there may be so many. No two share a byte.
#[derive(Drop)]
pub struct Book {
    placed: Vec<Placement>,
    /// The keys of their paths.
    keys: Vec<u32>,
    /// Their addresses, in order.
    spans: Vec<Span>,
    capacity: u32,
}

impl Model for Book {
    ghost use Rattle.std.specs.Prelude.{◌≡◌, ◌≤◌, map, vec_len, vec_capacity};
    ghost use Rattle.place_book.specs.Keys.{key_of_placement};
    ghost use Rattle.place_book.specs.Books.{BookParts, AreSpansOf};

    ghost Value = { BookParts };

    ghost view = { λ b. record { placements = b.placed.items; capacity = b.capacity } };

    ghost invariant = { λ b.
        AreSpansOf b.placed.items b.spans.items
        × (vec_len b.placed ≤ b.capacity) × (b.capacity ≤ vec_capacity b.placed)
        × (vec_len b.spans ≡ vec_len b.placed) × (b.capacity ≤ vec_capacity b.spans)
        × (b.keys.items ≡ map key_of_placement b.placed.items)
        × (vec_len b.keys ≡ vec_len b.placed) × (b.capacity ≤ vec_capacity b.keys) };
}

/// Whether a placement serves an image of the path.
fn serves_path(placement: &Placement, path: &PathName, pages: u32, lo: u64, hi: u64) -> bool
    ensures { result ≡ serves path.now pages lo hi placement.now }
{
    path == &placement.path
        && pages <= placement.pages
        && lo <= placement.base
        && placement.base <= hi
        && 4096 * u64::from(placement.pages) <= hi - placement.base
}

/// The position of the first placement that serves, or the number of placements. Most paths are
/// told apart by their keys.
fn position_held(
    placed: &[Placement],
    keys: &[u32],
    path: &PathName,
    pages: u32,
    lo: u64,
    hi: u64,
) -> usize
    requires { keys.now ≡ map key_of_placement placed.now }
    ensures value { result ≡ position_or_len (serves path.now pages lo hi) placed.now }
    ensures within { result ≤ length placed.now }
{
    let key = key_of(path);
    let mut at = next_of(keys, 0, key);
    'placements: while at < placed.len() && !serves_path(&placed[at], path, pages, lo, hi) {
        at = next_of(keys, at + 1, key);
    }
    at
}

/// The base of the first placement that serves.
fn first_held(
    placed: &[Placement],
    keys: &[u32],
    path: &PathName,
    pages: u32,
    lo: u64,
    hi: u64,
) -> Option<u64>
    requires { keys.now ≡ map key_of_placement placed.now }
    ensures { result ≡ option_map (λ p. p.base) (find (serves path.now pages lo hi) placed.now) }
{
    let at = position_held(placed, keys, path, pages, lo, hi);
    if at < placed.len() {
        Some(placed[at].base)
    } else {
        None
    }
}

/// Appends the placement, where it is the path's.
fn push_of(
    found: &mut Row<Placement>,
    placement: &Placement,
    path: &PathName,
) -> Result<(), NoMemory>
    ensures { OnOk result
        (found.new ≡ found.old ++ cond (is_of path.now placement.now) (placement.now ∷ []) []) }
{
    if path == &placement.path {
        found.push(placement.copy())?;
    }
    Ok(())
}

/// The placements of a path. Most paths are told apart by their keys.
fn found_of(
    alloc: Global,
    placed: &[Placement],
    keys: &[u32],
    path: &PathName,
) -> Result<Row<Placement>, NoMemory>
    requires { keys.now ≡ map key_of_placement placed.now }
    ensures { IfOk result (λ ps. ps ≡ filter (is_of path.now) placed.now) }
{
    let key = key_of(path);
    let mut found = Row::new(alloc);
    let mut at = next_of(keys, 0, key);
    'placements: while at < placed.len() {
        push_of(&mut found, &placed[at], path)?;
        at = next_of(keys, at + 1, key);
    }
    Ok(found)
}

impl Book {
    /// No placements, with room for so many.
    pub fn new(alloc: Global, capacity: u32) -> Result<Book, NoMemory>
        ensures { IfOk result (λ b. b ≡ record { placements = []; capacity = capacity }) }
    {
        let Ok(placed) = Vec::with_capacity(alloc, capacity as usize) else {
            return Err(NoMemory);
        };
        let Ok(keys) = Vec::with_capacity(alloc, capacity as usize) else {
            return Err(NoMemory);
        };
        let Ok(spans) = Vec::with_capacity(alloc, capacity as usize) else {
            return Err(NoMemory);
        };
        Ok(Book {
            placed,
            keys,
            spans,
            capacity,
        })
    }

    /// Where an image of the path may stand that has so many pages and is to lie from `lo` to `hi`.
    /// It takes no memory, and goes once over the placements.
    pub fn place_for(&self, path: &PathName, pages: u32, lo: u64, hi: u64) -> Place
        requires some { 1 ≤ pages }
        requires few { pages ≤ 2047 }
        requires range { IsTrue (is_range lo hi) }
        ensures place { result ≡ place_for self.now.placements path.now pages lo hi }
        ensures stands { Stands result pages }
    {
        let held = first_held(
            self.placed.as_slice(),
            self.keys.as_slice(),
            path,
            pages,
            lo,
            hi,
        );
        if let Some(base) = held {
            return Place::Held(base);
        }
        let bytes = 4096 * u64::from(pages);
        let base = least_base(self.spans.as_slice(), bytes, lo);
        if base + bytes <= hi {
            return Place::New(base);
        }
        Place::NoRoom
    }

    /// Adds a placement. It takes no memory.
    pub fn add(&mut self, placement: Placement)
        requires room { length self.old.placements < self.old.capacity }
        requires apart { CanJoin self.old.placements placement }
        requires lawful { IsPlacement placement }
        ensures placements { self.new.placements ≡ self.old.placements ++ placement ∷ [] }
        ensures capacity { self.new.capacity ≡ self.old.capacity }
    {
        let span = Span {
            base: placement.base,
            past: placement.base + 4096 * u64::from(placement.pages),
        };
        let at = position_after(self.spans.as_slice(), span.base);
        self.spans.insert(at, span).unwrap();
        self.keys.push(key_of(&placement.path)).unwrap();
        self.placed.push(placement).unwrap();
    }

    /// The placements of a path, in order of placing.
    pub fn of_path(&self, alloc: Global, path: &PathName) -> Result<Row<Placement>, NoMemory>
        ensures { IfOk result (λ ps. ps ≡ filter (is_of path.now) self.now.placements) }
    {
        found_of(alloc, self.placed.as_slice(), self.keys.as_slice(), path)
    }

    /// How many placements there are.
    pub fn len(&self) -> u32
        ensures value { result ≡ length self.now.placements }
        ensures within { result ≤ self.now.capacity }
    {
        let _capacity = self.capacity;
        self.placed.len() as u32
    }

    /// The placement at a position in order of placing, from 0.
    pub fn at(&self, position: u32) -> &Placement
        requires { position < length self.now.placements }
        ensures { result.now ≡ slice_index_or self.now.placements position result.now }
    {
        &self.placed[position as usize]
    }
}
