//! The cache.

ghost use Rattle.std.specs.Prelude.{◌≡◌, ◌∷◌, ◌&&◌, ◌<◌, ◌≤◌, [], length, slice_index_or};
ghost use Rattle.std.specs.Prelude.{MatchOption};
ghost use Rattle.std.specs.List.{All, position_or_len, remove};
ghost use Rattle.std.specs.Option.{option_map};
ghost use Rattle.image_cache.specs.Items.{path_of, IsKnown};
ghost use Rattle.image_cache.specs.Items.{leaving, without_leaving, last_path, as_found, HasFound};
ghost use Rattle.image_cache.specs.Items.{has_item, is_at, is_fresh, item_at, without_path};

use crate::cells::Cells;
use crate::current::{is_found, is_of};
use crate::item::Item;
use name_tree::Snap;
use omos_base::PathName;
use std::marker::Model;

/// Images that are held, of which there may be so many, 1 to 64.
#[derive(Drop)]
pub struct Cache {
    items: Cells,
    capacity: u32,
}

impl Model for Cache {
    ghost use Rattle.std.specs.Prelude.{◌≤◌, length};
    ghost use Rattle.omos_model.specs.contracts.expr.Expr as expr;
    ghost use Rattle.std.specs.Coded.{codes};
    ghost use Rattle.image_cache.specs.Items.{CacheParts};

    ghost Value = { CacheParts };

    ghost coded = { Prim.hlevel (codes, expr.the_row.coded) };

    ghost view = { λ c. record { items = c.items; capacity = c.capacity } };

    ghost invariant = { λ c. (length c.items ≤ c.capacity) × (1 ≤ c.capacity) × (c.capacity ≤ 64) };
}

/// The position of the path's item, or the number of items.
fn place_of(items: &Cells, path: &PathName) -> usize
    ensures value { result ≡ position_or_len (is_at path.now) items.now }
    ensures within { result ≤ length items.now }
{
    let mut at = 0;
    'items: while at < items.len() && !is_of(items.get(at), path) {
        at += 1;
    }
    at
}

/// The position of the path's current item, or the number of items.
fn place_found(items: &Cells, path: &PathName, snap: &Snap, published: &[u32]) -> usize
    requires { All (IsKnown snap.now.entries published.now) items.now }
    ensures value { result
        ≡ position_or_len (λ i. is_at path.now i && is_fresh snap.now.entries i) items.now }
    ensures within { result ≤ length items.now }
{
    let mut at = 0;
    'items: while at < items.len() && !is_found(items.get(at), path, snap, published) {
        at += 1;
    }
    at
}

/// Takes the path's item out, and whether there was one.
fn take_out(items: &mut Cells, path: &PathName) -> bool
    ensures held { result ≡ has_item items.old path.now }
    ensures rest { items.new ≡ without_path path.now items.old }
{
    let at = place_of(items, path);
    if at == items.len() {
        return false;
    }
    items.take(at);
    true
}

/// The path of the last item.
fn last_of(items: &Cells) -> PathName
    requires { 0 < length items.now }
    ensures { last_path items.now ≡ Some result }
{
    items.get(items.len() - 1).image.get().path().copy()
}

impl Cache {
    /// No images, with room for so many.
    pub fn new(capacity: u32) -> Cache
        requires some { 1 ≤ capacity }
        requires few { capacity ≤ 64 }
        ensures { result ≡ record { items = []; capacity = capacity } }
    {
        Cache {
            items: Cells::new(),
            capacity,
        }
    }

    /// How many images are held.
    pub fn len(&self) -> u32
        ensures value { result ≡ length self.now.items }
        ensures within { result ≤ self.now.capacity }
    {
        self.items.len() as u32
    }

    /// How many there may be.
    pub fn capacity(&self) -> u32
        ensures value { result ≡ self.now.capacity }
        ensures within { length self.now.items ≤ result }
    {
        self.capacity
    }

    /// The position of the path's item, where it is current on this version. `published` has the
    /// key of the path of each publish that made it; what wasn't published since the item was last
    /// found current isn't looked up.
    pub fn find(&self, path: &PathName, snap: &Snap, published: &[u32]) -> Option<u32>
        requires { All (IsKnown snap.now.entries published.now) self.now.items }
        ensures { HasFound self.now.items path.now snap.now.entries result }
    {
        let at = place_found(&self.items, path, snap, published);
        if at < self.items.len() {
            Some(at as u32)
        } else {
            None
        }
    }

    /// The item at a position.
    pub fn at(&self, position: u32) -> &Item
        requires { position < length self.now.items }
        ensures { result.now ≡ slice_index_or self.now.items position result.now }
    {
        self.items.get(position as usize)
    }

    /// The item at a position was found current at this version, and goes to the front.
    pub fn touch(&mut self, position: u32, version: u64)
        requires { position < length self.old.items }
        ensures capacity { self.new.capacity ≡ self.old.capacity }
        ensures items { (i : Item) × (i ≡ slice_index_or self.old.items position i)
            × (self.new.items ≡ as_found version i ∷ remove self.old.items position) }
    {
        if position == 0 {
            return self.items.renew_first(version);
        }
        let mut item = self.items.take(position as usize);
        item.current_at = version;
        self.items.put_first(item);
    }

    /// The version of the path's item.
    pub fn newest(&self, path: &PathName) -> Option<u64>
        ensures { result ≡ option_map (λ i. i.version) (item_at path.now self.now.items) }
    {
        let at = place_of(&self.items, path);
        if at < self.items.len() {
            Some(self.items.get(at).version)
        } else {
            None
        }
    }

    /// Puts an item in front, in place of the one of its path. Where there is none and the cache is
    /// full, the last item leaves it, and its path is answered.
    pub fn store(&mut self, item: Item) -> Option<PathName>
        ensures capacity { self.new.capacity ≡ self.old.capacity }
        ensures some { 1 ≤ self.old.capacity }
        ensures leaving { result ≡ leaving self.old (path_of item) }
        ensures items { self.new.items
            ≡ item ∷ without_path (path_of item) (without_leaving result self.old.items) }
    {
        let path = item.image.get().path().copy();
        if take_out(&mut self.items, &path) {
            self.items.put_first(item);
            return None;
        }
        if self.items.len() < self.capacity as usize {
            self.items.put_first(item);
            return None;
        }
        let last = last_of(&self.items);
        take_out(&mut self.items, &last);
        self.items.put_first(item);
        Some(last)
    }

    /// Takes the path's item out, and whether it was held.
    pub fn flush(&mut self, path: &PathName) -> bool
        ensures capacity { self.new.capacity ≡ self.old.capacity }
        ensures held { result ≡ has_item self.old.items path.now }
        ensures items { self.new.items ≡ without_path path.now self.old.items }
    {
        take_out(&mut self.items, path)
    }
}
