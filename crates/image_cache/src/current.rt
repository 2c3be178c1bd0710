//! Whether an image is still that of its path.

ghost use Rattle.std.specs.Prelude.{◌≡◌, ◌&&◌, ◌||◌, not, drop};
ghost use Rattle.std.specs.List.{list_all};
ghost use Rattle.link_model.specs.Laws.{stamp_at};
ghost use Rattle.place_book.specs.Keys.{is_listed};
ghost use Rattle.image_cache.specs.Items.{IsKnown, has_stamp, is_at, is_fresh};

use crate::item::Item;
use name_tree::Snap;
use omos_base::PathName;
use omos_model::Stamped;
use place_book::key::is_listed;

/// Whether the image is the path's.
pub(crate) fn is_of(item: &Item, path: &PathName) -> bool
    ensures { result ≡ is_at path.now item.now }
{
    path == item.image.get().path()
}

fn has_stamp(read: &Stamped, snap: &Snap) -> bool
    ensures { result ≡ has_stamp (stamp_at snap.now.entries read.now.path) read.now.stamp }
{
    match snap.get(read.path.get()) {
        Some(entry) => entry.stamp == read.stamp,
        None => false,
    }
}

/// Whether each path that was read has the same stamp there.
fn all_stand(item: &Item, snap: &Snap) -> bool
    ensures { result ≡ is_fresh snap.now.entries item.now }
{
    item.image
        .get()
        .footprint()
        .iter()
        .all(|read| has_stamp(read, snap))
}

/// Whether the path that was read isn't among these keys, or has the same stamp there.
fn stays(read: &Stamped, since: &[u32], snap: &Snap) -> bool
    ensures { result ≡ (not (is_listed since.now read.now.path)
        || has_stamp (stamp_at snap.now.entries read.now.path) read.now.stamp) }
{
    !is_listed(since, read.path.get()) || has_stamp(read, snap)
}

/// The same for each path that was read.
fn all_stay(item: &Item, since: &[u32], snap: &Snap) -> bool
    ensures { result ≡ list_all (λ s. not (is_listed since.now s.path)
        || has_stamp (stamp_at snap.now.entries s.path) s.stamp) item.now.image.footprint }
{
    item.image
        .get()
        .footprint()
        .iter()
        .all(|read| stays(read, since, snap))
}

/// The keys from a version on.
fn keys_since(published: &[u32], version: u64) -> &[u32]
    ensures { result.now ≡ drop version published.now }
{
    if version < published.len() as u64 {
        published.split_at(version as usize).1
    } else {
        published.split_at(published.len()).1
    }
}

/// Whether each path that was read has the same stamp there. Where nothing was published since the
/// item was last found so, no path is looked at; and where little was, only those are looked up
/// whose key is one of what was published.
fn is_current(item: &Item, snap: &Snap, published: &[u32]) -> bool
    requires { IsKnown snap.now.entries published.now item.now }
    ensures { result ≡ is_fresh snap.now.entries item.now }
{
    let since = keys_since(published, item.current_at);
    if since.is_empty() {
        return true;
    }
    if since.len() > 64 {
        return all_stand(item, snap);
    }
    all_stay(item, since, snap)
}

/// Whether the image is the path's, and current.
pub(crate) fn is_found(item: &Item, path: &PathName, snap: &Snap, published: &[u32]) -> bool
    requires { IsKnown snap.now.entries published.now item.now }
    ensures { result ≡ (is_at path.now item.now && is_fresh snap.now.entries item.now) }
{
    is_of(item, path) && is_current(item, snap, published)
}
