//! What a store learns of images.

ghost use Rattle.std.specs.Prelude.{◌≡◌, nat_le, Ok};
ghost use Rattle.link_model.specs.Answer.{answer};
ghost use Rattle.hub_store.specs.Keeps.{of_item};
ghost use Rattle.image_cache.specs.Items.{item_at};

use image_cache::Cache;
use link_model::Linked;
use omos_base::PathName;

/// Whether the path's item is of this version or a newer one.
pub(crate) fn has_as_new(cache: &Cache, path: &PathName, version: u64) -> bool
    ensures { result ≡ of_item (λ i. nat_le version i.version) (item_at path.now cache.now.items) }
{
    match cache.newest(path) {
        Some(held) => version <= held,
        None => false,
    }
}

/// An image's bytes are the answer on the namespace that its footprint lists. Nothing is run.
pub(crate) fn is_answer(image: &Linked)
    ensures { answer image.now.footprint image.now.path image.now.base ≡ Ok image.now.bytes }
{
    let _path = image.path();
}
