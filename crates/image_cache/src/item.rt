//! What a cache holds.

use link_model::Linked;
use omos_base::Shared;

/// An image that is held.
#[derive(Drop)]
pub struct Item {
    /// The number of the link request that it answered.
    pub number: u64,
    /// The version at which it was asked.
    pub version: u64,
    /// The last version at which it was found current.
    pub current_at: u64,
    pub image: Shared<Linked>,
}
