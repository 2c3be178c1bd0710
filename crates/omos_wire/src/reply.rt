//! Replies as they are sent.

use hub_store::Counts;
use omos_model::Placement;
use refusal_lines::Refused;

/// A reply. It lends what it holds.
#[derive(Clone, Copy)]
pub enum Reply<'a> {
    /// The version that a publish made.
    Published(u64),
    /// The image of a path: the version at its asking, the address, and the file.
    Image {
        version: u64,
        base: u64,
        bytes: &'a [u8],
    },
    /// The request is refused.
    Refused(&'a Refused),
    /// The placements of a path, in order of placing.
    Places(&'a [Placement]),
    /// The counts of the record.
    Counts(Counts),
    /// Whether an item was held, which is let go of.
    Flushed(bool),
    /// The end was read.
    Bye,
    /// There was no memory.
    NoMemory,
    /// The record has no room.
    Full,
    /// The published bytes have no room.
    KeptFull,
}
