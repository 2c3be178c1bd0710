//! What a publish answers, want of memory among it.

/// What a publish answers.
#[derive(Clone, Copy, Debug, PartialEq, Eq)]
pub enum Publishing {
    /// The version that it made.
    Published(u64),
    /// The published bytes have no room for it.
    KeptFull,
    /// The record has no room.
    Full,
    /// There was no memory, which was noted.
    NoMemory,
}
