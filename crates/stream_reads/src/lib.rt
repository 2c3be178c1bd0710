//! Reads from a source onto the end of a list of bytes, in place: nothing is copied.
//!
//! Nothing here knows what the bytes are.
#![tactic(auto)]

mod exact;
mod piece;

pub use exact::{Unread, read_exactly};
pub use piece::read_more;
