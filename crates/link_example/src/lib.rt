//! A caller of the linker as a library: two object files and a blueprint, and the image that the
//! blueprint makes of them. docs/LINKING.md goes through it.
//!
//! Nothing here keeps a namespace or chooses an address; the server does.
#![tactic(auto)]

mod entries;
mod failure;
mod linking;
mod published;

pub use failure::Failure;
pub use linking::link_two;
pub use published::Published;
