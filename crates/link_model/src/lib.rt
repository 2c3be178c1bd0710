//! What stands between a path and its image: evaluated modules, their layout, plans and linked
//! images, as types that keep what they promise, and the definitions of plan, fields and bytes.
//!
//! The definitions stand in specs/. Nothing here evaluates, lays out or writes, and nothing speaks
//! of the tables by which evaluation finds what a module is.
#![tactic(auto)]

mod evaluated;
pub mod examples;
mod groups;
pub mod laws;
mod layout;
mod linked;
mod planned;
mod slot;
mod start;

pub use evaluated::{Evaluated, Found};
pub use groups::{ByGroup, Groups};
pub use layout::Layout;
pub use linked::Linked;
pub use planned::Planned;
pub use slot::Slot;
pub use start::usual_start;
