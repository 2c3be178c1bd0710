//! The value of a relocated field of x86-64 (psABI, "Relocation Types"), and its bytes.
//!
//! Nothing here looks at an object or a layout, and nothing takes memory.
#![tactic(auto)]

mod bytes;
mod field;
mod size;

pub use bytes::put;
pub use field::value;
pub use size::width;
