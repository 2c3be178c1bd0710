//! The layout of a program: where its pieces and its slots stand, counted from the base. A program
//! is an evaluated module, or the parts of one.
//!
//! Beside the layout it offers what an image is written from as well: the pieces and fields of a
//! leaf, and which fixups ask for a slot. Nothing here chooses a base or computes a field.
#![tactic(auto)]

mod layout_of;
mod offsets;
mod pieces;
mod places;
mod program;
mod references;
mod sizes;
mod slot;
mod slots;

pub use layout_of::{lay, lay_program};
pub use pieces::{are_lawful, pieces_in};
pub use program::Program;
pub use slot::{is_got, target_at};
pub use slots::fields_in;
