//! The linker's types, and what the server means by a namespace, a module and a refusal.
//!
//! The definitions stand in specs/. Nothing here reads a file, keeps a table or evaluates.
#![tactic(auto)]

mod entry;
pub mod examples;
mod expr;
mod fixups;
mod fragment;
pub mod laws;
mod mark;
mod placement;
mod refusal;

pub use entry::{Entry, Image, Stamped, Start};
pub use expr::Expr;
pub use fixups::{Field, Fixups};
pub use fragment::{Aim, Export, Fixup, Fragment, FragmentFault, Group, Kind, Piece, Spot};
pub use mark::{Landing, Mark, MarkRow, Target};
pub use placement::{Place, Placement};
pub use refusal::{BpFault, ObjectFault, Refusal, Site};
