//! Reads object files: their tables, or the first fault that they have.
//!
//! The file is lent, never copied. What a file means is not known here, only where it stands.
#![tactic(auto)]

mod entries;
mod exports;
mod kept;
mod names;
mod read;
mod reads;
mod relas;
mod seen;
mod symbols;
mod symtab;
mod tables;

pub use entries::kind_of;
pub use read::read_tables;
pub use tables::{Run, Tables};
