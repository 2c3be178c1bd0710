//! The fragment of an object file: its kept sections and common symbols as pieces, its global
//! names as exports, its relocations as fixups.
//!
//! The tables are read, and their faults found, by `elf_object`.
#![tactic(auto)]

mod exports;
mod fixups;
mod names;
mod numbers;
mod pieces;
mod read;
mod spots;
mod symbols;
mod used;

pub use read::{fragment, fragment_in};
