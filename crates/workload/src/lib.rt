//! Inputs made from numbers and lists: plain objects, so that tests and loads need no compiler.
//!
//! Nothing here reads an object.
#![tactic(auto)]

mod headers;
mod plain;
mod plan;
mod tables;

pub use plain::{PlainRela, PlainSymbol, plain_object};
