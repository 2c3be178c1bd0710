//! What a table's references land on: the evaluated module of a path, made from its table.
//!
//! Nothing here evaluates an expression: the table stands for the path's term already.
#![tactic(auto)]

mod landed;
mod made;

pub use made::{land, lone};
