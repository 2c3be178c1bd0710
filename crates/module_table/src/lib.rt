//! Tables of what a module defines and of its references, rewritten whole by each operator.
//!
//! A table stands for a module's term; nothing here expands a blueprint or looks below an operator.
#![tactic(auto)]

mod exports;
mod fault;
mod marks;
mod names;
mod operators;
mod refusals;
mod rules;
mod steps;
mod table;

pub use exports::Definitions;
pub use fault::TableFault;
pub use steps::Steps;
pub use table::Table;
