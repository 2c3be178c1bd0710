//! The evaluation of a path on a version of the namespace: its expansion, and the table of the term
//! that it stands for.
//!
//! Nothing here knows how an operator works on a table, and nothing lays out or writes an image.
#![tactic(auto)]

mod blueprints;
mod counts;
mod evaluation;
mod exprs;
mod footprint;
mod leaf;
mod memo;
mod node;
mod object;
mod opening;
mod operands;
mod operator;
mod outermost;
mod part;
mod paths;
mod pending;
mod plan;
mod reach;
mod read_path;
mod refused;
mod table_box;
mod terms;
mod walk;

pub use evaluation::evaluate;
