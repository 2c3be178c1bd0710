//! Blueprint text, read and written.
//!
//! Nothing here knows what a path leads to, or evaluates an expression.
#![tactic(auto)]

mod bounds;
mod form;
mod header;
pub mod laws;
mod leaves;
mod named;
mod nodes;
mod numbers;
mod operator;
mod parser;
mod printer;
mod reading;
mod stop;
mod token;

pub use named::text_says;
pub use parser::parse;
pub use printer::print;
