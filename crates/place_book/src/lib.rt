//! The book: which addresses belong to which path, and where the next image may stand.
//!
//! A placement is never given back. Nothing here plans or links.
#![tactic(auto)]

mod book;
pub mod key;
pub mod laws;
mod span;

pub use book::Book;
pub use omos_model::{Place, Placement};
