//! A list in which values come often again, kept as its distinct values and a key a place
//! (dictionary encoding).
//!
//! What has one value for each place of another list shares that list's keys: the references of an
//! object, what each is inside a module and what each lands on are three such lists, with one value
//! a symbol and the keys of the object.
#![tactic(auto)]

mod dict;
mod rule;

pub use dict::{DictParts, DictRow};
pub use rule::Rule;
