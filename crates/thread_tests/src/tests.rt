//! The tests, by subject.

mod draws;
mod files;
mod turns;
