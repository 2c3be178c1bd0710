//! The top calls of the program `omosd`: each takes the words of the command line and what the run
//! reads and writes, and answers the status. `main` makes the real ones and calls it.
#![tactic(auto)]

mod cause;
mod ending;
mod lone;
mod once;
mod reading;
mod words;

pub use once::omosd_once;
