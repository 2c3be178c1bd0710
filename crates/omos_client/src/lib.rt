//! The client's top call: it takes the words of the command line and what the run reads and
//! writes, sends one request to a server, and answers the status. `main` connects and calls it.
//!
//! Nothing here knows a socket, or what a server keeps.
#![tactic(auto)]

mod ending;
mod errand;
mod line;
mod receiving;
mod run;
mod sending;
mod telling;

pub use run::{client, client_words};
