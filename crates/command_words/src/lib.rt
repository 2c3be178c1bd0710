//! The words of a command line, and what they say: numbers, and the server's commands.
//!
//! Nothing here runs a command.
#![tactic(auto)]

mod args;
mod number;
mod server;

pub use args::{is_alone, words_of};
pub use number::number_of;
pub use server::{SocketWords, socket_words, stdio_words, workload_words};
