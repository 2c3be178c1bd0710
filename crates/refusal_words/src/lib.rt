//! The lines that `omosd` and `omos` print, told to people: what a refusal, or a server without
//! room, means, and what to do about it.
//!
//! The programs' output is made for other programs: one line, as `refused L5 /app 0 malloc`. What
//! a person reads beside it, on standard error, is one sentence of what is wrong and one of its
//! cure. `Noting` is the sink that the line passes on its way, `tell` prints the sentences.
#![tactic(auto)]

mod noting;
mod sentence;
mod table;
mod telling;

pub use noting::Noting;
pub use telling::tell;
