//! The top calls of the program `omosd` that serve sessions. Each takes the words of the command
//! line and what the run reads and writes, and answers the status; `main` makes the real ones.
//!
//! The call that links one object stands in omosd_calls.
#![tactic(auto)]

mod socket;
mod stdio;
mod totals;

pub use command_words::{SocketWords, socket_words};
pub use omosd_slots::Slot;
pub use socket::omosd_socket;
pub use stdio::omosd_stdio;
