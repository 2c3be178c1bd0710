//! The frames of a workload, a session that is made from a number alone; and the top call of the
//! program `omosd` that serves it and says what its replies come to.
//!
//! Nothing here reads or writes but the line.
#![tactic(auto)]

mod command;
mod frames;
mod line;
mod names;
mod objects;
mod replies;
mod serving;

pub use command::omosd_workload;
pub use frames::stream;
