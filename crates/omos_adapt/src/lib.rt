//! The real outside, over the traits of omos_outside and omos_files: readers and writers of any
//! kind, connections through a socket file, and files.
//!
//! Each loops itself over calls that were interrupted or did a part, and counts its failures; none
//! tells what it gave or took, since no contract can say what the system does.
#![tactic(auto)]

mod door;
mod filling;
mod line;
mod reading;
mod real_files;
mod replacing;
mod sockets;
mod writing;

pub use door::SocketDoor;
pub use line::{LineSink, LineSource};
pub use reading::Reading;
pub use real_files::RealFiles;
pub use sockets::{connect, listen, remove_socket};
pub use writing::Writing;
