//! Files that are read and written whole, by name, with a count of faults.
//!
//! The trait says what a caller may rely on; the form in memory fails at listed calls. The form
//! over
//! the file system stands in omos_adapt. Nothing here reads a part of a file, lists a folder or
//! removes a file.
#![tactic(auto)]

mod calls;
mod files;
mod memory_files;
mod placing;

pub use files::{FileBox, FileRead, FileWrote};
pub use memory_files::MemoryFiles;
