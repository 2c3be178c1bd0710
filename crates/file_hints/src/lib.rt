//! What a person may want to know of a file that was refused as an object, beside what the refusal
//! itself means: what kind of file it seems to be, and what its section, symbol or relocation of
//! the number that the refusal has is called.
//!
//! The file may be anything. Nothing here is sure to find a name, and nothing fails where there is
//! none: then nothing is said.
#![tactic(auto)]

mod elf;
mod guess;
mod hint;
mod numbers;
mod telling;
mod undefined;

pub use telling::tell_file;
