//! The records of ELF64 files (System V gABI, chapters 4 and 5), read from bytes and written to
//! them. All their numbers are stored with the lowest byte first.
//!
//! Nothing here tests a value: every number may stand in every field.
#![tactic(auto)]

mod ehdr;
mod fits;
mod phdr;
mod push;
mod put;
mod record;
mod rela;
mod shdr;
mod sym;
pub mod values;

pub use ehdr::Ehdr;
pub use phdr::Phdr;
pub use push::push_record;
pub use record::Record;
pub use rela::Rela;
pub use shdr::Shdr;
pub use sym::Sym;
