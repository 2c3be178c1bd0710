//! The base of the linker server: want of memory, lists of bytes and of values, numbers in bytes,
//! shared values, runs of shared bytes, the names of symbols and of entries, and the limits of a
//! store.
//!
//! Nothing here knows of objects or the outside.
#![tactic(auto)]

mod bytes;
mod fault;
mod fields;
mod limits;
mod packed;
mod part;
mod path_name;
mod row;
mod shared;
mod sym_name;

pub use bytes::Bytes;
pub use fault::{Fault, NoMemory};
pub use fields::{put_u16, put_u32, put_u64, u16_at, u32_at, u64_at};
pub use limits::Limits;
pub use part::Part;
pub use path_name::{PathFault, PathName};
pub use row::Row;
pub use shared::Shared;
pub use sym_name::{NameFault, SymName, is_name_byte};
