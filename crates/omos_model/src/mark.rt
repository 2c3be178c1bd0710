//! What a reference is inside a module, and what it lands on in a whole program.

use crate::entry::Entry;
use dict_row::DictRow;
use omos_base::{Shared, SymName};

/// A spot of one leaf. Leaves are counted from 0, from left to right.
#[derive(Clone, Copy, Debug, PartialEq, Eq)]
pub enum Target {
    /// A byte of a piece of a leaf, or the place behind its last byte.
    Inside { leaf: u32, piece: u32, offset: u32 },
    /// An address that no placing changes.
    Fixed { value: u64 },
}

/// A reference at the top of a module.
#[derive(Debug, Drop)]
pub enum Mark {
    /// It has its target, and keeps it.
    Bound(Target),
    /// It waits for a definition of this name.
    Open(SymName),
}

/// A reference of a whole program.
#[derive(Debug, Drop)]
pub enum Landing {
    On(Target),
    /// Nothing defines the name under which it was open.
    Nothing(SymName),
}

/// A leaf of a module.
#[derive(Drop)]
pub struct MarkRow {
    /// The leaf's number.
    pub number: u32,
    /// Its object.
    pub entry: Shared<Entry>,
    /// One mark for each fixup of the object, in order.
    pub marks: DictRow<Mark>,
}
