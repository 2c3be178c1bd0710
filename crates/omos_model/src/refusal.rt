//! Why an object, a text or a link is refused. The names in front are those that are printed.

use omos_base::{PathName, SymName};
use thiserror::Error;

/// A node of a blueprint's expression.
#[derive(Debug, Drop)]
pub struct Site {
    /// The blueprint's path.
    pub path: PathName,
    /// The node's number, from 0 in the order in which the nodes begin in the text.
    pub node: u32,
}

/// What is wrong with an object file; section, symbol and entry numbers are the file's own.
#[derive(Debug, Drop, Error)]
pub enum ObjectFault {
    /// O1
    #[error("the file is too short or too long")]
    Length,
    /// O2
    #[error("the file is no little-endian ELF64 file")]
    NotElf,
    /// O3
    #[error("the file is no relocatable x86-64 object")]
    Kind,
    /// O4
    #[error("the section headers are wrong or missing")]
    Headers,
    /// O5
    #[error("section {0} has a wrong alignment, size or place")]
    Section(u32),
    /// O6
    #[error("section {0} is of an unsupported form")]
    Unsupported(u32),
    /// O7
    #[error("the symbol table is wrong")]
    Symbols,
    /// O8
    #[error("symbol {0} is wrong")]
    Symbol(u32),
    /// O9
    #[error("a name is defined twice")]
    Twice(SymName),
    /// O10
    #[error("relocation section {0} is wrong")]
    Relas(u32),
    /// O11
    #[error("entry {1} of relocation section {0} is wrong")]
    Rela(u32, u32),
}

/// What is wrong with a blueprint's text; places are byte numbers from 0.
#[derive(Clone, Copy, Debug, PartialEq, Eq, Error)]
pub enum BpFault {
    /// B1
    #[error("the text is too long")]
    Long,
    /// B2
    #[error("byte {0} may not stand in a text")]
    Byte(u32),
    /// B3
    #[error("the text is no image from byte {0} on")]
    Shape(u32),
    /// B4
    #[error("parentheses nest too deep at byte {0}")]
    Deep(u32),
    /// B5
    #[error("there is no number at byte {0}")]
    Number(u32),
    /// B6
    #[error("the range is wrong at byte {0}")]
    Range(u32),
}

/// Why a link has no image.
#[derive(Debug, Drop, Error)]
pub enum Refusal {
    /// L1
    #[error("nothing is published under the path")]
    NoEntry {
        site: Site,
        path: PathName,
    },
    /// L2
    #[error("the blueprint leads back to itself")]
    Cycle {
        site: Site,
        path: PathName,
    },
    /// L3
    #[error("too many blueprints stand inside one another")]
    TooDeep {
        site: Site,
        path: PathName,
    },
    /// L4
    #[error("the blueprint is too large")]
    TooLarge {
        site: Site,
    },
    /// L5
    #[error("both sides of a merge define the name")]
    Conflict {
        site: Site,
        name: SymName,
    },
    /// L6
    #[error("the name to be renamed is neither defined nor open")]
    NoName {
        site: Site,
        name: SymName,
    },
    /// L7
    #[error("the name is not defined")]
    NoDefinition {
        site: Site,
        name: SymName,
    },
    /// L8
    #[error("the new name is taken")]
    Taken {
        site: Site,
        name: SymName,
    },
    /// L9; pages of 4,096 bytes
    #[error("the image has {pages} pages")]
    ImageTooLarge {
        pages: u64,
    },
    /// L10
    #[error("the start is not defined")]
    NoStart {
        name: SymName,
    },
    /// L11
    #[error("fixup {fixup} of leaf {leaf} has no target")]
    Unresolved {
        leaf: u32,
        fixup: u32,
        name: SymName,
    },
    /// L12; pages of 4,096 bytes, addresses of the range
    #[error("no {pages} pages are free from {lo} to {hi}")]
    NoRoom {
        pages: u32,
        lo: u64,
        hi: u64,
    },
    /// L13
    #[error("the value of fixup {fixup} of leaf {leaf} does not fit its field")]
    Overflow {
        leaf: u32,
        fixup: u32,
    },
}
