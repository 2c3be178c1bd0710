//! A row of the table of refusals, over what it was made of.

/// A field of a refusal.
#[derive(Clone, Copy)]
pub enum Field<'a> {
    /// A number of 32 bits: a place, a section, a symbol, a node.
    Number(u32),
    /// A number of 64 bits: pages, an address.
    Wide(u64),
    /// The bytes of a path.
    Path(&'a [u8]),
    /// The bytes of a symbol's name.
    Symbol(&'a [u8]),
}

/// The fields of a refusal, in order.
#[derive(Clone, Copy)]
pub enum Fields<'a> {
    None,
    One(Field<'a>),
    Two(Field<'a>, Field<'a>),
    Three(Field<'a>, Field<'a>, Field<'a>),
}

/// A row of the table.
#[derive(Clone, Copy)]
pub struct Row<'a> {
    /// The name that a line prints: a letter and a number.
    pub name: &'static [u8],
    /// The code that a frame has.
    pub code: u8,
    /// What a line prints behind the name, and a frame has behind the code.
    pub fields: Fields<'a>,
}
