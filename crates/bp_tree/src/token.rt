//! The tokens of a text: parentheses and words, each with the place of its first byte.

ghost use Rattle.std.specs.Prelude.{◌+◌, ◌≤◌, length};

/// A parenthesis, a word, or a byte that may not stand in a text.
#[derive(Clone, Copy)]
pub(crate) enum Token<'a> {
    Open,
    Close,
    Word(&'a [u8]),
    Barred(u8),
}

/// What is left of a text, and the place at which it begins.
#[derive(Clone, Copy)]
pub(crate) struct Reader<'a> {
    pub(crate) rest: &'a [u8],
    pub(crate) place: u32,
    ghost fits: { place + length rest.now ≤ 65536 },
}

/// A token, its place, and what comes after it.
#[derive(Clone, Copy)]
pub(crate) struct Next<'a> {
    pub(crate) token: Token<'a>,
    pub(crate) place: u32,
    pub(crate) after: Reader<'a>,
}
