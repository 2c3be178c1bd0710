//! A text's tokens, one after the other.

ghost use Rattle.std.specs.Prelude.{◌≡◌, ◌≤◌, [], false, take, drop, length, MatchOption, IsTrue};
ghost use Rattle.std.specs.List.{list_all};
ghost use Rattle.omos_model.specs.Names.{is_name_byte};
ghost use Rattle.bp_tree.specs.Tokens.{begins_word};
ghost use Rattle.bp_tree.specs.Tokens as spec;
ghost use Rattle.bp_tree.specs.inside.Pending.{pending, begins_comment, AtByte, AtToken};
ghost use Rattle.bp_tree.specs.inside.Pending.{IsFirstWord, IsNextToken};

use crate::token::{Next, Reader, Token};
use omos_base::is_name_byte;

/// Whether the byte separates tokens.
fn is_blank(byte: u8) -> bool
    ensures { result ≡ spec.is_blank byte }
{
    byte == b' ' || byte == b'\t' || byte == b'\n' || byte == b'\r'
}

/// Whether the bytes begin with a comment.
fn starts_comment(bytes: &[u8]) -> bool
    ensures { result ≡ begins_comment bytes.now }
{
    match bytes {
        [] => false,
        [byte, ..] => *byte == b';',
    }
}

/// How many bytes that a word may have come first.
fn run_size(bytes: &[u8]) -> usize
    ensures within { result ≤ length bytes.now }
    ensures word { IsTrue (list_all is_name_byte (take result bytes.now)) }
    ensures longest { begins_word (drop result bytes.now) ≡ false }
{
    for (size, byte) in bytes.iter().enumerate() {
        if !is_name_byte(*byte) {
            return size;
        }
    }
    bytes.len()
}

/// How many bytes the word has that the bytes begin with, where they do.
#[tactic(auto, using(crate::proofs::Runs::first_word, crate::proofs::Runs::no_word))]
fn word_size(bytes: &[u8]) -> Option<usize>
    ensures { MatchOption result (begins_word bytes.now ≡ false)
        (λ size. IsFirstWord size bytes.now) }
{
    let size = run_size(bytes);
    if size == 0 { None } else { Some(size) }
}

impl<'a> Reader<'a> {
    /// Goes past blanks and comments, byte by byte.
    fn skip_comments(self) -> Reader<'a>
        ensures same { pending result ≡ pending self.entry }
        ensures at { AtToken result.rest.now }
    {
        let mut rest = self.rest;
        let mut place = self.place;
        let mut comment = false;
        'bytes: while let Some((byte, more)) = rest.split_first() {
            if comment {
                comment = *byte != b'\n';
            } else if *byte == b';' {
                comment = true;
            } else if !is_blank(*byte) {
                break;
            }
            rest = more;
            place += 1;
        }
        Reader { rest, place }
    }

    /// Goes past blanks.
    #[tactic(auto, using(crate::proofs::Runs::blank_step))]
    fn skip_blanks(self) -> Reader<'a>
        ensures same { pending result ≡ pending self.entry }
        ensures at { AtByte result.rest.now }
    {
        let mut rest = self.rest;
        let mut place = self.place;
        'blanks: while let Some((byte, more)) = rest.split_first() {
            if !is_blank(*byte) {
                break;
            }
            rest = more;
            place += 1;
        }
        Reader { rest, place }
    }

    /// Goes past blanks and comments: past blanks alone first, since few tokens stand behind a
    /// comment.
    #[tactic(auto, using(crate::proofs::Runs::at_token))]
    fn skip(self) -> Reader<'a>
        ensures same { pending result ≡ pending self.entry }
        ensures at { AtToken result.rest.now }
    {
        let reader = self.skip_blanks();
        if starts_comment(reader.rest) {
            reader.skip_comments()
        } else {
            reader
        }
    }

    /// The first token, or none at the end.
    #[tactic(auto, using(crate::proofs::Runs::word_at))]
    pub(crate) fn next(self) -> Option<Next<'a>>
        ensures { MatchOption result (pending self.entry ≡ []) (IsNextToken (pending self.entry)) }
    {
        let Reader { rest, place } = self.skip();
        if let Some(size) = word_size(rest) {
            let (word, more) = rest.split_at(size);
            return Some(Next {
                token: Token::Word(word),
                place,
                after: Reader {
                    rest: more,
                    place: place + size as u32,
                },
            });
        }
        let (byte, more) = rest.split_first()?;
        let token = match *byte {
            b'(' => Token::Open,
            b')' => Token::Close,
            byte => Token::Barred(byte),
        };
        Some(Next {
            token,
            place,
            after: Reader {
                rest: more,
                place: place + 1,
            },
        })
    }
}
