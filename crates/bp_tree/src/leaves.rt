//! Reading of single tokens, names and lists of names.

ghost use Rattle.std.specs.Prelude.{◌≡◌, ◌∷◌, [], map, ◌++◌, All, codes, IsTrue, ◌↔◌};
ghost use Rattle.omos_base.specs.Fault.{MatchFault};
ghost use Rattle.omos_base.specs.SymNames.{IsSymName};
ghost use Rattle.bp_tree.specs.Tokens as token;
ghost use Rattle.bp_tree.specs.inside.Pending.{pending};
ghost use Rattle.bp_tree.specs.inside.Symbols.{It, AName, Names, AreRead, Fails};

use crate::stop::Stop;
use crate::token::{Reader, Token};
use omos_base::{Fault, SymName};
use omos_model::BpFault;
use sqlite_items::Items;
use std::alloc::Global;

/// What comes after a `(`.
pub(crate) fn open<'a>(from: Reader<'a>) -> Result<Reader<'a>, Fault<Stop>>
    ensures { MatchFault result (λ r. AreRead (It token.Open ∷ []) (λ ws. ws ≡ token.Open ∷ [])
        (pending from.entry) (pending r)) (Fails (It token.Open ∷ []) (pending from.entry)) }
{
    match from.next() {
        None => Err(Fault::Refused(Stop::Early)),
        Some(next) => match next.token {
            Token::Open => Ok(next.after),
            _ => Err(Fault::Refused(Stop::At(BpFault::Shape(next.place)))),
        },
    }
}

/// What comes after a `)`.
pub(crate) fn close<'a>(from: Reader<'a>) -> Result<Reader<'a>, Fault<Stop>>
    ensures { MatchFault result (λ r. AreRead (It token.Close ∷ []) (λ ws. ws ≡ token.Close ∷ [])
        (pending from.entry) (pending r)) (Fails (It token.Close ∷ []) (pending from.entry)) }
{
    match from.next() {
        None => Err(Fault::Refused(Stop::Early)),
        Some(next) => match next.token {
            Token::Close => Ok(next.after),
            _ => Err(Fault::Refused(Stop::At(BpFault::Shape(next.place)))),
        },
    }
}

/// Whether the bytes are the same.
pub(crate) fn same(left: &[u8], right: &[u8]) -> bool
    ensures { IsTrue result ↔ (left.now ≡ right.now) }
{
    left == right
}

/// What comes after the word `image`.
pub(crate) fn image_word<'a>(from: Reader<'a>) -> Result<Reader<'a>, Fault<Stop>>
    ensures { MatchFault result (λ r. AreRead (It (token.Word (codes "image")) ∷ [])
        (λ ws. ws ≡ token.Word (codes "image") ∷ []) (pending from.entry) (pending r))
        (Fails (It (token.Word (codes "image")) ∷ []) (pending from.entry)) }
{
    match from.next() {
        None => Err(Fault::Refused(Stop::Early)),
        Some(next) => match next.token {
            Token::Word(word) => {
                if same(word, b"image") {
                    Ok(next.after)
                } else {
                    Err(Fault::Refused(Stop::At(BpFault::Shape(next.place))))
                }
            }
            _ => Err(Fault::Refused(Stop::At(BpFault::Shape(next.place)))),
        },
    }
}

/// A name, and what comes after it.
pub(crate) fn name<'a>(
    alloc: Global,
    from: Reader<'a>,
) -> Result<(SymName, Reader<'a>), Fault<Stop>>
    ensures { MatchFault result (λ r. AreRead (AName ∷ [])
        (λ ws. (ws ≡ token.Word r.0 ∷ []) × IsSymName r.0) (pending from.entry) (pending r.1))
        (Fails (AName ∷ []) (pending from.entry)) }
{
    match from.next() {
        None => Err(Fault::Refused(Stop::Early)),
        Some(next) => match next.token {
            Token::Word(word) => match SymName::read(alloc, word) {
                Ok(name) => Ok((name, next.after)),
                Err(Fault::Refused(_)) => {
                    Err(Fault::Refused(Stop::At(BpFault::Shape(next.place))))
                }
                Err(Fault::NoMemory) => Err(Fault::NoMemory),
            },
            _ => Err(Fault::Refused(Stop::At(BpFault::Shape(next.place)))),
        },
    }
}

/// The names up to a `)`, and what comes after it.
pub(crate) fn names<'a>(
    alloc: Global,
    from: Reader<'a>,
) -> Result<(Items<SymName>, Reader<'a>), Fault<Stop>>
    ensures { MatchFault result (λ r. AreRead (Names ∷ [])
        (λ ws. (ws ≡ map token.Word r.0 ++ token.Close ∷ []) × All IsSymName r.0)
        (pending from.entry) (pending r.1)) (Fails (Names ∷ []) (pending from.entry)) }
{
    let mut names = Items::new(alloc);
    let mut rest = from;
    'names: loop {
        match rest.next() {
            None => return Err(Fault::Refused(Stop::Early)),
            Some(next) => match next.token {
                Token::Close => return Ok((names, next.after)),
                Token::Word(word) => {
                    match SymName::read(alloc, word) {
                        Ok(name) => names.push(name)?,
                        Err(Fault::Refused(_)) => {
                            return Err(Fault::Refused(Stop::At(BpFault::Shape(next.place))));
                        }
                        Err(Fault::NoMemory) => return Err(Fault::NoMemory),
                    }
                    rest = next.after;
                }
                _ => return Err(Fault::Refused(Stop::At(BpFault::Shape(next.place)))),
            },
        }
    }
}
