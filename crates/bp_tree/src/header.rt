//! Reading of an image's start and range.

ghost use Rattle.std.specs.Prelude.{◌≡◌, ◌∷◌, [], MatchOption, IsTrue, IfOk, codes};
ghost use Rattle.omos_base.specs.Fault.{MatchFault};
ghost use Rattle.omos_base.specs.SymNames.{IsSymName};
ghost use Rattle.bp_tree.specs.Grammar.{IsStart, IsRange};
ghost use Rattle.bp_tree.specs.inside.Header.{IsOpening, IsHeaderPart, body_syms, range_syms};
ghost use Rattle.bp_tree.specs.inside.Pending.{pending};
ghost use Rattle.bp_tree.specs.inside.Symbols.{It, AName, AStart, ARange, AreSyms, AreRead, Fails};
ghost use Rattle.bp_tree.specs.inside.Symbols.{WhyStops};
ghost use Rattle.bp_tree.specs.Tokens as token;

use crate::bounds::bounds;
use crate::leaves::{close, name, same};
use crate::stop::Stop;
use crate::token::{Reader, Token};
use omos_base::{Fault, NoMemory, SymName};
use omos_model::Start;
use std::alloc::Global;

/// The word behind a `(`, where the next two tokens are such, and what comes after it.
fn opening<'a>(from: Reader<'a>) -> Option<(&'a [u8], Reader<'a>)>
    ensures { MatchOption result ((k : _) (after : _) → IsOpening (pending from.entry) k after → ⊥)
        (λ r. IsOpening (pending from.entry) r.0.now (pending r.1)) }
{
    match from.next() {
        None => None,
        Some(first) => match first.token {
            Token::Open => match first.after.next() {
                None => None,
                Some(second) => match second.token {
                    Token::Word(word) => Some((word, second.after)),
                    _ => None,
                },
            },
            _ => None,
        },
    }
}

/// The name of the start where nothing says it.
fn usual_start(alloc: Global) -> Result<SymName, NoMemory>
    ensures { IfOk result (λ name. name ≡ codes "_start") }
{
    match SymName::read(alloc, b"_start") {
        Ok(name) => Ok(name),
        Err(_) => Err(NoMemory),
    }
}

/// The name and the parenthesis behind `(entry`.
fn entry<'a>(alloc: Global, from: Reader<'a>) -> Result<(SymName, Reader<'a>), Fault<Stop>>
    ensures { MatchFault result (λ r. AreRead (AName ∷ It token.Close ∷ [])
        (λ ws. (ws ≡ token.Word r.0 ∷ token.Close ∷ []) × IsSymName r.0)
        (pending from.entry) (pending r.1))
        (Fails (AName ∷ It token.Close ∷ []) (pending from.entry)) }
{
    match name(alloc, from) {
        Err(fault) => Err(fault),
        Ok((name, after)) => match close(after) {
            Err(fault) => Err(fault),
            Ok(after) => Ok((name, after)),
        },
    }
}

/// The start, and what comes after it.
pub(crate) fn start<'a>(alloc: Global, from: Reader<'a>) -> Result<(Start, Reader<'a>), Fault<Stop>>
    ensures { MatchFault result (λ r. IsHeaderPart AStart range_syms (λ ws. IsStart ws r.0)
        (pending from.entry) (pending r.1))
        (WhyStops (AreSyms (AStart ∷ range_syms)) (pending from.entry)) }
{
    match opening(from) {
        None => Ok((Start::Named(usual_start(alloc)?), from)),
        Some((word, after)) => {
            if same(word, b"entry") {
                match entry(alloc, after) {
                    Err(fault) => Err(fault),
                    Ok((name, after)) => Ok((Start::Named(name), after)),
                }
            } else if same(word, b"no_entry") {
                match close(after) {
                    Err(fault) => Err(fault),
                    Ok(after) => Ok((Start::NoEntry, after)),
                }
            } else {
                Ok((Start::Named(usual_start(alloc)?), from))
            }
        }
    }
}

/// The range, and what comes after it.
pub(crate) fn range<'a>(from: Reader<'a>) -> Result<(u64, u64, Reader<'a>), Fault<Stop>>
    ensures { MatchFault result (λ r. IsHeaderPart ARange body_syms (λ ws. IsRange ws r.0 r.1)
        (pending from.entry) (pending r.2))
        (WhyStops (AreSyms (ARange ∷ body_syms)) (pending from.entry)) }
{
    match opening(from) {
        None => Ok((0x40_0000, 0x4000_0000, from)),
        Some((word, after)) => {
            if same(word, b"range") {
                match bounds(after) {
                    Err(fault) => Err(fault),
                    Ok((lo, hi, after)) => Ok((lo, hi, after)),
                }
            } else {
                Ok((0x40_0000, 0x4000_0000, from))
            }
        }
    }
}
