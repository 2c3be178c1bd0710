//! Blueprint text as an image.
//!
//! First the length, then the tokens by the grammar. Bytes that may not stand in a text are looked
//! for only where it is no image: they come before any other fault.

ghost use Rattle.std.specs.Prelude.{◌≡◌, ◌≤◌, [], All, length, MatchOption};
ghost use Rattle.omos_base.specs.Fault.{MatchFault};
ghost use Rattle.bp_tree.specs.Grammar.{IsImageOf};
ghost use Rattle.bp_tree.specs.inside.Header.{HasHead, image_syms};
ghost use Rattle.bp_tree.specs.inside.Pending.{pending};
ghost use Rattle.bp_tree.specs.inside.Symbols.{AreSyms, WhyStops};
ghost use Rattle.bp_tree.specs.TextFaults.{StandsInTexts, IsBarredAt, IsTextFault, images};
ghost use Rattle.bp_tree.specs.Texts.{IsText, words_of, max_room};

use crate::header::{range, start};
use crate::leaves::{close, image_word, open};
use crate::nodes::expr;
use crate::stop::Stop;
use crate::token::{Reader, Token};
use omos_base::Fault;
use omos_model::{BpFault, Image, Start};
use std::alloc::Global;

/// The place of the first byte that may not stand in a text.
fn first_barred(from: Reader) -> Option<u32>
    ensures { MatchOption result (All StandsInTexts (pending from.entry))
        (IsBarredAt (pending from.entry)) }
{
    let mut rest = from;
    'tokens: loop {
        match rest.next() {
            None => return None,
            Some(next) => match next.token {
                Token::Barred(_) => return Some(next.place),
                _ => rest = next.after,
            },
        }
    }
}

/// Nothing comes any more.
fn end(from: Reader) -> Result<(), Fault<Stop>>
    ensures { MatchFault result (λ _. pending from.entry ≡ [])
        (WhyStops (AreSyms []) (pending from.entry)) }
{
    match from.next() {
        None => Ok(()),
        Some(next) => Err(Fault::Refused(Stop::At(BpFault::Shape(next.place)))),
    }
}

/// The start and the range of an image, and what comes after them.
fn head<'a>(alloc: Global, from: Reader<'a>) -> Result<(Start, u64, u64, Reader<'a>), Fault<Stop>>
    ensures { MatchFault result (λ r. HasHead r.0 r.1 r.2 (pending from.entry) (pending r.3))
        (WhyStops (AreSyms image_syms) (pending from.entry)) }
{
    let opened = open(from)?;
    let named = image_word(opened)?;
    let (begin, behind) = start(alloc, named)?;
    let (lo, hi, rest) = range(behind)?;
    Ok((begin, lo, hi, rest))
}

/// The image that all the tokens are.
fn image(alloc: Global, from: Reader) -> Result<Image, Fault<Stop>>
    ensures { MatchFault result (λ i. IsImageOf max_room (words_of (pending from.entry)) i)
        (WhyStops images (pending from.entry)) }
{
    let (begin, lo, hi, rest) = head(alloc, from)?;
    let (body, behind) = expr(alloc, rest, 63)?;
    let closed = close(behind)?;
    match end(closed) {
        Err(fault) => Err(fault),
        Ok(()) => Ok(Image::of(begin, lo, hi, body)),
    }
}

/// The image that a text says. Linear in the text.
///
/// The fault is the first of these: Long above 65,536 bytes; Byte at the first byte that no token
/// and no comment may have; or the one of the first token with which nothing begins an image any
/// more, at its first byte: Deep where it opens the 65th parenthesis, Number where a number has to
/// stand and the word is none, Range where it is a number that a range may not have there, and
/// else Shape; or Shape at the text's length, where all tokens only begin an image.
pub fn parse(alloc: Global, text: &[u8]) -> Result<Image, Fault<BpFault>>
    ensures parsed { MatchFault result
        (λ image. IsText text.now image × (length text.now ≤ 65536)) (IsTextFault text.now) }
{
    if text.len() > 65_536 {
        return Err(Fault::Refused(BpFault::Long));
    }
    let reader = Reader {
        rest: text,
        place: 0,
    };
    match image(alloc, reader) {
        Ok(image) => Ok(image),
        Err(Fault::NoMemory) => Err(Fault::NoMemory),
        Err(Fault::Refused(stop)) => match first_barred(reader) {
            Some(place) => Err(Fault::Refused(BpFault::Byte(place))),
            None => match stop {
                Stop::Early => Err(Fault::Refused(BpFault::Shape(text.len() as u32))),
                Stop::At(fault) => Err(Fault::Refused(fault)),
            },
        },
    }
}
