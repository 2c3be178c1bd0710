//! A stream of requests, cut into pieces.

use crate::request::{cause_word, words_of};
use anyhow::{Context, Result, bail};
use omos_base::NoMemory;
use omos_wire::{Decoder, Found};
use std::alloc::Global;

/// The frame of End, which follows bytes that begin no frame.
const END: [u8; 5] = [1, 0, 0, 0, 7];

/// What came of a stream.
#[derive(Drop)]
struct Heard {
    /// How many bytes were fed.
    fed: usize,
    /// The requests, and what stands behind them.
    words: String,
    /// How many bytes were fed when each came.
    places: String,
}

impl Heard {
    /// Adds what came, and how many bytes were fed by then.
    fn add(&mut self, alloc: Global, words: &str) -> Result<()> {
        self.words.push_str(words)?;
        self.words.push_str("; ")?;
        self.places.push_str(&format!(in alloc; " {}", self.fed)?)?;
        Ok(())
    }
}

/// Takes in a piece. It stands apart from its caller, as the next does, so that it can be measured.
#[inline(never)]
fn feed(decoder: &mut Decoder, piece: &[u8]) -> Result<(), NoMemory> {
    decoder.feed(piece)
}

#[inline(never)]
fn next(decoder: &mut Decoder) -> Found<'_> {
    decoder.next()
}

/// The next request in words, or why there is none; and whether there is one.
fn next_words(alloc: Global, decoder: &mut Decoder) -> Result<(String, bool)> {
    match next(decoder) {
        Found::Request(request) => Ok((words_of(alloc, &request)?, true)),
        Found::More => Ok((String::new(alloc), false)),
        Found::Bad { place, cause } => {
            let cause = cause_word(cause);
            Ok((format!(in alloc; "bad at {place} by its {cause}")?, false))
        }
    }
}

/// Takes in a piece, and adds the requests that are then there. It is true once no frame begins.
fn take(alloc: Global, decoder: &mut Decoder, piece: &[u8], heard: &mut Heard) -> Result<bool> {
    feed(decoder, piece)?;
    heard.fed = heard.fed.saturating_add(piece.len());
    for _ in 0..=decoder.waiting() {
        let (words, is_request) = next_words(alloc, decoder)?;
        if words.is_empty() {
            return Ok(false);
        }
        heard.add(alloc, &words)?;
        if !is_request {
            return Ok(true);
        }
    }
    Ok(false)
}

/// Whether the decoder answers the same behind a whole frame, which comes after bytes that begin
/// none.
fn end_word(alloc: Global, decoder: &mut Decoder) -> Result<&'static str> {
    let (before, _) = next_words(alloc, decoder)?;
    feed(decoder, &END)?;
    let (after, _) = next_words(alloc, decoder)?;
    if before.as_str() == after.as_str() {
        Ok("for good")
    } else {
        Ok("not for good")
    }
}

/// What comes of a stream in pieces of this size.
fn hear(alloc: Global, stream: &[u8], size: usize) -> Result<Heard> {
    if size == 0 {
        bail!("pieces of no bytes");
    }
    let mut decoder = Decoder::new(alloc);
    let mut heard = Heard {
        fed: 0,
        words: String::new(alloc),
        places: String::new(alloc),
    };
    for piece in stream.chunks(size) {
        if take(alloc, &mut decoder, piece, &mut heard)? {
            heard.words.push_str(end_word(alloc, &mut decoder)?)?;
            return Ok(heard);
        }
    }
    let waiting = decoder.waiting();
    heard.words.push_str(&format!(in alloc; "{waiting} wait")?)?;
    Ok(heard)
}

/// The line of a stream: the requests, how many bytes wait behind them or where no frame begins;
/// and, by each size of the pieces, how many bytes were fed when each came.
pub(crate) fn stream_line(alloc: Global, sizes: &str, stream: &[u8]) -> Result<String> {
    let mut words = String::new(alloc);
    let mut places = String::new(alloc);
    for size in sizes.split_whitespace() {
        let heard = hear(alloc, stream, size.parse().context("a size")?)?;
        if words.is_empty() {
            words.push_str(&heard.words)?;
        }
        places.push_str(&format!(in alloc; "; by {size}:{}", heard.places)?)?;
        if words.as_str() != heard.words.as_str() {
            places.push_str(&format!(in alloc; " OTHERS: {}", heard.words)?)?;
        }
    }
    Ok(format!(in alloc; "{words}{places}")?)
}
