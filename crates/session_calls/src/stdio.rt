//! One session over a source and a sink, with a store of its own.

ghost use Rattle.std.specs.Prelude.{◌≡◌, ◌↔◌, ◌⊎◌, None, map, string_bytes};
ghost use Rattle.omos_outside.specs.Faults.{Rose};
ghost use Rattle.command_words.specs.Words.{stdio_words};
ghost use Rattle.session_calls.specs.Stdio.{HasServed, session_status};

use command_words::stdio_words;
use hub_store::Store;
use omos_base::NoMemory;
use omos_outside::{Sink, Source};
use omos_session::{SessionEnd, serve_owned};
use seeded_hash::Seed;
use std::alloc::Global;

/// The status that tells how a session ended.
fn status_of(end: SessionEnd) -> u8
    ensures { result ≡ session_status end }
{
    match end {
        SessionEnd::Ended | SessionEnd::Closed => 0,
        SessionEnd::ReadFault => 3,
        SessionEnd::WriteFault => 4,
        SessionEnd::Truncated(_) | SessionEnd::BadFrame(_, _) => 5,
        SessionEnd::TooMany => 6,
        SessionEnd::NoMemory => 8,
    }
}

/// Opens an empty store with the limits that the words `stdio CACHE STEPS` say, and serves seat 1
/// on it: reads the requests from the source and writes the replies to the sink. Tables of names
/// hash by the seed.
///
/// The result is the status: 0 an End was answered, or the source ended between two frames; 2 the
/// words are others; 3 the source failed; 4 the sink failed; 5 the source ended inside a frame, or
/// gave bytes that begin none; 6 a 65,537th frame came; 8 there was no memory for the store or a
/// buffer, which is the one answer whose cause no clause can give. It waits for nobody.
pub fn omosd_stdio<S: Source, K: Sink>(
    alloc: Global,
    seed: Seed,
    words: &[String],
    source: &mut S,
    sink: &mut K,
) -> u8
    // The words alone decide, and then nothing is read or written.
    ensures usage { (result ≡ 2) ↔ (stdio_words (map string_bytes words.now) ≡ None) }
    ensures idle { result ≡ 2 → (source.new ≡ source.old) × (sink.new ≡ sink.old) }

    // Each frame was answered as the record says, and the status tells the end; or there was no
    // memory for the store, and nothing was read or written.
    ensures served { (result ≡ 2)
        ⊎ ((result ≡ 8) × (source.new ≡ source.old) × (sink.new ≡ sink.old))
        ⊎ HasServed result (stdio_words (map string_bytes words.now))
        (S.told source.old) (S.told source.new) (K.held sink.old) (K.held sink.new) }

    // A failure has its cause in this call.
    ensures source_failed { result ≡ 3 → Rose (S.faults source.old) (S.faults source.new) }
    ensures sink_failed { result ≡ 4 → Rose (K.faults sink.old) (K.faults sink.new) }
{
    let Some(limits) = stdio_words(words) else {
        return 2;
    };
    match Store::open(alloc, seed, limits) {
        Ok(mut store) => status_of(serve_owned(alloc, &mut store, 1, source, sink)),
        Err(NoMemory) => 8,
    }
}
