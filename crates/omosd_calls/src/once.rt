//! One object in, its image out.

ghost use Rattle.std.specs.Prelude.{◌≡◌, ◌≤◌, ◌↔◌, ◌∷◌, [], ℕ, List, length, Contains};
ghost use Rattle.omos_outside.specs.Faults.{Rose};
ghost use Rattle.omosd_calls.specs.Input.{HasRead, ToldInput};
ghost use Rattle.omosd_calls.specs.Output.{HasWritten, HasWrittenPart, ToldOutput};
ghost use Rattle.omosd_calls.specs.Once.{Answered, IsOutput, WroteLine};
ghost use Rattle.omosd_calls.specs.Words.{IsOnce};
ghost use Rattle.omosd_calls.specs.Lone.{IsLoneImage, IsRefusalLine};

use crate::cause::{Cause, line_of};
use crate::ending::Ending;
use crate::lone::lone_image;
use crate::reading::{Unread, read_file};
use crate::words::is_once;
use omos_base::{Bytes, Fault};
use omos_outside::{Sent, Sink, Source, write_all};
use seeded_hash::Seed;
use std::alloc::Global;

/// Writes the line that says why a file has no image.
fn write_line<K: Sink>(cause: &Cause, sink: &mut K) -> Ending
    ensures line { WroteLine result cause.now (K.held sink.old) (K.held sink.new) }
    ensures later { K.faults sink.old ≤ K.faults sink.new }
    ensures failed { result ≡ Ending.SinkFailed → Rose (K.faults sink.old) (K.faults sink.new) }
    ensures no_memory { result ≡ Ending.NoMemory → sink.new ≡ sink.old }
{
    match write_all(sink, line_of(cause).as_slice()) {
        Sent::All => Ending::Refused,
        Sent::Failed => Ending::SinkFailed,
    }
}

/// Writes the image of a file, or why it has none.
fn answer_file<K: Sink>(alloc: Global, seed: Seed, file: Bytes, sink: &mut K) -> Ending
    requires { length file ≤ 1048577 }
    ensures answer { Answered result file (K.held sink.old) (K.held sink.new) }
    ensures later { K.faults sink.old ≤ K.faults sink.new }
    ensures failed { result ≡ Ending.SinkFailed → Rose (K.faults sink.old) (K.faults sink.new) }
    ensures no_memory { result ≡ Ending.NoMemory → sink.new ≡ sink.old }
{
    match lone_image(alloc, seed, file) {
        Ok(image) => match write_all(sink, image.as_slice()) {
            Sent::All => Ending::Done,
            Sent::Failed => Ending::SinkFailed,
        },
        Err(Fault::Refused(cause)) => write_line(&cause, sink),
        Err(Fault::NoMemory) => Ending::NoMemory,
    }
}

/// Reads an object from the source, to its end or to 1,048,577 bytes, and writes to the sink its
/// static executable at 0x00400000, or the line that says why it is refused. The table of the
/// object's names hashes by the seed.
///
/// The result is the status: 0 the image was written; 1 the line was written; 2 the words aren't
/// the one word `once`; 3 the source failed; 4 the sink failed; 8 there was no memory, which is
/// the one answer whose cause no clause can give.
pub fn omosd_once<S: Source, K: Sink>(
    alloc: Global,
    seed: Seed,
    words: &[String],
    source: &mut S,
    sink: &mut K,
) -> u8
    ensures statuses { Contains (0 ∷ 1 ∷ 2 ∷ 3 ∷ 4 ∷ 8 ∷ []) result }

    // The words alone decide, and then nothing is read or written.
    ensures usage { (result ≡ 2) ↔ (IsOnce words.now → ⊥) }
    ensures idle { result ≡ 2 → (source.new ≡ source.old) × (sink.new ≡ sink.old) }

    // The image of the file that was read, and nothing else, was written: under 0 alone.
    ensures done { result ≡ 0 → HasRead (S.told source.old) (S.told source.new)
        (λ file. HasWritten (K.held sink.old) (K.held sink.new) (IsLoneImage file)) }
    ensures done_where { (file output : List ℕ) → IsOnce words.now
        → ToldInput (S.told source.old) (S.told source.new) file → IsLoneImage file output
        → ToldOutput (K.held sink.old) (K.held sink.new) output → result ≡ 0 }

    // The line of its refusal, and nothing else, was written: under 1 alone.
    ensures refused { result ≡ 1 → HasRead (S.told source.old) (S.told source.new)
        (λ file. HasWritten (K.held sink.old) (K.held sink.new) (IsRefusalLine file)) }
    ensures refused_where { (file output : List ℕ) → IsOnce words.now
        → ToldInput (S.told source.old) (S.told source.new) file → IsRefusalLine file output
        → ToldOutput (K.held sink.old) (K.held sink.new) output → result ≡ 1 }

    // The source failed, and nothing was written.
    ensures source_failed { result ≡ 3 → Rose (S.faults source.old) (S.faults source.new) }
    ensures unwritten { result ≡ 3 → sink.new ≡ sink.old }

    // The sink failed, with the front of the image or of the line written, and not all of it.
    ensures sink_failed { result ≡ 4 → Rose (K.faults sink.old) (K.faults sink.new) }
    ensures part { result ≡ 4 → HasRead (S.told source.old) (S.told source.new)
        (λ file. HasWrittenPart (K.held sink.old) (K.held sink.new) (IsOutput file)) }

    // There was no memory, and nothing was written.
    ensures no_memory { result ≡ 8 → sink.new ≡ sink.old }
{
    if !is_once(words) {
        return Ending::Usage.status();
    }
    match read_file(alloc, source) {
        Ok(file) => answer_file(alloc, seed, file, sink).status(),
        Err(Unread::SourceFailed) => Ending::SourceFailed.status(),
        Err(Unread::NoMemory) => Ending::NoMemory.status(),
    }
}
