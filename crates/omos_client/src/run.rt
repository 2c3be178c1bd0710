//! One request to a server, its reply, and the line that tells it.

ghost use Rattle.std.specs.Prelude.{◌≡◌, ◌↔◌, ◌⊎◌, ◌≤◌, ◌∷◌, [], Contains, None, Some};
ghost use Rattle.std.specs.Prelude.{is_some, length, map, string_bytes};
ghost use Rattle.omos_outside.specs.Faults.{Rose};
ghost use Rattle.omos_client.specs.Errands.{Asked, asked_by, asked_of};
ghost use Rattle.omos_client.specs.Runs.{outside, FollowsSending, RanAsked, RunsTo};
ghost use Rattle.omos_client.specs.Ends.{client_status};
ghost use Rattle.omos_client.specs.Telling.{TellsReply};
ghost use Rattle.omos_wire.specs.Read.{answer_in};

use crate::ending::Ending;
use crate::errand::{Errand, errand_of};
use crate::receiving::{Unheard, hear};
use crate::sending::{Unsent, send};
use crate::telling::tell;
use omos_files::FileBox;
use omos_outside::{Sink, Source};
use omos_wire::ReplyParts;
use std::alloc::Global;

/// Tells a reply, and lets go of it.
fn tell_and_drop<F: FileBox, O: Sink>(
    alloc: Global,
    reply: ReplyParts,
    files: &mut F,
    file: &str,
    out: &mut O,
) -> Ending
    ensures told { TellsReply result (answer_in reply) file.now
        (F.files files.old) (F.files files.new) (O.held out.old) (O.held out.new) }
    ensures later { (F.faults files.old ≤ F.faults files.new)
        × (O.faults out.old ≤ O.faults out.new) }
    ensures file_failed { result ≡ Ending.FileFailed
        → Rose (F.faults files.old) (F.faults files.new) }
    ensures output_failed { result ≡ Ending.OutputFailed
        → Rose (O.faults out.old) (O.faults out.new) }
{
    tell(alloc, &reply, files, file, out)
}

/// Reads the reply to a request that was sent, and tells it.
fn finish<S: Source, F: FileBox, O: Sink>(
    alloc: Global,
    errand: &Errand<'_>,
    from: &mut S,
    files: &mut F,
    out: &mut O,
) -> Ending
    ensures follows { FollowsSending result (asked_of errand.now)
        (outside (F.files files.old) (S.told from.old) None (O.held out.old))
        (outside (F.files files.new) (S.told from.new) None (O.held out.new)) }
    ensures later { (F.faults files.old ≤ F.faults files.new)
        × (S.faults from.old ≤ S.faults from.new) × (O.faults out.old ≤ O.faults out.new) }
    ensures source_failed { result ≡ Ending.SourceFailed
        → Rose (S.faults from.old) (S.faults from.new) }
    ensures file_failed { result ≡ Ending.FileFailed
        → Rose (F.faults files.old) (F.faults files.new) }
    ensures output_failed { result ≡ Ending.OutputFailed
        → Rose (O.faults out.old) (O.faults out.new) }
{
    match hear(alloc, from, errand.command) {
        Ok(reply) => tell_and_drop(alloc, reply, files, errand.file, out),
        Err(Unheard::SourceFailed) => Ending::SourceFailed,
        Err(Unheard::Ended) => Ending::Ended,
        Err(Unheard::NotReply) => Ending::NotReply,
        Err(Unheard::NoMemory) => Ending::NoMemory,
    }
}

/// Sends the request of an errand, reads its reply and tells it.
fn run<S: Source, K: Sink, F: FileBox, O: Sink>(
    alloc: Global,
    errand: &Errand<'_>,
    from: &mut S,
    to: &mut K,
    files: &mut F,
    out: &mut O,
) -> Ending
    requires { length (asked_of errand.now).path ≤ 2000 }
    ensures runs { RunsTo result (asked_of errand.now)
        (outside (F.files files.old) (S.told from.old) (K.held to.old) (O.held out.old))
        (outside (F.files files.new) (S.told from.new) (K.held to.new) (O.held out.new)) }
    ensures source_failed { result ≡ Ending.SourceFailed
        → Rose (S.faults from.old) (S.faults from.new) }
    ensures sink_failed { result ≡ Ending.SinkFailed
        → Rose (K.faults to.old) (K.faults to.new) }
    ensures file_failed { result ≡ Ending.FileFailed
        → Rose (F.faults files.old) (F.faults files.new) }
    ensures output_failed { result ≡ Ending.OutputFailed
        → Rose (O.faults out.old) (O.faults out.new) }
{
    match send(alloc, errand, files, to) {
        Ok(()) => finish(alloc, errand, from, files, out),
        Err(Unsent::FileFailed) => Ending::FileFailed,
        Err(Unsent::FileTooLong) => Ending::FileTooLong,
        Err(Unsent::SinkFailed) => Ending::SinkFailed,
        Err(Unsent::NoMemory) => Ending::NoMemory,
    }
}

/// Whether the words ask for something: `SOCKET`, and then `put PATH FILE`, `blueprint PATH FILE`,
/// `link PATH FILE`, `where PATH`, `stats` or `flush PATH`, with a path of at most 2,000 bytes.
pub fn client_words(words: &[String]) -> bool
    ensures { result ≡ is_some (asked_by (map string_bytes words.now)) }
{
    errand_of(words).is_some()
}

/// Sends the request that the words ask for, and End; reads its reply, and Bye; writes an image to
/// its file; and prints the reply's line.
///
/// The result is the status: 0 the server did it; 1 it refused or was full, which the line says; 2
/// the words ask for nothing; 3 the link's source failed; 4 its sink failed; 5 the bytes that came
/// are no reply, or one that the request can't have, or not Bye; 6 a file couldn't be read or
/// written; 7 the link ended inside or before the two replies; 8 there was no memory, which is the
/// one answer whose cause no clause can give; 10 the file has more than 2,000,000 bytes; 11 the
/// output failed; 12 the server had no memory, which the line says.
pub fn client<S: Source, K: Sink, F: FileBox, O: Sink>(
    alloc: Global,
    words: &[String],
    from: &mut S,
    to: &mut K,
    files: &mut F,
    out: &mut O,
) -> u8
    // The words alone decide, and then nothing is read or written.
    ensures usage { (result ≡ 2) ↔ (asked_by (map string_bytes words.now) ≡ None) }
    ensures idle { result ≡ 2 → (from.new ≡ from.old) × (to.new ≡ to.old)
        × (files.new ≡ files.old) × (out.new ≡ out.old) }

    // What was sent, what came, what was written, and what was printed, by how the run ends.
    ensures ran { (result ≡ 2) ⊎ RanAsked result (asked_by (map string_bytes words.now))
        (outside (F.files files.old) (S.told from.old) (K.held to.old) (O.held out.old))
        (outside (F.files files.new) (S.told from.new) (K.held to.new) (O.held out.new)) }

    // A failure has its cause in this call.
    ensures source_failed { result ≡ 3 → Rose (S.faults from.old) (S.faults from.new) }
    ensures sink_failed { result ≡ 4 → Rose (K.faults to.old) (K.faults to.new) }
    ensures file_failed { result ≡ 6 → Rose (F.faults files.old) (F.faults files.new) }
    ensures output_failed { result ≡ 11 → Rose (O.faults out.old) (O.faults out.new) }
{
    let Some(errand) = errand_of(words) else {
        return Ending::Usage.status();
    };
    run(alloc, &errand, from, to, files, out).status()
}
