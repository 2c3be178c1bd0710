//! Writes the image to its file, and prints the reply.

ghost use Rattle.std.specs.Prelude.{◌≡◌, ◌≤◌};
ghost use Rattle.omos_outside.specs.Faults.{Rose};
ghost use Rattle.omos_wire.specs.Read.{answer_in};
ghost use Rattle.omos_client.specs.Telling.{EndsBy, Keeps, TellsReply};

use crate::ending::Ending;
use crate::line::line_for;
use omos_files::{FileBox, FileWrote};
use omos_outside::{Sent, Sink, write_all};
use omos_wire::ReplyParts;
use std::alloc::Global;

/// Writes an image to its file. Of other replies nothing is written.
fn keep<F: FileBox>(reply: &ReplyParts, files: &mut F, file: &str) -> FileWrote
    ensures kept { Keeps result (answer_in reply.now) (F.files files.old) (F.files files.new)
        file.now }
    ensures later { F.faults files.old ≤ F.faults files.new }
    ensures failed { result ≡ FileWrote.Failed → Rose (F.faults files.old) (F.faults files.new) }
{
    match reply {
        ReplyParts::Image { bytes, .. } => files.write_all(file, bytes.as_slice()),
        _ => FileWrote::Done,
    }
}

/// How a run ends whose reply was printed.
fn ending_for(reply: &ReplyParts) -> Ending
    ensures { EndsBy result (answer_in reply.now) }
{
    match reply {
        ReplyParts::Refused(_) | ReplyParts::Full | ReplyParts::KeptFull => Ending::Refused,
        ReplyParts::NoMemory => Ending::ServerNoMemory,
        _ => Ending::Done,
    }
}

/// Writes the image, where the reply is one, and then prints the reply's line.
pub(crate) fn tell<F: FileBox, O: Sink>(
    alloc: Global,
    reply: &ReplyParts,
    files: &mut F,
    file: &str,
    out: &mut O,
) -> Ending
    ensures told { TellsReply result (answer_in reply.now) file.now
        (F.files files.old) (F.files files.new) (O.held out.old) (O.held out.new) }
    ensures later { (F.faults files.old ≤ F.faults files.new)
        × (O.faults out.old ≤ O.faults out.new) }
    ensures file_failed { result ≡ Ending.FileFailed
        → Rose (F.faults files.old) (F.faults files.new) }
    ensures output_failed { result ≡ Ending.OutputFailed
        → Rose (O.faults out.old) (O.faults out.new) }
{
    match keep(reply, files, file) {
        FileWrote::Done => {}
        FileWrote::Failed => return Ending::FileFailed,
        FileWrote::NoMemory => return Ending::NoMemory,
    }
    let Ok(line) = line_for(alloc, reply) else {
        return Ending::NoMemory;
    };
    match write_all(out, line.as_slice()) {
        Sent::All => ending_for(reply),
        Sent::Failed => Ending::OutputFailed,
    }
}
