//! Sends the request, with what its file holds, and End behind it.

ghost use Rattle.std.specs.Prelude.{◌≡◌, ◌≤◌, ◌++◌, Err, IfOk, length};
ghost use Rattle.omos_outside.specs.Faults.{Rose};
ghost use Rattle.omos_wire.specs.Message.{frame, message_of, HasFrame};
ghost use Rattle.omos_wire.specs.Message as message;
ghost use Rattle.omos_client.specs.Errands.{asked_of};
ghost use Rattle.omos_client.specs.Sending.{Brings, BringsWith, Sends, message_by};

use crate::errand::{Command, Errand};
use omos_base::{Bytes, NoMemory};
use omos_files::{FileBox, FileRead};
use omos_outside::{Sent, Sink, write_all};
use omos_wire::{Request, request_frame};
use std::alloc::Global;

/// How many bytes a file may have that is sent.
const MOST_SENT: u32 = 2_000_000;

/// Why a request wasn't sent.
#[derive(Clone, Copy, Debug, PartialEq, Eq)]
pub enum Unsent {
    /// The file couldn't be read.
    FileFailed,
    /// The file has more than 2,000,000 bytes.
    FileTooLong,
    /// The link's sink failed.
    SinkFailed,
    /// There was no memory.
    NoMemory,
}

/// What a file holds that is to be sent.
fn read_file<F: FileBox>(files: &mut F, name: &str) -> Result<Bytes, Unsent>
    ensures brings { Brings result (F.files files.old) name.now }
    ensures few { IfOk result (λ bytes. length bytes ≤ 2000000) }
    ensures kept { F.files files.new ≡ F.files files.old }
    ensures later { F.faults files.old ≤ F.faults files.new }
    ensures failed { result ≡ Err Unsent.FileFailed
        → Rose (F.faults files.old) (F.faults files.new) }
{
    match files.read_all(name, MOST_SENT) {
        FileRead::Whole(bytes) => Ok(bytes),
        FileRead::TooLong => Err(Unsent::FileTooLong),
        FileRead::Failed => Err(Unsent::FileFailed),
        FileRead::NoMemory => Err(Unsent::NoMemory),
    }
}

/// What goes with a command: what its file holds, or nothing.
fn content_of<F: FileBox>(
    alloc: Global,
    files: &mut F,
    errand: &Errand<'_>,
) -> Result<Bytes, Unsent>
    ensures brings { let ask = asked_of errand.now in
        BringsWith ask.command result (F.files files.old) ask.file }
    ensures few { IfOk result (λ bytes. length bytes ≤ 2000000) }
    ensures kept { F.files files.new ≡ F.files files.old }
    ensures later { F.faults files.old ≤ F.faults files.new }
    ensures failed { result ≡ Err Unsent.FileFailed
        → Rose (F.faults files.old) (F.faults files.new) }
{
    match errand.command {
        Command::Put | Command::Blueprint => read_file(files, errand.file),
        Command::Link | Command::Where | Command::Stats | Command::Flush => Ok(Bytes::new(alloc)),
    }
}

/// The request of a command, with its path and its content.
fn request_of<'a>(command: Command, path: &'a [u8], content: &'a [u8]) -> Request<'a>
    ensures { message_of result ≡ message_by command path.now content.now }
{
    match command {
        Command::Put => Request::PutObject {
            path,
            object: content,
        },
        Command::Blueprint => Request::PutBlueprint {
            path,
            text: content,
        },
        Command::Link => Request::Link { path },
        Command::Where => Request::Places { path },
        Command::Stats => Request::Stats,
        Command::Flush => Request::Flush { path },
    }
}

/// The frames of the request and of End.
fn frames_of(alloc: Global, request: &Request<'_>) -> Result<Bytes, NoMemory>
    requires { HasFrame (message_of request.now) }
    ensures { IfOk result (λ bytes. bytes ≡ frame (message_of request.now) ++ frame message.End) }
{
    let mut bytes = request_frame(alloc, request)?;
    let end = request_frame(alloc, &Request::End)?;
    bytes.push_slice(end.as_slice())?;
    Ok(bytes)
}

/// Sends the request of an errand, and End behind it. Nothing is sent where its file can't be read.
pub(crate) fn send<F: FileBox, K: Sink>(
    alloc: Global,
    errand: &Errand<'_>,
    files: &mut F,
    to: &mut K,
) -> Result<(), Unsent>
    requires { length (asked_of errand.now).path ≤ 2000 }
    ensures sent { Sends result (asked_of errand.now) (F.files files.old)
        (K.held to.old) (K.held to.new) }
    ensures kept { F.files files.new ≡ F.files files.old }
    ensures later { (F.faults files.old ≤ F.faults files.new)
        × (K.faults to.old ≤ K.faults to.new) }
    ensures file_failed { result ≡ Err Unsent.FileFailed
        → Rose (F.faults files.old) (F.faults files.new) }
    ensures sink_failed { result ≡ Err Unsent.SinkFailed
        → Rose (K.faults to.old) (K.faults to.new) }
{
    let content = match content_of(alloc, files, errand) {
        Ok(content) => content,
        Err(unsent) => return Err(unsent),
    };
    let request = request_of(errand.command, errand.path.as_bytes(), content.as_slice());
    let Ok(bytes) = frames_of(alloc, &request) else {
        return Err(Unsent::NoMemory);
    };
    match write_all(to, bytes.as_slice()) {
        Sent::All => Ok(()),
        Sent::Failed => Err(Unsent::SinkFailed),
    }
}
