//! A socket file, a door and a connection through it.

ghost use Rattle.std.specs.Prelude.{◌≡◌};

use crate::report;
use anyhow::Result;
use omos_adapt::{LineSink, LineSource, SocketDoor, connect, listen, remove_socket};
use omos_outside::{Came, Door, Got, Sent, Sink, Source, write_all};
use std::fs;
use stream_reads::read_exactly;

const PATH: &str = "line";

const PLAIN: &str = "plain";

/// The source gives just these bytes next.
fn gives<S: Source>(rt: &HostRuntime, source: &mut S, wanted: &[u8]) -> bool {
    if wanted.len() > 1_000 {
        return false;
    }
    let mut bytes = Vec::new(rt.alloc());
    match read_exactly(source, &mut bytes, wanted.len()) {
        Ok(()) => bytes.as_slice() == wanted,
        Err(_) => false,
    }
}

/// The source has ended.
fn has_ended<S: Source>(source: &mut S) -> bool {
    let mut bytes = [0; 16];
    source.read(&mut bytes) == Got::End
}

/// What a server does with a link.
fn serve(rt: &HostRuntime, source: &mut LineSource, sink: &mut LineSink) -> Result<()> {
    report(
        rt,
        "the server gets what was sent",
        gives(rt, source, b"ask"),
    )?;
    report(
        rt,
        "the server answers",
        write_all(sink, b"told") == Sent::All,
    )
}

/// A client asks, the server answers and closes.
fn talk(rt: &HostRuntime, door: &mut SocketDoor) -> Result<()>
    requires fresh { (door.old.links ≡ 0) × (door.old.faults ≡ 0) }
{
    let (mut source, mut sink) = connect(rt, PATH)?;
    report(
        rt,
        "a client sends",
        write_all(&mut sink, b"ask") == Sent::All,
    )?;
    match door.accept() {
        Came::Link(mut theirs, mut ours) => {
            serve(rt, &mut theirs, &mut ours)?;
            door.done(theirs, ours);
        }
        Came::Shut | Came::Failed => report(rt, "a link comes", false)?,
    }
    report(
        rt,
        "the client gets the answer",
        gives(rt, &mut source, b"told"),
    )?;
    report(
        rt,
        "a link that was given back is closed",
        has_ended(&mut source),
    )?;
    let more = write_all(&mut sink, b"more");
    report(rt, "nothing more can be sent", more == Sent::Failed)
}

pub(crate) fn run(rt: &HostRuntime) -> Result<()> {
    remove_socket(rt, PATH);
    report(rt, "no server answers", connect(rt, PATH).is_err())?;
    let mut door = SocketDoor::new(listen(rt, PATH)?);
    talk(rt, &mut door)?;
    report(
        rt,
        "a server that lives isn't replaced",
        listen(rt, PATH).is_err(),
    )?;
    drop(door);
    report(
        rt,
        "a server that died doesn't answer",
        connect(rt, PATH).is_err(),
    )?;
    report(
        rt,
        "a server that died is replaced",
        listen(rt, PATH).is_ok(),
    )?;
    remove_socket(rt, PATH);
    fs::write(rt, PLAIN, "plain")?;
    report(
        rt,
        "another file isn't replaced",
        listen(rt, PLAIN).is_err(),
    )?;
    let kept = fs::read_to_string(rt, PLAIN)?;
    report(rt, "another file stays", kept.as_str() == "plain")?;
    fs::remove_file(rt, PLAIN)?;
    Ok(())
}
