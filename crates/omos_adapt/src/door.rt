//! A door over a socket at which a program listens.

ghost use Rattle.std.specs.Prelude.{◌≡◌, false, None, IfOk};

use crate::line::{LineSink, LineSource, halves};
use omos_outside::{Came, Door};
use std::io::{Error, ErrorKind, Result};
use std::os::unix::net::UnixListener;

/// A listening socket, whose links are its connections. It never shuts, and tells none of its
/// links. A link is closed where it is given back.
#[derive(Drop)]
pub struct SocketDoor {
    listener: UnixListener,
    links: u64,
    faults: u64,
}

impl SocketDoor {
    /// A door through which nobody came yet.
    pub fn new(listener: UnixListener) -> SocketDoor
        ensures { (result.links ≡ 0) × (result.faults ≡ 0) }
    {
        SocketDoor {
            listener,
            links: 0,
            faults: 0,
        }
    }
}

impl Door for SocketDoor {
    type In = LineSource;

    type Out = LineSink;

    ghost state = { λ d. record {
      links = d.links;
      faults = d.faults;
      is_shut = false;
      back = None;
    } };

    fn accept(&mut self) -> Came<LineSource, LineSink> {
        match accept_once(&self.listener) {
            Ok((source, sink)) => {
                self.links += 1;
                Came::Link(source, sink)
            }
            Err(_) => {
                self.faults += 1;
                Came::Failed
            }
        }
    }

    fn done(&mut self, source: LineSource, sink: LineSink) {
        let _link = (source, sink);
    }
}

/// Waits for a connection. One that ended before it was taken is passed over.
fn accept_once(listener: &UnixListener) -> Result<(LineSource, LineSink)>
    ensures { IfOk result (λ r. (r.0.inner.faults ≡ 0) × (r.1.inner.faults ≡ 0)) }
{
    for _ in 0..u64::MAX {
        match listener.accept() {
            Ok((stream, _)) => return halves(stream),
            Err(error) if is_passing(error.kind()) => {}
            Err(error) => return Err(error),
        }
    }
    Err(Error::from(ErrorKind::Interrupted))
}

/// The failure says nothing of the socket itself.
fn is_passing(kind: ErrorKind) -> bool {
    kind == ErrorKind::Interrupted || kind == ErrorKind::ConnectionAborted
}
