//! The two halves of a connection. It is closed once both are dropped.

ghost use Rattle.std.specs.Prelude.{◌≡◌, None, IfOk};

use crate::reading::Reading;
use crate::writing::Writing;
use omos_outside::{Got, Sink, Source, Took};
use std::io::Result;
use std::os::unix::net::UnixStream;

/// What the peer sends.
#[derive(Drop)]
pub struct LineSource {
    inner: Reading<UnixStream>,
}

/// What is sent to the peer.
#[derive(Drop)]
pub struct LineSink {
    inner: Writing<UnixStream>,
}

/// The halves of a connection, neither of which has failed yet.
pub(crate) fn halves(stream: UnixStream) -> Result<(LineSource, LineSink)>
    ensures { IfOk result (λ r. (r.0.inner.faults ≡ 0) × (r.1.inner.faults ≡ 0)) }
{
    let other = stream.try_clone()?;
    let source = LineSource {
        inner: Reading::new(stream),
    };
    let sink = LineSink {
        inner: Writing::new(other),
    };
    Ok((source, sink))
}

impl Source for LineSource {
    ghost told = { λ _. None };

    ghost faults = { λ s. s.inner.faults };

    fn read(&mut self, into: &mut [u8]) -> Got {
        self.inner.read(into)
    }
}

impl Sink for LineSink {
    ghost held = { λ _. None };

    ghost faults = { λ s. s.inner.faults };

    fn write(&mut self, piece: &[u8]) -> Took {
        self.inner.write(piece)
    }
}
