//! Any writer as a sink: standard output, a file or a socket. It tells nothing of the bytes.

ghost use Rattle.std.specs.Prelude.{◌≡◌, ◌≤◌, length, IfOk, None};

use omos_outside::{Sink, Took};
use std::io::{Error, ErrorKind, Result, Write};

/// A writer, with a count of its failures. A write that was interrupted is tried again, and one
/// that takes nothing is a failure.
#[derive(Drop)]
pub struct Writing<W: Write + Drop> {
    inner: W,
    faults: u64,
}

impl<W: Write + Drop> Writing<W> {
    /// A sink over the writer, which hasn't failed yet.
    pub fn new(inner: W) -> Writing<W>
        ensures { result.faults ≡ 0 }
    {
        Writing { inner, faults: 0 }
    }
}

impl<W: Write + Drop> Sink for Writing<W> {
    ghost held = { λ _. None };

    ghost faults = { λ s. s.faults };

    /// A write that takes nothing has failed.
    fn write(&mut self, piece: &[u8]) -> Took {
        let faults = self.faults;
        match write_once(&mut self.inner, piece) {
            Ok(count) if count > 0 => Took::Bytes(count),
            _ => {
                self.faults = faults.saturating_add(1);
                Took::Failed
            }
        }
    }
}

/// Writes once; a write that was interrupted is tried again.
pub(crate) fn write_once<W: Write>(inner: &mut W, piece: &[u8]) -> Result<usize>
    ensures { IfOk result (λ count. count ≤ length piece.now) }
{
    for _ in 0..u64::MAX {
        match inner.write(piece) {
            Err(error) if error.kind() == ErrorKind::Interrupted => {}
            answer => return answer,
        }
    }
    Err(Error::from(ErrorKind::Interrupted))
}
