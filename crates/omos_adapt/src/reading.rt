//! Any reader as a source: standard input, a file or a socket. It tells nothing of the bytes.

ghost use Rattle.std.specs.Prelude.{◌≡◌, ◌≤◌, length, IfOk, None};

use omos_outside::{Got, Source};
use std::io::{Error, ErrorKind, Read, Result};

/// A reader, with a count of its failures. A read that was interrupted is tried again.
#[derive(Drop)]
pub struct Reading<R: Read + Drop> {
    inner: R,
    faults: u64,
}

impl<R: Read + Drop> Reading<R> {
    /// A source over the reader, which hasn't failed yet.
    pub fn new(inner: R) -> Reading<R>
        ensures { result.faults ≡ 0 }
    {
        Reading { inner, faults: 0 }
    }
}

impl<R: Read + Drop> Source for Reading<R> {
    ghost told = { λ _. None };

    ghost faults = { λ s. s.faults };

    fn read(&mut self, into: &mut [u8]) -> Got {
        let faults = self.faults;
        match read_once(&mut self.inner, into) {
            Ok(0) => Got::End,
            Ok(count) => Got::Bytes(count),
            Err(_) => {
                self.faults = faults.saturating_add(1);
                Got::Failed
            }
        }
    }
}

/// Reads once; a read that was interrupted is tried again.
pub(crate) fn read_once<R: Read>(inner: &mut R, into: &mut [u8]) -> Result<usize>
    ensures { IfOk result (λ count. count ≤ length into.new) }
{
    for _ in 0..u64::MAX {
        match inner.read(into) {
            Err(error) if error.kind() == ErrorKind::Interrupted => {}
            answer => return answer,
        }
    }
    Err(Error::from(ErrorKind::Interrupted))
}
