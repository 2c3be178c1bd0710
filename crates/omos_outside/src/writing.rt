//! Writes whole pieces of bytes to a sink, over writes that take less than they were given.

ghost use Rattle.std.specs.Prelude.{◌≡◌, ◌^◌, ◌<◌, ◌≤◌, ◌++◌};
ghost use Rattle.omos_outside.specs.Faults.{Rose};
ghost use Rattle.omos_outside.specs.Sent.{Wrote};

use crate::sink::{Sink, Took};

/// What a call answers that writes whole pieces.
#[derive(Clone, Copy, Debug, PartialEq, Eq)]
pub enum Sent {
    /// All was written.
    All,
    /// The sink failed; a front part was written, and not all.
    Failed,
}

/// Writes all of the bytes, or as many as the sink takes before it fails. Of no bytes it writes
/// nothing, and the sink isn't called.
pub fn write_all<K: Sink>(sink: &mut K, bytes: &[u8]) -> Sent
    ensures wrote { Wrote result (K.held sink.old) (K.held sink.new) bytes.now }
    ensures later { K.faults sink.old ≤ K.faults sink.new }
    ensures counts { K.faults sink.old < 2 ^ 64 → K.faults sink.new < 2 ^ 64 }
    ensures failed { result ≡ Sent.Failed → Rose (K.faults sink.old) (K.faults sink.new) }
{
    let mut done = 0;
    'pieces: while done < bytes.len() {
        match sink.write(&bytes[done..]) {
            Took::Bytes(count) => done += count,
            Took::Failed => return Sent::Failed,
        }
    }
    Sent::All
}

/// Writes two pieces, one after the other, as if they were one.
pub fn write_both<K: Sink>(sink: &mut K, first: &[u8], second: &[u8]) -> Sent
    ensures wrote { Wrote result (K.held sink.old) (K.held sink.new) (first.now ++ second.now) }
    ensures later { K.faults sink.old ≤ K.faults sink.new }
    ensures counts { K.faults sink.old < 2 ^ 64 → K.faults sink.new < 2 ^ 64 }
    ensures failed { result ≡ Sent.Failed → Rose (K.faults sink.old) (K.faults sink.new) }
{
    match write_all(sink, first) {
        Sent::All => write_all(sink, second),
        Sent::Failed => Sent::Failed,
    }
}
