//! As many bytes as are wanted.

ghost use Rattle.std.specs.Prelude.{◌≡◌, ◌<◌, ◌≤◌, ◌^◌, Err, length, vec_len};
ghost use Rattle.omos_outside.specs.Faults.{Rose};
ghost use Rattle.stream_reads.specs.Exact.{Filled};

use crate::piece::read_more;
use omos_base::NoMemory;
use omos_outside::{Got, Source};

/// How many bytes are asked for at a time.
const PIECE: usize = 65_536;

/// Why so many bytes weren't read.
#[derive(Clone, Copy, Debug, PartialEq, Eq)]
pub enum Unread {
    /// The source ended before.
    Ended,
    /// The source failed.
    Failed,
    /// There was no memory.
    NoMemory,
}

/// Reads until there are so many bytes. Those that are there stay.
pub fn read_exactly<S: Source>(
    source: &mut S,
    bytes: &mut Vec<u8>,
    size: usize,
) -> Result<(), Unread>
    requires room { length bytes.old.items ≤ size }
    requires fits { size < 2 ^ 63 }
    ensures filled { Filled result (S.told source.old) (S.told source.new)
        bytes.old.items bytes.new.items size }
    ensures later { S.faults source.old ≤ S.faults source.new }
    ensures failed { result ≡ Err Unread.Failed
        → Rose (S.faults source.old) (S.faults source.new) }
{
    'pieces: while bytes.len() < size {
        let room = PIECE.min(size - bytes.len());
        match read_more(source, bytes, room) {
            Ok(Got::Bytes(_)) => {}
            Ok(Got::End) => return Err(Unread::Ended),
            Ok(Got::Failed) => return Err(Unread::Failed),
            Err(NoMemory) => return Err(Unread::NoMemory),
        }
    }
    Ok(())
}
