//! Reads a whole file from a source, in place.

ghost use Rattle.std.specs.Prelude.{◌≡◌, ◌≤◌, Err, IfOk};
ghost use Rattle.omos_outside.specs.Faults.{Rose};
ghost use Rattle.omosd_calls.specs.Input.{IsInput};

use omos_base::{Bytes, NoMemory};
use omos_outside::{Got, Source};
use std::alloc::Global;
use stream_reads::read_more;

/// One byte more than the longest object has.
const LIMIT: usize = 1_048_577;

/// How many bytes are asked for at a time.
const PIECE: usize = 65_536;

/// Why a file wasn't read.
#[derive(Clone, Copy, Debug, PartialEq, Eq)]
pub(crate) enum Unread {
    /// The source failed.
    SourceFailed,
    /// There was no memory.
    NoMemory,
}

/// Reads to the end of the source, or to one byte more than an object may have.
pub(crate) fn read_file<S: Source>(alloc: Global, source: &mut S) -> Result<Bytes, Unread>
    ensures input { IfOk result (IsInput (S.told source.old) (S.told source.new)) }
    ensures later { S.faults source.old ≤ S.faults source.new }
    ensures failed { result ≡ Err Unread.SourceFailed
        → Rose (S.faults source.old) (S.faults source.new) }
{
    let Ok(mut file) = Vec::with_capacity(alloc, LIMIT) else {
        return Err(Unread::NoMemory);
    };
    'pieces: while file.len() < LIMIT {
        let room = PIECE.min(LIMIT - file.len());
        match read_more(source, &mut file, room) {
            Ok(Got::Bytes(_)) => {}
            Ok(Got::End) => break,
            Ok(Got::Failed) => return Err(Unread::SourceFailed),
            Err(NoMemory) => return Err(Unread::NoMemory),
        }
    }
    Ok(Bytes::from_vec(file))
}
