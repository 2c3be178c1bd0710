//! Reads and writes whole files that are open.

ghost use Rattle.omos_files.specs.Files.{FitsLimit};

use crate::reading::read_once;
use crate::writing::write_once;
use omos_base::Bytes;
use omos_files::FileRead;
use std::alloc::Global;
use std::io::{Error, ErrorKind, Read, Result, Write};

/// How many bytes are asked for at a time.
const PIECE: usize = 65_536;

/// Reads to the end of the file, or to one byte more than the limit.
pub(crate) fn read_to_limit<F: Read>(alloc: Global, file: &mut F, limit: u32) -> FileRead
    ensures { FitsLimit result limit }
{
    let most = limit as usize + 1;
    let mut bytes = Vec::new(alloc);
    'pieces: while bytes.len() < most {
        let place = bytes.len();
        let room = PIECE.min(most - place);
        if bytes.resize(place + room, 0).is_err() {
            return FileRead::NoMemory;
        }
        match read_once(file, &mut bytes[place..]) {
            Ok(0) => {
                bytes.truncate(place);
                break;
            }
            Ok(count) => bytes.truncate(place + count),
            Err(_) => return FileRead::Failed,
        }
    }
    if bytes.len() == most {
        return FileRead::TooLong;
    }
    FileRead::Whole(Bytes::from_vec(bytes))
}

/// Writes all of the bytes.
pub(crate) fn write_whole<F: Write>(file: &mut F, bytes: &[u8]) -> Result<()> {
    let mut done = 0;
    'pieces: while done < bytes.len() {
        match write_once(file, &bytes[done..])? {
            0 => return Err(Error::from(ErrorKind::WriteZero)),
            count => done += count,
        }
    }
    Ok(())
}
