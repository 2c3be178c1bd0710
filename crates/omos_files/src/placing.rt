//! Finds and replaces a file in a list of files.

ghost use Rattle.std.specs.Prelude.{◌≡◌, ◌<◌, ◌≤◌, length, IfSome, IfNone, OnOk, OnErr, Some, None};
ghost use Rattle.omos_files.specs.Files.{content_of, with_content, CopyOf};
ghost use Rattle.omos_files.specs.Files.{place_of_file};

use crate::files::FileRead;
use omos_base::{Bytes, NoMemory};
use std::alloc::Global;

/// Where the first file of the name stands, or how many files there are.
pub(crate) fn place_of(files: &[(Bytes, Bytes)], name: &[u8]) -> usize
    ensures place { result ≡ place_of_file name.now files.now }
    ensures within { result ≤ length files.now }
{
    match files.split_first() {
        Some((first, _)) if first.0.as_slice() == name => 0,
        Some((_, rest)) => place_of(rest, name) + 1,
        None => 0,
    }
}

/// What the file of the name holds.
pub(crate) fn content_of<'a>(files: &'a [(Bytes, Bytes)], name: &[u8]) -> Option<&'a [u8]>
    ensures there { IfSome result (λ bytes. content_of name.now files.now ≡ Some bytes.now) }
    ensures none { IfNone result (content_of name.now files.now ≡ None) }
{
    let place = place_of(files, name);
    if place < files.len() {
        Some(files[place].1.as_slice())
    } else {
        None
    }
}

/// Makes the bytes what the file of the name holds.
pub(crate) fn put_content(
    files: &mut Vec<(Bytes, Bytes)>,
    name: Bytes,
    bytes: Bytes,
) -> Result<(), NoMemory>
    ensures done { OnOk result (files.new.items ≡ with_content name bytes files.old.items) }
    ensures kept { OnErr result (files.new.items ≡ files.old.items) }
{
    let place = place_of(files.as_slice(), name.as_slice());
    if place < files.len() {
        files[place].1 = bytes;
    } else {
        files.push((name, bytes))?;
    }
    Ok(())
}

/// A copy of what a file holds, where that is at most so many bytes.
pub(crate) fn copy_of(alloc: Global, bytes: &[u8], limit: u32) -> FileRead
    ensures { CopyOf bytes.now limit result }
{
    if bytes.len() > limit as usize {
        return FileRead::TooLong;
    }
    match Bytes::from_slice(alloc, bytes) {
        Ok(copy) => FileRead::Whole(copy),
        Err(NoMemory) => FileRead::NoMemory,
    }
}

/// Makes a copy of the bytes what the file of the name holds.
pub(crate) fn put_copy(
    alloc: Global,
    files: &mut Vec<(Bytes, Bytes)>,
    name: &[u8],
    bytes: &[u8],
) -> Result<(), NoMemory>
    ensures done { OnOk result (files.new.items ≡ with_content name.now bytes.now files.old.items) }
    ensures kept { OnErr result (files.new.items ≡ files.old.items) }
{
    let name = Bytes::from_slice(alloc, name)?;
    let bytes = Bytes::from_slice(alloc, bytes)?;
    put_content(files, name, bytes)
}
