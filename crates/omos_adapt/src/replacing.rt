//! Writes a file beside the one that it is to replace, and moves it into its place, so that a
//! failure leaves the old file whole and no other file behind.
//!
//! The new file keeps the old one's mode, but not its owner, its other names or its times; and
//! nothing is said of a machine that loses its power.

use crate::filling::write_whole;
use std::alloc::Global;
use std::fs;
use std::fs::{OpenFile, OpenOptions, Permissions};
use std::io::{Error, ErrorKind, Result};
use std::os::unix::fs::OpenOptionsExt;
use std::path::{Path, PathBuf};
use std::rt::Files;

/// How many names are tried for the new file.
const NAMES: u32 = 1_000;

/// The mode of a file that replaces none, before the process's mask. It may be executed, as a
/// linker's output may.
const NEW_MODE: u32 = 0o777;

/// The mode of a file that replaces another, until it has that one's.
const HIDDEN_MODE: u32 = 0o600;

/// Writes the bytes as a new file, and moves it to the path; with these permissions, where it
/// replaces a file that has them.
pub(crate) fn replace_file<R: Files>(
    rt: &R,
    alloc: Global,
    path: &str,
    bytes: &[u8],
    old: Option<Permissions>,
) -> Result<()> {
    let mode = if old.is_some() { HIDDEN_MODE } else { NEW_MODE };
    let (beside, file) = begin(rt, alloc, path, mode)?;
    match finish(rt, file, beside.as_path(), path, bytes, old) {
        Ok(()) => Ok(()),
        Err(error) => {
            let _ = fs::remove_file(rt, beside.as_path());
            Err(error)
        }
    }
}

/// Makes an empty file in the path's folder.
fn begin<R: Files>(rt: &R, alloc: Global, path: &str, mode: u32) -> Result<(PathBuf, R::File)> {
    let mut how = OpenOptions::new();
    how.write(true).create_new(true).mode(mode);
    for number in 0..NAMES {
        let name = format!(in alloc; ".omos-{number}")?;
        let beside = Path::new(path).with_file_name(alloc, name.as_str())?;
        match how.open(rt, beside.as_path()) {
            Ok(file) => return Ok((beside, file)),
            Err(error) if error.kind() == ErrorKind::AlreadyExists => {}
            Err(error) => return Err(error),
        }
    }
    Err(Error::from(ErrorKind::AlreadyExists))
}

/// Fills the new file, and moves it to the path.
fn finish<R: Files>(
    rt: &R,
    mut file: R::File,
    beside: Path<'_>,
    path: &str,
    bytes: &[u8],
    old: Option<Permissions>,
) -> Result<()> {
    write_whole(&mut file, bytes)?;
    if let Some(permissions) = old {
        file.set_permissions(permissions)?;
    }
    fs::rename(rt, beside, path)
}

/// Writes the bytes to what stands at the path and is no file: a device, a pipe, or a link to a
/// file that isn't there.
pub(crate) fn write_in_place<R: Files>(rt: &R, path: &str, bytes: &[u8]) -> Result<()> {
    let mut how = OpenOptions::new();
    how.write(true).create(true);
    let mut file = how.open(rt, path)?;
    write_whole(&mut file, bytes)
}
