//! The files of the system as a box of files. It tells nothing of them.

ghost use Rattle.std.specs.Prelude.{◌≡◌, None};
ghost use Rattle.omos_files.specs.Files.{FitsLimit};

use crate::filling::read_to_limit;
use crate::replacing::{replace_file, write_in_place};
use omos_files::{FileBox, FileRead, FileWrote};
use std::alloc::Global;
use std::fs;
use std::io::{ErrorKind, Result};
use std::rt::Files;

/// The files of the system, with a count of failures.
///
/// What is read is a file, a device or a pipe. A file that is written is written beside the old one
/// and moved into its place; what is no file is written in place.
#[derive(Drop)]
pub struct RealFiles<'a, R: Files> {
    rt: &'a R,
    alloc: Global,
    faults: u64,
}

impl<'a, R: Files> RealFiles<'a, R> {
    /// The files of this runtime, which haven't failed yet.
    pub fn new(rt: &'a R, alloc: Global) -> RealFiles<'a, R>
        ensures { result.faults ≡ 0 }
    {
        RealFiles {
            rt,
            alloc,
            faults: 0,
        }
    }
}

impl<'a, R: Files> FileBox for RealFiles<'a, R> {
    ghost files = { λ _. None };

    ghost faults = { λ f. f.faults };

    fn read_all(&mut self, name: &str, limit: u32) -> FileRead {
        let faults = self.faults;
        let answer = read_whole(self.rt, self.alloc, name, limit);
        if let FileRead::Failed = answer {
            self.faults = faults.saturating_add(1);
        }
        answer
    }

    fn write_all(&mut self, name: &str, bytes: &[u8]) -> FileWrote {
        let faults = self.faults;
        match write_whole_file(self.rt, self.alloc, name, bytes) {
            Ok(()) => FileWrote::Done,
            Err(error) if error.kind() == ErrorKind::OutOfMemory => FileWrote::NoMemory,
            Err(_) => {
                self.faults = faults.saturating_add(1);
                FileWrote::Failed
            }
        }
    }
}

/// Reads a file whole.
fn read_whole<R: Files>(rt: &R, alloc: Global, name: &str, limit: u32) -> FileRead
    ensures { FitsLimit result limit }
{
    match fs::open(rt, name) {
        Ok(mut file) => read_to_limit(alloc, &mut file, limit),
        Err(_) => FileRead::Failed,
    }
}

/// Writes a file whole. A link is followed to the file that it leads to.
fn write_whole_file<R: Files>(rt: &R, alloc: Global, name: &str, bytes: &[u8]) -> Result<()> {
    match fs::metadata(rt, name) {
        Ok(old) if old.is_file() => {
            let path = rt.canonicalize(alloc, name)?;
            let permissions = Some(old.permissions());
            replace_file(rt, alloc, path.as_path().as_str(), bytes, permissions)
        }
        Ok(_) => write_in_place(rt, name, bytes),
        Err(error) if error.kind() == ErrorKind::NotFound && !is_there(rt, name) => {
            replace_file(rt, alloc, name, bytes, None)
        }
        Err(error) if error.kind() == ErrorKind::NotFound => write_in_place(rt, name, bytes),
        Err(error) => Err(error),
    }
}

/// Something stands at the name itself, as a link that leads nowhere does.
fn is_there<R: Files>(rt: &R, name: &str) -> bool {
    fs::symlink_metadata(rt, name).is_ok()
}
