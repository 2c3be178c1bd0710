//! A box of files in memory.

ghost use Rattle.std.specs.Prelude.{◌≡◌, ◌^◌, ◌<◌, ◌≤◌, Some};
ghost use Rattle.omos_outside.specs.Faults.{Rose};
ghost use Rattle.omos_files.specs.Files.{FitsLimit, Reads};
ghost use Rattle.omos_files.specs.Files.{WritesFile};
ghost use Rattle.omos_files.specs.ScriptedFiles.{AnswersFileRead, AnswersFileWrite};
ghost use Rattle.omos_files.specs.ScriptedFiles.{after_file_read, after_file_write};

use crate::calls::is_listed;
use crate::files::{FileBox, FileRead, FileWrote};
use crate::placing::{content_of, copy_of, put_copy};
use omos_base::{Bytes, NoMemory, Row};
use std::alloc::Global;
use std::marker::Model;

/// Files in memory. They fail at the listed calls, counted from 1, and a read also at a name that
/// isn't there.
#[derive(Drop)]
pub struct MemoryFiles {
    alloc: Global,
    items: Vec<(Bytes, Bytes)>,
    fails: Row<u32>,
    calls: u64,
    faults: u64,
}

impl Model for MemoryFiles {
    ghost use Rattle.std.specs.Prelude.{◌^◌, ◌<◌};
    ghost use Rattle.omos_files.specs.ScriptedFiles.{ScriptedFiles};

    ghost Value = { ScriptedFiles };

    ghost view = { λ f. record {
      files = f.items.items;
      fails = f.fails;
      calls = f.calls;
      faults = f.faults;
    } };

    ghost invariant = { λ f. f.faults < 2 ^ 64 };
}

impl MemoryFiles {
    /// A box with these files, by name and content. It takes no memory.
    pub fn new(alloc: Global, files: Row<(Bytes, Bytes)>, fails: Row<u32>) -> MemoryFiles
        ensures { result ≡ record { files = files; fails = fails; calls = 0; faults = 0 } }
    {
        MemoryFiles {
            alloc,
            items: files.into_vec(),
            fails,
            calls: 0,
            faults: 0,
        }
    }
}

impl FileBox for MemoryFiles {
    ghost files = { λ f. Some f.files };

    ghost faults = { λ f. f.faults };

    fn read_all(&mut self, name: &str, limit: u32) -> FileRead
        ensures limit { FitsLimit result limit }
        ensures reads { Reads (Some self.old.files) name.now limit result }
        ensures kept { Some self.new.files ≡ Some self.old.files }
        ensures later { self.old.faults ≤ self.new.faults }
        ensures counts { self.new.faults < 2 ^ 64 }
        ensures failed { result ≡ FileRead.Failed → Rose self.old.faults self.new.faults }

        // The answer and the whole new value.
        ensures answer { AnswersFileRead self.old name.now limit result }
        ensures after { self.new ≡ after_file_read self.old result }
    {
        self.calls = self.calls.saturating_add(1);
        if is_listed(self.fails.as_slice(), self.calls) {
            self.faults = self.faults.saturating_add(1);
            return FileRead::Failed;
        }
        match content_of(self.items.as_slice(), name.as_bytes()) {
            Some(bytes) => copy_of(self.alloc, bytes, limit),
            None => {
                self.faults = self.faults.saturating_add(1);
                FileRead::Failed
            }
        }
    }

    fn write_all(&mut self, name: &str, bytes: &[u8]) -> FileWrote
        ensures writes { WritesFile (Some self.old.files) (Some self.new.files) name.now bytes.now
            result }
        ensures later { self.old.faults ≤ self.new.faults }
        ensures counts { self.new.faults < 2 ^ 64 }
        ensures failed { result ≡ FileWrote.Failed → Rose self.old.faults self.new.faults }

        // The answer and the whole new value.
        ensures answer { AnswersFileWrite self.old result }
        ensures after { self.new ≡ after_file_write self.old name.now bytes.now result }
    {
        self.calls = self.calls.saturating_add(1);
        if is_listed(self.fails.as_slice(), self.calls) {
            self.faults = self.faults.saturating_add(1);
            return FileWrote::Failed;
        }
        match put_copy(self.alloc, &mut self.items, name.as_bytes(), bytes) {
            Ok(()) => FileWrote::Done,
            Err(NoMemory) => FileWrote::NoMemory,
        }
    }
}
