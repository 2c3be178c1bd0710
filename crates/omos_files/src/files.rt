//! A box of files.

ghost use Rattle.std.specs.Prelude.{◌≡◌, ◌^◌, ◌<◌, ◌≤◌, ℕ, List, Option};
ghost use Rattle.omos_outside.specs.Faults.{Rose};
ghost use Rattle.omos_files.specs.Files.{File, FitsLimit, Reads};
ghost use Rattle.omos_files.specs.Files.{WritesFile};

use omos_base::Bytes;

/// What a read of a file answers.
#[derive(Debug, Drop)]
pub enum FileRead {
    /// All that it holds.
    Whole(Bytes),
    /// It holds more bytes than the limit.
    TooLong,
    /// The file isn't there, or it can't be read.
    Failed,
    /// There is no memory for what it holds.
    NoMemory,
}

/// What a write of a file answers.
#[derive(Clone, Copy, Debug, PartialEq, Eq)]
pub enum FileWrote {
    /// The file holds the bytes and no others.
    Done,
    /// It can't be written.
    Failed,
    /// There is no memory.
    NoMemory,
}

/// Files by name, and a count of faults that never falls.
pub trait FileBox {
    /// The files, where it tells them. Of two with one name the first counts.
    ghost files: { Self → Option (List File) };

    /// How often it has failed; the count stands still at 2^64 - 1.
    ghost faults: { Self → ℕ };

    /// Reads all that a file holds, where that is at most so many bytes. It says that it is longer
    /// only once it has read one byte more than the limit. No file changes.
    fn read_all(&mut self, name: &str, limit: u32) -> FileRead
        ensures limit { FitsLimit result limit }
        ensures reads { Reads (files self.old) name.now limit result }
        ensures kept { files self.new ≡ files self.old }
        ensures later { faults self.old ≤ faults self.new }
        ensures counts { faults self.new < 2 ^ 64 }
        ensures failed { result ≡ FileRead.Failed → Rose (faults self.old) (faults self.new) };

    /// Makes the bytes all that a file holds, and makes the file where there is none. No other file
    /// changes, whatever it answers.
    fn write_all(&mut self, name: &str, bytes: &[u8]) -> FileWrote
        ensures writes { WritesFile (files self.old) (files self.new) name.now bytes.now result }
        ensures later { faults self.old ≤ faults self.new }
        ensures counts { faults self.new < 2 ^ 64 }
        ensures failed { result ≡ FileWrote.Failed → Rose (faults self.old) (faults self.new) };
}
