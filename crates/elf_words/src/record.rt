//! What the five records have in common.

ghost use Rattle.std.specs.Prelude.{◌≡◌, ℕ, List, ◌+◌, ◌≤◌, ◌++◌, length, drop};

/// A record of fixed size. Contracts see by `record_at` which record begins at a place of some
/// bytes, and by `bytes_of` what the bytes of a record are.
pub trait Record: Copy {
    ghost SIZE: { ℕ };

    ghost record_at: { List ℕ → ℕ → Self };

    ghost bytes_of: { Self → List ℕ };

    /// How many bytes a record has.
    const SIZE: usize;

    /// The record that begins at this place.
    fn read_at(bytes: &[u8], place: usize) -> Self
        requires { place + SIZE ≤ length bytes.now }
        ensures { result ≡ record_at bytes.now place };

    /// The record that the bytes begin with.
    fn read(bytes: &[u8]) -> Self
        requires { SIZE ≤ length bytes.now }
        ensures { result ≡ record_at bytes.now 0 }
    {
        Self::read_at(bytes, 0)
    }

    /// Writes the record over the first bytes.
    fn write(&self, into: &mut [u8])
        requires { SIZE ≤ length into.old }
        ensures { into.new ≡ bytes_of self.now ++ drop SIZE into.old };

    /// A record is read as it was written, whatever stands behind it. Nothing is run.
    fn reads_back(&self, rest: &[u8])
        ensures { record_at (bytes_of self.now ++ rest.now) 0 ≡ self.now };

    // A record fits into 64 bytes.
    ghost small: { SIZE ≤ 64 };
}
