//! Bytes written at a place.

ghost use Rattle.std.specs.Prelude.{◌≡◌, ◌+◌, ◌≤◌, ◌++◌, length, take, drop};

/// Writes the part over the bytes from a place on.
pub(crate) fn put_bytes(into: &mut [u8], at: usize, part: &[u8])
    requires { at + length part.now ≤ length into.old }
    ensures { into.new ≡ take at into.old ++ part.now ++ drop (at + length part.now) into.old }
{
    into[at..at + part.len()].copy_from_slice(part);
}
