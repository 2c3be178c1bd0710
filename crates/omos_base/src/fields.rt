//! Numbers of a fixed width in bytes, the lowest byte first.

ghost use Rattle.std.specs.Prelude.{◌≡◌, ◌+◌, ◌≤◌, length};
ghost use Rattle.omos_base.specs.Fields.{number_at, with_number};

use byteorder::{ByteOrder, LittleEndian};

/// The number in the 2 bytes from a place on.
#[tactic(auto, unfolding(crate::specs::Fields::number_at))]
pub fn u16_at(bytes: &[u8], at: usize) -> u16
    requires { at + 2 ≤ length bytes.now }
    ensures { result ≡ number_at 2 at bytes.now }
{
    LittleEndian::read_u16(&bytes[at..])
}

/// The number in the 4 bytes from a place on.
#[tactic(auto, unfolding(crate::specs::Fields::number_at))]
pub fn u32_at(bytes: &[u8], at: usize) -> u32
    requires { at + 4 ≤ length bytes.now }
    ensures { result ≡ number_at 4 at bytes.now }
{
    LittleEndian::read_u32(&bytes[at..])
}

/// The number in the 8 bytes from a place on.
#[tactic(auto, unfolding(crate::specs::Fields::number_at))]
pub fn u64_at(bytes: &[u8], at: usize) -> u64
    requires { at + 8 ≤ length bytes.now }
    ensures { result ≡ number_at 8 at bytes.now }
{
    LittleEndian::read_u64(&bytes[at..])
}

/// Writes a number into the 2 bytes from a place on.
pub fn put_u16(bytes: &mut [u8], at: usize, value: u16)
    requires { at + 2 ≤ length bytes.old }
    ensures { bytes.new ≡ with_number 2 at value bytes.old }
{
    LittleEndian::write_u16(&mut bytes[at..], value);
}

/// Writes a number into the 4 bytes from a place on.
pub fn put_u32(bytes: &mut [u8], at: usize, value: u32)
    requires { at + 4 ≤ length bytes.old }
    ensures { bytes.new ≡ with_number 4 at value bytes.old }
{
    LittleEndian::write_u32(&mut bytes[at..], value);
}

/// Writes a number into the 8 bytes from a place on.
pub fn put_u64(bytes: &mut [u8], at: usize, value: u64)
    requires { at + 8 ≤ length bytes.old }
    ensures { bytes.new ≡ with_number 8 at value bytes.old }
{
    LittleEndian::write_u64(&mut bytes[at..], value);
}
