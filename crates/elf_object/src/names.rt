//! Names in a string table (System V gABI, chapter 4, "String Table").

ghost use Rattle.std.specs.Prelude.{◌≡◌, ◌<◌, ◌≤◌, ◌==◌, ◌&&◌, ◌||◌, not, drop, length, nat_le};
ghost use Rattle.std.specs.Prelude.{nat_lt, slice_index};
ghost use Rattle.std.specs.List.{list_any, list_all, prefix_len, take_while};
ghost use Rattle.omos_model.specs.Names.{is_name_byte, is_symbol_name};

use omos_base::is_name_byte;

/// What stands from a place on, nothing where that is behind the end.
pub(crate) fn rest_from(bytes: &[u8], place: u32) -> &[u8]
    ensures { result.now ≡ drop place bytes.now }
{
    let start = (place as usize).min(bytes.len());
    &bytes[start..]
}

/// What stands before the first zero byte, or all where there is none.
pub(crate) fn until_zero(bytes: &[u8]) -> &[u8]
    ensures { result.now ≡ take_while (λ b. not (b == 0)) bytes.now }
{
    for (end, byte) in bytes.iter().enumerate() {
        if *byte == 0 {
            return &bytes[..end];
        }
    }
    bytes
}

/// Whether a name may have the byte. The range of letters and digits is tried first.
#[tactic(auto, using(crate::proofs::NameBytes::plain))]
fn stands_in_names(byte: u8) -> bool
    ensures { result ≡ is_name_byte byte }
{
    (b')' < byte && byte < 0x7f && byte != b';') || is_name_byte(byte)
}

/// How many bytes that a name may have stand in front.
fn name_length(bytes: &[u8]) -> usize
    ensures { result ≡ prefix_len is_name_byte bytes.now }
{
    for (length, byte) in bytes.iter().enumerate() {
        if !stands_in_names(*byte) {
            return length;
        }
    }
    bytes.len()
}

/// A zero byte follows so many bytes, which are no more and no fewer than a name may have.
fn ends_at(bytes: &[u8], count: usize) -> bool
    ensures { result ≡ (nat_lt count (length bytes.now) && (slice_index bytes.now count == 0)
        && nat_le 1 count && nat_le count 1024) }
{
    count < bytes.len() && bytes[count] == 0 && 1 <= count && count <= 1024
}

/// A symbol name with a zero byte behind it stands in front.
pub(crate) fn begins_with_name(bytes: &[u8]) -> bool
    ensures { result ≡ (list_any (λ b. b == 0) bytes.now
        && is_symbol_name (take_while (λ b. not (b == 0)) bytes.now)) }
{
    ends_at(bytes, name_length(bytes))
}
