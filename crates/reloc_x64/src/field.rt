//! The number that a field gets.

ghost use Rattle.std.specs.Prelude.{◌≡◌, ◌*◌, ◌%◌, ◌^◌};
ghost use Rattle.link_model.specs.Field.{field_value, is_signed, sum_of, distance, value_of, fits};
ghost use Rattle.omos_model.specs.FragmentParts.{width};

use omos_model::Kind;

/// The number of a field, from the target's address `s`, the addend `a`, the field's address `p`
/// and the address `g` of the target's slot. None where the value doesn't fit into the field.
pub fn value(kind: Kind, s: u64, a: i64, p: u64, g: u64) -> Option<u64>
    ensures { result ≡ field_value kind s a p g }
{
    let value = value_of(kind, s, a, p, g);
    if fits(kind, value) {
        Some(low_bytes(kind, value))
    } else {
        None
    }
}

fn value_of(kind: Kind, s: u64, a: i64, p: u64, g: u64) -> u64
    ensures { result ≡ value_of kind s a p g }
{
    match kind {
        Kind::Abs64 | Kind::Abs32 | Kind::Abs32S => sum_of(s, a),
        Kind::Pc32 | Kind::Plt32 | Kind::Pc64 => distance(s, a, p),
        Kind::GotPcRel | Kind::GotPcRelX | Kind::RexGotPcRelX => distance(g, a, p),
    }
}

fn sum_of(s: u64, a: i64) -> u64
    ensures { result ≡ sum_of s a }
{
    s.wrapping_add_signed(a)
}

fn distance(s: u64, a: i64, p: u64) -> u64
    ensures { result ≡ distance s a p }
{
    sum_of(s, a).wrapping_sub(p)
}

/// Whether the low 32 bits, sign-extended, are the value.
fn is_signed(value: u64) -> bool
    ensures { result ≡ is_signed value }
{
    value < 0x8000_0000 || value >= 0xFFFF_FFFF_8000_0000
}

fn fits(kind: Kind, value: u64) -> bool
    ensures { result ≡ fits kind value }
{
    match kind {
        Kind::Abs64 | Kind::Pc64 => true,
        Kind::Abs32 => value < 0x1_0000_0000,
        _ => is_signed(value),
    }
}

fn low_bytes(kind: Kind, value: u64) -> u64
    ensures { result ≡ value % 2 ^ (8 * width kind) }
{
    match kind {
        Kind::Abs64 | Kind::Pc64 => value,
        _ => value % 0x1_0000_0000,
    }
}
