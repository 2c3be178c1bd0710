//! The bytes of a field.

ghost use Rattle.std.specs.Prelude.{◌≡◌, ◌+◌, ◌*◌, ◌^◌, ◌<◌, ◌≤◌, length};
ghost use Rattle.omos_base.specs.Fields.{with_number};
ghost use Rattle.omos_model.specs.FragmentParts.{width};

use omos_base::{put_u32, put_u64};
use omos_model::Kind;

/// Writes the number of a field into the bytes from a place on, its lowest byte first.
pub fn put(bytes: &mut [u8], at: usize, kind: Kind, field: u64)
    requires within { at + width kind ≤ length bytes.old }
    requires fits { field < 2 ^ (8 * width kind) }
    ensures { bytes.new ≡ with_number (width kind) at field bytes.old }
{
    match kind {
        Kind::Abs64 | Kind::Pc64 => put_u64(bytes, at, field),
        _ => put_u32(bytes, at, field as u32),
    }
}
