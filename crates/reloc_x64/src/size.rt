//! How long a field is.

ghost use Rattle.std.specs.Prelude.{◌≡◌};
ghost use Rattle.omos_model.specs.FragmentParts.{width};

use omos_model::Kind;

/// How many bytes a field of this kind has.
pub fn width(kind: Kind) -> usize
    ensures { result ≡ width kind }
{
    match kind {
        Kind::Abs64 | Kind::Pc64 => 8,
        _ => 4,
    }
}
