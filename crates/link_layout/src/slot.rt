//! Which references ask for a slot of the global offset table, and of what.

ghost use Rattle.std.specs.Prelude.{◌≡◌};
ghost use Rattle.link_model.specs.Layout.{is_got, target_at};

use omos_model::{Kind, Landing, Target};

/// Whether the field holds where the slot of its target stands: R_X86_64_GOTPCREL, GOTPCRELX and
/// REX_GOTPCRELX (x86-64 psABI, "Relocation Types").
pub fn is_got(kind: Kind) -> bool
    ensures { result ≡ is_got kind }
{
    match kind {
        Kind::GotPcRel | Kind::GotPcRelX | Kind::RexGotPcRelX => true,
        _ => false,
    }
}

/// What a reference lands on, where one that lands on nothing counts as the address 0.
pub fn target_at(landing: &Landing) -> Target
    ensures { result ≡ target_at landing.now }
{
    match landing {
        Landing::On(target) => *target,
        Landing::Nothing(_) => Target::Fixed { value: 0 },
    }
}
