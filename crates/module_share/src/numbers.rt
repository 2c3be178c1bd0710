//! Leaf numbers, raised.

ghost use Rattle.std.specs.Prelude.{◌≡◌, IfOk};
ghost use Rattle.module_share.specs.Shifted.{raised, shifted_mark, shifted_target};

use omos_base::NoMemory;
use omos_model::{Mark, Target};

/// The leaf number, raised. A leaf's number is below 256, so that none passes 32 bits.
pub fn raised(leaf: u32, shift: u32) -> u32
    ensures { result ≡ raised shift leaf }
{
    leaf.wrapping_add(shift)
}

/// The target, in the leaf of the raised number.
pub fn target(target: Target, shift: u32) -> Target
    ensures { result ≡ shifted_target shift target }
{
    match target {
        Target::Inside {
            leaf,
            piece,
            offset,
        } => Target::Inside {
            leaf: raised(leaf, shift),
            piece,
            offset,
        },
        Target::Fixed { value } => Target::Fixed { value },
    }
}

/// The reference, with its target in the leaf of the raised number. A name is shared.
pub fn mark(mark: &Mark, shift: u32) -> Result<Mark, NoMemory>
    ensures { IfOk result (λ m. m ≡ shifted_mark shift mark.now) }
{
    match mark {
        Mark::Bound(bound) => Ok(Mark::Bound(target(*bound, shift))),
        Mark::Open(name) => Ok(Mark::Open(name.copy()?)),
    }
}
