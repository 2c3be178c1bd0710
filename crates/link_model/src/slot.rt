//! A slot of the global offset table, as the key of a table.

ghost use Rattle.std.specs.Prelude.{◌≡◌};
ghost use Rattle.std.specs.Hash as fed;
ghost use Rattle.link_model.specs.Layout.{same_target};

use omos_model::Target;
use std::hash::{Hash, Hasher};
use std::marker::Model;

/// The slot of a target, as the key of a table. Contracts see it as its target: two slots are equal
/// where their targets are, also where two targets have one address.
#[derive(Clone, Copy, Debug)]
pub struct Slot {
    target: Target,
}

impl Model for Slot {
    ghost use Rattle.omos_model.specs.declared.mark.Target.{Target};

    ghost Value = { Target };

    ghost view = { λ slot. slot.target };

    ghost inverse = { λ target. record { target = target } };
}

impl Slot {
    /// The slot of a target.
    pub fn of(target: Target) -> Slot
        ensures { result ≡ target }
    {
        Slot { target }
    }

    /// Its target.
    pub fn target(&self) -> Target
        ensures { result ≡ self.now }
    {
        self.target
    }
}

/// Whether two targets are the same.
fn same_target(a: Target, b: Target) -> bool
    ensures { result ≡ same_target a b }
{
    a == b
}

impl PartialEq for Slot {
    ghost use Rattle.link_model.specs.Targets.{same_target-partial};

    ghost eq = { same_target };

    ghost laws = { same_target-partial };

    fn eq(&self, other: &Slot) -> bool {
        same_target(self.target, other.target)
    }
}

impl Eq for Slot {
    ghost use Rattle.link_model.specs.Targets.{same_target-equivalence};

    ghost laws = { same_target-equivalence };
}

impl Hash for Slot {
    ghost use Rattle.link_model.specs.Slots.{target_writes};
    ghost use Rattle.link_model.specs.Targets.{alike};

    ghost hash_input = { target_writes };

    ghost respects_eq = { alike target_writes };

    fn hash<H: Hasher>(&self, state: &mut H) {
        match self.target {
            Target::Inside {
                leaf,
                piece,
                offset,
            } => {
                leaf.hash(state);
                piece.hash(state);
                offset.hash(state);
            }
            Target::Fixed { value } => value.hash(state),
        }
    }
}
