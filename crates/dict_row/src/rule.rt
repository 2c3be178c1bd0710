//! What is made of each value of a list.

ghost use Rattle.std.specs.Prelude.{◌≡◌, IfOk};
ghost use Rattle.std.specs.Option.{unwrap_or};

use omos_base::NoMemory;

/// What is made of each value of a list.
pub trait Rule<T> {
    ghost gives: { Self → T → T };

    /// What the value becomes, or None where it stays.
    fn changed(&self, value: &T) -> Result<Option<T>, NoMemory>
        ensures { IfOk result (λ o. unwrap_or o value.now ≡ gives self.now value.now) };
}
