//! How much a store may hold. Nothing here counts what it holds.

ghost use Rattle.std.specs.Prelude.{◌≡◌, ◌≤◌, SomeIff};
ghost use Rattle.omos_base.specs.Limits.{AreLimits};

use std::marker::Model;

/// The limits of a store, that contracts see as the two numbers: how many items its cache may
/// hold, 1 to 64, and how many steps its record may hold, 16 to 65,536.
#[derive(Clone, Copy, Debug, PartialEq, Eq)]
pub struct Limits {
    cache: u32,
    steps: u32,
}

impl Model for Limits {
    ghost use Rattle.omos_base.specs.Limits.{Counts, AreLimits};

    ghost Value = { Counts };

    ghost view = { λ limits. record { cache = limits.cache; steps = limits.steps } };

    ghost invariant = { λ limits. AreLimits limits.cache limits.steps };

    ghost inverse = { λ counts. record { cache = counts.cache; steps = counts.steps } };
}

impl Limits {
    /// The limits of these counts, or None where one of them is out of its range.
    pub fn of(cache: u32, steps: u32) -> Option<Limits>
        ensures { SomeIff result (AreLimits cache steps) (record { cache = cache; steps = steps }) }
    {
        if (1..=64).contains(&cache) && (16..=65_536).contains(&steps) {
            Some(Limits { cache, steps })
        } else {
            None
        }
    }

    /// How many items the cache may hold.
    pub fn cache(&self) -> u32
        ensures value { result ≡ self.now.cache }
        ensures range { (1 ≤ result) × (result ≤ 64) }
    {
        self.cache
    }

    /// How many steps the record may hold.
    pub fn steps(&self) -> u32
        ensures value { result ≡ self.now.steps }
        ensures range { (16 ≤ result) × (result ≤ 65536) }
    {
        self.steps
    }
}
