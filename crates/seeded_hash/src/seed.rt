//! The seed of a table's hashes.

ghost use Rattle.std.specs.Prelude.{◌≡◌};

use crate::hasher::NameHasher;
use omos_base::u64_at;
use std::fmt::{self, Debug, Formatter};
use std::hash::BuildHasher;
use std::io;
use std::random::RandomSource;

/// What each hash of a table begins with. A copy of a seed makes the same hashes.
#[derive(Clone, Copy)]
pub struct Seed {
    start: NameHasher,
}

impl Seed {
    /// A seed that nobody knows: 16 bytes of the system's source, or the source's own error.
    pub fn draw(rt: &impl RandomSource) -> io::Result<Seed> {
        let mut secret = [0; 16];
        rt.fill_bytes(&mut secret)?;
        let start = NameHasher::new(u64_at(&secret, 0), u64_at(&secret, 8));
        Ok(Seed { start })
    }

    /// The seed of a number, for tests and for programs that run cases. Never for a server: whoever
    /// knows the number can choose names whose hashes are all alike.
    pub fn known(number: u64) -> Seed {
        let start = NameHasher::new(number, number ^ 0x5bd1_e995_9d1b_54a5);
        Seed { start }
    }
}

impl BuildHasher for Seed {
    type Hasher = NameHasher;

    ghost build_hasher = { λ seed. seed.start };

    fn build_hasher(&self) -> NameHasher {
        self.start
    }
}

impl Debug for Seed {
    /// Shows nothing of the secret: `Seed { .. }`.
    fn fmt<W: fmt::Write>(&self, f: &mut Formatter<W>) -> fmt::Result {
        f.debug_struct("Seed").finish_non_exhaustive()
    }
}
