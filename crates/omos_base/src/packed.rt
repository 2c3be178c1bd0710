//! Bytes that never change, and are few in most cases.

ghost use Rattle.std.specs.Prelude.{◌≡◌, IfOk};

use crate::fault::NoMemory;
use arrayvec::ArrayVec;
use std::alloc::Global;
use std::marker::Model;

/// Bytes that contracts see as their list. At most 24 stand in place, so that what shares them has
/// one allocation; more stand apart.
#[derive(Debug, Drop)]
pub struct Packed {
    few: ArrayVec<u8, 24>,
    many: Vec<u8>,
}

impl Model for Packed {
    ghost use Rattle.std.specs.Prelude.{List, ℕ};
    ghost use Rattle.omos_base.specs.inside.PackedBytes.{packed};

    ghost Value = { List ℕ };

    ghost view = { λ p. packed p.few.items p.many.items };
}

impl Packed {
    /// A copy of the bytes.
    pub fn from_slice(alloc: Global, bytes: &[u8]) -> Result<Packed, NoMemory>
        ensures { IfOk result (λ p. p ≡ bytes.now) }
    {
        if bytes.len() <= 24 {
            return Ok(Packed {
                few: ArrayVec::try_from(bytes).unwrap(),
                many: Vec::new(alloc),
            });
        }
        Ok(Packed {
            few: ArrayVec::new(),
            many: Vec::from_slice(alloc, bytes)?,
        })
    }

    /// The bytes of a `Vec`, which stand apart however few they are. It takes no memory.
    pub fn from_vec(bytes: Vec<u8>) -> Packed
        ensures { result ≡ bytes.items }
    {
        Packed {
            few: ArrayVec::new(),
            many: bytes,
        }
    }

    /// The bytes.
    pub fn as_slice(&self) -> &[u8]
        ensures { result.now ≡ self.now }
    {
        if self.many.is_empty() {
            self.few.as_slice()
        } else {
            self.many.as_slice()
        }
    }
}
