//! A run of bytes of a block that has several owners.

ghost use Rattle.std.specs.Prelude.{◌≡◌, ◌+◌, ◌<◌, ◌≤◌, ◌^◌, length, IfOk};
ghost use Rattle.omos_base.specs.Runs.{run_of};

use crate::bytes::Bytes;
use crate::fault::NoMemory;
use crate::packed::Packed;
use crate::shared::Shared;
use std::alloc::Global;
use std::marker::Model;

/// A run of bytes of a block that others share, as names and sections are runs of their object's
/// file. Contracts see it as its bytes.
#[derive(Debug, Drop)]
pub struct Part {
    block: Shared<Packed>,
    at: u32,
    size: u32,
}

impl Model for Part {
    ghost use Rattle.std.specs.Prelude.{List, ℕ, ◌+◌, ◌^◌, ◌<◌, ◌≤◌, length};
    ghost use Rattle.omos_base.specs.Runs.{run_of};

    ghost Value = { List ℕ };

    ghost view = { λ part. run_of part.at part.size part.block };

    ghost invariant = { λ part.
        (part.at + part.size ≤ length part.block) × (part.at + part.size < 2 ^ 32) };
}

impl Part {
    /// All of the bytes, which are fewer than 2^32. They are taken and not copied.
    pub fn of(alloc: Global, bytes: Bytes) -> Result<Part, NoMemory>
        requires { length bytes < 2 ^ 32 }
        ensures { IfOk result (λ part. part ≡ bytes) }
    {
        Part::whole(alloc, Packed::from_vec(bytes.into_vec()))
    }

    /// A copy of the bytes, which are fewer than 2^32. At most 24 take one allocation.
    pub fn from_slice(alloc: Global, bytes: &[u8]) -> Result<Part, NoMemory>
        requires { length bytes.now < 2 ^ 32 }
        ensures { IfOk result (λ part. part ≡ bytes.now) }
    {
        Part::whole(alloc, Packed::from_slice(alloc, bytes)?)
    }

    fn whole(alloc: Global, block: Packed) -> Result<Part, NoMemory>
        requires { length block < 2 ^ 32 }
        ensures { IfOk result (λ part. part ≡ block) }
    {
        let size = block.as_slice().len() as u32;
        Ok(Part {
            block: Shared::of(alloc, block)?,
            at: 0,
            size,
        })
    }

    /// So many of its bytes from a place on, as one more owner of the block. None is copied.
    pub fn cut(&self, at: u32, size: u32) -> Result<Part, NoMemory>
        requires { at + size ≤ length self.now }
        ensures { IfOk result (λ part. part ≡ run_of at size self.now) }
    {
        Ok(Part {
            block: self.block.twin()?,
            at: self.at + at,
            size,
        })
    }

    /// One more owner of the same bytes.
    pub fn twin(&self) -> Result<Part, NoMemory>
        ensures { IfOk result (λ part. part ≡ self.now) }
    {
        Ok(Part {
            block: self.block.twin()?,
            at: self.at,
            size: self.size,
        })
    }

    /// The bytes.
    pub fn as_slice(&self) -> &[u8]
        ensures { result.now ≡ self.now }
    {
        let at = self.at as usize;
        &self.block.get().as_slice()[at..at + self.size as usize]
    }

    /// How many bytes there are.
    pub fn len(&self) -> usize
        ensures { result ≡ length self.now }
    {
        self.size as usize
    }
}
