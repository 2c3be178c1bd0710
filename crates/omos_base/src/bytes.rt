//! A list of bytes that grows at its end.

ghost use Rattle.std.specs.Prelude.{◌≡◌, ◌++◌, [], length, IfOk, OnOk, OnErr};
ghost use Rattle.byteorder.specs.Endian.{little_bytes};
ghost use Rattle.omos_base.specs.Fields.{zeros};

use crate::fault::NoMemory;
use crate::fields::{put_u16, put_u32, put_u64};
use std::alloc::Global;
use std::marker::Model;

/// Bytes that contracts see as their list. A call that finds no memory leaves them as they were.
#[derive(Debug, Drop)]
pub struct Bytes {
    items: Vec<u8>,
}

impl Model for Bytes {
    ghost use Rattle.std.specs.Prelude.{List, ℕ};

    ghost Value = { List ℕ };

    ghost view = { λ bytes. bytes.items.items };
}

impl Bytes {
    /// No bytes. It takes no memory.
    pub fn new(alloc: Global) -> Bytes
        ensures { result ≡ [] }
    {
        Bytes {
            items: Vec::new(alloc),
        }
    }

    /// No bytes, with room for so many.
    pub fn with_capacity(alloc: Global, room: usize) -> Result<Bytes, NoMemory>
        ensures { IfOk result (λ bytes. bytes ≡ []) }
    {
        Ok(Bytes {
            items: Vec::with_capacity(alloc, room)?,
        })
    }

    /// A copy of the bytes.
    pub fn from_slice(alloc: Global, bytes: &[u8]) -> Result<Bytes, NoMemory>
        ensures { IfOk result (λ copy. copy ≡ bytes.now) }
    {
        Ok(Bytes {
            items: Vec::from_slice(alloc, bytes)?,
        })
    }

    /// The bytes of a `Vec`. It takes no memory.
    pub fn from_vec(items: Vec<u8>) -> Bytes
        ensures { result ≡ items.items }
    {
        Bytes { items }
    }

    /// The bytes as a `Vec`. It takes no memory.
    pub fn into_vec(self) -> Vec<u8>
        ensures { result.items ≡ self }
    {
        let Bytes { items } = self;
        items
    }

    /// The bytes.
    pub fn as_slice(&self) -> &[u8]
        ensures { result.now ≡ self.now }
    {
        self.items.as_slice()
    }

    /// How many bytes there are.
    pub fn len(&self) -> usize
        ensures { result ≡ length self.now }
    {
        self.items.len()
    }

    /// Appends the bytes.
    pub fn push_slice(&mut self, more: &[u8]) -> Result<(), NoMemory>
        ensures added { OnOk result (self.new ≡ self.old ++ more.now) }
        ensures kept { OnErr result (self.new ≡ self.old) }
    {
        self.items.extend_from_slice(more)?;
        Ok(())
    }

    /// Appends so many zero bytes.
    #[tactic(auto, unfolding(crate::specs::Fields::zeros))]
    pub fn push_zeros(&mut self, count: usize) -> Result<(), NoMemory>
        ensures added { OnOk result (self.new ≡ self.old ++ zeros count) }
        ensures kept { OnErr result (self.new ≡ self.old) }
    {
        let Some(size) = self.items.len().checked_add(count) else {
            return Err(NoMemory);
        };
        self.items.resize(size, 0)?;
        Ok(())
    }

    /// Appends a number, its lowest byte first.
    pub fn push_u16(&mut self, value: u16) -> Result<(), NoMemory>
        ensures added { OnOk result (self.new ≡ self.old ++ little_bytes 2 value) }
        ensures kept { OnErr result (self.new ≡ self.old) }
    {
        let mut field = [0; 2];
        put_u16(&mut field, 0, value);
        self.push_slice(&field)
    }

    /// Appends a number, its lowest byte first.
    pub fn push_u32(&mut self, value: u32) -> Result<(), NoMemory>
        ensures added { OnOk result (self.new ≡ self.old ++ little_bytes 4 value) }
        ensures kept { OnErr result (self.new ≡ self.old) }
    {
        let mut field = [0; 4];
        put_u32(&mut field, 0, value);
        self.push_slice(&field)
    }

    /// Appends a number, its lowest byte first.
    pub fn push_u64(&mut self, value: u64) -> Result<(), NoMemory>
        ensures added { OnOk result (self.new ≡ self.old ++ little_bytes 8 value) }
        ensures kept { OnErr result (self.new ≡ self.old) }
    {
        let mut field = [0; 8];
        put_u64(&mut field, 0, value);
        self.push_slice(&field)
    }
}
