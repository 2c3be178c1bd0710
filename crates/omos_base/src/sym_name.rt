//! The names of symbols.
//!
//! A name has 1 to 1,024 bytes, each 0x21 to 0x7E or 0x80 to 0xFF and none of `(`, `)`, `"` and
//! `;`. Nothing here knows what a name stands for.

ghost use Rattle.std.specs.Prelude.{◌≡◌, ◌↔◌, ◌∷◌, [], ℕ, IsTrue, IfOk, MatchOption, All};
ghost use Rattle.std.specs.Prelude.{refl, nat_eq};
ghost use Rattle.std.proofs.Common.{rules};
ghost use Rattle.std.specs.Cmp.{partial_order_from_own_ties};
ghost use Rattle.std.specs.Cmp.Lexicographic.{pointwise, slice_cmp};
ghost use Rattle.std.specs.Cmp.Rules.{comparing, hashing};
ghost use Rattle.std.specs.Ordering.{as_partial_cmp, nat_cmp};
ghost use Rattle.omos_base.specs.Fault.{MatchFault};
ghost use Rattle.omos_base.specs.SymNames.{IsNameByte, IsSymName, IsFirstBarred};
ghost use Rattle.omos_base.specs.SymNames.{HasNameFault, is_name_byte};

use crate::fault::{Fault, NoMemory};
use crate::part::Part;
use std::alloc::Global;
use std::cmp::Ordering;
use std::hash::{Hash, Hasher};
use std::marker::Model;
use thiserror::Error;

/// Why bytes are no name of a symbol.
#[derive(Clone, Copy, Debug, PartialEq, Eq, Error)]
pub enum NameFault {
    /// There are none, or more than 1,024.
    #[error("a name has 1 to 1,024 bytes")]
    Length,
    /// The byte at this place, counted from 0, is the first that a name may not have.
    #[error("the byte at place {0} may not stand in a name")]
    Byte(u32),
}

/// The name of a symbol, that contracts see as its bytes. It may share them with other names.
///
/// Names are ordered by their bytes; a proper prefix comes first.
#[derive(Debug, Drop)]
pub struct SymName {
    bytes: Part,
}

impl Model for SymName {
    ghost use Rattle.std.specs.Prelude.{List, ℕ};

    ghost Value = { List ℕ };

    ghost use Rattle.omos_base.specs.SymNames.{IsSymName};

    ghost view = { λ name. name.bytes };

    ghost invariant = { λ name. IsSymName name.bytes };
}

/// Whether a name may have the byte.
pub fn is_name_byte(byte: u8) -> bool
    ensures name { IsTrue result ↔ IsNameByte byte }
    ensures test { result ≡ is_name_byte byte }
{
    !matches!(byte, 0..=b' ' | b'"' | b'(' | b')' | b';' | 0x7f)
}

/// The place of the first byte that a name may not have.
fn first_barred(bytes: &[u8]) -> Option<usize>
    ensures { MatchOption result (All IsNameByte bytes.now) (IsFirstBarred bytes.now) }
{
    for (place, byte) in bytes.iter().enumerate() {
        if !is_name_byte(*byte) {
            return Some(place);
        }
    }
    None
}

impl SymName {
    /// The name with these bytes. The fault is Length where there are none or more than 1,024,
    /// and else Byte at the first that a name may not have.
    pub fn read(alloc: Global, bytes: &[u8]) -> Result<SymName, Fault<NameFault>>
        ensures { MatchFault result (λ name. (name ≡ bytes.now) × IsSymName bytes.now)
            (HasNameFault bytes.now) }
    {
        if bytes.is_empty() || bytes.len() > 1_024 {
            return Err(Fault::Refused(NameFault::Length));
        }
        if let Some(place) = first_barred(bytes) {
            return Err(Fault::Refused(NameFault::Byte(place as u32)));
        }
        Ok(SymName {
            bytes: Part::from_slice(alloc, bytes)?,
        })
    }

    /// The name with these bytes, of which none is tested or copied.
    pub fn of(bytes: Part) -> SymName
        requires { IsSymName bytes }
        ensures { result ≡ bytes }
    {
        SymName { bytes }
    }

    /// A second owner of the same bytes, which are not copied.
    pub fn copy(&self) -> Result<SymName, NoMemory>
        ensures { IfOk result (λ copy. copy ≡ self.now) }
    {
        Ok(SymName {
            bytes: self.bytes.twin()?,
        })
    }

    /// The bytes.
    pub fn as_bytes(&self) -> &[u8]
        ensures bytes { result.now ≡ self.now }
        ensures name { IsSymName self.now }
    {
        self.bytes.as_slice()
    }
}

impl PartialEq for SymName {
    ghost eq = { pointwise nat_eq };

    ghost laws = { Prim.search (comparing, rules) };

    fn eq(&self, other: &SymName) -> bool {
        self.as_bytes() == other.as_bytes()
    }
}

impl Eq for SymName {
    ghost laws = { Prim.search (comparing, rules) };
}

impl PartialOrd for SymName {
    ghost partial_cmp = { as_partial_cmp (slice_cmp nat_cmp) };

    ghost laws = { partial_order_from_own_ties (Prim.search (comparing, rules))
        (Prim.search (comparing, rules)) };

    fn partial_cmp(&self, other: &SymName) -> Option<Ordering> {
        Some(self.cmp(other))
    }
}

impl Ord for SymName {
    ghost cmp = { slice_cmp nat_cmp };

    ghost total = { Prim.search (comparing, rules) };

    ghost matches_partial_cmp = { λ x y. refl };

    ghost matches_eq = { Prim.search (comparing, rules) };

    fn cmp(&self, other: &SymName) -> Ordering {
        self.as_bytes().cmp(other.as_bytes())
    }
}

impl Hash for SymName {
    ghost hash_input = { λ name. name ∷ [] };

    ghost respects_eq = { Prim.search (hashing, rules) };

    /// The bytes are written at once.
    fn hash<H: Hasher>(&self, state: &mut H) {
        state.write(self.as_bytes());
    }
}
