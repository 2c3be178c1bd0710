//! The paths of entries.
//!
//! A path is `/` followed by 1 to 16 parts joined by `/`, at most 255 bytes in all. A part has 1
//! to 64 bytes of ASCII letters, digits, `.`, `_`, `+` and `-`; `.` and `..` are parts like any
//! other. Nothing here knows what a path leads to.

ghost use Rattle.std.specs.Prelude.{◌≡◌, ◌↔◌, ◌≤◌, ℕ, length, IsTrue, refl, nat_eq};
ghost use Rattle.std.specs.Prelude.{MatchOption, MatchResult};
ghost use Rattle.std.proofs.Common.{rules};
ghost use Rattle.std.specs.Cmp.{partial_order_from_own_ties};
ghost use Rattle.std.specs.Cmp.Lexicographic.{pointwise, slice_cmp};
ghost use Rattle.std.specs.Cmp.Rules.{comparing, hashing};
ghost use Rattle.std.specs.Hash as fed;
ghost use Rattle.std.specs.Ordering.{as_partial_cmp, nat_cmp};
ghost use Rattle.omos_base.specs.Paths.{IsPartByte, IsPath, HasPathFault};

use arrayvec::ArrayVec;
use std::cmp::Ordering;
use std::hash::{Hash, Hasher};
use std::marker::Model;
use thiserror::Error;

/// Why bytes are no path.
#[derive(Clone, Copy, Debug, PartialEq, Eq, Error)]
pub enum PathFault {
    /// There are more than 255.
    #[error("a path has at most 255 bytes")]
    Long,
    /// The bytes up to and with the one at this place, counted from 0, begin no path, and no
    /// earlier byte does that; or this is their length, where they begin a path and are none.
    #[error("the path is ill-formed at byte {0}")]
    Shape(u32),
}

/// The path of an entry, that contracts see as its bytes. It holds them inline, and no call on it
/// takes memory.
///
/// Paths are ordered by their bytes; a proper prefix comes first.
#[derive(Debug, Drop)]
pub struct PathName {
    bytes: ArrayVec<u8, 255>,
}

impl Model for PathName {
    ghost use Rattle.std.specs.Prelude.{List, ℕ};

    ghost Value = { List ℕ };

    ghost use Rattle.omos_base.specs.Paths.{IsPath};

    ghost view = { λ path. path.bytes.items };

    ghost invariant = { λ path. IsPath path.bytes.items };
}

/// Whether a part may have the byte.
fn is_part_byte(byte: u8) -> bool
    ensures { IsTrue result ↔ IsPartByte byte }
{
    byte.is_ascii_alphanumeric() || matches!(byte, b'.' | b'_' | b'+' | b'-')
}

/// The place where at most 255 bytes stop being the beginning of a path, or their length where
/// they end too early to be one.
fn shape_fault(bytes: &[u8]) -> Option<u32>
    requires { length bytes.now ≤ 255 }
    ensures { MatchOption result (IsPath bytes.now)
        (λ place. HasPathFault bytes.now (PathFault.Shape place)) }
{
    if !bytes.starts_with(b"/") {
        return Some(0);
    }
    let mut parts = 1u32;
    let mut size = 0u32;
    for place in 1..bytes.len() {
        let byte = bytes[place];
        if byte == b'/' {
            // It ends a part, and begins one more, of which a byte at least must still fit.
            if size == 0 || parts == 16 || place == 254 {
                return Some(place as u32);
            }
            parts += 1;
            size = 0;
        } else {
            if size == 64 || !is_part_byte(byte) {
                return Some(place as u32);
            }
            size += 1;
        }
    }
    if size == 0 {
        Some(bytes.len() as u32)
    } else {
        None
    }
}

/// The bytes as an array.
fn array_of(bytes: &[u8]) -> ArrayVec<u8, 255>
    requires { length bytes.now ≤ 255 }
    ensures { result.items ≡ bytes.now }
{
    ArrayVec::try_from(bytes).unwrap()
}

impl PathName {
    /// The path with these bytes. The fault is Long above 255 bytes, and else Shape at the first
    /// byte with which no path goes on, or at the length where the whole is only the beginning of
    /// one.
    pub fn read(bytes: &[u8]) -> Result<PathName, PathFault>
        ensures { MatchResult result (λ path. (path ≡ bytes.now) × IsPath bytes.now)
            (HasPathFault bytes.now) }
    {
        if bytes.len() > 255 {
            return Err(PathFault::Long);
        }
        if let Some(place) = shape_fault(bytes) {
            return Err(PathFault::Shape(place));
        }
        Ok(PathName {
            bytes: array_of(bytes),
        })
    }

    /// The same path once more.
    pub fn copy(&self) -> PathName
        ensures { result ≡ self.now }
    {
        PathName {
            bytes: array_of(self.bytes.as_slice()),
        }
    }

    /// The bytes.
    pub fn as_bytes(&self) -> &[u8]
        ensures bytes { result.now ≡ self.now }
        ensures path { IsPath self.now }
    {
        self.bytes.as_slice()
    }
}

impl PartialEq for PathName {
    ghost eq = { pointwise nat_eq };

    ghost laws = { Prim.search (comparing, rules) };

    fn eq(&self, other: &PathName) -> bool {
        self.as_bytes() == other.as_bytes()
    }
}

impl Eq for PathName {
    ghost laws = { Prim.search (comparing, rules) };
}

impl PartialOrd for PathName {
    ghost partial_cmp = { as_partial_cmp (slice_cmp nat_cmp) };

    ghost laws = { partial_order_from_own_ties (Prim.search (comparing, rules))
        (Prim.search (comparing, rules)) };

    fn partial_cmp(&self, other: &PathName) -> Option<Ordering> {
        Some(self.cmp(other))
    }
}

impl Ord for PathName {
    ghost cmp = { slice_cmp nat_cmp };

    ghost total = { Prim.search (comparing, rules) };

    ghost matches_partial_cmp = { λ x y. refl };

    ghost matches_eq = { Prim.search (comparing, rules) };

    fn cmp(&self, other: &PathName) -> Ordering {
        self.as_bytes().cmp(other.as_bytes())
    }
}

impl Hash for PathName {
    ghost hash_input = { fed.slice fed.u8 };

    ghost respects_eq = { Prim.search (hashing, rules) };

    fn hash<H: Hasher>(&self, state: &mut H) {
        self.as_bytes().hash(state);
    }
}
