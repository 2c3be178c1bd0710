//! Paths compared eight and four bytes at a time.

ghost use Rattle.std.specs.Prelude.{◌≡◌, ◌+◌, ◌≤◌, length, take, drop};
ghost use Rattle.std.specs.Ordering.{is_lt};
ghost use Rattle.omos_model.specs.Names.{name_cmp};
ghost use Rattle.name_tree.specs.Order.{number_before};

use omos_base::PathName;

/// The eight bytes from a position on as a number, the first byte the highest.
fn eight_at(bytes: &[u8], at: usize) -> u64
    requires { at + 8 ≤ length bytes.now }
    ensures { result ≡ number_before 0 (take 8 (drop at bytes.now)) }
{
    match bytes.split_at(at).1.first_chunk::<8>() {
        Some(word) => u64::from_be_bytes(*word),
        None => unreachable!(),
    }
}

/// The four bytes from a position on as a number, the first byte the highest.
fn four_at(bytes: &[u8], at: usize) -> u32
    requires { at + 4 ≤ length bytes.now }
    ensures { result ≡ number_before 0 (take 4 (drop at bytes.now)) }
{
    match bytes.split_at(at).1.first_chunk::<4>() {
        Some(word) => u32::from_be_bytes(*word),
        None => unreachable!(),
    }
}

/// Whether bytes are below others in the order of paths. Paths are short, so what is left of eights
/// is compared without a call, too.
#[inline(always)]
fn are_below(bytes: &[u8], others: &[u8]) -> bool
    ensures { result ≡ is_lt (name_cmp bytes.now others.now) }
{
    let mut at = 0;
    'eights: while bytes.len() - at >= 8 && others.len() - at >= 8 {
        let word = eight_at(bytes, at);
        let other = eight_at(others, at);
        if word != other {
            return word < other;
        }
        at += 8;
    }
    if bytes.len() - at >= 4 && others.len() - at >= 4 {
        let word = four_at(bytes, at);
        let other = four_at(others, at);
        if word != other {
            return word < other;
        }
        at += 4;
    }
    'bytes: while at < bytes.len() && at < others.len() {
        let byte = bytes[at];
        let other = others[at];
        if byte != other {
            return byte < other;
        }
        at += 1;
    }
    bytes.len() < others.len()
}

/// Whether a path is below another. It is a part of each search by halves, without a call.
#[inline(always)]
pub(crate) fn is_below(path: &PathName, other: &PathName) -> bool
    ensures { result ≡ is_lt (name_cmp path.now other.now) }
{
    are_below(path.as_bytes(), other.as_bytes())
}
