//! Numbers of a range.

ghost use Rattle.std.specs.Prelude.{◌≡◌, ◌≤◌, ◌<◌, ◌^◌, ◌∷◌, MatchOption, IsTrue, ◌↔◌, slice_index};
ghost use Rattle.std.specs.Str.Parse.{IsNumeral, digits_value};
ghost use Rattle.bp_tree.specs.Numerals.{IsNumeralOf, IsNoNumeral};
ghost use Rattle.bp_tree.specs.TextFaults.{IsNumberWord};

use std::str::from_utf8;

/// Whether the bytes begin with a plus.
fn begins_with_plus(bytes: &[u8]) -> bool
    ensures { IsTrue result ↔ (slice_index bytes.now 0 ≡ 43) }
{
    match bytes {
        [first, ..] => *first == b'+',
        [] => false,
    }
}

/// The number that the digits say, where they are digits of the base and it is below 2^64.
fn digits_of(digits: &[u8], base: u32) -> Option<u64>
    requires low { 2 ≤ base }
    requires high { base ≤ 16 }
    ensures { MatchOption result (IsNoNumeral base digits.now)
        (λ n. IsNumeral base digits.now × (n ≡ digits_value base digits.now)) }
{
    if begins_with_plus(digits) {
        return None;
    }
    match from_utf8(digits) {
        Ok(text) => match u64::from_str_radix(text, base) {
            Ok(number) => Some(number),
            Err(_) => None,
        },
        Err(_) => None,
    }
}

/// The bytes behind a `0x`.
fn behind_0x(word: &[u8]) -> Option<&[u8]>
    ensures { MatchOption result ((ds : _) → word.now ≡ 48 ∷ 120 ∷ ds → ⊥)
        (λ ds. word.now ≡ 48 ∷ 120 ∷ ds.now) }
{
    match word {
        [b'0', b'x', digits @ ..] => Some(digits),
        _ => None,
    }
}

/// The number that a word is: `0x` and 1 to 16 hexadecimal digits, or 1 to 20 decimal digits.
pub(crate) fn number(word: &[u8]) -> Option<u64>
    ensures { MatchOption result (¬ IsNumberWord word.now) (IsNumeralOf word.now) }
{
    match behind_0x(word) {
        Some(digits) => {
            if digits.len() <= 16 {
                digits_of(digits, 16)
            } else {
                None
            }
        }
        None => {
            if word.len() <= 20 {
                digits_of(word, 10)
            } else {
                None
            }
        }
    }
}
