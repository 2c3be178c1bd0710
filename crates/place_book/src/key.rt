//! Numbers by which paths are told apart in most cases.

ghost use Rattle.std.specs.Prelude.{◌≡◌, ◌+◌, ◌<◌, ◌≤◌, ◌^◌, fold, length, drop, true};
ghost use Rattle.place_book.specs.Keys.{key_of, key_with, next_of, is_listed};

use omos_base::PathName;

/// The key of the bytes so far and one more.
fn key_with(key: u32, byte: u8) -> u32
    ensures { result ≡ key_with key byte }
{
    ((u64::from(key) * 37 + u64::from(byte)) % 0x1_0000_0000) as u32
}

/// The key of the bytes so far and two more, from a position on.
fn key_with_2(key: u32, bytes: &[u8], at: usize) -> u32
    requires { at + 2 ≤ length bytes.now }
    ensures { fold key_with result (drop (at + 2) bytes.now)
        ≡ fold key_with key (drop at bytes.now) }
{
    key_with(key_with(key, bytes[at]), bytes[at + 1])
}

/// The key of the bytes so far and four more, from a position on.
fn key_with_4(key: u32, bytes: &[u8], at: usize) -> u32
    requires { at + 4 ≤ length bytes.now }
    ensures { fold key_with result (drop (at + 4) bytes.now)
        ≡ fold key_with key (drop at bytes.now) }
{
    key_with_2(key_with_2(key, bytes, at), bytes, at + 2)
}

/// A number of a path. Equal paths have the same, and most others another. Four bytes take one turn
/// of a loop.
pub fn key_of(path: &PathName) -> u32
    ensures { result ≡ key_of path.now }
{
    let bytes = path.as_bytes();
    let mut key = 0;
    let mut at = 0;
    'fours: while bytes.len() - at >= 4 {
        key = key_with_4(key, bytes, at);
        at += 4;
    }
    if bytes.len() - at >= 2 {
        key = key_with_2(key, bytes, at);
        at += 2;
    }
    'ones: while at < bytes.len() {
        key = key_with(key, bytes[at]);
        at += 1;
    }
    key
}

/// Whether the key at a position is another.
fn is_other(keys: &[u32], at: usize, key: u32) -> bool
    requires { at + 1 ≤ length keys.now }
    ensures { result ≡ true → next_of key at keys.now ≡ next_of key (at + 1) keys.now }
{
    keys[at] != key
}

/// Whether the two keys from a position on are others.
fn are_other_2(keys: &[u32], at: usize, key: u32) -> bool
    requires { at + 2 ≤ length keys.now }
    ensures { result ≡ true → next_of key at keys.now ≡ next_of key (at + 2) keys.now }
{
    is_other(keys, at, key) && is_other(keys, at + 1, key)
}

/// Whether the four keys from a position on are others.
fn are_other_4(keys: &[u32], at: usize, key: u32) -> bool
    requires { at + 4 ≤ length keys.now }
    ensures { result ≡ true → next_of key at keys.now ≡ next_of key (at + 4) keys.now }
{
    are_other_2(keys, at, key) && are_other_2(keys, at + 2, key)
}

/// Whether the eight keys from a position on are others.
fn are_other_8(keys: &[u32], at: usize, key: u32) -> bool
    requires { at + 8 ≤ length keys.now }
    ensures { result ≡ true → next_of key at keys.now ≡ next_of key (at + 8) keys.now }
{
    are_other_4(keys, at, key) && are_other_4(keys, at + 4, key)
}

/// The first position from one on at which the key stands, or the number of keys. Eight keys take
/// one turn of a loop, so a key costs little more than its comparison.
pub(crate) fn next_of(keys: &[u32], from: usize, key: u32) -> usize
    requires { from ≤ length keys.now }
    ensures value { result ≡ next_of key from keys.now }
    ensures within { result ≤ length keys.now }
{
    let mut at = from;
    'eights: while keys.len() - at >= 8 && are_other_8(keys, at, key) {
        at += 8;
    }
    'ones: while at < keys.len() && keys[at] != key {
        at += 1;
    }
    at
}

/// Whether one of the keys is the path's. One key, as is usual, takes no loop.
pub fn is_listed(keys: &[u32], path: &PathName) -> bool
    ensures { result ≡ is_listed keys.now path.now }
{
    let key = key_of(path);
    if keys.len() == 1 {
        return keys[0] == key;
    }
    next_of(keys, 0, key) < keys.len()
}
