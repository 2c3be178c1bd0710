//! The hasher that a seed begins.

ghost use Rattle.std.specs.Prelude.{◌≡◌, ◌+◌, ◌-◌, ◌/◌, ◌≤◌, ◌<◌, length};
ghost use Rattle.seeded_hash.specs.inside.NameHashes.{folded, short_number, mixed, after_blocks};
ghost use Rattle.seeded_hash.specs.inside.NameHashes.{after_short, after_long, after};

use omos_base::{u32_at, u64_at};
use std::hash::Hasher;

/// What was written so far, folded with a secret key. `Seed` makes it.
#[derive(Clone, Copy)]
pub struct NameHasher {
    state: u64,
    key: u64,
}

impl NameHasher {
    /// The hasher that nothing was written to yet.
    pub(crate) fn new(state: u64, key: u64) -> NameHasher
        ensures { result ≡ record { state = state; key = key } }
    {
        NameHasher { state, key }
    }
}

/// The two halves of a product, joined by xor.
#[tactic(auto, unfolding(crate::specs::inside::NameHashes::folded))]
fn fold(a: u64, b: u64) -> u64
    ensures { result ≡ folded a b }
{
    let product = a as u128 * b as u128;
    (product % 0x1_0000_0000_0000_0000) as u64 ^ (product >> 64) as u64
}

/// At most 8 bytes as one number, by reads that may overlap.
#[tactic(auto, unfolding(crate::specs::inside::NameHashes::short_number))]
fn short(bytes: &[u8]) -> u64
    ensures { result ≡ short_number bytes.now }
{
    let len = bytes.len();
    if len >= 4 {
        u32_at(bytes, 0) as u64 + 0x1_0000_0000 * u32_at(bytes, len - 4) as u64
    } else if len >= 1 {
        bytes[0] as u64 + 256 * bytes[len / 2] as u64 + 65536 * bytes[len - 1] as u64
    } else {
        0
    }
}

/// The state after the numbers of 8 bytes from two places on.
fn mix(state: u64, key: u64, bytes: &[u8], first: usize, second: usize) -> u64
    requires first { first + 8 ≤ length bytes.now }
    requires second { second + 8 ≤ length bytes.now }
    ensures { result ≡ mixed key bytes.now state first second }
{
    fold(state ^ u64_at(bytes, first), key ^ u64_at(bytes, second))
}

/// The state after all blocks of 16 bytes but the last.
fn blocks(state: u64, key: u64, bytes: &[u8]) -> u64
    requires { 8 < length bytes.now }
    ensures { result ≡ after_blocks key bytes.now state ((length bytes.now - 1) / 16) }
{
    let mut mixed = state;
    for block in 0..(bytes.len() - 1) / 16 {
        mixed = mix(mixed, key, bytes, 16 * block, 16 * block + 8);
    }
    mixed
}

/// The state after at most 8 bytes.
#[tactic(auto, unfolding(crate::specs::inside::NameHashes::after_short))]
fn fold_short(state: u64, key: u64, bytes: &[u8]) -> u64
    requires { length bytes.now ≤ 8 }
    ensures { result ≡ after_short key bytes.now state }
{
    fold(state ^ short(bytes), key ^ bytes.len() as u64)
}

/// The state after more than 8 bytes.
#[tactic(auto, unfolding(crate::specs::inside::NameHashes::after_long))]
fn fold_long(state: u64, key: u64, bytes: &[u8]) -> u64
    requires { 8 < length bytes.now }
    ensures { result ≡ after_long key bytes.now state }
{
    let len = bytes.len();
    let turned = state.rotate_left((len % 64) as u32);
    let before = blocks(turned, key, bytes);
    mix(before, key, bytes, len.saturating_sub(16), len - 8)
}

impl Hasher for NameHasher {
    ghost write = { after };

    ghost finish = { λ hasher. hasher.state };

    fn finish(&self) -> u64 {
        self.state
    }

    #[tactic(auto, unfolding(crate::specs::inside::NameHashes::after))]
    fn write(&mut self, bytes: &[u8]) {
        self.state = if bytes.len() <= 8 {
            fold_short(self.state, self.key, bytes)
        } else {
            fold_long(self.state, self.key, bytes)
        };
    }
}
