//! Hashes of names that strangers choose, by a seed that they don't know.
//!
//! A server draws one `Seed` at its start and hands it to each table of names. Whoever sends names
//! knows this code, and neither the seed nor what a look-up takes to the nanosecond. Their names
//! then share hashes as seldom as names drawn by lot, so a look-up costs what it costs for others'.
//!
//! A hash is two secret numbers, a state and a key, folded with the bytes: of each 16 bytes eight
//! are added to the state and eight to the key by xor, and the two halves of their product, joined
//! by xor, are the next state.
//!
//! - **Both numbers have to be secret.** std's `FoldHasher`, primed with a secret state, multiplies
//!   by a public number. A name of 16 bytes chooses what stands there: its last eight can leave two
//!   bits of the multiplier, and a product by two bits moves each bit of the other factor to two
//!   known places. Of 1,024 such names, that differ in bits that go nowhere near the choice of a
//!   place in a table of 2,048, all came to 7 places, under each of five seeds tried. With a secret
//!   key they came to 720 to 780, as names drawn by lot do.
//! - **At most 8 bytes**, and so each number: the state and the key meet the bytes and their count.
//!   Two that differ have equal hashes for about as few seeds as two drawn by lot, since what a bit
//!   of difference does to the product is the key, moved, added or taken away.
//! - **9 to 16 bytes**: of both factors neither is known, so no choice makes one sparse or zero but
//!   for one key in 2 to the 64th for each try.
//! - **More bytes**: a difference in one block makes an unknown difference of the next state, so no
//!   later block can take it back. The state is turned by the count of the bytes first, so names
//!   that read alike and differ in their lengths don't begin alike.
//!
//! This isn't a cryptographic hash: nothing is claimed where hashes, or exact times, can be seen.
#![tactic(auto)]

mod hasher;
mod seed;

pub use hasher::NameHasher;
pub use seed::Seed;
