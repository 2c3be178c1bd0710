//! The value in the lock: a count, so that what is timed is the lock and not the moves of a large
//! value.

ghost use Rattle.std.specs.Prelude.{[]};

use turn_lock::Told;

/// A count of turns. It tells no steps.
#[derive(Drop)]
pub(crate) struct Counter {
    pub(crate) count: u64,
}

impl Told for Counter {
    type Step = u64;

    ghost steps = { λ _. [] };

    ghost seat_of = { λ x. x };

    ghost first = { λ _. 0 };

    ghost second = { λ _. 0 };
}
