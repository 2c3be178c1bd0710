//! Where threads sleep that have drawn no ticket. No contract rests on it, nor is it proved that
//! every sleeper wakes.
//!
//! A turn is short, and to wake a thread takes a hundred times as long. If each of many threads
//! drew its ticket at once, every turn would wait for a sleeper to wake. So who comes while others
//! have turns sleeps first, and of all sleepers at most one is on its way at a time: turns go from
//! one running thread to the next as long as there are any.
//!
//! Why none sleeps on: a sleeper lies down first and looks then whether somebody has a turn, and
//! goes to sleep only where somebody has. Who leaves a turn that nobody waits for calls a sleeper,
//! unless one is on its way. Who was called says first that nobody is on its way any more, and
//! looks again then. Who wanted to call and found nobody asleep looks once more where no turn is
//! out, since another's call may have been left to it.

use std::sync::Wait;
use std::sync::atomic::{AtomicU64, Ordering};

/// The sleeper isn't there.
const AWAY: u64 = 0;

/// It lies down, or sleeps.
const ASLEEP: u64 = 1;

/// It was called, and hasn't got up yet.
const CALLED: u64 = 2;

/// Sixteen places to sleep.
#[derive(Drop)]
pub(crate) struct Hall {
    places: [AtomicU64; 16],
    /// How many lie in them.
    asleep: AtomicU64,
    /// Whether one was called and hasn't got up, or somebody looks for one to call.
    calling: AtomicU64,
}

impl Hall {
    pub(crate) fn new() -> Hall {
        Hall {
            places: [
                AtomicU64::new(AWAY),
                AtomicU64::new(AWAY),
                AtomicU64::new(AWAY),
                AtomicU64::new(AWAY),
                AtomicU64::new(AWAY),
                AtomicU64::new(AWAY),
                AtomicU64::new(AWAY),
                AtomicU64::new(AWAY),
                AtomicU64::new(AWAY),
                AtomicU64::new(AWAY),
                AtomicU64::new(AWAY),
                AtomicU64::new(AWAY),
                AtomicU64::new(AWAY),
                AtomicU64::new(AWAY),
                AtomicU64::new(AWAY),
                AtomicU64::new(AWAY),
            ],
            asleep: AtomicU64::new(0),
            calling: AtomicU64::new(0),
        }
    }

    fn place(&self, number: u32) -> &AtomicU64 {
        &self.places[(number % 16) as usize]
    }

    /// Lies down in the number's place. It is false where another lies there.
    pub(crate) fn lie_down(&self, number: u32) -> bool {
        let place = self.place(number);
        if place
            .compare_exchange(AWAY, ASLEEP, Ordering::SeqCst, Ordering::SeqCst)
            .is_err()
        {
            return false;
        }
        self.asleep.fetch_add(1, Ordering::SeqCst);
        true
    }

    /// Sleeps in the number's place until it is called.
    pub(crate) fn sleep<R: Wait>(&self, rt: &R, number: u32) {
        let place = self.place(number);
        for _ in rt.forever() {
            if place.load(Ordering::SeqCst) != ASLEEP {
                return;
            }
            place.park(rt, 1);
        }
    }

    /// Gets up from the number's place, called or not.
    pub(crate) fn get_up(&self, number: u32) {
        self.asleep.fetch_sub(1, Ordering::SeqCst);
        if self.place(number).swap(AWAY, Ordering::SeqCst) == CALLED {
            self.calling.store(0, Ordering::SeqCst);
        }
    }

    /// Whether somebody sleeps.
    pub(crate) fn has_sleepers(&self) -> bool {
        self.asleep.load(Ordering::SeqCst) != 0
    }

    /// Begins to call. It is false where somebody calls already, or a called one is on its way.
    pub(crate) fn begin_call(&self) -> bool {
        self.calling.load(Ordering::SeqCst) == 0 && self.calling.swap(1, Ordering::SeqCst) == 0
    }

    /// Ends a call that found nobody.
    pub(crate) fn end_call(&self) {
        self.calling.store(0, Ordering::SeqCst);
    }

    /// Calls the first sleeper. It is false where nobody sleeps.
    pub(crate) fn call_first(&self) -> bool {
        for place in &self.places {
            if place.load(Ordering::SeqCst) == ASLEEP
                && place
                    .compare_exchange(ASLEEP, CALLED, Ordering::SeqCst, Ordering::SeqCst)
                    .is_ok()
            {
                place.wake_one();
                return true;
            }
        }
        false
    }
}
