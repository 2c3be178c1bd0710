//! Numbers that threads draw.

ghost use Rattle.std.specs.Prelude.{◌≡◌, length, All};
ghost use Rattle.worker_line.specs.Drawn.{IsNew};

use std::sync::atomic::{AtomicU64, Ordering};
use std::test::Fail;
use std::thread;
use std::thread::Threads;
use worker_line::{DrawSeat, Draws};

const SESSIONS: u32 = 1000;

/// Draws until there are no more, and adds each number to a sum.
fn draw_all(draws: &Draws, sum: &AtomicU64, seat: &mut DrawSeat)
    requires { IsNew draws.now 4 seat.old }
{
    'draws: for _ in 0..=SESSIONS {
        match draws.draw(seat) {
            Some(number) => sum.fetch_add(u64::from(number), Ordering::SeqCst),
            None => return,
        };
    }
}

/// Has four seats draw, each in a thread of its own.
fn draw_together<R: Threads + Sync>(rt: &R, draws: &Draws, sum: &AtomicU64, seats: &mut [DrawSeat])
    requires four { length seats.old ≡ 4 }
    requires fresh { All (IsNew draws.now 4) seats.old }
{
    thread::for_each_mut(rt, seats, 4, &|_i, seat| draw_all(draws, sum, seat));
}

#[test]
fn four_threads_draw_each_number_once(rt: HostRuntime) -> Result<(), Fail> {
    let (draws, mut seats) = Draws::new(rt.alloc(), SESSIONS, 4)?;
    let sum = AtomicU64::new(0);
    draw_together(&rt, &draws, &sum, seats.as_mut_slice());
    let mut drawn = 0u32;
    for seat in &seats {
        drawn = drawn.wrapping_add(seat.drawn());
    }
    assert_eq!(rt; drawn, SESSIONS);
    // 0 + 1 + .. + 999
    assert_eq!(rt; sum.load(Ordering::SeqCst), 499_500);
    Ok(())
}
