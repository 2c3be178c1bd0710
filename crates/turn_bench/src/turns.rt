//! Threads that take turns.

ghost use Rattle.std.specs.Prelude.{◌≡◌, ◌+◌, ◌^◌, ◌≤◌, false, [], length, All, IfOk};

use crate::counter::Counter;
use omos_base::NoMemory;
use std::alloc::Global;
use std::sync::Wait;
use std::thread;
use std::thread::Threads;
use turn_lock::{Closing, Pass, TurnLock};

/// Takes so many turns.
fn take_turns<R: Wait>(rt: &R, lock: &TurnLock<Counter>, pass: &mut Pass<u64>, turns: u32)
    requires lock { pass.old.lock ≡ lock.now }
    requires idle { pass.old.holds_turn ≡ false }
    requires fresh { pass.old.turns ≡ [] }
{
    for turn in 0..turns {
        let _ = turn;
        let mut counter = lock.take(rt, pass);
        counter.count = counter.count.wrapping_add(1);
        lock.give(pass, counter);
    }
}

/// So many passes.
fn split_passes(
    alloc: Global,
    lock: &TurnLock<Counter>,
    first: &mut Pass<u64>,
    count: u32,
) -> Result<Vec<Pass<u64>>, NoMemory>
    requires few { count ≤ 16 }
    requires lock { first.old.lock ≡ lock.now }
    requires fresh { (first.old.holds_turn ≡ false) × (first.old.number ≡ 0)
        × (first.old.made ≡ 0) }
    ensures passes { IfOk result (λ r. All
        (λ p. (p.lock ≡ lock.now) × (p.holds_turn ≡ false) × (p.turns ≡ [])) r.items) }
    ensures first { IfOk result (λ r. first.new.lock ≡ lock.now) }
{
    let mut passes = Vec::new(alloc);
    for number in 0..count {
        let _ = number;
        let pass = lock.split(first)?;
        passes.push(pass)?;
    }
    Ok(passes)
}

/// Has each pass take so many turns, in a thread of its own.
fn take_all<R: Threads + Wait + Sync>(
    rt: &R,
    lock: &TurnLock<Counter>,
    passes: &mut Vec<Pass<u64>>,
    turns: u32,
)
    requires { All (λ p. (p.lock ≡ lock.now) × (p.holds_turn ≡ false) × (p.turns ≡ []))
        passes.old.items }
{
    let count = passes.len();
    if count == 0 {
        return;
    }
    thread::for_each_mut(
        rt,
        passes.as_mut_slice(),
        count,
        &|_i, pass| { take_turns(rt, lock, pass, turns) },
    );
}

/// How many turns the lock counted, once so many threads took so many each.
pub(crate) fn turns_of<R: Threads + Wait + Sync>(
    rt: &R,
    alloc: Global,
    threads: u32,
    turns: u32,
) -> Result<u64, NoMemory>
    requires few { threads ≤ 16 }
{
    let counter = Counter { count: 0 };
    let (lock, mut first) = TurnLock::new(alloc, counter)?;
    let mut passes = split_passes(alloc, &lock, &mut first, threads)?;
    take_all(rt, &lock, &mut passes, turns);
    match lock.close(first) {
        Closing::Value(counter) => Ok(counter.count),
        Closing::Held { .. } => Ok(0),
    }
}
