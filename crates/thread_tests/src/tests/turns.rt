//! A list that threads add to in turns.

ghost use Rattle.std.specs.Prelude.{◌≡◌, ◌≤◌, false, [], length, All, IfOk};
ghost use Rattle.turn_lock.specs.Steps.{Adds};

use omos_base::{NoMemory, Row};
use std::sync::Wait;
use std::test::Fail;
use std::thread;
use std::thread::Threads;
use turn_lock::{Closing, Pass, Told, TurnLock};

/// The numbers of the passes that had a turn, in order.
#[derive(Drop)]
struct Notes {
    list: Row<u32>,
}

impl Told for Notes {
    type Step = u32;

    ghost steps = { λ notes. notes.list };

    ghost seat_of = { λ number. number };

    ghost first = { λ _. 0 };

    ghost second = { λ _. 0 };
}

/// Notes a number, unless there is no memory.
fn note(notes: &mut Notes, number: u32)
    ensures { Adds (λ step. step) number notes.old.list notes.new.list }
{
    let _ = notes.list.push(number);
}

/// Notes the pass's number in so many turns.
fn note_turns<R: Wait>(rt: &R, lock: &TurnLock<Notes>, pass: &mut Pass<u32>, turns: u32)
    requires lock { pass.old.lock ≡ lock.now }
    requires idle { pass.old.holds_turn ≡ false }
    requires fresh { pass.old.turns ≡ [] }
    ensures { (pass.new.lock ≡ lock.now) × (pass.new.holds_turn ≡ false) }
{
    'turns: for turn in 0..turns {
        let _ = turn;
        let mut notes = lock.take(rt, pass);
        note(&mut notes, pass.number());
        lock.give(pass, notes);
    }
}

/// Has two passes note their numbers, each in a thread of its own.
fn note_both<R: Threads + Wait + Sync>(
    rt: &R,
    lock: &TurnLock<Notes>,
    passes: &mut [Pass<u32>],
    turns: u32,
)
    requires two { length passes.old ≡ 2 }
    requires fresh { All (λ p. (p.lock ≡ lock.now) × (p.holds_turn ≡ false) × (p.turns ≡ []))
        passes.old }
{
    thread::for_each_mut(
        rt,
        passes,
        2,
        &|_i, pass| { note_turns(rt, lock, pass, turns) },
    );
}

/// How many of the notes are this number.
fn count(notes: &Notes, number: u32) -> usize {
    notes
        .list
        .as_slice()
        .iter()
        .filter(|noted| **noted == number)
        .count()
}

#[test]
fn two_threads_add_to_one_list(rt: HostRuntime) -> Result<(), Fail> {
    let alloc = rt.alloc();
    let list = Row::new(alloc);
    let (lock, mut first) = TurnLock::new(alloc, Notes { list })?;
    let mut passes = vec![in alloc; lock.split(&mut first)?, lock.split(&mut first)?]?;
    note_both(&rt, &lock, passes.as_mut_slice(), 2000);
    let Closing::Value(notes) = lock.close(first) else {
        return Err(Fail::from(NoMemory));
    };
    assert_eq!(rt; notes.list.len(), 4000);
    assert_eq!(rt; count(&notes, 1), 2000);
    assert_eq!(rt; count(&notes, 2), 2000);
    Ok(())
}

#[test]
fn the_closed_list_is_that_of_all_passes(rt: HostRuntime) -> Result<(), Fail> {
    let alloc = rt.alloc();
    let list = Row::new(alloc);
    let (lock, mut first) = TurnLock::new(alloc, Notes { list })?;
    let mut second = lock.split(&mut first)?;
    note_turns(&rt, &lock, &mut second, 2);
    note_turns(&rt, &lock, &mut first, 1);
    lock.join(&mut first, second);
    let Closing::Value(notes) = lock.close(first) else {
        return Err(Fail::from(NoMemory));
    };
    assert_eq!(rt; notes.list.as_slice(), [1, 1, 0].as_slice());
    Ok(())
}

#[test]
fn a_turn_that_is_out_is_held(rt: HostRuntime) -> Result<(), Fail> {
    let alloc = rt.alloc();
    let list = Row::new(alloc);
    let (lock, mut first) = TurnLock::new(alloc, Notes { list })?;
    let notes = lock.take(&rt, &mut first);
    assert_eq!(rt; notes.list.len(), 0);
    assert!(rt; matches!(lock.close(first), Closing::Held { drawn: 1, left: 0 }));
    Ok(())
}
