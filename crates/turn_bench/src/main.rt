//! Takes turns in a lock, for bench/lock.sh: `turn_bench THREADS TURNS` has so many threads, at
//! most 16, take so many turns each, at most 100,000,000. It prints how many there were in all.
#![tactic(auto)]

mod counter;
mod turns;

use crate::turns::turns_of;
use std::env;
use std::io::{Error, ErrorKind, Result};

/// The number that a word says.
fn number(word: Option<String>) -> Result<u32> {
    match word {
        Some(text) => match text.as_str().parse::<u32>() {
            Ok(value) => Ok(value),
            Err(_) => Err(Error::from(ErrorKind::InvalidInput)),
        },
        None => Err(Error::from(ErrorKind::InvalidInput)),
    }
}

fn main(rt: HostRuntime) -> Result<()> {
    let mut words = env::args(&rt)?.skip(1);
    let threads = number(words.next())?;
    let turns = number(words.next())?;
    if threads > 16 || turns > 100_000_000 {
        return Err(Error::from(ErrorKind::InvalidInput));
    }
    match turns_of(&rt, rt.alloc(), threads, turns) {
        Ok(count) => println!(rt; "{count} turns"),
        Err(_) => Err(Error::from(ErrorKind::OutOfMemory)),
    }
}
