//! `omosd socket`: the doors at a socket file.

use omos_adapt::{SocketDoor, Writing, listen, remove_socket};
use omos_outside::OpenGate;
use seeded_hash::Seed;
use session_calls::{Slot, omosd_socket, socket_words};
use std::alloc::Global;
use std::io;
use std::net::Net;
use std::os::unix::net::UnixListener;
use std::random::RandomSource;
use std::rt::Files;
use std::sync::Wait;
use std::thread::Threads;

/// Serves all sessions at the listener, with a door and a gate that never waits for each worker.
/// The result is the status: that of the call; or 8 where there is no memory, and 9 where the
/// listener can't be shared.
fn serve_listener<R: Threads + Wait + Sync + Print>(
    rt: &R,
    alloc: Global,
    seed: Seed,
    words: &[String],
    listener: &UnixListener,
    workers: u32,
) -> u8 {
    let mut slots = Vec::new(alloc);
    'slots: for _ in 0..workers {
        let Ok(own) = listener.try_clone() else {
            return 9;
        };
        let slot = Slot::new(SocketDoor::new(own), OpenGate::new());
        if slots.push(slot).is_err() {
            return 8;
        }
    }
    let mut sink = Writing::new(io::writer(rt));
    omosd_socket(rt, alloc, seed, words, &mut slots, &mut sink)
}

/// Listens at the path of the words, serves all sessions, and removes the socket file.
pub(crate) fn serve_socket<R: Threads + Wait + Sync + Net + Files + Print + RandomSource>(
    rt: &R,
    alloc: Global,
    words: &[String],
) -> u8 {
    let (Some(said), Some(path)) = (socket_words(words), words.get(1)) else {
        return 2;
    };
    let Ok(seed) = Seed::draw(rt) else {
        return 10;
    };
    let Ok(listener) = listen(rt, path.as_str()) else {
        return 9;
    };
    let status = serve_listener(rt, alloc, seed, words, &listener, said.workers);
    remove_socket(rt, path.as_str());
    status
}
