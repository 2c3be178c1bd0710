//! `omosd`, the linker server. It hands the words of the command line and the real outside to the
//! top calls of the crates `omosd_calls`, `session_calls` and `workload_calls`, and ends with their
//! status.
#![tactic(auto)]

mod help;
mod socket;

use crate::help::{HELP, USAGE, VERSION};
use crate::socket::serve_socket;
use command_words::{is_alone, words_of};
use file_hints::tell_file;
use omos_adapt::{Reading, Writing};
use omosd_calls::omosd_once;
use refusal_words::{Noting, tell};
use seeded_hash::Seed;
use session_calls::omosd_stdio;
use std::io;
use std::process::ExitCode;
use workload_calls::omosd_workload;

/// Prints a text that was asked for on standard output.
fn printed(rt: &impl Print, text: &str) -> u8 {
    match rt.println(text) {
        Ok(()) => 0,
        Err(_) => 4,
    }
}

/// What standard error says beside a status.
fn message(status: u8) -> Option<&'static str> {
    match status {
        2 => Some(USAGE),
        3 => Some("omosd: standard input can't be read"),
        4 => Some("omosd: standard output can't be written"),
        5 => Some("omosd: the input ends inside a frame, or has bytes that begin none"),
        6 => Some("omosd: more than 65,536 frames"),
        8 => Some("omosd: no memory"),
        9 => Some("omosd: no socket"),
        10 => Some("omosd: the system gives no random bytes"),
        _ => None,
    }
}

/// Links one object, over the standard streams; a refusal is told on standard error.
fn link_once(rt: &HostRuntime, words: &[String]) -> u8 {
    let Ok(seed) = Seed::draw(rt) else {
        return 10;
    };
    let mut source = Reading::new(rt.stdin());
    let mut sink = Noting::new(Writing::new(io::writer(rt)));
    let status = omosd_once(rt.alloc(), seed, words, &mut source, &mut sink);
    if status == 1 {
        tell(rt, "omosd", sink.noted());
        tell_file(rt, rt.alloc(), "omosd", sink.noted(), "/dev/stdin");
    }
    status
}

/// Serves one session, over the standard streams.
fn serve_stdio(rt: &HostRuntime, words: &[String]) -> u8 {
    let Ok(seed) = Seed::draw(rt) else {
        return 10;
    };
    let mut source = Reading::new(rt.stdin());
    let mut sink = Writing::new(io::writer(rt));
    omosd_stdio(rt.alloc(), seed, words, &mut source, &mut sink)
}

/// Serves a workload, and prints its line on standard output. Its store is let go of.
fn serve_workload(rt: &HostRuntime, words: &[String]) -> u8 {
    let mut sink = Writing::new(io::writer(rt));
    let (status, _) = omosd_workload(rt.alloc(), words, &mut sink);
    status
}

/// Runs the command over the standard streams that the words begin with.
fn serve_streams(rt: &HostRuntime, words: &[String]) -> u8 {
    if begins_with(words, "stdio") {
        serve_stdio(rt, words)
    } else if begins_with(words, "workload") {
        serve_workload(rt, words)
    } else {
        link_once(rt, words)
    }
}

/// The first of the words is this text.
fn begins_with(words: &[String], text: &str) -> bool {
    words.first().is_some_and(|first| first.as_str() == text)
}

fn main(rt: HostRuntime) -> ExitCode {
    let status = match words_of(&rt) {
        Ok(words) if is_alone(&words, "--help") => printed(&rt, HELP),
        Ok(words) if is_alone(&words, "--version") => printed(&rt, VERSION),
        Ok(words) if begins_with(&words, "socket") => serve_socket(&rt, rt.alloc(), &words),
        Ok(words) => serve_streams(&rt, &words),
        Err(status) => status,
    };
    if let Some(text) = message(status) {
        // A line that can't be printed changes no status.
        let _ = rt.eprintln(text);
    }
    ExitCode::from(status)
}
