//! `omos`, the client of the linker server. It hands the words of the command line, a connection,
//! the files and standard output to the top call of the crate `omos_client`.
#![tactic(auto)]

mod help;

use crate::help::{HELP, USAGE, VERSION};
use command_words::{is_alone, words_of};
use file_hints::tell_file;
use omos_adapt::{RealFiles, Writing, connect};
use omos_client::{client, client_words};
use refusal_words::{Noting, tell};
use std::io;
use std::process::ExitCode;

/// Prints a text that was asked for on standard output.
fn printed(rt: &impl Print, text: &str) -> u8 {
    match rt.println(text) {
        Ok(()) => 0,
        Err(_) => 11,
    }
}

/// What standard error says beside a status.
fn message(status: u8) -> Option<&'static str> {
    match status {
        2 => Some(USAGE),
        3 => Some("omos: the server can't be read from"),
        4 => Some("omos: the server can't be written to"),
        5 => Some("omos: the server's answer is no reply to this request"),
        6 => Some("omos: a file can't be read or written"),
        7 => Some("omos: the server went away before it had answered"),
        8 => Some("omos: no memory"),
        9 => Some("omos: no server"),
        10 => Some("omos: the file has more than 2,000,000 bytes"),
        11 => Some("omos: standard output can't be written"),
        _ => None,
    }
}

/// Asks the server at the socket that the words begin with; a refusal, or that the server had no
/// room, is told on standard error.
fn ask(rt: &HostRuntime, words: &[String]) -> u8 {
    if !client_words(words) || words.is_empty() {
        return 2;
    }
    let Ok((mut from, mut to)) = connect(rt, words[0].as_str()) else {
        return 9;
    };
    let alloc = rt.alloc();
    let mut files = RealFiles::new(rt, alloc);
    let mut out = Noting::new(Writing::new(io::writer(rt)));
    let status = client(alloc, words, &mut from, &mut to, &mut files, &mut out);
    if status == 1 || status == 12 {
        tell(rt, "omos", out.noted());
        if words.len() == 4 && words[1].as_str() == "put" {
            tell_file(rt, alloc, "omos", out.noted(), words[3].as_str());
        }
    }
    status
}

fn run(rt: &HostRuntime) -> u8 {
    match words_of(rt) {
        Ok(words) if is_alone(&words, "--help") => printed(rt, HELP),
        Ok(words) if is_alone(&words, "--version") => printed(rt, VERSION),
        Ok(words) => ask(rt, &words),
        Err(status) => status,
    }
}

fn main(rt: HostRuntime) -> ExitCode {
    let status = run(&rt);
    if let Some(text) = message(status) {
        // A line that can't be printed changes no status.
        let _ = rt.eprintln(text);
    }
    ExitCode::from(status)
}
