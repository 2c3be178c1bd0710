//! Telling on standard error what a refused file is.

use crate::guess::{guess, guess_lack};
use crate::hint::{Hint, of_relocation, of_section, of_symbol};
use crate::undefined::Undefined;
use omos_adapt::RealFiles;
use omos_base::Bytes;
use omos_files::{FileBox, FileRead};
use std::alloc::Global;
use std::fs;
use std::rt::Files;

/// The most bytes that a refused object is read with: no larger file is looked into.
const LIMIT: u32 = 1_048_576;

/// What a file holds, where it is a file of at most 1 MiB: a pipe or a terminal, which may have
/// been read already, isn't read again.
fn read_again<R: Files>(rt: &R, alloc: Global, name: &str) -> Option<Bytes> {
    match fs::metadata(rt, name) {
        Ok(about) if about.is_file() => {}
        _ => return None,
    }
    match RealFiles::new(rt, alloc).read_all(name, LIMIT) {
        FileRead::Whole(bytes) => Some(bytes),
        _ => None,
    }
}

/// Prints what is known of a refused file beside the sentences of its refusal, at most one line, on
/// standard error behind the program's name: for O1 to O4 what the file seems to be; for O5, O6 and
/// O10 the section's name; for O8 the symbol's; for O11 the relocation's type and symbol; for L10
/// whether it holds code of gcc's -flto; for L11 which other names the object leaves undefined.
/// `line` is the line that was printed for it.
///
/// The file is read anew, and only where it is one that can be. What can't be printed is passed
/// over, since the output and the status say all that a program asks.
pub fn tell_file<R: Files + Eprint>(rt: &R, alloc: Global, program: &str, line: &[u8], name: &str) {
    let Ok(line) = str::from_utf8(line) else {
        return;
    };
    let Some(file) = read_again(rt, alloc, name) else {
        return;
    };
    let file = file.as_slice();
    match word_at(line, 1) {
        "O1" | "O2" | "O3" | "O4" => tell_guess(rt, program, guess(file)),
        "L10" => tell_guess(rt, program, guess_lack(file)),
        "L11" => tell_undefined(rt, program, word_at(line, 4), file),
        _ => {
            if let Some(hint) = hint_of(line, file) {
                let _ = eprintln!(rt; "{program}: {hint}");
            }
        }
    }
}

/// Prints a guess, if there is one.
fn tell_guess(rt: &impl Eprint, program: &str, guess: Option<&'static str>) {
    if let Some(text) = guess {
        let _ = eprintln!(rt; "{program}: {text}");
    }
}

/// What the refusal's section, symbol or relocation is called.
fn hint_of<'a>(line: &str, file: &'a [u8]) -> Option<Hint<'a>> {
    let first = word_at(line, 2).parse::<u32>().ok()?;
    match word_at(line, 1) {
        "O5" | "O6" | "O10" => of_section(file, first),
        "O8" => of_symbol(file, first),
        "O11" => of_relocation(file, first, word_at(line, 3).parse::<u32>().ok()?),
        _ => None,
    }
}

/// Prints which names are undefined beside the one that the refusal has.
fn tell_undefined(rt: &impl Eprint, program: &str, known: &str, file: &[u8]) {
    let others = Undefined { file, known };
    if others.count() > 0 {
        let _ = eprintln!(rt; "{program}: The object leaves {others} undefined, too.");
    }
}

/// The line's word of this number, counted from 0; the empty text where it has none.
fn word_at(line: &str, number: usize) -> &str {
    line.trim_end().split(' ').nth(number).unwrap_or("")
}
