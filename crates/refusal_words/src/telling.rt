//! Telling a line's sentences on standard error.

use crate::sentence::Sentence;
use crate::table::TABLE;

/// Prints what a line means, and what to do, each on a line of its own on standard error behind
/// the program's name. A line that has no entry in the table, as one of what was done, is passed
/// over; so is what can't be printed, since the output and the status say all that a program asks.
pub fn tell(rt: &impl Eprint, program: &str, line: &[u8]) {
    let Ok(line) = str::from_utf8(line) else {
        return;
    };
    let line = line.trim_end();
    for (key, what, cure) in &TABLE {
        if begins_with_words(line, key) {
            for pattern in [*what, *cure] {
                let sentence = Sentence { pattern, line };
                let _ = eprintln!(rt; "{program}: {sentence}");
            }
            return;
        }
    }
}

/// The line is these words, or goes on behind them with a space.
fn begins_with_words(line: &str, words: &str) -> bool {
    line.strip_prefix(words)
        .is_some_and(|rest| rest.is_empty() || rest.starts_with(' '))
}
