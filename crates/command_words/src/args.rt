//! The words that a program was started with.

ghost use Rattle.std.specs.Prelude.{◌≡◌, map, string_bytes};
ghost use Rattle.command_words.specs.Words.{is_alone};

use std::env;
use std::io::ErrorKind;
use std::rt::Env;

/// The words without the program's name. The error is the status: 8 where there is no memory, and
/// 2 where a word isn't UTF-8, since such words match nothing.
pub fn words_of<R: Env + AllocGlobal>(rt: &R) -> Result<Vec<String>, u8> {
    let all = match env::args(rt) {
        Ok(all) => all,
        Err(error) if error.kind() == ErrorKind::OutOfMemory => return Err(8),
        Err(_) => return Err(2),
    };
    let mut words = Vec::new(rt.alloc());
    for word in all.skip(1) {
        if words.push(word).is_err() {
            return Err(8);
        }
    }
    Ok(words)
}

/// The words are this one word alone.
pub fn is_alone(words: &[String], text: &str) -> bool
    ensures { result ≡ is_alone (map string_bytes words.now) text.now }
{
    words.len() == 1 && words[0].as_str() == text
}
