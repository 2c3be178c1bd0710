//! The words of the server's commands.

ghost use Rattle.std.specs.Prelude.{◌≡◌, ◌≤◌, IfSome, map, string_bytes};
ghost use Rattle.command_words.specs.Words.{AreWithin, is_word, count_said, limits_said, socket_of};
ghost use Rattle.command_words.specs.Words.{socket_numbers, socket_words, stdio_limits};
ghost use Rattle.command_words.specs.Words.{stdio_words};
ghost use Rattle.command_words.specs.Words.{workload_count, workload_words};

use crate::number::number_of;
use omos_base::Limits;

/// What the words `socket PATH WORKERS SESSIONS CACHE STEPS` say but for the path.
#[derive(Clone, Copy, Debug, PartialEq, Eq)]
pub struct SocketWords {
    /// How many workers serve, 1 to 16.
    pub workers: u32,
    /// How many sessions are served in all, 1 to 1,000,000.
    pub sessions: u32,
    /// How many images the cache may hold, 1 to 64.
    pub cache: u32,
    /// How many steps the record may hold, 16 to 65,536.
    pub steps: u32,
}

/// The word is this text.
fn is_word(word: &str, text: &str) -> bool
    ensures { result ≡ is_word word.now text.now }
{
    word == text
}

/// The limits that two words say.
fn limits_of(cache: &str, steps: &str) -> Option<Limits>
    ensures { result ≡ limits_said cache.now steps.now }
{
    let cache = number_of(cache.as_bytes())?;
    let steps = number_of(steps.as_bytes())?;
    Limits::of(cache, steps)
}

/// The count that a word says, if it lies from 1 to so much.
fn count_of(word: &str, most: u32) -> Option<u32>
    ensures said { result ≡ count_said most word.now }
    ensures within { IfSome result (λ n. (1 ≤ n) × (n ≤ most)) }
{
    let count = number_of(word.as_bytes())?;
    if 1 <= count && count <= most {
        Some(count)
    } else {
        None
    }
}

/// The limits of `stdio CACHE STEPS`.
fn stdio_limits(command: &str, cache: &str, steps: &str) -> Option<Limits>
    ensures { result ≡ stdio_limits command.now cache.now steps.now }
{
    if is_word(command, "stdio") {
        limits_of(cache, steps)
    } else {
        None
    }
}

/// The count of `workload N`.
fn workload_count(command: &str, count: &str) -> Option<u32>
    ensures { result ≡ workload_count command.now count.now }
{
    if is_word(command, "workload") {
        count_of(count, 200)
    } else {
        None
    }
}

/// The numbers of `WORKERS SESSIONS CACHE STEPS`.
fn socket_numbers(workers: &str, sessions: &str, cache: &str, steps: &str) -> Option<SocketWords>
    ensures said { result ≡ socket_numbers workers.now sessions.now cache.now steps.now }
    ensures within { IfSome result AreWithin }
{
    let workers = count_of(workers, 16)?;
    let sessions = count_of(sessions, 1_000_000)?;
    let limits = limits_of(cache, steps)?;
    Some(SocketWords {
        workers,
        sessions,
        cache: limits.cache(),
        steps: limits.steps(),
    })
}

/// The numbers of `socket PATH WORKERS SESSIONS CACHE STEPS`.
fn socket_of(
    command: &str,
    path: &str,
    workers: &str,
    sessions: &str,
    cache: &str,
    steps: &str,
) -> Option<SocketWords>
    ensures said { result
        ≡ socket_of command.now path.now workers.now sessions.now cache.now steps.now }
    ensures within { IfSome result AreWithin }
{
    if is_word(command, "socket") && !path.is_empty() {
        socket_numbers(workers, sessions, cache, steps)
    } else {
        None
    }
}

/// The limits that the words `stdio CACHE STEPS` say. None where the words are others, or a number
/// is out of its range.
pub fn stdio_words(words: &[String]) -> Option<Limits>
    ensures { result ≡ stdio_words (map string_bytes words.now) }
{
    if words.len() == 3 {
        stdio_limits(&words[0], &words[1], &words[2])
    } else {
        None
    }
}

/// The number that the words `workload N` say, 1 to 200. None where the words are others.
pub fn workload_words(words: &[String]) -> Option<u32>
    ensures { result ≡ workload_words (map string_bytes words.now) }
{
    if words.len() == 2 {
        workload_count(&words[0], &words[1])
    } else {
        None
    }
}

/// What the words `socket PATH WORKERS SESSIONS CACHE STEPS` say. None where the words are others,
/// the path is empty, or a number is out of its range.
pub fn socket_words(words: &[String]) -> Option<SocketWords>
    ensures said { result ≡ socket_words (map string_bytes words.now) }
    ensures within { IfSome result AreWithin }
{
    if words.len() == 6 {
        socket_of(
            &words[0], &words[1], &words[2], &words[3], &words[4], &words[5],
        )
    } else {
        None
    }
}
