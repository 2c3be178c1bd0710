//! What a record keeps of a step.

ghost use Rattle.std.specs.Prelude.{◌≡◌, ◌+◌, ◌<◌, ◌≤◌, ◌++◌, length, vec_len, vec_capacity};
ghost use Rattle.history_book.specs.Briefs as briefs;

use crate::step::Note;
use omos_base::{PathName, Shared};
use omos_model::Entry;

/// A step, but for the bytes of its path, which stand in the record's list of bytes. A step takes
/// 32 bytes so, and no room is kept for the bytes that its path hasn't.
#[derive(Drop)]
pub(crate) enum Brief {
    Put {
        seat: u32,
        number: u64,
        entry: Shared<Entry>,
        size: u32,
        len: u8,
    },
    Missed {
        seat: u32,
        number: u64,
    },
    LookedPlaces {
        seat: u32,
        number: u64,
        len: u8,
    },
    LookedStats {
        seat: u32,
        number: u64,
    },
    Asked {
        seat: u32,
        number: u64,
        version: u64,
        hit: bool,
        len: u8,
    },
    Placed {
        seat: u32,
        number: u64,
        base: u64,
        pages: u32,
        len: u8,
    },
    Answered {
        seat: u32,
        number: u64,
        note: Note,
    },
    Evicted {
        seat: u32,
        number: u64,
        len: u8,
    },
    Stored {
        seat: u32,
        number: u64,
        version: u64,
        len: u8,
    },
    Flushed {
        seat: u32,
        number: u64,
        held: bool,
        len: u8,
    },
}

/// How many bytes a path has.
pub(crate) fn len_of(path: &PathName) -> u8
    ensures { result ≡ length path.now }
{
    path.as_bytes().len() as u8
}

/// Appends a key, if there is one.
pub(crate) fn push_key(keys: &mut Vec<u32>, key: Option<u32>)
    requires { vec_len keys.old < vec_capacity keys.old }
    ensures keys { keys.new.items ≡ keys.old.items ++ briefs.keys_of key }
    ensures len { vec_len keys.new ≤ vec_len keys.old + 1 }
    ensures room { vec_capacity keys.old ≤ vec_capacity keys.new }
{
    if let Some(key) = key {
        keys.push(key).unwrap();
    }
}
