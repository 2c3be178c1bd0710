//! A workload from its command line to its line.

ghost use Rattle.std.specs.Prelude.{◌≡◌, ◌↔◌, ◌⊎◌, None, MatchOption, map, string_bytes};
ghost use Rattle.omos_outside.specs.Faults.{Rose};
ghost use Rattle.command_words.specs.Words.{workload_words};
ghost use Rattle.workload_calls.specs.Workload.{HasWorked, sent_status};

use crate::serving::serve_workload;
use command_words::workload_words;
use hub_store::Store;
use omos_base::NoMemory;
use omos_outside::{Sent, Sink, write_all};
use std::alloc::Global;

/// The status that tells whether the line was written.
fn status_of(answer: Sent) -> u8
    ensures { result ≡ sent_status answer }
{
    match answer {
        Sent::All => 0,
        Sent::Failed => 4,
    }
}

/// Serves the workload that the words `workload N` say, N from 1 to 200, as seat 1 on an empty
/// store of 64 images and 4,096 steps, and writes what its replies come to:
/// `objects N images I bytes B hits H evicted E placements L version V`.
///
/// The result is the status, and the store where it is 0 or 4: 0 all is done; 2 the words are
/// others; 4 the sink failed; 8 there was no memory, here or for a reply, and then nothing is
/// written. It waits for nobody.
pub fn omosd_workload<K: Sink>(alloc: Global, words: &[String], sink: &mut K) -> (u8, Option<Store>)
    // The words alone decide.
    ensures usage { (result.0 ≡ 2) ↔ (workload_words (map string_bytes words.now) ≡ None) }

    // Without a store nothing is written. With one, it is the store that the workload was served
    // on, and the line is of the replies.
    ensures served { MatchOption result.1
        (((result.0 ≡ 2) ⊎ (result.0 ≡ 8)) × (sink.new ≡ sink.old))
        (λ store. HasWorked result.0 (workload_words (map string_bytes words.now)) store
        (K.held sink.old) (K.held sink.new)) }

    // The sink failed in this call.
    ensures sink_failed { result.0 ≡ 4 → Rose (K.faults sink.old) (K.faults sink.new) }
{
    let Some(n) = workload_words(words) else {
        return (2, None);
    };
    match serve_workload(alloc, n) {
        Ok(work) => {
            let status = status_of(write_all(sink, work.line.as_slice()));
            (status, Some(work.store))
        }
        Err(NoMemory) => (8, None),
    }
}
