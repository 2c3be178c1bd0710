//! A row of the table, and what a store answers to it.

ghost use Rattle.hub_store.specs.Links.{AskGives};

use crate::entry::{entry_of, path_of};
use crate::link::outcome_of;
use anyhow::{Context, Result, bail};
use hub_store::{AskReply, FlushReply, Outcome, PlacesReply, PutReply, StatsReply, Store};
use link_model::Linked;
use omos_base::{PathName, Shared};
use omos_model::{Entry, Refusal};
use place_book::Placement;
use std::alloc::Global;

const SEAT: u32 = 1;

/// Publishes an entry of this size: `published VERSION`, `kept full` or `full`.
fn put(
    alloc: Global,
    store: &mut Store,
    path: &str,
    entry: Shared<Entry>,
    size: u32,
) -> Result<String> {
    if size > 1_048_576 {
        bail!("the size {size}");
    }
    let ready = store.ready_put(&path_of(path)?, entry, size)?;
    Ok(match store.put(SEAT, ready) {
        PutReply::Published(version) => format!(in alloc; "published {version}")?,
        PutReply::KeptFull => format!(in alloc; "kept full")?,
        PutReply::Full => format!(in alloc; "full")?,
    })
}

/// `put SIZE PATH CONTENT`
fn put_row(rt: &HostRuntime, store: &mut Store, rest: &str) -> Result<String> {
    let (size, rest) = rest.split_once(' ').context("a size")?;
    let (path, content) = rest.split_once(' ').context("a path")?;
    let entry = Shared::of(rt.alloc(), entry_of(rt, content)?)?;
    put(rt.alloc(), store, path, entry, size.parse()?)
}

/// `puts COUNT SIZE PATH CONTENT`: the same so many times. The answer is the last one's.
fn puts_row(rt: &HostRuntime, store: &mut Store, rest: &str) -> Result<String> {
    let (count, rest) = rest.split_once(' ').context("a count")?;
    let count: u32 = count.parse()?;
    for _ in 1..count {
        put_row(rt, store, rest)?;
    }
    put_row(rt, store, rest)
}

/// `WORD VERSION BASE BYTES`
fn image(alloc: Global, word: &str, version: u64, image: &Linked) -> Result<String> {
    let (base, bytes) = (image.base(), image.bytes().len());
    Ok(format!(in alloc; "{word} {version} {base:#x} {bytes}")?)
}

/// What an evaluated link request is answered.
fn ended(alloc: Global, version: u64, outcome: &Outcome) -> Result<String> {
    match outcome {
        Outcome::Image(linked) => image(alloc, "image", version, linked.get()),
        Outcome::Refused(refusal) => match refusal.get() {
            Refusal::NoRoom { pages, lo, hi } => Ok(format!(in alloc; "L12 {pages} {lo} {hi}")?),
            _ => Ok(format!(in alloc; "refused")?),
        },
        _ => bail!("no memory"),
    }
}

/// The call that asks, apart from its caller so that it can be measured. So are those below.
#[inline(never)]
fn ask(store: &mut Store, path: &PathName) -> AskReply
    ensures { AskGives store.old 1 path.now result store.new }
{
    store.ask(SEAT, path)
}

#[inline(never)]
fn looked(store: &mut Store) -> StatsReply {
    store.stats(SEAT)
}

#[inline(never)]
fn placed(store: &mut Store, path: &PathName) -> PlacesReply {
    store.places(SEAT, path)
}

/// `link PATH`: `hit ..` out of the cache, else `image ..` or why there is none.
fn link_row(alloc: Global, store: &mut Store, path: &str) -> Result<String> {
    match ask(store, &path_of(path)?) {
        AskReply::Hit(version, linked) => image(alloc, "hit", version, linked.get()),
        AskReply::Go(ticket) => {
            let version = ticket.version();
            let outcome = outcome_of(alloc, store, &ticket);
            let answer = ended(alloc, version, &outcome);
            store.finish(ticket, outcome);
            answer
        }
        AskReply::Full => Ok(format!(in alloc; "full")?),
        AskReply::NoMemory => bail!("no memory"),
    }
}

/// `flush PATH`: whether its image was held.
fn flush_row(alloc: Global, store: &mut Store, path: &str) -> Result<String> {
    Ok(match store.flush(SEAT, &path_of(path)?) {
        FlushReply::Flushed(held) => format!(in alloc; "flushed {held}")?,
        FlushReply::Full => format!(in alloc; "full")?,
    })
}

/// The bases and the pages of placements.
fn places(alloc: Global, placements: &[Placement]) -> Result<String> {
    let mut text = format!(in alloc; "places")?;
    for placement in placements {
        let (base, pages) = (placement.base, placement.pages);
        text = format!(in alloc; "{text} {base:#x} {pages}")?;
    }
    Ok(text)
}

/// `places PATH`
fn places_row(alloc: Global, store: &mut Store, path: &str) -> Result<String> {
    match placed(store, &path_of(path)?) {
        PlacesReply::Places(found) => places(alloc, found.as_slice()),
        PlacesReply::Full => Ok(format!(in alloc; "full")?),
        PlacesReply::NoMemory => bail!("no memory"),
    }
}

/// `stats`: the nine counts, in the order of their fields.
fn stats_row(alloc: Global, store: &mut Store) -> Result<String> {
    match looked(store) {
        StatsReply::Counts(c) => {
            let (version, paths, placements) = (c.version, c.paths, c.placements);
            let (asked, hits, stored) = (c.asked, c.hits, c.stored);
            let (evicted, held, steps) = (c.evicted, c.held, c.steps);
            Ok(format!(in alloc;
                "{version} {paths} {placements} {asked} {hits} {stored} {evicted} {held} {steps}"
            )?)
        }
        StatsReply::Full => Ok(format!(in alloc; "full")?),
    }
}

/// The answer to a row.
pub(crate) fn answer_of(rt: &HostRuntime, store: &mut Store, row: &str) -> Result<String> {
    let (word, rest) = row.split_once(' ').unwrap_or((row, ""));
    match word {
        "put" => put_row(rt, store, rest),
        "puts" => puts_row(rt, store, rest),
        "link" => link_row(rt.alloc(), store, rest),
        "flush" => flush_row(rt.alloc(), store, rest),
        "places" => places_row(rt.alloc(), store, rest),
        "stats" => stats_row(rt.alloc(), store),
        _ => bail!("the word {word}"),
    }
}
