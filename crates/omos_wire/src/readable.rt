//! Whatever is written as a reply is read back as that reply.

ghost use Rattle.std.specs.Prelude.{◌+◌, ◌*◌, ◌^◌, ◌<◌, ◌≤◌, length, map};
ghost use Rattle.std.specs.List.{AllByRecursion};
ghost use Rattle.omos_wire.specs.Answer.{IsSendable, answer_of, longest_reply};
ghost use Rattle.omos_wire.specs.Answer.{IsCodedSpan, IsReadBack, wire_span};
ghost use Rattle.omos_wire.specs.Answer as answer;

use crate::refused_head::size_of_all;
use crate::reply::Reply;
use hub_store::Counts;
use omos_model::Placement;
use refusal_lines::{Refused, row_of};

fn fits_u32(number: u32)
    ensures { number < 2 ^ 32 }
{}

fn fits_u64(number: u64)
    ensures { number < 2 ^ 64 }
{}

fn spans_fit(placements: &[Placement])
    ensures { AllByRecursion IsCodedSpan (map wire_span placements.now) }
{
    'placements: for placement in placements {
        fits_u64(placement.base);
        fits_u32(placement.pages);
    }
}

fn counts_fit(counts: &Counts)
    ensures { IsReadBack (answer.Counts counts.now) }
{
    fits_u64(counts.version);
    fits_u64(counts.paths);
    fits_u64(counts.placements);
    fits_u64(counts.asked);
    fits_u64(counts.hits);
    fits_u64(counts.stored);
    fits_u64(counts.evicted);
    fits_u64(counts.held);
    fits_u64(counts.steps);
}

fn refusal_fits(refused: &Refused)
    ensures { IsReadBack (answer.Refused refused.now) }
{
    let row = row_of(refused);
    size_of_all(&row.fields);
}

fn image_fits(version: u64, base: u64, bytes: &[u8])
    requires { 17 + length bytes.now ≤ longest_reply }
    ensures { IsReadBack (answer.Image version base bytes.now) }
{}

fn placements_fit(placements: &[Placement])
    requires { 5 + 12 * length placements.now ≤ longest_reply }
    ensures { IsReadBack (answer.Places (map wire_span placements.now)) }
{
    spans_fit(placements);
}

fn version_fits(version: u64)
    ensures { IsReadBack (answer.Published version) }
{}

fn flag_fits(held: bool)
    ensures { IsReadBack (answer.Flushed held) }
{}

/// What `write_reply` writes is the frame of a reply, which `read_reply` then reads: a law. By the
/// law `one_reply` it reads the very reply.
pub fn replies_are_read_back(reply: &Reply<'_>)
    requires { IsSendable (answer_of reply.now) }
    ensures { IsReadBack (answer_of reply.now) }
{
    match reply {
        Reply::Published(version) => version_fits(*version),
        Reply::Image {
            version,
            base,
            bytes,
        } => image_fits(*version, *base, bytes),
        Reply::Refused(refused) => refusal_fits(refused),
        Reply::Places(placements) => placements_fit(placements),
        Reply::Counts(counts) => counts_fit(counts),
        Reply::Flushed(held) => flag_fits(*held),
        Reply::Bye => {}
        Reply::NoMemory => {}
        Reply::Full => {}
        Reply::KeptFull => {}
    }
}
