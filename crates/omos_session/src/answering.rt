//! The answer to one frame.

ghost use Rattle.std.specs.Prelude.{◌≡◌};
ghost use Rattle.omos_wire.specs.Answer.{IsSendable};
ghost use Rattle.omos_wire.specs.Message.{message_of};
ghost use Rattle.omos_wire.specs.Message as message;
ghost use Rattle.omos_session.specs.inside.Parts.{Serves, ServesBy};
ghost use Rattle.omos_hub.specs.Standing.{CanCross, CanTurn};
ghost use Rattle.omos_session.specs.Talk.{FlushTold, PlacesTold, StatsTold};
ghost use Rattle.omos_session.specs.inside.Given.{answer_given};

use crate::desk::Desk;
use crate::given::Given;
use crate::linking::answer_link;
use crate::publishing::{put_object, put_text};
use hub_store::{FlushReply, PlacesReply, StatsReply};
use omos_base::PathName;
use omos_wire::Request;
use refusal_lines::Refused;
use std::alloc::Global;

fn answer_places<D: Desk>(desk: &mut D, path: &PathName) -> Given
    requires turns { CanTurn 4 (D.standing desk.old) }
    ensures serves { ServesBy D.alone (D.standing desk.old) (D.standing desk.new)
        (λ turns. let s = D.standing desk.old in
        PlacesTold s.room s.seat path.now turns (answer_given result)) }
    ensures short { IsSendable (answer_given result) }
    ensures lenders { D.lenders desk.new ≡ D.lenders desk.old }
{
    match desk.places(path) {
        PlacesReply::Places(list) => Given::Places(list),
        PlacesReply::Full => Given::Full,
        PlacesReply::NoMemory => Given::NoMemory,
    }
}

fn answer_stats<D: Desk>(desk: &mut D) -> Given
    requires turns { CanTurn 4 (D.standing desk.old) }
    ensures serves { ServesBy D.alone (D.standing desk.old) (D.standing desk.new)
        (λ turns. let s = D.standing desk.old in
        StatsTold s.room s.seat turns (answer_given result)) }
    ensures short { IsSendable (answer_given result) }
    ensures lenders { D.lenders desk.new ≡ D.lenders desk.old }
{
    match desk.stats() {
        StatsReply::Counts(counts) => Given::Counts(counts),
        StatsReply::Full => Given::Full,
    }
}

fn answer_flush<D: Desk>(desk: &mut D, path: &PathName) -> Given
    requires turns { CanTurn 4 (D.standing desk.old) }
    ensures serves { ServesBy D.alone (D.standing desk.old) (D.standing desk.new)
        (λ turns. let s = D.standing desk.old in
        FlushTold s.room s.seat path.now turns (answer_given result)) }
    ensures short { IsSendable (answer_given result) }
    ensures lenders { D.lenders desk.new ≡ D.lenders desk.old }
{
    match desk.flush(path) {
        FlushReply::Flushed(held) => Given::Flushed(held),
        FlushReply::Full => Given::Full,
    }
}

/// Answers the put of an object, if its path is one.
fn checked_object<D: Desk>(alloc: Global, desk: &mut D, path: &[u8], file: &[u8]) -> Given
    requires turns { CanTurn 4 (D.standing desk.old) }
    ensures serves { Serves D.alone (D.standing desk.old) (D.standing desk.new)
        (message.PutObject path.now file.now) (answer_given result) }
    ensures short { IsSendable (answer_given result) }
    ensures lenders { D.lenders desk.new ≡ D.lenders desk.old }
{
    match PathName::read(path) {
        Ok(path) => put_object(alloc, desk, &path, file),
        Err(fault) => Given::Refused(Refused::Path(fault)),
    }
}

/// Answers the put of a blueprint, if its path is one.
fn checked_text<D: Desk>(alloc: Global, desk: &mut D, path: &[u8], text: &[u8]) -> Given
    requires turns { CanTurn 4 (D.standing desk.old) }
    ensures serves { Serves D.alone (D.standing desk.old) (D.standing desk.new)
        (message.PutBlueprint path.now text.now) (answer_given result) }
    ensures short { IsSendable (answer_given result) }
    ensures lenders { D.lenders desk.new ≡ D.lenders desk.old }
{
    match PathName::read(path) {
        Ok(path) => put_text(alloc, desk, &path, text),
        Err(fault) => Given::Refused(Refused::Path(fault)),
    }
}

/// Answers a link, if its path is one.
fn checked_link<D: Desk>(alloc: Global, desk: &mut D, path: &[u8]) -> Given
    requires turns { CanTurn 4 (D.standing desk.old) }
    requires gate { CanCross 1 (D.standing desk.old).crossed }
    ensures serves { Serves D.alone (D.standing desk.old) (D.standing desk.new)
        (message.Link path.now) (answer_given result) }
    ensures short { IsSendable (answer_given result) }
    ensures lenders { D.lenders desk.new ≡ D.lenders desk.old }
{
    match PathName::read(path) {
        Ok(path) => answer_link(alloc, desk, &path),
        Err(fault) => Given::Refused(Refused::Path(fault)),
    }
}

/// Answers a look at placements, if its path is one.
fn checked_places<D: Desk>(desk: &mut D, path: &[u8]) -> Given
    requires turns { CanTurn 4 (D.standing desk.old) }
    ensures serves { Serves D.alone (D.standing desk.old) (D.standing desk.new)
        (message.Places path.now) (answer_given result) }
    ensures short { IsSendable (answer_given result) }
    ensures lenders { D.lenders desk.new ≡ D.lenders desk.old }
{
    match PathName::read(path) {
        Ok(path) => answer_places(desk, &path),
        Err(fault) => Given::Refused(Refused::Path(fault)),
    }
}

/// Answers a flush, if its path is one.
fn checked_flush<D: Desk>(desk: &mut D, path: &[u8]) -> Given
    requires turns { CanTurn 4 (D.standing desk.old) }
    ensures serves { Serves D.alone (D.standing desk.old) (D.standing desk.new)
        (message.Flush path.now) (answer_given result) }
    ensures short { IsSendable (answer_given result) }
    ensures lenders { D.lenders desk.new ≡ D.lenders desk.old }
{
    match PathName::read(path) {
        Ok(path) => answer_flush(desk, &path),
        Err(fault) => Given::Refused(Refused::Path(fault)),
    }
}

/// The answer to a frame, which the desk has on record. It stands apart, so that what a session
/// alone and one of many pay for it can be measured.
#[inline(never)]
pub(crate) fn answer<D: Desk>(alloc: Global, desk: &mut D, request: Request<'_>) -> Given
    requires turns { CanTurn 4 (D.standing desk.old) }
    requires gate { CanCross 1 (D.standing desk.old).crossed }
    ensures serves { Serves D.alone (D.standing desk.old) (D.standing desk.new)
        (message_of request.entry) (answer_given result) }
    ensures short { IsSendable (answer_given result) }
    ensures lenders { D.lenders desk.new ≡ D.lenders desk.old }
{
    match request {
        Request::PutObject { path, object } => checked_object(alloc, desk, path, object),
        Request::PutBlueprint { path, text } => checked_text(alloc, desk, path, text),
        Request::Link { path } => checked_link(alloc, desk, path),
        Request::Places { path } => checked_places(desk, path),
        Request::Stats => answer_stats(desk),
        Request::Flush { path } => checked_flush(desk, path),
        Request::End => Given::Bye,
    }
}
