//! A put, from its bytes to its reply.

ghost use Rattle.std.specs.Prelude.{◌≡◌, ◌*◌, ◌≤◌, length};
ghost use Rattle.omos_wire.specs.Answer.{IsSendable};
ghost use Rattle.omos_session.specs.inside.Parts.{MissTold, PublishTold, ServesBy};
ghost use Rattle.omos_hub.specs.Standing.{CanTurn};
ghost use Rattle.omos_session.specs.Talk.{FaultsObject, FaultsText, PutTold, SaysObject, SaysText};
ghost use Rattle.omos_session.specs.inside.Given.{answer_given};

use crate::desk::{Desk, Publishing};
use crate::given::Given;
use bp_tree::parse;
use fragment_read::fragment;
use hub_store::Noted;
use omos_base::{Fault, PathName, Shared};
use omos_model::{Entry, Image};
use refusal_lines::Refused;
use std::alloc::Global;

/// Records that a put found no memory.
fn miss<D: Desk>(desk: &mut D) -> Given
    requires turns { CanTurn 4 (D.standing desk.old) }
    ensures serves { ServesBy D.alone (D.standing desk.old) (D.standing desk.new)
        (λ turns. let s = D.standing desk.old in
        MissTold s.room s.seat turns (answer_given result)) }
    ensures short { IsSendable (answer_given result) }
    ensures lenders { D.lenders desk.new ≡ D.lenders desk.old }
{
    match desk.missed() {
        Noted::Done => Given::NoMemory,
        Noted::Full => Given::Full,
    }
}

/// Publishes an entry.
fn publish<D: Desk>(alloc: Global, desk: &mut D, path: &PathName, entry: Entry, size: u32) -> Given
    requires turns { CanTurn 4 (D.standing desk.old) }
    requires size { size ≤ 1048576 }
    ensures serves { ServesBy D.alone (D.standing desk.old) (D.standing desk.new)
        (λ turns. let s = D.standing desk.old in
        PublishTold s.room s.seat path.now entry size turns (answer_given result)) }
    ensures short { IsSendable (answer_given result) }
    ensures lenders { D.lenders desk.new ≡ D.lenders desk.old }
{
    let Ok(entry) = Shared::of(alloc, entry) else {
        return miss(desk);
    };
    match desk.publish(path, entry, size) {
        Publishing::Published(version) => Given::Published(version),
        Publishing::KeptFull => Given::KeptFull,
        Publishing::Full => Given::Full,
        Publishing::NoMemory => Given::NoMemory,
    }
}

/// Answers the put of an object file.
pub(crate) fn put_object<D: Desk>(
    alloc: Global,
    desk: &mut D,
    path: &PathName,
    file: &[u8],
) -> Given
    requires turns { CanTurn 4 (D.standing desk.old) }
    ensures serves { ServesBy D.alone (D.standing desk.old) (D.standing desk.new)
        (λ turns. let s = D.standing desk.old in
        PutTold (SaysObject file.now) (FaultsObject file.now)
        s.room s.seat path.now turns (answer_given result)) }
    ensures short { IsSendable (answer_given result) }
    ensures lenders { D.lenders desk.new ≡ D.lenders desk.old }
{
    match fragment(alloc, file) {
        Ok(fragment) => publish(
            alloc,
            desk,
            path,
            Entry::Object(fragment),
            file.len() as u32,
        ),
        Err(Fault::Refused(fault)) => Given::Refused(Refused::Object(fault)),
        Err(Fault::NoMemory) => miss(desk),
    }
}

/// Publishes a blueprint, whose size is 16 times that of its text.
fn publish_image<D: Desk>(
    alloc: Global,
    desk: &mut D,
    path: &PathName,
    image: Image,
    text: &[u8],
) -> Given
    requires turns { CanTurn 4 (D.standing desk.old) }
    requires size { length text.now ≤ 65536 }
    ensures serves { ServesBy D.alone (D.standing desk.old) (D.standing desk.new)
        (λ turns. let s = D.standing desk.old in
        PublishTold s.room s.seat path.now (Entry.Blueprint image) (16 * length text.now)
        turns (answer_given result)) }
    ensures short { IsSendable (answer_given result) }
    ensures lenders { D.lenders desk.new ≡ D.lenders desk.old }
{
    let size = 16 * text.len() as u32;
    publish(alloc, desk, path, Entry::Blueprint(image), size)
}

/// Answers the put of a blueprint's text.
pub(crate) fn put_text<D: Desk>(alloc: Global, desk: &mut D, path: &PathName, text: &[u8]) -> Given
    requires turns { CanTurn 4 (D.standing desk.old) }
    ensures serves { ServesBy D.alone (D.standing desk.old) (D.standing desk.new)
        (λ turns. let s = D.standing desk.old in
        PutTold (SaysText text.now) (FaultsText text.now)
        s.room s.seat path.now turns (answer_given result)) }
    ensures short { IsSendable (answer_given result) }
    ensures lenders { D.lenders desk.new ≡ D.lenders desk.old }
{
    match parse(alloc, text) {
        Ok(image) => publish_image(alloc, desk, path, image, text),
        Err(Fault::Refused(fault)) => Given::Refused(Refused::Text(fault)),
        Err(Fault::NoMemory) => miss(desk),
    }
}
