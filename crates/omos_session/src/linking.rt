//! A link request, from its asking to its reply.

ghost use Rattle.std.specs.Prelude.{◌≡◌, ◌+◌, ◌*◌, ◌%◌, ◌^◌, ◌≤◌, false, Ok};
ghost use Rattle.history_book.specs.Told.{is_placed};
ghost use Rattle.link_model.specs.Answer.{answer};
ghost use Rattle.hub_store.specs.Links.{MayFinish};
ghost use Rattle.hub_store.specs.Parts.{IsTicket};
ghost use Rattle.hub_store.specs.declared.reply.Outcome.TheVariants as outcome;
ghost use Rattle.omos_session.specs.inside.Parts.{Concludes, Goes, IsRight, MayMake, Makes};
ghost use Rattle.omos_session.specs.inside.Parts.{RefusesWith, ServesBy, outcome_of};
ghost use Rattle.omos_wire.specs.Answer.{IsSendable};
ghost use Rattle.omos_hub.specs.Standing.{CanCross, CanTurn};
ghost use Rattle.omos_session.specs.Talk.{LinkTold};
ghost use Rattle.omos_session.specs.inside.Given.{answer_given};
ghost use Rattle.omos_hub.specs.Calls.{PlansTicket};

use crate::desk::Desk;
use crate::given::Given;
use hub_store::{AskReply, Outcome, PlaceReply, Ticket};
use link_model::{Linked, Planned, laws};
use link_plan::{link, plan};
use omos_base::{Fault, PathName, Shared};
use omos_model::Refusal;
use refusal_lines::Refused;
use std::alloc::Global;

/// What a link request came to.
#[derive(Drop)]
pub(crate) enum Made {
    Image(Shared<Linked>),
    Refused(Shared<Refusal>),
    NoMemory,
}

fn refuse(alloc: Global, refusal: Refusal) -> Made
    ensures refused { RefusesWith refusal result }
{
    match Shared::of(alloc, refusal) {
        Ok(refusal) => Made::Refused(refusal),
        Err(_) => Made::NoMemory,
    }
}

/// The image at the place that the plan holds.
fn make_image(alloc: Global, planned: &Planned, base: u64) -> Made
    requires page { base % 4096 ≡ 0 }
    requires range { base + 4096 * planned.now.layout.pages ≤ 2 ^ 47 }
    ensures made { MayMake planned.now base result }
{
    match link(alloc, planned, base) {
        Ok(image) => match Shared::of(alloc, image) {
            Ok(image) => Made::Image(image),
            Err(_) => Made::NoMemory,
        },
        Err(Fault::Refused(refusal)) => refuse(alloc, refusal),
        Err(Fault::NoMemory) => Made::NoMemory,
    }
}

/// Places the plan and makes the image there.
fn place<D: Desk>(alloc: Global, desk: &mut D, ticket: &Ticket, planned: &Planned) -> Made
    requires turns { CanTurn 2 (D.standing desk.old) }
    requires seat { ticket.now.seat ≡ (D.standing desk.old).seat }
    requires ticket { IsTicket (D.standing desk.old).steps ticket.now }
    requires unplaced { is_placed (D.standing desk.old).steps ticket.now.number ≡ false }
    requires planned { PlansTicket ticket.now planned.now }
    ensures made { Makes D.alone (D.standing desk.old) (D.standing desk.new) ticket.now result }
    ensures lenders { D.lenders desk.new ≡ D.lenders desk.old }
{
    laws::footprints_decide();
    match desk.place(ticket, planned) {
        PlaceReply::At(base) => make_image(alloc, planned, base),
        PlaceReply::NoRoom => refuse(
            alloc,
            Refusal::NoRoom {
                pages: planned.pages(),
                lo: planned.lo(),
                hi: planned.hi(),
            },
        ),
    }
}

/// Plans the request's path on the version of its asking, and makes its image.
fn make<D: Desk>(alloc: Global, desk: &mut D, ticket: &Ticket) -> Made
    requires turns { CanTurn 2 (D.standing desk.old) }
    requires seat { ticket.now.seat ≡ (D.standing desk.old).seat }
    requires ticket { IsTicket (D.standing desk.old).steps ticket.now }
    requires unplaced { is_placed (D.standing desk.old).steps ticket.now.number ≡ false }
    ensures made { Makes D.alone (D.standing desk.old) (D.standing desk.new) ticket.now result }
    ensures lenders { D.lenders desk.new ≡ D.lenders desk.old }
{
    match plan(alloc, ticket.snap(), ticket.path()) {
        Ok(planned) => place(alloc, desk, ticket, &planned),
        Err(Fault::Refused(refusal)) => refuse(alloc, refusal),
        Err(Fault::NoMemory) => Made::NoMemory,
    }
}

/// Ends the request with its image; without a second owner of it, for want of memory.
fn conclude_image<D: Desk>(desk: &mut D, ticket: Ticket, image: Shared<Linked>) -> Given
    requires turns { CanTurn 1 (D.standing desk.old) }
    requires seat { ticket.seat ≡ (D.standing desk.old).seat }
    requires ticket { IsTicket (D.standing desk.old).steps ticket }
    requires may { MayFinish (D.standing desk.old).steps ticket (outcome.Image image) }
    requires right { answer ticket.space ticket.path image.base ≡ Ok image.bytes }
    ensures concluded { Concludes D.alone (D.standing desk.old) (D.standing desk.new)
        ticket (answer_given result) }
    ensures short { IsSendable (answer_given result) }
    ensures lenders { D.lenders desk.new ≡ D.lenders desk.old }
{
    let version = ticket.version();
    match image.twin() {
        Ok(twin) => {
            desk.finish(ticket, Outcome::Image(twin));
            Given::Image { version, image }
        }
        Err(_) => {
            desk.finish(ticket, Outcome::NoMemory);
            Given::NoMemory
        }
    }
}

/// Ends the request with its refusal.
fn conclude_refused<D: Desk>(desk: &mut D, ticket: Ticket, refusal: Shared<Refusal>) -> Given
    requires turns { CanTurn 1 (D.standing desk.old) }
    requires seat { ticket.seat ≡ (D.standing desk.old).seat }
    requires ticket { IsTicket (D.standing desk.old).steps ticket }
    requires may { MayFinish (D.standing desk.old).steps ticket (outcome.Refused refusal) }
    ensures concluded { Concludes D.alone (D.standing desk.old) (D.standing desk.new)
        ticket (answer_given result) }
    ensures lenders { D.lenders desk.new ≡ D.lenders desk.old }
{
    match refusal.twin() {
        Ok(twin) => {
            desk.finish(ticket, Outcome::Refused(twin));
            Given::Refused(Refused::Link(refusal))
        }
        Err(_) => {
            desk.finish(ticket, Outcome::NoMemory);
            Given::NoMemory
        }
    }
}

fn conclude<D: Desk>(desk: &mut D, ticket: Ticket, made: Made) -> Given
    requires turns { CanTurn 1 (D.standing desk.old) }
    requires seat { ticket.seat ≡ (D.standing desk.old).seat }
    requires ticket { IsTicket (D.standing desk.old).steps ticket }
    requires may { MayFinish (D.standing desk.old).steps ticket (outcome_of made) }
    requires right { IsRight ticket made }
    ensures concluded { Concludes D.alone (D.standing desk.old) (D.standing desk.new)
        ticket (answer_given result) }
    ensures short { IsSendable (answer_given result) }
    ensures lenders { D.lenders desk.new ≡ D.lenders desk.old }
{
    match made {
        Made::Image(image) => conclude_image(desk, ticket, image),
        Made::Refused(refusal) => conclude_refused(desk, ticket, refusal),
        Made::NoMemory => {
            desk.finish(ticket, Outcome::NoMemory);
            Given::NoMemory
        }
    }
}

/// Goes through the gate, makes the image, and ends the request.
fn go<D: Desk>(alloc: Global, desk: &mut D, ticket: Ticket) -> Given
    requires turns { CanTurn 3 (D.standing desk.old) }
    requires gate { CanCross 1 (D.standing desk.old).crossed }
    requires seat { ticket.seat ≡ (D.standing desk.old).seat }
    requires ticket { IsTicket (D.standing desk.old).steps ticket }
    requires unplaced { is_placed (D.standing desk.old).steps ticket.number ≡ false }
    ensures gone { Goes D.alone (D.standing desk.old) (D.standing desk.new)
        ticket (answer_given result) }
    ensures short { IsSendable (answer_given result) }
    ensures lenders { D.lenders desk.new ≡ D.lenders desk.old }
{
    desk.cross(ticket.number());
    let made = make(alloc, desk, &ticket);
    conclude(desk, ticket, made)
}

/// Answers a link request for a path.
pub(crate) fn answer_link<D: Desk>(alloc: Global, desk: &mut D, path: &PathName) -> Given
    requires turns { CanTurn 4 (D.standing desk.old) }
    requires gate { CanCross 1 (D.standing desk.old).crossed }
    ensures serves { ServesBy D.alone (D.standing desk.old) (D.standing desk.new)
        (λ turns. let s = D.standing desk.old in
        LinkTold s.room s.seat path.now turns (answer_given result)) }
    ensures short { IsSendable (answer_given result) }
    ensures lenders { D.lenders desk.new ≡ D.lenders desk.old }
{
    match desk.ask(path) {
        AskReply::Hit(version, image) => Given::Image { version, image },
        AskReply::Go(ticket) => go(alloc, desk, ticket),
        AskReply::Full => Given::Full,
        AskReply::NoMemory => Given::NoMemory,
    }
}
