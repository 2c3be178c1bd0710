//! A link request from its asking to its answer, by the calls of a store and of the linker.

ghost use Rattle.std.specs.Prelude.{◌≡◌, false};
ghost use Rattle.history_book.specs.Told.{is_placed};
ghost use Rattle.hub_store.specs.Parts.{IsTicket};
ghost use Rattle.link_model.specs.Plan.{Plan};
ghost use Rattle.hub_store.specs.Links.{IsPlanFor, PlaceGives, MayFinish};
ghost use Rattle.store_cases.specs.inside.Ends.{IsOutcomeOf};

use hub_store::{Outcome, PlaceReply, Store, Ticket};
use link_model::{Planned, laws};
use link_plan::{link, plan};
use omos_base::{Fault, Shared};
use omos_model::Refusal;
use std::alloc::Global;

/// The end of a link request that is refused, or finds no memory.
fn refused(alloc: Global, fault: Fault<Refusal>) -> Outcome
    ensures { IsOutcomeOf fault result }
{
    match fault {
        Fault::Refused(refusal) => match Shared::of(alloc, refusal) {
            Ok(shared) => Outcome::Refused(shared),
            Err(_) => Outcome::NoMemory,
        },
        Fault::NoMemory => Outcome::NoMemory,
    }
}

/// The call for a place, apart from its caller so that it can be measured.
#[inline(never)]
fn place(store: &mut Store, ticket: &Ticket, planned: &Planned) -> PlaceReply
    requires ticket { IsTicket store.old.steps ticket.now }
    requires unplaced { is_placed store.old.steps ticket.now.number ≡ false }
    requires planned { (plan : Plan) × IsPlanFor ticket.now planned.now plan }
    ensures { PlaceGives store.old ticket.now planned.now result store.new }
{
    store.place(ticket, planned)
}

/// How the ticket's request may end, whose plan this is: it is placed and linked. The plan is lent,
/// so that nothing of it is let go of here.
fn outcome_of_plan(alloc: Global, store: &mut Store, ticket: &Ticket, planned: &Planned) -> Outcome
    requires ticket { IsTicket store.old.steps ticket.now }
    requires unplaced { is_placed store.old.steps ticket.now.number ≡ false }
    requires planned { (plan : Plan) × IsPlanFor ticket.now planned.now plan }
    ensures ticket { IsTicket store.new.steps ticket.now }
    ensures outcome { MayFinish store.new.steps ticket.now result }
{
    laws::footprints_decide();
    let base = match place(store, ticket, planned) {
        PlaceReply::At(base) => base,
        PlaceReply::NoRoom => {
            let refusal = Refusal::NoRoom {
                pages: planned.pages(),
                lo: planned.lo(),
                hi: planned.hi(),
            };
            return refused(alloc, Fault::Refused(refusal));
        }
    };
    let linked = match link(alloc, planned, base) {
        Ok(linked) => linked,
        Err(fault) => return refused(alloc, fault),
    };
    match Shared::of(alloc, linked) {
        Ok(image) => Outcome::Image(image),
        Err(_) => Outcome::NoMemory,
    }
}

/// How the ticket's request may end: it is evaluated, placed and linked.
pub(crate) fn outcome_of(alloc: Global, store: &mut Store, ticket: &Ticket) -> Outcome
    requires ticket { IsTicket store.old.steps ticket.now }
    requires unplaced { is_placed store.old.steps ticket.now.number ≡ false }
    ensures ticket { IsTicket store.new.steps ticket.now }
    ensures outcome { MayFinish store.new.steps ticket.now result }
{
    match plan(alloc, ticket.snap(), ticket.path()) {
        Ok(planned) => outcome_of_plan(alloc, store, ticket, &planned),
        Err(fault) => refused(alloc, fault),
    }
}
