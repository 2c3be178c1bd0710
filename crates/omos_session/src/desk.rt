//! What a session works with: a store that it has for itself, or a pass of a shared one.

ghost use Rattle.std.specs.Prelude.{◌≡◌, ◌≤◌, Bool, List, false};
ghost use Rattle.std.specs.Borrow.{GName};
ghost use Rattle.history_book.specs.Told.{is_placed};
ghost use Rattle.hub_store.specs.Links.{MayFinish};
ghost use Rattle.hub_store.specs.Parts.{IsTicket};
ghost use Rattle.omos_hub.specs.Standing.{CanCross, CanTurn, Standing};
ghost use Rattle.omos_hub.specs.Calls.{Asks, Crosses, Finishes, Flushes, Lists, Misses};
ghost use Rattle.omos_hub.specs.Calls.{PlacesAt, Publishes, CountsAtTurn, PlansTicket};

use hub_store::{
    AskReply, FlushReply, Noted, Outcome, PlaceReply, PlacesReply, StatsReply, Ticket,
};
use link_model::Planned;
use omos_base::{PathName, Shared};
pub use omos_hub::Publishing;
use omos_model::Entry;

/// A seat at a store. Each call but `cross` is one turn: what the seat's record shows may grow by
/// others' steps first, and then the call's own steps are added.
pub trait Desk {
    /// What the seat sees, and what it is told of its turns and of its gate.
    ghost standing: { Self → Standing };

    /// The references that it works through.
    ghost lenders: { Self → List GName };

    /// Nobody else adds to the record.
    ghost alone: { Bool };

    /// Publishes an entry of this size under the path.
    fn publish(&mut self, path: &PathName, entry: Shared<Entry>, size: u32) -> Publishing
        requires turn { CanTurn 1 (standing self.old) }
        requires size { size ≤ 1048576 }
        ensures turn { Publishes alone (standing self.old) (standing self.new)
            path.now entry size result }
        ensures lenders { lenders self.new ≡ lenders self.old };

    /// Records that a request found no memory.
    fn missed(&mut self) -> Noted
        requires turn { CanTurn 1 (standing self.old) }
        ensures turn { Misses alone (standing self.old) (standing self.new) result }
        ensures lenders { lenders self.new ≡ lenders self.old };

    /// Asks for the image of a path.
    fn ask(&mut self, path: &PathName) -> AskReply
        requires turn { CanTurn 1 (standing self.old) }
        ensures turn { Asks alone (standing self.old) (standing self.new) path.now result }
        ensures lenders { lenders self.new ≡ lenders self.old };

    /// Goes through the gate, where there is one, with the number of a request.
    fn cross(&mut self, number: u64)
        requires { CanCross 1 (standing self.old).crossed }
        ensures crossed { Crosses (standing self.old) (standing self.new) }
        ensures lenders { lenders self.new ≡ lenders self.old };

    /// The place of a plan.
    fn place(&mut self, ticket: &Ticket, planned: &Planned) -> PlaceReply
        requires turn { CanTurn 1 (standing self.old) }
        requires seat { ticket.now.seat ≡ (standing self.old).seat }
        requires ticket { IsTicket (standing self.old).steps ticket.now }
        requires unplaced { is_placed (standing self.old).steps ticket.now.number ≡ false }
        requires planned { PlansTicket ticket.now planned.now }
        ensures turn { PlacesAt alone (standing self.old) (standing self.new)
            ticket.now planned.now result }
        ensures lenders { lenders self.new ≡ lenders self.old };

    /// Ends a link request.
    fn finish(&mut self, ticket: Ticket, outcome: Outcome)
        requires turn { CanTurn 1 (standing self.old) }
        requires seat { ticket.seat ≡ (standing self.old).seat }
        requires ticket { IsTicket (standing self.old).steps ticket }
        requires outcome { MayFinish (standing self.old).steps ticket outcome }
        ensures turn { Finishes alone (standing self.old) (standing self.new) ticket outcome }
        ensures lenders { lenders self.new ≡ lenders self.old };

    /// Lets go of the path's image.
    fn flush(&mut self, path: &PathName) -> FlushReply
        requires turn { CanTurn 1 (standing self.old) }
        ensures turn { Flushes alone (standing self.old) (standing self.new) path.now result }
        ensures lenders { lenders self.new ≡ lenders self.old };

    /// The placements of a path.
    fn places(&mut self, path: &PathName) -> PlacesReply
        requires turn { CanTurn 1 (standing self.old) }
        ensures turn { Lists alone (standing self.old) (standing self.new) path.now result }
        ensures lenders { lenders self.new ≡ lenders self.old };

    /// The counts.
    fn stats(&mut self) -> StatsReply
        requires turn { CanTurn 1 (standing self.old) }
        ensures turn { CountsAtTurn alone (standing self.old) (standing self.new) result }
        ensures lenders { lenders self.new ≡ lenders self.old };
}
