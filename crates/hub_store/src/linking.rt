//! The calls for a link request: it is asked, placed and ended. Evaluating and linking are its
//! caller's.

ghost use Rattle.std.specs.Prelude.{◌≡◌, false};
ghost use Rattle.history_book.specs.Told.{is_placed};
ghost use Rattle.history_book.specs.Legal.{MayEnd};
ghost use Rattle.link_model.specs.Plan.{Plan};
ghost use Rattle.hub_store.specs.Parts.{Appended, IsTicket, asking_of};
ghost use Rattle.hub_store.specs.Links.{AskGives, IsPlanFor, PlaceGives, MayFinish, FinishGives};
ghost use Rattle.hub_store.specs.Links.{IsPlain, ending};
ghost use Rattle.hub_store.specs.declared.reply.Outcome.TheVariants as outcome;

use crate::image::{has_as_new, is_answer};
use crate::reply::{AskReply, Outcome, PlaceReply};
use crate::store::Store;
use crate::ticket::Ticket;
use history_book::Note;
use image_cache::Item;
use link_model::{Linked, Planned};
use omos_base::{PathName, Shared};
use place_book::{Place, Placement};

impl Store {
    /// Asks for the image of a path: a current one of the cache, or else a ticket for its
    /// evaluation on the present version.
    ///
    /// A hit costs a walk over the cache's paths. Where something was published since the image was
    /// last asked for, each path of its footprint is compared with what was published by keys, and
    /// looked up only where one agrees.
    pub fn ask(&mut self, seat: u32, path: &PathName) -> AskReply
        ensures { AskGives self.old seat path.now result self.new }
    {
        if !self.history.room() {
            return AskReply::Full;
        }
        let tally = self.history.tally();
        let number = tally.requests;
        let Some(position) = self.cache.find(path, &self.snap, self.history.published()) else {
            let version = tally.version;
            let placed = self.book.len();
            let Ok(ticket) = Ticket::new(
                self.alloc, seat, number, path, version, placed, &self.snap,
            ) else {
                self.history.push_missed(seat, number);
                return AskReply::NoMemory;
            };
            self.history.push_asked(seat, number, path, version, false);
            return AskReply::Go(ticket);
        };
        let Ok(image) = self.cache.at(position).image.twin() else {
            self.history.push_missed(seat, number);
            return AskReply::NoMemory;
        };
        is_answer(image.get());
        self.history
            .push_asked(seat, number, path, tally.version, true);
        let note = Note::Image {
            base: image.get().base(),
        };
        self.history.push_answered(seat, number, note);
        self.cache.touch(position, tally.version);
        AskReply::Hit(tally.version, image)
    }

    /// The place of a link request's image: that of its path, or a new one, which is noted. It
    /// takes no memory.
    pub fn place(&mut self, ticket: &Ticket, planned: &Planned) -> PlaceReply
        requires ticket { IsTicket self.old.steps ticket.now }
        requires unplaced { is_placed self.old.steps ticket.now.number ≡ false }
        requires planned { (plan : Plan) × IsPlanFor ticket.now planned.now plan }
        ensures { PlaceGives self.old ticket.now planned.now result self.new }
    {
        let pages = planned.pages();
        let at = self
            .book
            .place_for(ticket.path(), pages, planned.lo(), planned.hi());
        match at {
            Place::Held(base) => PlaceReply::At(base),
            Place::NoRoom => PlaceReply::NoRoom,
            Place::New(base) => {
                self.book.add(Placement {
                    path: ticket.path().copy(),
                    base,
                    pages,
                });
                self.history
                    .push_placed(ticket.seat(), ticket.number(), ticket.path(), base, pages);
                PlaceReply::At(base)
            }
        }
    }

    /// Ends a link request without an image.
    fn note(&mut self, ticket: &Ticket, note: Note)
        requires ticket { IsTicket self.old.steps ticket.now }
        requires may { MayEnd self.old.steps (asking_of ticket.now) note }
        requires plain { IsPlain note }
        ensures { Appended self.old self.new
            (ending self.old.limits.cache self.old.steps ticket.now note) }
    {
        self.history
            .push_answered(ticket.seat(), ticket.number(), note);
    }

    /// Ends a link request with its image, which is stored where that is due.
    fn answer(&mut self, ticket: &Ticket, image: Shared<Linked>)
        requires ticket { IsTicket self.old.steps ticket.now }
        requires image { MayFinish self.old.steps ticket.now (outcome.Image image) }
        ensures { FinishGives self.old ticket.now (outcome.Image image) self.new }
    {
        let seat = ticket.seat();
        let number = ticket.number();
        let version = ticket.version();
        is_answer(image.get());
        let note = Note::Image {
            base: image.get().base(),
        };
        self.history.push_answered(seat, number, note);
        if has_as_new(&self.cache, ticket.path(), version) {
            return;
        }
        let item = Item {
            number,
            version,
            current_at: version,
            image,
        };
        if let Some(path) = self.cache.store(item) {
            self.history.push_evicted(seat, number, &path);
            self.history
                .push_stored(seat, number, ticket.path(), version);
            return;
        }
        self.history
            .push_stored(seat, number, ticket.path(), version);
    }

    /// Ends a link request. Its image is stored unless one as new is held; in a full cache the one
    /// that wasn't used for longest goes for it. It takes no memory.
    pub fn finish(&mut self, ticket: Ticket, outcome: Outcome)
        requires ticket { IsTicket self.old.steps ticket }
        requires outcome { MayFinish self.old.steps ticket outcome }
        ensures { FinishGives self.old ticket outcome self.new }
    {
        match outcome {
            Outcome::Image(image) => self.answer(&ticket, image),
            Outcome::Refused(refusal) => self.note(&ticket, Note::Refused(refusal)),
            Outcome::NoMemory => self.note(&ticket, Note::NoMemory),
            Outcome::Replayed => self.note(&ticket, Note::Replayed),
        }
    }
}
