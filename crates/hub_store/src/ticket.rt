//! What is made ready outside the store: a publish, and a link request on its way.

ghost use Rattle.std.specs.Prelude.{◌≡◌, IfOk};

use name_tree::Snap;
use omos_base::{NoMemory, PathName, Shared};
use omos_model::Entry;
use std::alloc::Global;
use std::marker::Model;

/// A publish with the version of the namespace that it makes.
#[derive(Drop)]
pub struct ReadyPut {
    pub(crate) path: PathName,
    pub(crate) entry: Shared<Entry>,
    pub(crate) size: u32,
    pub(crate) snap: Snap,
}

impl Model for ReadyPut {
    ghost use Rattle.omos_model.specs.contracts.expr.Expr as expr;
    ghost use Rattle.std.specs.Coded.{codes};
    ghost use Rattle.std.specs.Prelude.{◌≤◌};
    ghost use Rattle.hub_store.specs.Parts.{ReadyParts};

    ghost Value = { ReadyParts };

    ghost coded = { Prim.hlevel (codes, expr.the_row.coded) };

    ghost view = { λ r. record {
      path = r.path;
      entry = r.entry;
      size = r.size;
      space = r.snap.entries;
    } };

    ghost invariant = { λ r. r.size ≤ 1048576 };
}

/// What a ticket says.
#[derive(Drop)]
struct Asking {
    seat: u32,
    number: u64,
    path: PathName,
    version: u64,
    placed: u32,
    snap: Snap,
}

impl Model for Asking {
    ghost use Rattle.omos_model.specs.contracts.expr.Expr as expr;
    ghost use Rattle.std.specs.Coded.{codes};
    ghost use Rattle.hub_store.specs.Parts.{TicketParts};

    ghost Value = { TicketParts };

    ghost coded = { Prim.hlevel (codes, expr.the_row.coded) };

    ghost view = { λ a. record {
      seat = a.seat;
      number = a.number;
      path = a.path;
      version = a.version;
      placed = a.placed;
      space = a.snap.entries;
    } };
}

/// A link request that was asked and has no answer yet. It stands on the heap, so that a reply that
/// may have one is small: a path is 255 bytes in place, and a hit has no ticket.
#[derive(Drop)]
pub struct Ticket {
    asking: Box<Asking>,
}

impl Model for Ticket {
    ghost use Rattle.omos_model.specs.contracts.expr.Expr as expr;
    ghost use Rattle.std.specs.Coded.{codes};
    ghost use Rattle.hub_store.specs.Parts.{TicketParts};

    ghost Value = { TicketParts };

    ghost coded = { Prim.hlevel (codes, expr.the_row.coded) };

    ghost view = { λ t. t.asking.value };
}

impl Ticket {
    /// The ticket of a link request on this version, which is the snapshot's.
    pub(crate) fn new(
        alloc: Global,
        seat: u32,
        number: u64,
        path: &PathName,
        version: u64,
        placed: u32,
        snap: &Snap,
    ) -> Result<Ticket, NoMemory>
        ensures { IfOk result (λ t. t ≡ record {
          seat = seat;
          number = number;
          path = path.now;
          version = version;
          placed = placed;
          space = snap.now.entries;
        }) }
    {
        let asking = Asking {
            seat,
            number,
            path: path.copy(),
            version,
            placed,
            snap: snap.copy()?,
        };
        Ok(Ticket {
            asking: Box::new(alloc, asking)?,
        })
    }

    /// Whose it is.
    pub fn seat(&self) -> u32
        ensures { result ≡ self.now.seat }
    {
        self.asking.seat
    }

    /// The request's number.
    pub fn number(&self) -> u64
        ensures { result ≡ self.now.number }
    {
        self.asking.number
    }

    /// The path that is to be linked.
    pub fn path(&self) -> &PathName
        ensures { result.now ≡ self.now.path }
    {
        &self.asking.path
    }

    /// The version at which it was asked.
    pub fn version(&self) -> u64
        ensures { result ≡ self.now.version }
    {
        self.asking.version
    }

    /// How many placements there were then.
    pub fn placed(&self) -> u32
        ensures { result ≡ self.now.placed }
    {
        self.asking.placed
    }

    /// The namespace at that version.
    pub fn snap(&self) -> &Snap
        ensures { result.now.entries ≡ self.now.space }
    {
        &self.asking.snap
    }
}
